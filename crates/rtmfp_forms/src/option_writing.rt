ghost use Rattle.std.specs.Prelude.{◌≡◌, ◌+◌, ◌^◌, ◌<◌, ◌≤◌, ◌↔◌, ◌++◌, length, OnOk, OnErr, IsErr};
ghost use Rattle.rtmfp_forms.specs.Options.{OptionsSpell, counted_bytes, option_bytes, options_bytes};
ghost use Rattle.rtmfp_forms.specs.OptionReading.{option_parts};
ghost use Rattle.rtmfp_forms.specs.Outgoing.{packet_limit};

use crate::options::{OptionView, Options};
use crate::outgoing::{NoRoom, Outgoing};
use rtmfp_vlu::vlu_len;

/// The length of the options' shortest spelling, the marker included.
pub fn options_len(options: &Options<'_>) -> usize
    ensures length { result ≡ length (options_bytes options.now) }
    ensures fits { result < 2 ^ 63 }
    ensures spells { OptionsSpell options.now (options_bytes options.now) }
{
    // No longer than what was read.
    let _bytes = options.bytes();
    let mut len = 1;
    for option in options.iter() {
        len += option_len(&option);
    }
    len
}

/// Puts the options' shortest spelling at the end, the marker included, all or nothing.
pub fn write_options(options: &Options<'_>, out: &mut Outgoing) -> Result<(), NoRoom>
    ensures ok { OnOk result (out.new ≡ out.old ++ options_bytes options.now) }
    ensures no_room { IsErr result ↔ (packet_limit
        < length out.old + length (options_bytes options.now)) }
    ensures err { OnErr result (out.new ≡ out.old) }

    // What is written reads as the same options.
    ensures spells { OptionsSpell options.now (options_bytes options.now) }
{
    if options_len(options) > out.room() {
        return Err(NoRoom);
    }
    append_options(options, out);
    Ok(())
}

/// Puts the options' shortest spelling at the end, for which there is room.
pub fn append_options(options: &Options<'_>, out: &mut Outgoing)
    requires { length out.old + length (options_bytes options.now) ≤ packet_limit }
    ensures { out.new ≡ out.old ++ options_bytes options.now }
{
    for option in options.iter() {
        append_option(&option, out);
    }
    out.append_vlu(0);
}

/// The length of an option's kind and value.
fn counted_len(option: &OptionView<'_>) -> usize
    ensures length { result ≡ length (counted_bytes (option_parts option.now)) }
    ensures within { result ≤ length option.now.value.now + 10 }
{
    vlu_len(option.kind) + option.value.len()
}

fn option_len(option: &OptionView<'_>) -> usize
    ensures { result ≡ length (option_bytes (option_parts option.now)) }
{
    let counted = counted_len(option);
    vlu_len(counted as u64) + counted
}

fn append_option(option: &OptionView<'_>, out: &mut Outgoing)
    requires { length out.old + length (option_bytes (option_parts option.now)) ≤ packet_limit }
    ensures { out.new ≡ out.old ++ option_bytes (option_parts option.now) }
{
    out.append_vlu(counted_len(option) as u64);
    out.append_vlu(option.kind);
    out.append(option.value);
}
