ghost use Rattle.std.specs.Prelude.{◌≡◌, ℕ, ◌+◌, ◌<◌, ◌≤◌, ◌↔◌, List, length, take, drop, Option, Some, None, Ok, Err, IfOk};
ghost use Rattle.std.specs.Iterator.{YieldsFirstBy, item_count};
ghost use Rattle.rtmfp_forms.specs.declared.fault.FormFault.{FormFault};
ghost use Rattle.rtmfp_forms.specs.Options.{OptionParts, OptionsSpell, HasFault, Lists};
ghost use Rattle.rtmfp_forms.specs.OptionReading.{option_parts, Shows, number_of, piece_of, number_then, counted_then, piece_then, options_then};

use crate::fault::FormFault;
use rtmfp_vlu::{VluFault, read_vlu};
use std::marker::Model;

/// An option (RFC 7016 section 2.1.3), as a part of the bytes that it was read from.
#[derive(Clone, Copy, Debug, PartialEq, Eq)]
pub struct OptionView<'a> {
    pub kind: u64,
    pub value: &'a [u8],
}

/// The options of a list that was checked, one after another, as parts of the bytes that it was
/// read from.
#[derive(Drop)]
pub struct Options<'a> {
    rest: &'a [u8],
}

impl<'a> Model for Options<'a> {
    ghost use Rattle.std.specs.Prelude.{List};
    ghost use Rattle.rtmfp_forms.specs.Options.{OptionParts, OptionsSpell};
    ghost use Rattle.rtmfp_forms.specs.OptionReading.{options_in};

    ghost Value = { List OptionParts };

    ghost view = { λ o. options_in o.rest.now };

    ghost invariant = { λ o. OptionsSpell (options_in o.rest.now) o.rest.now };
}

impl<'a> Options<'a> {
    /// The same options again, from the one that is next here.
    pub fn iter(&self) -> Options<'a>
        ensures { result ≡ self.now }
    {
        Options { rest: self.rest }
    }

    /// The bytes that spell these options, as they were read.
    pub fn bytes(&self) -> &'a [u8]
        ensures { OptionsSpell self.now result.now }
    {
        self.rest
    }
}

impl<'a> Iterator for Options<'a> {
    type Item = OptionView<'a>;

    ghost next_gives = { YieldsFirstBy option_parts (λ s. s) };

    ghost remaining = { item_count (λ s. s) };

    fn next(&mut self) -> Option<OptionView<'a>> {
        match piece(self.rest) {
            Ok((Some(option), after)) => {
                self.rest = after;
                Some(option)
            }
            Ok((None, _)) => None,
            Err(_) => None,
        }
    }
}

/// Reads the options that the bytes begin with, up to the marker, and the number of bytes that they
/// take, the marker included.
pub fn read_options(bytes: &[u8]) -> Result<(Options<'_>, usize), FormFault>
    // What is read stands there.
    ensures ok { IfOk result (λ found. (found.1 ≤ length bytes.now) ×
        OptionsSpell found.0 (take found.1 bytes.now)) }
    // What stands there is read.
    ensures complete { (os : List OptionParts) (n : ℕ) → n ≤ length bytes.now →
        OptionsSpell os (take n bytes.now) → result ≡ Ok (os, n) }

    // Each fault is the first one from the left.
    ensures faults { (fault : FormFault) → (result ≡ Err fault) ↔ HasFault fault bytes.now }

    // All of this as one function.
    ensures exact { Shows (λ found. (found.0, drop found.1 bytes.now)) result
        (options_then bytes.now) }
{
    listed(bytes)
}

fn listed(bytes: &[u8]) -> Result<(Options<'_>, usize), FormFault>
    ensures { Lists bytes.now result }
{
    let mut rest = bytes;
    loop {
        match piece(rest)? {
            (Some(_), after) => rest = after,
            (None, after) => {
                let used = bytes.len() - after.len();
                let rest = &bytes[..used];
                return Ok((Options { rest }, used));
            }
        }
    }
}

/// A number in front, and the bytes after it.
#[tactic(auto, unfolding(crate::specs::OptionReading::number_then))]
fn number(bytes: &[u8]) -> Result<(u64, &[u8]), FormFault>
    ensures { Shows number_of result (number_then bytes.now) }
{
    match read_vlu(bytes) {
        Ok((value, used)) => Ok((value, &bytes[used..])),
        Err(VluFault::Short) => Err(FormFault::Short),
        Err(VluFault::Large) => Err(FormFault::Large),
    }
}

/// The option that fills so many bytes, and the bytes after it.
#[tactic(auto, unfolding(crate::specs::OptionReading::counted_then))]
fn counted(size: u64, bytes: &[u8]) -> Result<(Option<OptionView<'_>>, &[u8]), FormFault>
    ensures { Shows piece_of result (counted_then size bytes.now) }
{
    let there = size.min(bytes.len() as u64) as usize;
    let (kind, value) = number(&bytes[..there])?;
    if (bytes.len() as u64) < size {
        return Err(FormFault::Short);
    }
    Ok((Some(OptionView { kind, value }), &bytes[there..]))
}

/// The option or the marker in front, and the bytes after it.
#[tactic(auto, unfolding(crate::specs::OptionReading::piece_then))]
fn piece(bytes: &[u8]) -> Result<(Option<OptionView<'_>>, &[u8]), FormFault>
    ensures { Shows piece_of result (piece_then bytes.now) }
{
    if bytes.is_empty() {
        return Err(FormFault::NoMarker);
    }
    let (size, after) = number(bytes)?;
    if size == 0 {
        return Ok((None, after));
    }
    counted(size, after)
}
