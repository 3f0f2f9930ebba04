//! What the options of a user data chunk tell of its flow (RFC 7016 section 2.3.11.1).

ghost use Rattle.std.specs.Prelude.{◌≡◌};
ghost use Rattle.std.specs.Option.{option_map};
ghost use Rattle.rtmfp_data_chunks.specs.FlowOptions.{metadata_in, all_known};
ghost use Rattle.session_flows.specs.Told.{options_of, first_byte};

use rtmfp_data_chunks::{all_known, metadata_in};
use rtmfp_forms::Options;

/// The first byte of the metadata that a chunk tells, 0 where there is none in it. None where the
/// chunk tells no metadata.
pub fn told_metadata(options: &Option<Options<'_>>) -> Option<u8>
    ensures { result ≡ option_map first_byte (metadata_in (options_of options.now)) }
{
    let metadata = metadata_in(options.as_ref()?)?;
    Some(first_byte(metadata))
}

fn first_byte(bytes: &[u8]) -> u8
    ensures { result ≡ first_byte bytes.now }
{
    match bytes {
        [first, ..] => *first,
        [] => 0,
    }
}

/// Whether each flow that a chunk is associated with is one of so many.
pub fn tells_known(flows: u64, options: &Option<Options<'_>>) -> bool
    ensures { result ≡ all_known flows (options_of options.now) }
{
    match options {
        Some(options) => all_known(options, flows),
        None => true,
    }
}
