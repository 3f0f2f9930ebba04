//! Lines of searches that are read.
ghost use Rattle.std.specs.Prelude.{◌≡◌};
ghost use Rattle.rtmfp_script.specs.Lines.{seek_for, seek_of, unseek_of};

use crate::address::addresses;
use crate::bytes::service;
use crate::fields::{name, number32, split};
use crate::line::{CallLine, Candidates, ScriptLine};
use rtmfp_text::Name;

#[tactic(auto, unfolding(crate::specs::Lines::seek_of))]
pub(crate) fn read_seek(rest: &[u8]) -> Option<ScriptLine>
    ensures { result ≡ seek_of rest.now }
{
    let (first, rest) = split(b' ', rest)?;
    seek_for(name(first)?, rest)
}

/// The service that an end searches for, and the addresses.
#[tactic(auto, unfolding(crate::specs::Lines::seek_for))]
fn seek_for(name: Name, rest: &[u8]) -> Option<ScriptLine>
    ensures { result ≡ seek_for name rest.now }
{
    match split(b' ', rest) {
        Some((first, rest)) => Some(ScriptLine::Call {
            name,
            call: CallLine::Seek {
                service: service(first)?,
                addresses: addresses(rest)?,
            },
        }),
        None => Some(ScriptLine::Call {
            name,
            call: CallLine::Seek {
                service: service(rest)?,
                addresses: Candidates::new(),
            },
        }),
    }
}

#[tactic(auto, unfolding(crate::specs::Lines::unseek_of))]
pub(crate) fn read_unseek(rest: &[u8]) -> Option<ScriptLine>
    ensures { result ≡ unseek_of rest.now }
{
    let (first, rest) = split(b' ', rest)?;
    Some(ScriptLine::Call {
        name: name(first)?,
        call: CallLine::Unseek {
            near: number32(rest)?,
        },
    })
}
