//! The names of chunks.
ghost use Rattle.std.specs.Prelude.{◌≡◌};
ghost use Rattle.rtmfp_text.specs.KindText.{kind_text};

use rtmfp_chunks::kinds;
use rtmfp_data_chunks::kinds as flow_kinds;

/// The name of the chunks of this type, or nothing where no chunk has it.
#[tactic(auto, unfolding(crate::specs::KindText::kind_text))]
pub fn kind_name(kind: u8) -> &'static str
    ensures { result.now ≡ kind_text kind }
{
    match kind {
        kinds::IHELLO => "ihello",
        kinds::FIHELLO => "fihello",
        kinds::RHELLO => "rhello",
        kinds::REDIRECT => "redirect",
        kinds::COOKIE_CHANGE => "cookiechange",
        kinds::IIKEYING => "iikeying",
        kinds::RIKEYING => "rikeying",
        kinds::PING => "ping",
        kinds::PING_REPLY => "pingreply",
        kinds::CLOSE => "close",
        kinds::CLOSE_ACK => "closeack",
        kinds::FRAGMENT => "fragment",
        flow_kinds::DATA => "data",
        flow_kinds::NEXT => "next",
        flow_kinds::PROBE => "probe",
        flow_kinds::ACK_BITMAP => "ackbits",
        flow_kinds::ACK_RANGES => "ackranges",
        flow_kinds::EXCEPTION => "exception",
        _ => "",
    }
}
