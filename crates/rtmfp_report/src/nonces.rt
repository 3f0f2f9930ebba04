//! The text of nonces.
ghost use Rattle.std.specs.Prelude.{◌≡◌, ◌++◌, OnOk};
ghost use Rattle.rtmfp_report.specs.NonceText.{nonce_text, without_zeros};

use rtmfp_text::Text;
use std::alloc::AllocError;

/// Adds a nonce as one hexadecimal number, without zeros in front.
#[tactic(auto, unfolding(crate::specs::NonceText::nonce_text))]
pub(crate) fn push_nonce(nonce: &[u8; 16], text: &mut Text) -> Result<(), AllocError>
    ensures { OnOk result (text.new ≡ text.old ++ nonce_text nonce.now) }
{
    let mut digits = [0; 32];
    // There are two digits for each byte, so nothing is refused.
    let _ = hex::encode_to_slice(nonce, &mut digits);
    push_without_zeros(&digits, text)
}

/// Adds digits without the zeros that stand in front, and one zero where no other digit is there.
fn push_without_zeros(digits: &[u8], text: &mut Text) -> Result<(), AllocError>
    ensures { OnOk result (text.new ≡ text.old ++ without_zeros digits.now) }
{
    let mut rest = digits;
    while let [b'0', others @ ..] = rest {
        rest = others;
    }
    match rest {
        [] => text.push("0"),
        _ => text.push_plain(rest),
    }
}
