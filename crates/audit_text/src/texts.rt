//! Words that are added to a text, each behind a space.
ghost use Rattle.std.specs.Prelude.{◌≡◌, ◌++◌, codes, decimal, OnOk};
ghost use Rattle.hex.specs.Hex.{encode_lower};
ghost use Rattle.rtmfp_text.specs.AddressText.{address_text};
ghost use Rattle.rtmfp_text.specs.Words.{bytes_text};
ghost use Rattle.audit_text.specs.Grammar.{sender_text, why_text};

use glare_core::Why;
use identity::{Certificate, ServiceName};
use rtmfp_forms::Address;
use rtmfp_text::{Name, Text, push_address};
use std::alloc::AllocError;

/// Adds a space and the name of an end.
pub(crate) fn push_name(name: &Name, text: &mut Text) -> Result<(), AllocError>
    ensures { OnOk result (text.new ≡ text.old ++ (codes " " ++ name.now)) }
{
    text.push(" ")?;
    text.push_plain(name.bytes())?;
    Ok(())
}

/// Adds a space and a number.
pub(crate) fn push_number(number: u64, text: &mut Text) -> Result<(), AllocError>
    ensures { OnOk result (text.new ≡ text.old ++ (codes " " ++ decimal number)) }
{
    text.push_number_field(" ", number)
}

/// Adds a space and a number of 32 bits.
pub(crate) fn push_number32(number: u32, text: &mut Text) -> Result<(), AllocError>
    ensures { OnOk result (text.new ≡ text.old ++ (codes " " ++ decimal number)) }
{
    push_number(u64::from(number), text)
}

/// Adds a space and bytes in digits.
pub(crate) fn push_digits(bytes: &[u8], text: &mut Text) -> Result<(), AllocError>
    ensures { OnOk result (text.new ≡ text.old ++ (codes " " ++ encode_lower bytes.now)) }
{
    text.push(" ")?;
    text.push_hex(bytes)?;
    Ok(())
}

/// Adds a space and bytes in digits, with a hyphen for none.
pub(crate) fn push_bytes(bytes: &[u8], text: &mut Text) -> Result<(), AllocError>
    ensures { OnOk result (text.new ≡ text.old ++ (codes " " ++ bytes_text bytes.now)) }
{
    text.push_field(" ", bytes)
}

/// Adds a space and an address.
pub(crate) fn push_place(address: &Address, text: &mut Text) -> Result<(), AllocError>
    ensures { OnOk result (text.new ≡ text.old ++ (codes " " ++ address_text address.now)) }
{
    text.push(" ")?;
    push_address(address, text)?;
    Ok(())
}

/// Adds a space and a service name in digits.
pub(crate) fn push_service(name: &ServiceName, text: &mut Text) -> Result<(), AllocError>
    ensures { OnOk result (text.new ≡ text.old ++ (codes " " ++ encode_lower name.now)) }
{
    push_digits(name.bytes(), text)
}

/// Adds a space and a certificate in digits.
pub(crate) fn push_cert(cert: &Certificate, text: &mut Text) -> Result<(), AllocError>
    ensures { OnOk result (text.new ≡ text.old ++ (codes " " ++ encode_lower cert.now)) }
{
    push_digits(cert.bytes(), text)
}

/// What a reason is called.
#[tactic(auto, unfolding(crate::specs::Grammar::why_text))]
fn why_name(why: Why) -> &'static str
    ensures { result.now ≡ why_text why }
{
    match why {
        Why::Cancelled => "cancelled",
        Why::Expired => "expired",
        Why::Glare => "glare",
        Why::Override => "override",
        Why::Unconfirmed => "unconfirmed",
        Why::Near => "near",
        Why::Far => "far",
        Why::Idle => "idle",
    }
}

/// Adds a space and what a reason is called.
pub(crate) fn push_why(why: Why, text: &mut Text) -> Result<(), AllocError>
    ensures { OnOk result (text.new ≡ text.old ++ (codes " " ++ why_text why)) }
{
    text.push(" ")?;
    text.push(why_name(why))?;
    Ok(())
}

/// The letter of the end that sends.
#[tactic(auto, unfolding(crate::specs::Grammar::sender_text))]
fn sender_name(to_responder: bool) -> &'static str
    ensures { result.now ≡ sender_text to_responder }
{
    if to_responder { "i" } else { "r" }
}

/// Adds a space and the letter of the end that sends.
pub(crate) fn push_sender(to_responder: bool, text: &mut Text) -> Result<(), AllocError>
    ensures { OnOk result (text.new ≡ text.old ++ (codes " " ++ sender_text to_responder)) }
{
    text.push(" ")?;
    text.push(sender_name(to_responder))?;
    Ok(())
}
