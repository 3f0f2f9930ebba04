//! The text of addresses.
ghost use Rattle.std.specs.Prelude.{◌≡◌, ◌++◌, OnOk};
ghost use Rattle.rtmfp_text.specs.AddressText.{address_text, host_text, v4_host_text, v6_host_text};

use crate::text::Text;
use rtmfp_forms::Address;
use std::alloc::AllocError;

/// Adds an address, as `10.0.0.1:1935`, or with the 32 digits of an IPv6 host in brackets.
pub fn push_address(address: &Address, text: &mut Text) -> Result<(), AllocError>
    ensures { OnOk result (text.new ≡ text.old ++ address_text address.now) }
{
    push_host(address, text)?;
    text.push(":")?;
    text.push_number(u64::from(address.port))?;
    Ok(())
}

fn push_host(address: &Address, text: &mut Text) -> Result<(), AllocError>
    ensures { OnOk result (text.new ≡ text.old ++ host_text address.now) }
{
    if address.v6 {
        push_v6_host(&address.host, text)
    } else {
        push_v4_host(&address.host, text)
    }
}

fn push_v4_host(host: &[u8; 16], text: &mut Text) -> Result<(), AllocError>
    ensures { OnOk result (text.new ≡ text.old ++ v4_host_text host.now) }
{
    text.push_number(u64::from(host[0]))?;
    text.push(".")?;
    text.push_number(u64::from(host[1]))?;
    text.push(".")?;
    text.push_number(u64::from(host[2]))?;
    text.push(".")?;
    text.push_number(u64::from(host[3]))?;
    Ok(())
}

fn push_v6_host(host: &[u8; 16], text: &mut Text) -> Result<(), AllocError>
    ensures { OnOk result (text.new ≡ text.old ++ v6_host_text host.now) }
{
    text.push("[")?;
    text.push_hex(host)?;
    text.push("]")?;
    Ok(())
}
