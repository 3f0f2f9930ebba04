//! Options, addresses, and the packer of packets.

use crate::rows::{bytes, digits, first_word};
use rtmfp_forms::{
    Address, FormFault, NoRoom, OptionView, Options, Outgoing, read_address, read_options,
    write_address, write_options,
};
use std::alloc::{AllocError, Global};
use std::test::Fail;

fn fault_name(fault: &FormFault) -> &'static str {
    match fault {
        FormFault::Short => "short",
        FormFault::Large => "large",
        FormFault::NoMarker => "no-marker",
    }
}

/// An option in words.
fn option_text(alloc: Global, option: &OptionView<'_>) -> Result<String, AllocError> {
    let value = digits(alloc, option.value)?;
    format!(in alloc; " {}:{value}", option.kind)
}

/// Adds an option in words.
fn push_option(
    alloc: Global,
    option: &OptionView<'_>,
    said: &mut String,
) -> Result<(), AllocError> {
    let text = option_text(alloc, option)?;
    said.push_str(text.as_str())
}

/// Options in words, with how many bytes they take.
fn options_text(alloc: Global, options: &Options<'_>, used: usize) -> Result<String, AllocError> {
    let mut said = format!(in alloc; "{used}")?;
    for option in options.iter() {
        push_option(alloc, &option, &mut said)?;
    }
    Ok(said)
}

/// The options that are read of bytes, in words.
pub(crate) fn options_said(alloc: Global, given: &str) -> Result<String, Fail> {
    let given = bytes(alloc, given)?;
    match read_options(given.as_slice()) {
        Ok((options, used)) => Ok(options_text(alloc, &options, used)?),
        Err(fault) => Ok(String::from_str(alloc, fault_name(&fault))?),
    }
}

/// Options, written.
fn written(alloc: Global, options: &Options<'_>) -> Result<String, Fail> {
    let mut out = Outgoing::new(0x03);
    write_options(options, &mut out).ok().ok_or("room")?;
    Ok(digits(alloc, out.bytes().get(1..).unwrap_or(&[]))?)
}

/// The options that are read of bytes, written again.
pub(crate) fn options_written(alloc: Global, given: &str) -> Result<String, Fail> {
    let given = bytes(alloc, given)?;
    match read_options(given.as_slice()) {
        Ok((options, _)) => written(alloc, &options),
        Err(fault) => Ok(String::from_str(alloc, fault_name(&fault))?),
    }
}

/// An address in words.
fn address_text(alloc: Global, address: &Address) -> Result<String, AllocError> {
    let host = digits(alloc, &address.host)?;
    let (port, v6, origin) = (address.port, address.v6, address.origin);
    format!(in alloc; "{host} {port} v6={v6} origin={origin}")
}

/// The address that is read of bytes, in words.
pub(crate) fn address_said(alloc: Global, given: &str) -> Result<String, Fail> {
    let given = bytes(alloc, given)?;
    match read_address(given.as_slice()) {
        Ok((address, used)) => {
            let head = address_text(alloc, &address)?;
            Ok(format!(in alloc; "{head} in {used}")?)
        }
        Err(fault) => Ok(String::from_str(alloc, fault_name(&fault))?),
    }
}

fn address_of(alloc: Global, given: &str) -> Result<Address, Fail> {
    match read_address(bytes(alloc, given)?.as_slice()) {
        Ok((address, _)) => Ok(address),
        Err(_) => Err(Fail::from("an address")),
    }
}

/// The address that is read of bytes, written again.
pub(crate) fn address_written(alloc: Global, given: &str) -> Result<String, Fail> {
    let mut out = [0; 19];
    let len = write_address(&address_of(alloc, given)?, &mut out);
    Ok(digits(alloc, out.get(..len).unwrap_or(&[]))?)
}

/// Whether two addresses are one place.
pub(crate) fn whether_same(alloc: Global, given: &str) -> Result<String, Fail> {
    let (one, other) = first_word(given);
    let same = address_of(alloc, one)?.same_place(&address_of(alloc, other)?);
    Ok(format!(in alloc; "{same}")?)
}

/// Puts so many bytes, of 1,164 at most; whether they were taken.
fn is_put(out: &mut Outgoing, count: usize) -> bool {
    out.put([0x55; 1164].get(..count).unwrap_or(&[])) != Err(NoRoom)
}

#[test]
fn a_packet_takes_1164_bytes(rt: HostRuntime) {
    let mut out = Outgoing::new(0x03);
    let wide = is_put(&mut out, 1164);
    let most = is_put(&mut out, 1163);
    let more = is_put(&mut out, 1);
    assert_eq!(rt;
        (wide, most, more, out.bytes().len()),
        (false, true, false, 1164)
    );
}
