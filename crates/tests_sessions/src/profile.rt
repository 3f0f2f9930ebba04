//! HMACs, keys, a sealed part, cookies and fingerprints.

use crate::keying::address;
use crate::lines::{decoded, pair, put};
use cookies::CookieMaker;
use crypto_profile::{Context, Keys, hmac, open_in_place, seal_in_place, sign_key};
use identity::Certificate;
use rtmfp_forms::Address;
use std::alloc::Global;
use std::test::Fail;

/// The test cases of RFC 4231, in its order: a key, a text, and what their HMAC begins with.
const HMACS: &str =
    "0b0b0b0b0b0b0b0b0b0b0b0b0b0b0b0b0b0b0b0b 4869205468657265 b0344c61d8db38535ca8afceaf0bf12b881dc200c9833da726e9376c2e32cff7
4a656665 7768617420646f2079612077616e7420666f72206e6f7468696e673f 5bdcc146bf60754e6a042426089575c75a003f089d2739839dec58b964ec3843
aaaaaaaaaaaaaaaaaaaaaaaaaaaaaaaaaaaaaaaa dddddddddddddddddddddddddddddddddddddddddddddddddddddddddddddddddddddddddddddddddddddddddddddddddddd 773ea91e36800e46854db8ebd09181a72959098b3ef8c122d9635514ced565fe
0102030405060708090a0b0c0d0e0f10111213141516171819 cdcdcdcdcdcdcdcdcdcdcdcdcdcdcdcdcdcdcdcdcdcdcdcdcdcdcdcdcdcdcdcdcdcdcdcdcdcdcdcdcdcdcdcdcdcdcdcdcdcd 82558a389a443c0ea4cc819899f2083a85f0faa3e578f8077a2e3ff46729665b
0c0c0c0c0c0c0c0c0c0c0c0c0c0c0c0c0c0c0c0c 546573742057697468205472756e636174696f6e a3b6167473100ee06e0c796c2955552b
aaaaaaaaaaaaaaaaaaaaaaaaaaaaaaaaaaaaaaaaaaaaaaaaaaaaaaaaaaaaaaaaaaaaaaaaaaaaaaaaaaaaaaaaaaaaaaaaaaaaaaaaaaaaaaaaaaaaaaaaaaaaaaaaaaaaaaaaaaaaaaaaaaaaaaaaaaaaaaaaaaaaaaaaaaaaaaaaaaaaaaaaaaaaaaaaaaaaaaaaaaaaaaaaaaaaaaaaaaaaaaaaaaaaaaaaaaaaaaaaaaaaaaaaaaaaaaaaaaaaaa 54657374205573696e67204c6172676572205468616e20426c6f636b2d53697a65204b6579202d2048617368204b6579204669727374 60e431591ee0b67f0d8a26aacbf5b77f8e0bc6213728c5140546040f0ee37f54
aaaaaaaaaaaaaaaaaaaaaaaaaaaaaaaaaaaaaaaaaaaaaaaaaaaaaaaaaaaaaaaaaaaaaaaaaaaaaaaaaaaaaaaaaaaaaaaaaaaaaaaaaaaaaaaaaaaaaaaaaaaaaaaaaaaaaaaaaaaaaaaaaaaaaaaaaaaaaaaaaaaaaaaaaaaaaaaaaaaaaaaaaaaaaaaaaaaaaaaaaaaaaaaaaaaaaaaaaaaaaaaaaaaaaaaaaaaaaaaaaaaaaaaaaaaaaaaaaaaaaa 5468697320697320612074657374207573696e672061206c6172676572207468616e20626c6f636b2d73697a65206b657920616e642061206c6172676572207468616e20626c6f636b2d73697a6520646174612e20546865206b6579206e6565647320746f20626520686173686564206265666f7265206265696e6720757365642062792074686520484d414320616c676f726974686d2e 9b09ffa71b942fcb27635fbcd5b0e944bfdc63644f0713938a7f51535c3a35e2
";

/// The fingerprints of certificates.
const PRINTS: &str =
    "d7a8fbb307d7809469ca9abcb0082e4f8d5651e46d3cdb762d02d0bf37c9e592 The quick brown fox jumps over the lazy dog
ef537f25c895bfa782526529a9b63d97aa631564d5d789c2b765448c8635fb6c The quick brown fox jumps over the lazy dog.
248d6a61d20638b8e5c026930c3e6039a33ce45964ff2167f6ecedd419db06c1 abcdbcdecdefdefgefghfghighijhijkijkljklmklmnlmnomnopnopq
";

const VALUES: &str = "startup-enc 8ffe2c06726fdcf2ff588649137b431537f3942e55b49b0e6efd2db36882e39e
startup-mac a4bdf7fa339488ff9d577b9d5b7b09a6e1bab067fec61b2f5fd9ce0f4a26093f
sign e952c5bd24f02ff6718a08ba5e484696a12800fcb2517042a8f91e38d85f7078
session-enc-i 63716d5d2c302d2765579a0d706adeeab64e067f30c902af1fb7528b5df491bd
session-mac-i 2625884312c5c3065e904103a59efb1ba951aa0c9c281da4419d17a150d6668f
session-enc-r 40e998d64442c5f94bfa41aa4defdf66f084e4a4a00a74238473e0f91d265f2b
session-mac-r 073e23ab890285870eb9111991301c22e23cd46513699a06338464785aaf6aed
sealed-of-70 7bdd32f626a1784b7e4853474188a85d000000000000000000000000000000098c694f46591449f2b0f3f97b62d7a34a3cd9408dfd167c057d05447468813c77a9e2af0025b1a0bc244b9d19edca6322207d7e28af37cc0542e04c306521c8fd6740902766c6
cookie-v4 00000000000003e8020a000001078f7363e3130b3dc89c20184680d6916150
cookie-v6 000001000000000082000102030405060708090a0b0c0d0e0fffff3ffd7264c980cca97de10c6c503bb694
";

/// The HMAC of a text under a key, all in hexadecimal.
fn mac_of(alloc: Global, key: &str, text: &str) -> Result<String, Fail> {
    let key = decoded(alloc, key)?;
    let text = decoded(alloc, text)?;
    Ok(hex::encode(alloc, &hmac(key.as_slice(), text.as_slice()))?)
}

/// Whether a case is so.
fn is_mac(alloc: Global, case: &str) -> Result<bool, Fail> {
    let (key, rest) = pair(case);
    let (text, mac) = pair(rest);
    let told = mac_of(alloc, key, text)?;
    Ok(!mac.is_empty() && told.as_str().starts_with(mac))
}

/// The first case whose HMAC is another.
fn first_wrong(alloc: Global) -> Result<Option<&'static str>, Fail> {
    for case in HMACS.lines() {
        if !is_mac(alloc, case)? {
            return Ok(Some(case));
        }
    }
    Ok(None)
}

/// Whether a certificate has the fingerprint of its line.
fn is_print(alloc: Global, line: &str) -> Result<bool, Fail> {
    let (print, cert) = pair(line);
    let cert = Certificate::read(cert.as_bytes())?;
    Ok(hex::encode(alloc, &cert.print())?.as_str() == print)
}

/// The first certificate whose fingerprint is another.
fn first_misnamed(alloc: Global) -> Result<Option<&'static str>, Fail> {
    for line in PRINTS.lines() {
        if !is_print(alloc, line)? {
            return Ok(Some(line));
        }
    }
    Ok(None)
}

/// The bytes 0 to 31.
pub(crate) fn secret() -> [u8; 32] {
    *b"\x00\x01\x02\x03\x04\x05\x06\x07\x08\x09\x0a\x0b\x0c\x0d\x0e\x0f\x10\x11\x12\x13\x14\x15\x16\x17\x18\x19\x1a\x1b\x1c\x1d\x1e\x1f"
}

fn session(to_responder: bool) -> Context {
    Context::Session {
        generation: 0,
        ni: [1; 16],
        nr: [2; 16],
        fp_i: [3; 32],
        fp_r: [4; 32],
        sid_i: 5,
        sid_r: 6,
        to_responder,
    }
}

fn put_keys(
    alloc: Global,
    enc: &str,
    mac: &str,
    context: &Context,
    lines: &mut String,
) -> Result<(), Fail> {
    let keys = Keys::of(&secret(), context);
    put(alloc, enc, keys.enc(), lines)?;
    put(alloc, mac, keys.mac(), lines)
}

fn put_session_keys(alloc: Global, lines: &mut String) -> Result<(), Fail> {
    put_keys(
        alloc,
        "session-enc-i",
        "session-mac-i",
        &session(true),
        lines,
    )?;
    put_keys(
        alloc,
        "session-enc-r",
        "session-mac-r",
        &session(false),
        lines,
    )
}

fn put_all_keys(alloc: Global, lines: &mut String) -> Result<(), Fail> {
    put_keys(
        alloc,
        "startup-enc",
        "startup-mac",
        &Context::Startup { generation: 0 },
        lines,
    )?;
    put(alloc, "sign", &sign_key(&secret()), lines)?;
    put_session_keys(alloc, lines)
}

/// A buffer whose plain packet is the bytes 0 to 69.
fn counting_buffer() -> [u8; 102] {
    let mut buf = [0u8; 102];
    for i in 0..70 {
        buf[32 + i] = i as u8;
    }
    buf
}

/// Its sealed part.
fn sealed_buffer() -> [u8; 102] {
    let mut buf = counting_buffer();
    let mut number = [0; 16];
    number[15] = 9;
    seal_in_place(&Keys::of(&secret(), &session(true)), 7, number, &mut buf);
    buf
}

/// Whether a sealed part of 102 bytes opens.
fn opens(part: &mut [u8]) -> bool {
    let keys = Keys::of(&secret(), &session(true));
    open_in_place(&keys, 7, part) == Ok(32..102)
}

/// Whether the sealed part opens, and is what it was.
fn is_opened() -> bool {
    let mut buf = sealed_buffer();
    opens(&mut buf) && buf[32..] == counting_buffer()[32..]
}

fn cookie_secret() -> [u8; 32] {
    let mut secret = secret();
    for byte in &mut secret {
        *byte = byte.wrapping_add(100);
    }
    secret
}

fn put_cookie(
    alloc: Global,
    name: &str,
    address: &Address,
    moment: u64,
    lines: &mut String,
) -> Result<(), Fail> {
    let cookie = CookieMaker::new(cookie_secret()).make(address, moment);
    put(alloc, name, cookie.bytes(), lines)
}

fn put_cookies(alloc: Global, lines: &mut String) -> Result<(), Fail> {
    put_cookie(alloc, "cookie-v4", &address(1), 1000, lines)?;
    let long = Address {
        v6: true,
        origin: 3,
        host: [0, 1, 2, 3, 4, 5, 6, 7, 8, 9, 10, 11, 12, 13, 14, 15],
        port: 65535,
    };
    put_cookie(alloc, "cookie-v6", &long, 1 << 40, lines)
}

fn values(alloc: Global) -> Result<String, Fail> {
    let mut lines = String::new(alloc);
    put_all_keys(alloc, &mut lines)?;
    put(alloc, "sealed-of-70", &sealed_buffer(), &mut lines)?;
    put_cookies(alloc, &mut lines)?;
    Ok(lines)
}

#[test]
fn values_are_those_of_another_program(rt: HostRuntime) -> Result<(), Fail> {
    assert_eq!(rt; first_wrong(rt.alloc())?, None);
    assert_eq!(rt; first_misnamed(rt.alloc())?, None);
    assert_eq!(rt; values(rt.alloc())?.as_str(), VALUES);
    assert!(rt; is_opened());
    Ok(())
}
