//! The packets of a handshake.

ghost use Rattle.std.specs.Prelude.{◌≡◌, IfOk, None};
ghost use Rattle.std.specs.FinMap.{get};

use crate::lines::{bytes_of, put};
use identity::{CertFault, Certificate, Epd};
use rtmfp_chunks::{ChunkView, read_chunk};
use rtmfp_forms::{Address, Outgoing};
use startup::{Answer, Cause, Keyed, Startup};
use std::alloc::Global;
use std::test::Fail;

/// The hello of a caller, the answerer's hello, and both keyings; and what the answerer answers to
/// the same keying from another address.
const PACKETS: &str =
    "ihello 033000322101aad5e1db1cb4861e40321d0c242b1453632c075eb76a2c583597fbfa3d79666705050505050505050505050505050505
rhello 0370004910050505050505050505050505050505051f0000000000000000020a000001078fc9b778f8a5705b263d1a5fdc4898f3bc30313233343536373839616263646566616e737765726572
iikeying 03380094000000061f0000000000000000020a000001078fc9b778f8a5705b263d1a5fdc4898f3bc163031323334353637383961626364656663616c6c657238030303030303030303030303030303030000000000000001aad5e1db1cb4861e40321d0c242b1453632c075eb76a2c583597fbfa3d796667b61a3ea8fbdfc78cbcc2c75de304b89948c29b67c419e0ee965b218a167a19f9
rikeying 0378006d0000000948040404040404040404040404040404040000000000000000aad5e1db1cb4861e40321d0c242b1453632c075eb76a2c583597fbfa3d796667030303030303030303030303030303034ffa8f7500b7963edf934273ca35e90856c1950c33fde54c11596674dbc5d31b
cookiechange 0379003f1f0000000000000000020a000001078fc9b778f8a5705b263d1a5fdc4898f3bc0000000000000014020a000002078ff0eb33fac09b96e6d358ec026a86446e
";

/// Payloads of the initiator's keying with each length spelled by one byte more; in the second the
/// certificate, which stands at 39, has 16 bytes.
const LONG_LENGTHS: &str =
    "iikeying-long-lengths 00000006801f0000000000000000020a000001078fc9b778f8a5705b263d1a5fdc4898f3bc80163031323334353637383961626364656663616c6c65728038030303030303030303030303030303030000000000000001aad5e1db1cb4861e40321d0c242b1453632c075eb76a2c583597fbfa3d796667994b100abdf91b25c2b673da1e45e3726de532d95886e0e6cea06debb118ff3b
iikeying-no-certificate 00000006801f0000000000000000020a000001078fc9b778f8a5705b263d1a5fdc4898f3bc8010303132333435363738396162636465668038030303030303030303030303030303030000000000000001aad5e1db1cb4861e40321d0c242b1453632c075eb76a2c583597fbfa3d7966678ca487e9421ae46d15bb5f6122d2c83d72a8d3a4650e98ba7dfb6831a55c8e6a
";

pub(crate) const ANSWERER: &[u8] = b"0123456789abcdefanswerer";

pub(crate) const CALLER: &[u8] = b"0123456789abcdefcaller";

const TAG: [u8; 16] = [5; 16];

/// The generation in which all is sent.
pub(crate) const GENERATION: u64 = 7;

/// The secret of the group in it. Its bytes are known to no proof, as none should go through what is
/// made of them.
pub(crate) fn secret() -> [u8; 32] {
    [7; 32]
}

pub(crate) fn end_of(alloc: Global, cert: &[u8]) -> Result<Startup, CertFault>
    ensures { IfOk result (λ end. get end.attempts 6 ≡ None) }
{
    let cert = Certificate::read(cert)?;
    Ok(Startup::new(alloc, cert, [9; 32], 4))
}

pub(crate) fn address(last: u8) -> Address {
    Address::v4([10, 0, 0, last], 1935)
}

/// The payload of the one chunk of a packet.
fn payload_of(plain: &Outgoing) -> &[u8] {
    plain.bytes().get(4..).unwrap_or(&[])
}

/// The hello of an attempt of the caller towards the answerer.
pub(crate) fn called(caller: &mut Startup) -> Result<Outgoing, Fail>
    requires { get caller.old.attempts 6 ≡ None }
{
    let epd = Epd {
        print: Certificate::read(ANSWERER)?.print(),
    };
    match caller.begin(&epd, &[address(2)], 6, [3; 16], TAG, 0) {
        Ok((_, spread)) => Ok(spread.plain),
        Err(_) => Err(Fail::from("no attempt began")),
    }
}

/// The answer to a hello.
pub(crate) fn answered(end: &Startup, hello: &Outgoing) -> Result<Answer, Fail> {
    match read_chunk(0x30, payload_of(hello)) {
        Ok(ChunkView::IHello { epd, tag }) => {
            Ok(end.hello(epd, tag, &address(1), 0, GENERATION, &secret())?)
        }
        _ => Err(Fail::from("no hello")),
    }
}

/// The keying that follows the answer.
pub(crate) fn keyed_to(end: &mut Startup, answer: &Outgoing) -> Result<Answer, Fail> {
    match read_chunk(0x70, payload_of(answer)) {
        Ok(ChunkView::RHello { tag, cookie, cert }) => {
            let from = address(2);
            match end.responder_hello(tag, cookie, cert, &from, 10, GENERATION, &secret()) {
                Ok((_, answer)) => Ok(answer),
                Err(_) => Err(Fail::from("no keying")),
            }
        }
        _ => Err(Fail::from("no answer")),
    }
}

/// What a keying gets that came in a generation, and what became of it.
fn taken(
    end: &mut Startup,
    payload: &[u8],
    last: u8,
    generation: u64,
) -> Result<(Answer, &'static str), Fail> {
    let from = address(last);
    match end.initiator_keying(payload, &from, 20, 9, [4; 16], None, generation, &secret()) {
        Ok(Keyed::Birth { answer, .. }) => Ok((answer, "born")),
        Ok(Keyed::Again(answer)) => Ok((answer, "again")),
        Ok(Keyed::Change(answer)) => Ok((answer, "change")),
        Err(_) => Err(Fail::from("the keying is refused")),
    }
}

/// The packets up to the caller's keying, which is given.
fn calls(
    alloc: Global,
    caller: &mut Startup,
    answerer: &Startup,
    lines: &mut String,
) -> Result<Answer, Fail>
    requires { get caller.old.attempts 6 ≡ None }
{
    let hello = called(caller)?;
    put(alloc, "ihello", hello.bytes(), lines)?;
    let answer = answered(answerer, &hello)?;
    put(alloc, "rhello", answer.plain.bytes(), lines)?;
    let keying = keyed_to(caller, &answer.plain)?;
    put(alloc, "iikeying", keying.plain.bytes(), lines)?;
    Ok(keying)
}

/// Whether two answers are the same packet under the same keys, in the generation of the first.
fn are_alike(first: &Answer, again: &Answer) -> bool {
    let sealed = first.generation == GENERATION && again.generation == GENERATION;
    let keys = again.keys.enc() == first.keys.enc() && again.keys.mac() == first.keys.mac();
    sealed && keys && again.plain.bytes() == first.plain.bytes()
}

/// The answer to a keying, and whether it bears a session once; its repeat comes in another
/// generation.
fn bears(
    alloc: Global,
    answerer: &mut Startup,
    keying: &Outgoing,
    lines: &mut String,
) -> Result<(Answer, bool), Fail> {
    let (first, born) = taken(answerer, payload_of(keying), 1, GENERATION)?;
    put(alloc, "rikeying", first.plain.bytes(), lines)?;
    let (again, same) = taken(answerer, payload_of(keying), 1, 9)?;
    let alike = are_alike(&first, &again);
    Ok((again, born == "born" && same == "again" && alike))
}

/// Whether a keying from another place gets another cookie.
fn changes(
    alloc: Global,
    answerer: &mut Startup,
    keying: &Outgoing,
    lines: &mut String,
) -> Result<bool, Fail> {
    let (change, moved) = taken(answerer, payload_of(keying), 2, GENERATION)?;
    put(alloc, "cookiechange", change.plain.bytes(), lines)?;
    Ok(moved == "change")
}

/// Whether an answer opens the caller's session once.
fn opens_once(caller: &mut Startup, answer: &Outgoing) -> bool {
    let payload = payload_of(answer);
    let opens = caller
        .responder_keying(6, payload, GENERATION, &secret())
        .is_ok();
    opens
        && caller
            .responder_keying(6, payload, GENERATION, &secret())
            .is_err()
}

/// The packets of a handshake, and whether they bear a session once and open it once.
fn handshake(alloc: Global) -> Result<(String, bool), Fail> {
    let mut lines = String::new(alloc);
    let mut caller = end_of(alloc, CALLER)?;
    let mut answerer = end_of(alloc, ANSWERER)?;
    let keying = calls(alloc, &mut caller, &answerer, &mut lines)?;
    let (answer, born) = bears(alloc, &mut answerer, &keying.plain, &mut lines)?;
    let moved = changes(alloc, &mut answerer, &keying.plain, &mut lines)?;
    let once = born && moved && opens_once(&mut caller, &answer.plain);
    Ok((lines, once))
}

/// Whether what has no form stands where it does among longer spellings.
fn has_no_form(alloc: Global, end: &Startup) -> Result<bool, Fail> {
    let wrong = bytes_of(alloc, LONG_LENGTHS, "iikeying-no-certificate")?;
    let payload = wrong.as_slice();
    let cause = end.refuses(
        0,
        0x38,
        payload,
        &address(1),
        20,
        None,
        GENERATION,
        &secret(),
    );
    Ok(cause == Some(Cause::Malformed(39)))
}

/// Whether longer spellings are taken.
fn is_born(alloc: Global, end: &mut Startup) -> Result<bool, Fail> {
    let long = bytes_of(alloc, LONG_LENGTHS, "iikeying-long-lengths")?;
    let (_, became) = taken(end, long.as_slice(), 1, GENERATION)?;
    Ok(became == "born")
}

fn lengths_may_be_longer(alloc: Global) -> Result<bool, Fail> {
    let mut end = end_of(alloc, ANSWERER)?;
    let refused = has_no_form(alloc, &end)?;
    let born = is_born(alloc, &mut end)?;
    Ok(refused && born)
}

#[test]
fn packets_are_those_of_another_program(rt: HostRuntime) -> Result<(), Fail> {
    let (lines, once) = handshake(rt.alloc())?;
    assert_eq!(rt; lines.as_str(), PACKETS);
    assert!(rt; once);
    assert!(rt; lengths_may_be_longer(rt.alloc())?);
    Ok(())
}
