//! Two ends by hand: a caller `a` and an answerer `b`, and what is done with them, as the words of
//! a row say.

use crate::carrying::{Path, handed_over};
use crypto_profile::{Context, Keys, open_in_place, seal_in_place};
use endpoint::{CallRefusal, Config, Draws, Endpoint, Entry, MessageOptions, Outbox};
use glare_core::Fact;
use identity::{CertFault, Certificate, Epd, ServiceName};
use packet_scramble::scramble;
use rtmfp_forms::Address;
use std::alloc::{AllocError, Global};
use std::test::Fail;

/// The group's secret, and the number of its generation.
pub(crate) const GROUP: [u8; 32] = [7; 32];

pub(crate) const GENERATION: u64 = 0;

pub(crate) const ANSWERER: &[u8] = b"0123456789abcdefanswerer";

pub(crate) const CALLER: &[u8] = b"0123456789abcdefcaller";

fn end(
    alloc: Global,
    cert: &[u8],
    peers: u32,
    sessions: u32,
    introduces: bool,
) -> Result<Endpoint, CertFault> {
    let config = Config {
        max_peers: peers,
        max_sessions: sessions.min(16),
        introduces,
    };
    let cert = Certificate::read(cert)?;
    Ok(Endpoint::new(alloc, config, cert, GENERATION, GROUP, [9; 32]))
}

/// The end that is called so: the caller, the answerer, or one with such a name.
fn epd_of(alloc: Global, name: &str) -> Result<Epd, Fail> {
    let cert = format!(in alloc; "0123456789abcdef{name}")?;
    let cert = Certificate::read(cert.as_str().as_bytes())?;
    Ok(Epd {
        print: cert.print(),
    })
}

fn address(last: u8) -> Address {
    Address::v4([10, 0, 0, last], 1935)
}

pub(crate) fn draws(word: u32) -> Draws {
    let mut nonce = [0; 16];
    nonce[15] = (word % 256) as u8;
    let mut token = nonce;
    token[0] = 1;
    Draws {
        nonce,
        tag: nonce,
        token,
        word,
    }
}

/// A fact in words.
fn fact_text(alloc: Global, fact: &Fact) -> Result<String, AllocError> {
    match fact {
        Fact::Started { n, near, .. } => format!(in alloc; "started {n} {near}; "),
        Fact::Born(j) => format!(in alloc; "born {} {}; ", j.near, j.far),
        Fact::Opened(j) => format!(in alloc; "opened {} {}; ", j.near, j.far),
        Fact::Confirmed { near, .. } => format!(in alloc; "confirmed {near}; "),
        Fact::Ended { near, why, .. } => format!(in alloc; "ended {near} {why:?}; "),
    }
}

/// A message in words, by its number and its length.
fn message_text(
    alloc: Global,
    what: &str,
    near: u32,
    flow: u64,
    seq: u64,
    size: usize,
) -> Result<String, AllocError> {
    format!(in alloc; "{what} {near} {flow} {seq} {size}; ")
}

/// An entry of a flow in words.
fn flow_text(alloc: Global, entry: &Entry) -> Result<String, AllocError> {
    match entry {
        Entry::FlowOpened { near, flow } => format!(in alloc; "flow {near} {flow}; "),
        Entry::Finished { near, flow, seq } => format!(in alloc; "finished {near} {flow} {seq}; "),
        Entry::Abandoned { near, flow, seq } => {
            format!(in alloc; "abandoned {near} {flow} {seq}; ")
        }
        _ => Ok(String::new(alloc)),
    }
}

/// An entry of a message, with its length, or another one of a flow in words.
fn carried_text(alloc: Global, entry: &Entry) -> Result<String, AllocError> {
    match entry {
        Entry::Queued {
            near,
            flow,
            seq,
            message,
        } => message_text(alloc, "queued", *near, *flow, *seq, message.len()),
        Entry::Handed {
            near,
            flow,
            seq,
            message,
        } => message_text(alloc, "handed", *near, *flow, *seq, message.len()),
        other => flow_text(alloc, other),
    }
}

/// An entry in words.
fn entry_text(alloc: Global, entry: &Entry) -> Result<String, AllocError> {
    match entry {
        Entry::Fact(fact) => fact_text(alloc, fact),
        Entry::Closed { near } => format!(in alloc; "closed {near}; "),
        Entry::Moved { near, to } => format!(in alloc; "moved {near} {}; ", to.host[3]),
        Entry::Learnt { generation } => format!(in alloc; "learnt {generation}; "),
        Entry::Advanced { generation } => format!(in alloc; "advanced {generation}; "),
        Entry::Sought { near, .. } => format!(in alloc; "sought {near}; "),
        Entry::Unsought { near, why } => format!(in alloc; "unsought {near} {why:?}; "),
        Entry::Discard { place, cause } => format!(in alloc; "drop {place} {cause:?}; "),
        Entry::Out { datagram, .. } => format!(in alloc; "out {}; ", datagram.len()),
        other => carried_text(alloc, other),
    }
}

/// The entries of an outbox in one line.
fn text_of(alloc: Global, out: &Outbox) -> Result<String, AllocError> {
    let mut text = String::new(alloc);
    for entry in out.entries() {
        let words = entry_text(alloc, entry)?;
        text.push_str(words.as_str())?;
    }
    Ok(text)
}

/// The last datagram of an outbox.
fn last_of(alloc: Global, out: &Outbox) -> Result<Vec<u8>, AllocError> {
    let mut last = Vec::new(alloc);
    for entry in out.entries() {
        if let Entry::Out { datagram, .. } = entry {
            last = Vec::from_slice(alloc, datagram.bytes())?;
        }
    }
    Ok(last)
}

/// The last bytes of the addresses that the datagrams of an outbox go to, in their order.
fn places_of(alloc: Global, out: &Outbox) -> Result<String, AllocError> {
    let mut text = String::new(alloc);
    for entry in out.entries() {
        if let Entry::Out { to, .. } = entry {
            text.push_str(format!(in alloc; "{} ", to.host[3])?.as_str())?;
        }
    }
    Ok(text)
}

/// A plain packet behind the 32 bytes that its seal takes.
fn unsealed(alloc: Global, plain: &[u8]) -> Result<Vec<u8>, AllocError> {
    let mut part = Vec::from_slice(alloc, &[0; 32])?;
    part.extend_from_slice(plain)?;
    Ok(part)
}

/// The datagram of a sealed part.
fn datagram_of(alloc: Global, sid: u32, part: &[u8]) -> Result<Vec<u8>, AllocError> {
    let mut datagram = Vec::from_slice(alloc, &scramble(sid, part).to_be_bytes())?;
    datagram.extend_from_slice(part)?;
    Ok(datagram)
}

/// A datagram of this plain packet, sealed in a context under a session ID and a count.
fn sealed(
    alloc: Global,
    context: &Context,
    sid: u32,
    count: u64,
    plain: &[u8],
) -> Result<Vec<u8>, Fail> {
    let mut part = unsealed(alloc, plain)?;
    let mut number = [0; 16];
    let (_, back) = number.split_at_mut(8);
    back.copy_from_slice(&count.to_be_bytes());
    let sealed = part.as_mut_slice();
    if sealed.len() >= 32 {
        seal_in_place(&Keys::of(&GROUP, context), sid, number, sealed);
    }
    Ok(datagram_of(alloc, sid, part.as_slice())?)
}

/// The context of packets to the responder, in the session of the handshake.
fn to_responder(alloc: Global) -> Result<Context, Fail> {
    in_session(alloc, true)
}

/// The context of packets to the initiator.
fn to_initiator(alloc: Global) -> Result<Context, Fail> {
    in_session(alloc, false)
}

fn in_session(alloc: Global, to_responder: bool) -> Result<Context, Fail> {
    Ok(Context::Session {
        generation: GENERATION,
        ni: draws(3).nonce,
        nr: draws(6).nonce,
        fp_i: epd_of(alloc, "caller")?.print,
        fp_r: epd_of(alloc, "answerer")?.print,
        sid_i: 3,
        sid_r: 6,
        to_responder,
    })
}

/// Opens a sealed part for the initiator; whether it opened.
fn is_opened(context: &Context, part: &mut [u8]) -> bool {
    open_in_place(&Keys::of(&GROUP, context), 3, part).is_ok()
}

/// The plain packet of a datagram to the initiator, in the session of the handshake.
fn opened(alloc: Global, datagram: &[u8]) -> Result<String, Fail> {
    let context = to_initiator(alloc)?;
    let mut part = Vec::from_slice(alloc, datagram.get(4..).unwrap_or(&[]))?;
    if !is_opened(&context, part.as_mut_slice()) {
        return Ok(String::new(alloc));
    }
    Ok(hex::encode(alloc, part.as_slice().get(32..).unwrap_or(&[]))?)
}

/// A packet with a message of a byte in a flow, whose number is spelled with two bytes.
fn message_of(flow: u32) -> [u8; 14] {
    let high = (flow / 128 % 128 + 128) as u8;
    let low = (flow % 128) as u8;
    [1, 0x10, 0, 10, 0x80, high, low, 1, 1, 2, 0, 0x6d, 0, 0x61]
}

/// A packet with a fragment of so many bytes, of a message of 1,659 fragments.
fn fragment_of(alloc: Global, number: u32, length: u32) -> Result<Vec<u8>, AllocError> {
    let flags = match number {
        1 => 0x90,
        1659 => 0xa0,
        _ => 0xb0,
    };
    let (high, low) = ((number / 128 % 128 + 128) as u8, (number % 128) as u8);
    let [first, second] = ((length % 4096 + 10) as u16).to_be_bytes();
    let head = [
        1, 0x10, first, second, flags, 0, high, low, high, low, 2, 0, 0x6d, 0,
    ];
    let mut plain = Vec::from_slice(alloc, &head)?;
    plain.resize((length % 4096 + 14) as usize, 7)?;
    Ok(plain)
}

/// A word of a row.
fn word(row: &str, index: usize) -> &str {
    row.split(' ').nth(index).unwrap_or("")
}

/// A number of a row, 0 where there is none.
fn number(row: &str, index: usize) -> u32 {
    word(row, index).parse::<u32>().unwrap_or(0)
}

/// Bytes of a row in hexadecimal; `-` stands for none.
fn bytes(alloc: Global, row: &str, index: usize) -> Result<Vec<u8>, Fail> {
    let digits = word(row, index);
    if digits == "-" {
        return Ok(Vec::new(alloc));
    }
    Ok(hex::decode(alloc, digits.as_bytes()).ok().ok_or("bytes")?)
}

/// What an end adds, its last datagram, and where its datagrams go.
#[derive(Drop)]
struct Added {
    text: String,
    last: Vec<u8>,
    places: String,
}

/// What was added to an outbox.
fn all_of(alloc: Global, out: &Outbox) -> Result<Added, Fail> {
    Ok(Added {
        text: text_of(alloc, out)?,
        last: last_of(alloc, out)?,
        places: places_of(alloc, out)?,
    })
}

/// What a call tells that adds nothing.
fn says(alloc: Global, text: Result<String, AllocError>) -> Result<Added, Fail> {
    Ok(Added {
        text: text?,
        last: Vec::new(alloc),
        places: String::new(alloc),
    })
}

fn outbox(alloc: Global) -> Result<Outbox, Fail> {
    Ok(Outbox::new(alloc, 4).ok().ok_or("an outbox")?)
}

/// Gives an end a datagram from an address.
fn receives(
    alloc: Global,
    end: &mut Endpoint,
    from: u8,
    moment: u64,
    drawn: u32,
    datagram: &[u8],
) -> Result<Added, Fail> {
    let mut out = outbox(alloc)?;
    let mut bytes = Vec::from_slice(alloc, datagram)?;
    let datagram = bytes.as_mut_slice();
    if datagram.len() > 2048 {
        return Err(Fail::from("a datagram that no end is given"));
    }
    match end.receive(address(from), moment, datagram, &draws(drawn), &mut out) {
        Ok(()) => all_of(alloc, &out),
        Err(_) => Err(Fail::from("a datagram found no memory")),
    }
}

/// Opens an attempt at so many addresses, 2 at most, which are the same place.
fn opens(alloc: Global, end: &mut Endpoint, row: &str) -> Result<Added, Fail> {
    let mut out = outbox(alloc)?;
    let peer = epd_of(alloc, word(row, 2))?;
    let both = [address(2), address(2)];
    let candidates = both.get(..number(row, 3) as usize).unwrap_or(&[]);
    let moment = u64::from(number(row, 5));
    match end.open(&peer, candidates, moment, &draws(number(row, 4)), &mut out) {
        Ok(_) => all_of(alloc, &out),
        Err(refusal) => says(alloc, format!(in alloc; "{refusal:?}")),
    }
}

/// Searches for a name at so many addresses, 2 at most, which are the same place.
fn seeks(alloc: Global, end: &mut Endpoint, row: &str) -> Result<Added, Fail> {
    let mut out = outbox(alloc)?;
    let name = bytes(alloc, row, 2)?;
    let name = ServiceName::read(name.as_slice()).ok_or("a name")?;
    let both = [address(2), address(2)];
    let candidates = both.get(..number(row, 3) as usize).unwrap_or(&[]);
    let moment = u64::from(number(row, 5));
    match end.seek(&name, candidates, moment, &draws(number(row, 4)), &mut out) {
        Ok(_) => all_of(alloc, &out),
        Err(refusal) => says(alloc, format!(in alloc; "{refusal:?}")),
    }
}

fn unseeks(alloc: Global, end: &mut Endpoint, near: u32) -> Result<Added, Fail> {
    let mut out = outbox(alloc)?;
    let result = end.unseek(near, &mut out);
    called(alloc, &out, result)
}

fn ticks(alloc: Global, end: &mut Endpoint, moment: u64) -> Result<Added, Fail> {
    let mut out = outbox(alloc)?;
    match end.tick(moment, &draws(4), &mut out) {
        Ok(()) => all_of(alloc, &out),
        Err(_) => Err(Fail::from("a tick found no memory")),
    }
}

fn cancels(alloc: Global, end: &mut Endpoint, n: u64) -> Result<Added, Fail> {
    let mut out = outbox(alloc)?;
    match end.cancel(n, &mut out) {
        Ok(()) => all_of(alloc, &out),
        Err(_) => says(alloc, String::from_str(alloc, "refused")),
    }
}

fn closes(alloc: Global, end: &mut Endpoint, near: u32, moment: u64) -> Result<Added, Fail> {
    let mut out = outbox(alloc)?;
    match end.close(near, moment, &mut out) {
        Ok(()) => all_of(alloc, &out),
        Err(refusal) => says(alloc, format!(in alloc; "{refusal:?}")),
    }
}

/// So many addresses, 17 at most, which are one place where a row says so.
fn addresses(alloc: Global, row: &str) -> Result<Vec<Address>, AllocError> {
    let mut addresses = Vec::new(alloc);
    for index in 0..number(row, 3).min(17) {
        let last = if word(row, 4) == "same" { 0 } else { index };
        addresses.push(address((last % 256) as u8))?;
    }
    Ok(addresses)
}

/// Adds a row of addresses for an end.
fn adds_row(alloc: Global, end: &mut Endpoint, row: &str) -> Result<Added, Fail> {
    let peer = epd_of(alloc, word(row, 2))?;
    let addresses = addresses(alloc, row)?;
    match end.add_row(peer.print, addresses.as_slice()) {
        Ok(()) => says(alloc, Ok(String::new(alloc))),
        Err(refusal) => says(alloc, format!(in alloc; "{refusal:?}")),
    }
}

/// Adds a row of one address for the end of a name, or says why not.
fn adds_one(alloc: Global, end: &mut Endpoint, name: &str) -> Result<Option<String>, Fail> {
    let peer = epd_of(alloc, name)?;
    match end.add_row(peer.print, &[address(0)]) {
        Ok(()) => Ok(None),
        Err(refusal) => Ok(Some(format!(in alloc; "{name} {refusal:?}")?)),
    }
}

/// Adds a row of one address for each of so many ends, up to the first that is refused.
fn adds_rows(alloc: Global, end: &mut Endpoint, count: u32) -> Result<Added, Fail> {
    for index in 0..count {
        let name = format!(in alloc; "peer{index}")?;
        if let Some(refusal) = adds_one(alloc, end, name.as_str())? {
            return says(alloc, Ok(refusal));
        }
    }
    says(alloc, Ok(String::new(alloc)))
}

fn introduces(alloc: Global, end: &mut Endpoint) -> Result<Added, Fail> {
    end.introduce();
    says(alloc, Ok(String::new(alloc)))
}

/// Narrows an end, where it may have the limit.
fn narrows(alloc: Global, end: &mut Endpoint, limit: u32) -> Result<Added, Fail> {
    if limit >= 96 && limit <= 1164 {
        end.narrow(limit as u16);
    }
    says(alloc, Ok(String::new(alloc)))
}

/// What was added, or why nothing was.
fn called<T: Drop>(
    alloc: Global,
    out: &Outbox,
    answer: Result<T, CallRefusal>,
) -> Result<Added, Fail> {
    match answer {
        Ok(_) => all_of(alloc, out),
        Err(refusal) => says(alloc, format!(in alloc; "{refusal:?}")),
    }
}

/// Opens a flow with a priority and metadata.
fn opens_flow(alloc: Global, end: &mut Endpoint, row: &str) -> Result<Added, Fail> {
    let mut out = outbox(alloc)?;
    let metadata = bytes(alloc, row, 4)?;
    let priority = (number(row, 3) % 256) as u8;
    let result = end.open_flow(
        number(row, 2),
        priority,
        metadata.as_slice(),
        None,
        &mut out,
    );
    called(alloc, &out, result)
}

/// A message of so many bytes.
fn message_with(alloc: Global, length: u32) -> Result<Vec<u8>, AllocError> {
    let mut message = Vec::new(alloc);
    message.resize(length as usize, 7)?;
    Ok(message)
}

/// Queues a message of so many bytes.
fn queues(alloc: Global, end: &mut Endpoint, row: &str) -> Result<Added, Fail> {
    let mut out = outbox(alloc)?;
    let message = message_with(alloc, number(row, 4))?;
    let options = MessageOptions {
        deadline: None,
        resends: None,
    };
    let flow = u64::from(number(row, 3));
    let result = end.queue(number(row, 2), flow, message.as_slice(), options, &mut out);
    called(alloc, &out, result)
}

fn abandons(alloc: Global, end: &mut Endpoint, row: &str) -> Result<Added, Fail> {
    let mut out = outbox(alloc)?;
    let (flow, seq) = (u64::from(number(row, 3)), u64::from(number(row, 4)));
    let result = end.abandon(number(row, 2), flow, seq, &mut out);
    called(alloc, &out, result)
}

fn finishes(alloc: Global, end: &mut Endpoint, row: &str) -> Result<Added, Fail> {
    let mut out = outbox(alloc)?;
    let result = end.finish(number(row, 2), u64::from(number(row, 3)), &mut out);
    called(alloc, &out, result)
}

/// What an end does with a flow, as a row says.
fn calls(alloc: Global, end: &mut Endpoint, row: &str) -> Result<Added, Fail> {
    match word(row, 0) {
        "flow" => opens_flow(alloc, end, row),
        "queue" => queues(alloc, end, row),
        "abandon" => abandons(alloc, end, row),
        _ => finishes(alloc, end, row),
    }
}

/// What an end does by itself, as a row says.
fn acts(alloc: Global, end: &mut Endpoint, row: &str) -> Result<Added, Fail> {
    let value = number(row, 2);
    match word(row, 0) {
        "open" => opens(alloc, end, row),
        "seek" => seeks(alloc, end, row),
        "unseek" => unseeks(alloc, end, value),
        "tick" => ticks(alloc, end, u64::from(value)),
        "cancel" => cancels(alloc, end, u64::from(value)),
        "close" => closes(alloc, end, value, u64::from(number(row, 3))),
        "introduce" => introduces(alloc, end),
        "narrow" => narrows(alloc, end, value),
        "row" => adds_row(alloc, end, row),
        "rows" => adds_rows(alloc, end, value),
        _ => calls(alloc, end, row),
    }
}

/// In which context a datagram opens at an end.
fn context_name(end: &Endpoint, datagram: &[u8]) -> &'static str {
    if datagram.len() > 2048 {
        return "too long";
    }
    match end.opens_in(datagram) {
        Some(Context::Startup { .. }) => "startup",
        Some(Context::Session { .. }) => "session",
        None => "none",
    }
}

/// The datagram that a member of the group makes, as a row says from a word on: of the startup
/// under a session ID, or in the session of the handshake with a count.
fn made(alloc: Global, row: &str, index: usize) -> Result<Vec<u8>, Fail> {
    let value = number(row, index.saturating_add(2));
    let plain = bytes(alloc, row, index.saturating_add(3))?;
    if word(row, index) == "session" {
        let context = to_responder(alloc)?;
        return sealed(alloc, &context, 6, u64::from(value), plain.as_slice());
    }
    sealed(
        alloc,
        &Context::Startup {
            generation: GENERATION,
        },
        value,
        1,
        plain.as_slice(),
    )
}

/// A caller and an answerer, the last datagram, one that is kept, and where the datagrams of the
/// last call went.
#[derive(Drop)]
pub(crate) struct Ends {
    pub(crate) a: Endpoint,
    pub(crate) b: Endpoint,
    last: Vec<u8>,
    kept: Vec<u8>,
    places: String,
}

impl Ends {
    pub(crate) fn new(alloc: Global) -> Result<Ends, Fail> {
        Ok(Ends {
            a: end(alloc, CALLER, 16, 16, false)?,
            b: end(alloc, ANSWERER, 16, 16, false)?,
            last: Vec::new(alloc),
            kept: Vec::new(alloc),
            places: String::new(alloc),
        })
    }

    /// The end of a name: the caller is `a`.
    fn end_of(&mut self, name: &str) -> &mut Endpoint {
        if name == "a" {
            &mut self.a
        } else {
            &mut self.b
        }
    }

    /// Keeps what an end added, and tells it.
    fn notes(&mut self, added: Added) -> String {
        self.last = added.last;
        self.places = added.places;
        added.text
    }

    /// Gives an end a datagram.
    fn gives(
        &mut self,
        alloc: Global,
        row: &str,
        from: u8,
        drawn: u32,
        datagram: &[u8],
    ) -> Result<String, Fail> {
        let moment = u64::from(number(row, 4));
        let added = receives(
            alloc,
            self.end_of(word(row, 1)),
            from,
            moment,
            drawn,
            datagram,
        )?;
        Ok(self.notes(added))
    }

    /// Gives the answerer a packet of the session of the handshake.
    fn hears(&mut self, alloc: Global, count: u64, plain: &[u8]) -> Result<String, Fail> {
        let datagram = sealed(alloc, &to_responder(alloc)?, 6, count, plain)?;
        let added = receives(alloc, &mut self.b, 1, 0, 8, datagram.as_slice())?;
        Ok(added.text)
    }

    /// A new end in the place of one, which introduces from the beginning where the row says so.
    fn renews(&mut self, alloc: Global, row: &str) -> Result<String, Fail> {
        let name = word(row, 1);
        let cert = if name == "a" { CALLER } else { ANSWERER };
        let introduces = word(row, 4) == "introducing";
        *self.end_of(name) = end(alloc, cert, number(row, 2), number(row, 3), introduces)?;
        Ok(String::new(alloc))
    }

    /// What one of them does by itself.
    fn acts(&mut self, alloc: Global, row: &str) -> Result<String, Fail> {
        let added = acts(alloc, self.end_of(word(row, 1)), row)?;
        Ok(self.notes(added))
    }

    /// Gives an end a datagram that a member of the group makes, from where the row says. The call
    /// of one of the session draws by its count.
    fn makes(&mut self, alloc: Global, row: &str) -> Result<String, Fail> {
        let datagram = made(alloc, row, 0)?;
        let from = (number(row, 5).max(1) % 256) as u8;
        let drawn = if word(row, 0) == "session" {
            number(row, 2)
        } else {
            4
        };
        self.gives(alloc, row, from, drawn, datagram.as_slice())
    }

    /// Gives an end the bytes of a row.
    fn hands(&mut self, alloc: Global, row: &str) -> Result<String, Fail> {
        let datagram = bytes(alloc, row, 2)?;
        self.gives(alloc, row, 1, 4, datagram.as_slice())
    }

    /// Gives an end the last datagram, or the one that is kept, as a row says.
    fn passes(&mut self, alloc: Global, row: &str) -> Result<String, Fail> {
        let kept = word(row, 0) == "kept";
        let datagram = if kept { &self.kept } else { &self.last };
        let datagram = Vec::from_slice(alloc, datagram.as_slice())?;
        let from = (number(row, 2) % 256) as u8;
        self.gives(alloc, row, from, number(row, 3), datagram.as_slice())
    }

    /// Keeps the last datagram.
    fn keeps(&mut self, alloc: Global) -> Result<String, Fail> {
        self.kept = Vec::from_slice(alloc, self.last.as_slice())?;
        Ok(String::new(alloc))
    }

    /// In which context the datagram of a row opens.
    fn tells(&mut self, alloc: Global, row: &str) -> Result<String, Fail> {
        let datagram = made(alloc, row, 1)?;
        let name = context_name(self.end_of(word(row, 2)), datagram.as_slice());
        Ok(String::from_str(alloc, name)?)
    }

    /// Gives the answerer a message of a byte in a flow, as a row says, or a fragment.
    fn takes(&mut self, alloc: Global, row: &str) -> Result<String, Fail> {
        let (count, value) = (u64::from(number(row, 1)), number(row, 2));
        if word(row, 0) == "message" {
            return self.hears(alloc, count, &message_of(value));
        }
        let plain = fragment_of(alloc, value, number(row, 3))?;
        self.hears(alloc, count, plain.as_slice())
    }

    /// How often a long message is handed over, whatever becomes of its datagrams.
    fn carries(&mut self, alloc: Global, row: &str) -> Result<String, Fail> {
        let path = match word(row, 1) {
            "whole" => Path::Whole,
            "reversed" => Path::Reversed,
            _ => Path::TenthIsLost,
        };
        let handed = handed_over(alloc, self, path)?;
        Ok(format!(in alloc; "{handed}")?)
    }

    /// What is told of the last datagram, or of where the datagrams of the last call went.
    fn shows(&self, alloc: Global, row: &str) -> Result<String, Fail> {
        match word(row, 0) {
            "plain" => opened(alloc, self.last.as_slice()),
            "bytes" => Ok(hex::encode(alloc, self.last.as_slice())?),
            _ => Ok(String::from_str(alloc, self.places.as_str())?),
        }
    }

    /// What comes of a datagram that a row gives an end.
    fn brings(&mut self, alloc: Global, row: &str) -> Result<String, Fail> {
        match word(row, 0) {
            "message" | "fragment" => self.takes(alloc, row),
            "last" | "kept" => self.passes(alloc, row),
            "raw" => self.hands(alloc, row),
            _ => self.makes(alloc, row),
        }
    }

    /// What comes of what a row does by itself, or with two ends.
    fn does(&mut self, alloc: Global, row: &str) -> Result<String, Fail> {
        match word(row, 0) {
            "new" => self.renews(alloc, row),
            "carry" => self.carries(alloc, row),
            "keep" => self.keeps(alloc),
            "opens" => self.tells(alloc, row),
            _ => self.acts(alloc, row),
        }
    }

    /// What comes of what a row says.
    pub(crate) fn told(&mut self, alloc: Global, row: &str) -> Result<String, Fail> {
        match word(row, 0) {
            "plain" | "bytes" | "places" => self.shows(alloc, row),
            "message" | "fragment" | "last" | "kept" | "raw" | "startup" | "session" => {
                self.brings(alloc, row)
            }
            _ => self.does(alloc, row),
        }
    }
}
