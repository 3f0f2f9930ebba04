//! The words of `serve`.
ghost use Rattle.std.specs.Prelude.{◌≡◌, ◌⊎◌, Some, None, Ok, Err, MatchResult, IfOk, map, string_bytes, nat_lt};
ghost use Rattle.std.specs.List.{list_all};
ghost use Rattle.rtmfp_words.specs.Node.{IsServe, Serving};
ghost use Rattle.rtmfp_words.specs.NodeReading.{is_node_name, node_name_of, advance_of, places_of, instance_of, journal_of, message_of, next_of, of_digits, send_of, serve_from, serve_of};

use crate::fault::WordsFault;
use crate::meet_words::turns_of;
use crate::opening_words::{OpeningWords, openings_of, print_of};
use crate::scan::{Scan, scan_behind};
use crate::values::{label_of, number_within};
use rtmfp_base::Message;
use rtmfp_forms::Address;
use rtmfp_script::{read_address, read_digits, read_sixteen};
use rtmfp_text::Name;
use std::alloc::Global;
use std::marker::Model;

/// What `serve` is told (own).
#[derive(Drop)]
pub struct ServeWords {
    /// Where datagrams come in.
    pub bind: Address,
    /// The secret of the group.
    pub group: [u8; 32],
    /// The name in the certificate, 1 to 64 ASCII bytes.
    pub name: Message,
    /// Whom to call at the start.
    pub openings: Vec<OpeningWords>,
    /// How many turns it takes, 1 to 1,000,000.
    pub turns: u64,
    /// The first bytes of the certificate, where they aren't drawn.
    pub instance: Option<[u8; 16]>,
    /// Whether it introduces ends to each other.
    pub introduce: bool,
    /// The message for each session that it opens, 1 to 1,000 bytes.
    pub send: Option<Message>,
    /// The secret of the group's next generation, where it is learnt; it isn't that of the group.
    pub next: Option<[u8; 32]>,
    /// The turn in which the end goes over to that, one of its turns.
    pub advance: Option<u64>,
    /// What the journal calls the end, where one is written in place of the report: 1 to 16 of a to
    /// z and 0 to 9.
    pub journal: Option<Name>,
}

impl Model for ServeWords {
    ghost use Rattle.rtmfp_words.specs.Node.{Serving};

    ghost Value = { Serving };

    ghost view = { λ s. record {
      bind = s.bind;
      group = s.group;
      name = s.name;
      openings = s.openings.items;
      turns = s.turns;
      instance = s.instance;
      introduce = s.introduce;
      send = s.send;
      next = s.next;
      advance = s.advance;
      journal = s.journal;
    } };
}

/// The plain words.
#[derive(Drop)]
struct PlaceWords {
    bind: Address,
    group: [u8; 32],
    name: Message,
    openings: Vec<OpeningWords>,
}

impl Model for PlaceWords {
    ghost use Rattle.rtmfp_words.specs.NodeReading.{Places};

    ghost Value = { Places };

    ghost view = { λ p. record {
      bind = p.bind;
      group = p.group;
      name = p.name;
      openings = p.openings.items;
    } };
}

/// What the words after the program's name tell `serve` (own).
///
/// They are `serve BIND GROUP NAME` and openings, with options between them: `--turns N`, which is
/// needed, and where wanted `--instance` with 32 digits, `--introduce`, `--send HEX`, `--next` with
/// 64 digits other than GROUP, with `--advance T` or without, and `--journal LABEL`, each once at
/// most. BIND is an address, GROUP is 64 digits, NAME is 1 to 64 ASCII bytes, an opening is 64
/// digits, or `n:` and the digits of 1 to 64 ASCII bytes, then `@` and an address, N is 1 to
/// 1,000,000, HEX is 1 to 1,000 bytes, T is 1 to N, and LABEL is 1 to 16 of a to z and 0 to 9. All
/// digits are lower-case.
pub fn read_serve_words(alloc: Global, words: &[String]) -> Result<ServeWords, WordsFault>
    // What is read is said.
    ensures reads { IfOk result (λ v. IsServe words.now v) }
    // What is said is read, unless there is no memory.
    ensures only { (v : Serving) → IsServe words.now v →
        (result ≡ Ok v) ⊎ (result ≡ Err WordsFault.Memory) }
{
    find_serve(alloc, words)
}

#[tactic(auto, unfolding(crate::specs::NodeReading::serve_of))]
fn find_serve(alloc: Global, words: &[String]) -> Result<ServeWords, WordsFault>
    ensures { MatchResult result (λ v. serve_of (map string_bytes words.now) ≡ Some v)
        (λ fault. fault ≡ WordsFault.Faulty → serve_of (map string_bytes words.now) ≡ None) }
{
    match scan_behind(alloc, b"serve", words) {
        Ok(scan) => match serve_from(alloc, &scan) {
            Ok(serve) => Ok(serve),
            Err(fault) => Err(fault),
        },
        Err(fault) => Err(fault),
    }
}

/// What plain words and options tell.
#[tactic(auto, unfolding(crate::specs::NodeReading::serve_from))]
fn serve_from(alloc: Global, scan: &Scan) -> Result<ServeWords, WordsFault>
    ensures { MatchResult result (λ v. serve_from scan.now ≡ Some v)
        (λ fault. fault ≡ WordsFault.Faulty → serve_from scan.now ≡ None) }
{
    if scan.port.is_some() {
        return Err(WordsFault::Faulty);
    }
    let places = match places_of(alloc, scan.plain.as_slice()) {
        Ok(places) => places,
        Err(fault) => return Err(fault),
    };
    let Some(turns) = turns_of(scan) else {
        return Err(WordsFault::Faulty);
    };
    let Some(instance) = instance_of(&scan.instance) else {
        return Err(WordsFault::Faulty);
    };
    let send = match send_of(alloc, &scan.send) {
        Ok(send) => send,
        Err(fault) => return Err(fault),
    };
    let group = places.group;
    let Some(next) = next_of(&group, &scan.next) else {
        return Err(WordsFault::Faulty);
    };
    let Some(advance) = advance_of(&next, turns, &scan.advance) else {
        return Err(WordsFault::Faulty);
    };
    let Some(journal) = journal_of(&scan.journal) else {
        return Err(WordsFault::Faulty);
    };
    Ok(ServeWords {
        bind: places.bind,
        group,
        name: places.name,
        openings: places.openings,
        turns,
        instance,
        introduce: scan.introduce,
        send,
        next,
        advance,
        journal,
    })
}

/// What the plain words are.
#[tactic(auto, unfolding(crate::specs::NodeReading::places_of))]
fn places_of(alloc: Global, words: &[Message]) -> Result<PlaceWords, WordsFault>
    ensures { MatchResult result (λ places. places_of words.now ≡ Some places)
        (λ fault. fault ≡ WordsFault.Faulty → places_of words.now ≡ None) }
{
    let [bind, group, name, openings @ ..] = words else {
        return Err(WordsFault::Faulty);
    };
    let Some(bind) = read_address(bind.bytes()) else {
        return Err(WordsFault::Faulty);
    };
    let Some(group) = print_of(group.bytes()) else {
        return Err(WordsFault::Faulty);
    };
    let name = match node_name_of(alloc, name.bytes()) {
        Ok(name) => name,
        Err(fault) => return Err(fault),
    };
    match openings_of(alloc, openings) {
        Ok(openings) => Ok(PlaceWords {
            bind,
            group,
            name,
            openings,
        }),
        Err(fault) => Err(fault),
    }
}

/// The name that a word is.
#[tactic(auto, unfolding(crate::specs::NodeReading::node_name_of))]
fn node_name_of(alloc: Global, word: &[u8]) -> Result<Message, WordsFault>
    ensures { MatchResult result (λ name. node_name_of word.now ≡ Some name)
        (λ fault. fault ≡ WordsFault.Faulty → node_name_of word.now ≡ None) }
{
    if !is_node_name(word) {
        return Err(WordsFault::Faulty);
    }
    match Message::copy_of(alloc, word) {
        Ok(name) => Ok(name),
        Err(_) => Err(WordsFault::Memory),
    }
}

/// Whether a word is 1 to 64 ASCII bytes.
fn is_node_name(word: &[u8]) -> bool
    ensures { result ≡ is_node_name word.now }
{
    !word.is_empty() && word.len() <= 64 && all_ascii(word)
}

fn all_ascii(word: &[u8]) -> bool
    ensures { result ≡ list_all (λ b. nat_lt b 128) word.now }
{
    word.iter().all(|b| *b < 0x80)
}

/// The instance bytes, where they are told.
#[tactic(auto, unfolding(crate::specs::NodeReading::instance_of, crate::specs::NodeReading::of_digits))]
fn instance_of(value: &Option<Message>) -> Option<Option<[u8; 16]>>
    ensures { result ≡ instance_of value.now }
{
    match value {
        Some(word) => {
            if word.len() != 32 {
                return None;
            }
            match read_sixteen(word.bytes()) {
                Some(bytes) => Some(Some(bytes)),
                None => None,
            }
        }
        None => Some(None),
    }
}

/// The secret of the next generation, where it is told: another one than that of the group.
#[tactic(auto, unfolding(crate::specs::NodeReading::next_of))]
fn next_of(group: &[u8; 32], value: &Option<Message>) -> Option<Option<[u8; 32]>>
    ensures { result ≡ next_of group.now value.now }
{
    match value {
        Some(word) => {
            let next = print_of(word.bytes())?;
            if next == *group {
                return None;
            }
            Some(Some(next))
        }
        None => Some(None),
    }
}

/// The turn in which the end goes over, where it is told: one of so many, where there is a next
/// secret.
#[tactic(auto, unfolding(crate::specs::NodeReading::advance_of))]
fn advance_of(next: &Option<[u8; 32]>, turns: u64, value: &Option<Message>) -> Option<Option<u64>>
    ensures { result ≡ advance_of next.now turns value.now }
{
    match value {
        Some(word) => {
            if next.is_none() {
                return None;
            }
            Some(Some(number_within(1, turns, word.bytes())?))
        }
        None => Some(None),
    }
}

/// What the journal calls the end, where it is told.
#[tactic(auto, unfolding(crate::specs::NodeReading::journal_of))]
fn journal_of(value: &Option<Message>) -> Option<Option<Name>>
    ensures { result ≡ journal_of value.now }
{
    match value {
        Some(word) => Some(Some(label_of(word.bytes())?)),
        None => Some(None),
    }
}

/// The message, where one is told.
#[tactic(auto, unfolding(crate::specs::NodeReading::send_of))]
fn send_of(alloc: Global, value: &Option<Message>) -> Result<Option<Message>, WordsFault>
    ensures { MatchResult result (λ send. send_of value.now ≡ Some send)
        (λ fault. fault ≡ WordsFault.Faulty → send_of value.now ≡ None) }
{
    match value {
        Some(word) => match message_of(alloc, word.bytes()) {
            Ok(bytes) => Ok(Some(bytes)),
            Err(fault) => Err(fault),
        },
        None => Ok(None),
    }
}

/// The message that a value is.
#[tactic(auto, unfolding(crate::specs::NodeReading::message_of))]
fn message_of(alloc: Global, word: &[u8]) -> Result<Message, WordsFault>
    ensures { MatchResult result (λ bytes. message_of word.now ≡ Some bytes)
        (λ fault. fault ≡ WordsFault.Faulty → message_of word.now ≡ None) }
{
    if word.is_empty() || word.len() > 2000 {
        return Err(WordsFault::Faulty);
    }
    match read_digits(alloc, word) {
        Ok(Some(bytes)) => Ok(bytes),
        Ok(None) => Err(WordsFault::Faulty),
        Err(_) => Err(WordsFault::Memory),
    }
}
