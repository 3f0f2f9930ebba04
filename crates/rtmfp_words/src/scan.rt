//! Plain words and options, as they stand behind a command.
ghost use Rattle.std.specs.Prelude.{◌≡◌, ◌∷◌, ◌≤◌, Some, None, MatchOption, MatchResult, IfOk, is_none, length, map, string_bytes, true, false, [], ◌++◌};
ghost use Rattle.rtmfp_words.specs.Items.{empty, is_hyphened};
ghost use Rattle.rtmfp_words.specs.ItemReading.{name_of, joined_of, put, scan_of};
ghost use Rattle.rtmfp_words.specs.NodeReading.{scan_behind};
ghost use Rattle.rtmfp_words.specs.Scanning.{Tells, Steps, filled, single_added, scan_with};

use crate::fault::WordsFault;
use crate::words::{behind, next_word};
use rtmfp_base::Message;
use std::alloc::Global;
use std::marker::Model;

/// The name of an option that has a value.
#[derive(Clone, Copy)]
pub(crate) enum OptionName {
    /// `--turns`
    Turns,
    /// `--port`
    Port,
    /// `--instance`
    Instance,
    /// `--send`
    Send,
    /// `--next`
    Next,
    /// `--advance`
    Advance,
    /// `--journal`
    Journal,
}

/// The plain words in their order, and the values of options that stand once at most.
#[derive(Drop)]
pub(crate) struct Scan {
    pub(crate) plain: Vec<Message>,
    pub(crate) turns: Option<Message>,
    pub(crate) port: Option<Message>,
    pub(crate) instance: Option<Message>,
    pub(crate) send: Option<Message>,
    pub(crate) next: Option<Message>,
    pub(crate) advance: Option<Message>,
    pub(crate) journal: Option<Message>,
    pub(crate) introduce: bool,
}

impl Model for Scan {
    ghost use Rattle.rtmfp_words.specs.Items.{Scanned};

    ghost Value = { Scanned };

    ghost view = { λ s. record {
      plain = s.plain.items;
      turns = s.turns;
      port = s.port;
      instance = s.instance;
      send = s.send;
      next = s.next;
      advance = s.advance;
      journal = s.journal;
      introduce = s.introduce;
    } };
}

impl Scan {
    fn empty(alloc: Global) -> Scan
        ensures { result ≡ empty }
    {
        Scan {
            plain: Vec::new(alloc),
            turns: None,
            port: None,
            instance: None,
            send: None,
            next: None,
            advance: None,
            journal: None,
            introduce: false,
        }
    }

    /// An option with its value; not one that is there already.
    #[tactic(auto, unfolding(crate::specs::ItemReading::put))]
    fn put(&mut self, name: OptionName, value: Message) -> bool
        ensures { Tells (put self.old name value) result self.new }
    {
        match name {
            OptionName::Turns => fill(&mut self.turns, value),
            OptionName::Port => fill(&mut self.port, value),
            OptionName::Instance => fill(&mut self.instance, value),
            OptionName::Send => fill(&mut self.send, value),
            OptionName::Next => fill(&mut self.next, value),
            OptionName::Advance => fill(&mut self.advance, value),
            OptionName::Journal => fill(&mut self.journal, value),
        }
    }

    /// `--introduce`, once.
    fn put_introduce(&mut self) -> bool
        ensures once { result ≡ true → self.new ≡ record self.old { introduce = true } }
        ensures twice { result ≡ false → self.old.introduce ≡ true }
        ensures first { result ≡ true → self.old.introduce ≡ false }
    {
        if self.introduce {
            return false;
        }
        self.introduce = true;
        true
    }

    /// A plain word.
    fn put_plain(&mut self, alloc: Global, word: &[u8]) -> bool
        ensures { result ≡ true → self.new ≡
            record self.old { plain = self.old.plain ++ word.now ∷ [] } }
    {
        match Message::copy_of(alloc, word) {
            Ok(word) => self.plain.push(word).is_ok(),
            Err(_) => false,
        }
    }

    /// A word that is an item of its own.
    #[tactic(auto, unfolding(crate::specs::Scanning::single_added, crate::specs::ItemReading::single_of, crate::specs::ItemReading::add))]
    fn put_single(&mut self, alloc: Global, word: &[u8]) -> Result<(), WordsFault>
        ensures { Steps (single_added self.old word.now) result self.new }
    {
        if !is_hyphened(word) {
            if self.put_plain(alloc, word) {
                return Ok(());
            }
            return Err(WordsFault::Memory);
        }
        if word == b"--introduce".as_slice() {
            if self.put_introduce() {
                return Ok(());
            }
            return Err(WordsFault::Faulty);
        }
        let Some((name, value)) = joined_of(word) else {
            return Err(WordsFault::Faulty);
        };
        self.put_copy(alloc, name, value)
    }

    /// An option with a copy of its value.
    fn put_copy(&mut self, alloc: Global, name: OptionName, value: &[u8]) -> Result<(), WordsFault>
        ensures { Steps (put self.old name value.now) result self.new }
    {
        let Ok(value) = Message::copy_of(alloc, value) else {
            return Err(WordsFault::Memory);
        };
        if self.put(name, value) {
            return Ok(());
        }
        Err(WordsFault::Faulty)
    }

    /// The item that stands in front, and the words behind it.
    fn take<'a>(
        &mut self,
        alloc: Global,
        word: &[u8],
        after: &'a [String],
    ) -> Result<&'a [String], WordsFault>
        ensures goes { MatchResult result
            (λ rest. scan_with self.old (word.now ∷ map string_bytes after.now)
            ≡ scan_with self.new (map string_bytes rest.now))
            (λ fault. fault ≡ WordsFault.Faulty
            → scan_with self.old (word.now ∷ map string_bytes after.now) ≡ None) }
        ensures shorter { IfOk result (λ rest. length rest.now ≤ length after.now) }
    {
        match name_of(word) {
            Some(name) => match after.split_first() {
                Some((value, rest)) => match self.put_copy(alloc, name, value.as_bytes()) {
                    Ok(()) => Ok(rest),
                    Err(fault) => Err(fault),
                },
                None => Err(WordsFault::Faulty),
            },
            None => match self.put_single(alloc, word) {
                Ok(()) => Ok(after),
                Err(fault) => Err(fault),
            },
        }
    }
}

/// The plain words and the options of words, each option once at most.
pub(crate) fn scan_words(alloc: Global, words: &[String]) -> Result<Scan, WordsFault>
    ensures { MatchResult result (λ scan. scan_of (map string_bytes words.now) ≡ Some scan)
        (λ fault. fault ≡ WordsFault.Faulty → scan_of (map string_bytes words.now) ≡ None) }
{
    let mut scan = Scan::empty(alloc);
    let mut rest = words;
    while let [word, after @ ..] = rest {
        rest = match scan.take(alloc, word.as_bytes(), after) {
            Ok(rest) => rest,
            Err(fault) => return Err(fault),
        };
    }
    Ok(scan)
}

/// The plain words and the options behind a command.
#[tactic(auto, unfolding(crate::specs::NodeReading::scan_behind))]
pub(crate) fn scan_behind(
    alloc: Global,
    command: &[u8],
    words: &[String],
) -> Result<Scan, WordsFault>
    ensures { MatchResult result
        (λ scan. scan_behind command.now (map string_bytes words.now) ≡ Some scan)
        (λ fault. fault ≡ WordsFault.Faulty
        → scan_behind command.now (map string_bytes words.now) ≡ None) }
{
    let Some((word, rest)) = next_word(words) else {
        return Err(WordsFault::Faulty);
    };
    if word != command {
        return Err(WordsFault::Faulty);
    }
    scan_words(alloc, rest)
}

/// A value, if there is none yet.
fn fill(place: &mut Option<Message>, value: Message) -> bool
    ensures told { result ≡ is_none place.old }
    ensures after { place.new ≡ filled place.old value }
{
    if place.is_some() {
        return false;
    }
    *place = Some(value);
    true
}

/// The option that has this name.
#[tactic(auto, unfolding(crate::specs::ItemReading::name_of))]
fn name_of(word: &[u8]) -> Option<OptionName>
    ensures { result ≡ name_of word.now }
{
    if word == b"--turns".as_slice() {
        return Some(OptionName::Turns);
    }
    if word == b"--port".as_slice() {
        return Some(OptionName::Port);
    }
    if word == b"--instance".as_slice() {
        return Some(OptionName::Instance);
    }
    if word == b"--send".as_slice() {
        return Some(OptionName::Send);
    }
    if word == b"--next".as_slice() {
        return Some(OptionName::Next);
    }
    if word == b"--advance".as_slice() {
        return Some(OptionName::Advance);
    }
    if word == b"--journal".as_slice() {
        return Some(OptionName::Journal);
    }
    None
}

/// The option that is one word, with its value.
#[tactic(auto, unfolding(crate::specs::ItemReading::joined_of))]
fn joined_of(word: &[u8]) -> Option<(OptionName, &[u8])>
    ensures { MatchOption result (joined_of word.now ≡ None) (λ p. joined_of word.now
        ≡ Some (p.0, p.1.now)) }
{
    if let Some(value) = behind(b"--turns=", word) {
        return Some((OptionName::Turns, value));
    }
    if let Some(value) = behind(b"--port=", word) {
        return Some((OptionName::Port, value));
    }
    if let Some(value) = behind(b"--instance=", word) {
        return Some((OptionName::Instance, value));
    }
    if let Some(value) = behind(b"--send=", word) {
        return Some((OptionName::Send, value));
    }
    if let Some(value) = behind(b"--next=", word) {
        return Some((OptionName::Next, value));
    }
    if let Some(value) = behind(b"--advance=", word) {
        return Some((OptionName::Advance, value));
    }
    match behind(b"--journal=", word) {
        Some(value) => Some((OptionName::Journal, value)),
        None => None,
    }
}

fn is_hyphened(word: &[u8]) -> bool
    ensures { result ≡ is_hyphened word.now }
{
    match word {
        [] => false,
        [byte, ..] => *byte == b'-',
    }
}
