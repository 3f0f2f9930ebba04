//! Translators and places.

ghost use Rattle.std.specs.Prelude.{◌≡◌, ◌<◌, length, Err, Ok, OnOk, OnErr, IfOk, IfErr, IfSome, IfNone, true, false};
ghost use Rattle.std.specs.List.{list_any, position};
ghost use Rattle.translators.specs.Translator.{new_translator};
ghost use Rattle.end_places.specs.Seen.{PlacesSeen, no_places, is_called, has_host_of, is_plain_on, is_anothers, lacks_translator, is_on_translator, translator_at, is_bad_translator, with_translator, is_bad_place, with_place, has_number, standing_at};
ghost use Rattle.end_places.specs.Carrying.{carried_of, after_carry, carry_news, news_by, translator_of, call_from, WasCarried};

use crate::carried::{Carried, PlacesRefusal};
use crate::matching::{
    find_end, has_host_of, has_number, has_public_host, is_anothers, is_called, is_plain_on,
};
use crate::standing::{NamedTranslator, Standing};
use rtmfp_forms::Address;
use rtmfp_text::Name;
use std::alloc::{AllocError, Global};
use std::marker::Model;
use translators::{News, Rule, Translator};

/// The most translators.
const MOST_TRANSLATORS: usize = 256;

/// Translators by their numbers, from 0 in the order in which they came, and the places of ends.
#[derive(Drop)]
pub struct Places {
    pub(crate) alloc: Global,
    pub(crate) translators: Vec<NamedTranslator>,
    pub(crate) ends: Vec<Standing>,
}

impl Model for Places {
    ghost use Rattle.end_places.specs.contracts.standing.NamedTranslator as translator_type;
    ghost use Rattle.end_places.specs.contracts.standing.Standing as standing_type;
    ghost use Rattle.end_places.specs.Seen.{PlacesSeen, places_code};

    ghost Value = { PlacesSeen };

    ghost coded = { places_code translator_type.the_row.coded standing_type.the_row.coded };

    ghost view = { λ p. record { translators = p.translators.items; ends = p.ends.items } };
}

impl Places {
    /// No translator, and no end has a place. It takes no memory.
    pub fn new(alloc: Global) -> Places
        ensures { result ≡ no_places }
    {
        Places {
            alloc,
            translators: Vec::new(alloc),
            ends: Vec::new(alloc),
        }
    }

    /// Adds a translator without mappings. It is bad exactly where one has its name, its first port
    /// is 0, there are 256, or its host is that of another or of an end that is placed without one.
    pub fn add(
        &mut self,
        name: &Name,
        mapping: Rule,
        filter: Rule,
        host: [u8; 4],
        first: u16,
    ) -> Result<(), PlacesRefusal>
        ensures ok { OnOk result (self.new ≡ with_translator self.old name.now
            (new_translator mapping filter host first)) }
        ensures bad { is_bad_translator self.old name.now host first ≡ true →
            result ≡ Err PlacesRefusal.Bad }
        ensures memory { is_bad_translator self.old name.now host first ≡ false →
            IfErr result (λ refusal. refusal ≡ PlacesRefusal.Memory) }
        ensures err { OnErr result (self.new ≡ self.old) }
    {
        if self.is_bad_translator(name, host, first) {
            return Err(PlacesRefusal::Bad);
        }
        let named = NamedTranslator {
            name: name.again(),
            translator: Translator::new(self.alloc, mapping, filter, host, first),
        };
        match self.translators.push(named) {
            Ok(()) => Ok(()),
            Err(_) => Err(PlacesRefusal::Memory),
        }
    }

    /// Whether a translator with this name, host and first port is bad.
    fn is_bad_translator(&self, name: &Name, host: [u8; 4], first: u16) -> bool
        ensures { result ≡ is_bad_translator self.now name.now host first }
    {
        self.has_name(name)
            || first == 0
            || self.translators.len() >= MOST_TRANSLATORS
            || self.has_host(host)
            || self.stands_on(host)
    }

    /// Whether a translator has this name.
    fn has_name(&self, name: &Name) -> bool
        ensures { result ≡ list_any (is_called name.now) self.now.translators }
    {
        self.translators.iter().any(|named| is_called(named, name))
    }

    /// Whether a translator has this host.
    fn has_host(&self, host: [u8; 4]) -> bool
        ensures { result ≡ list_any (has_host_of host) self.now.translators }
    {
        self.translators
            .iter()
            .any(|named| has_host_of(named, host))
    }

    /// Whether an end stands on this host without a translator.
    fn stands_on(&self, host: [u8; 4]) -> bool
        ensures { result ≡ list_any (is_plain_on host) self.now.ends }
    {
        self.ends.iter().any(|standing| is_plain_on(standing, host))
    }

    /// Places an end, behind the translator with this number or without one; a second place moves
    /// it. It is bad exactly where there is no such translator, where another end has that place
    /// behind the same translator, or, without one, where another end has it without one, or its
    /// host is a translator's. Places are told apart by family, host and port, whatever their
    /// origin.
    pub fn place(
        &mut self,
        end: usize,
        at: &Address,
        behind: Option<usize>,
    ) -> Result<(), PlacesRefusal>
        ensures ok { OnOk result (self.new ≡ with_place self.old end at.now behind) }
        ensures bad { is_bad_place self.old end at.now behind ≡ true →
            result ≡ Err PlacesRefusal.Bad }
        ensures memory { is_bad_place self.old end at.now behind ≡ false →
            IfErr result (λ refusal. refusal ≡ PlacesRefusal.Memory) }
        ensures err { OnErr result (self.new ≡ self.old) }
    {
        if self.is_bad_place(end, at, behind) {
            return Err(PlacesRefusal::Bad);
        }
        let standing = Standing {
            end,
            at: *at,
            behind,
        };
        match put(&mut self.ends, standing) {
            Ok(()) => Ok(()),
            Err(_) => Err(PlacesRefusal::Memory),
        }
    }

    /// Whether a place is bad for an end.
    fn is_bad_place(&self, end: usize, at: &Address, behind: Option<usize>) -> bool
        ensures { result ≡ is_bad_place self.now end at.now behind }
    {
        self.lacks_translator(behind)
            || self.is_anothers(end, at, behind)
            || self.is_on_translator(at, behind)
    }

    /// Whether a place is to be behind a translator that isn't there.
    fn lacks_translator(&self, behind: Option<usize>) -> bool
        ensures { result ≡ lacks_translator self.now behind }
    {
        match behind {
            None => false,
            Some(number) => number >= self.translators.len(),
        }
    }

    /// Whether another end than this one stands there.
    fn is_anothers(&self, end: usize, at: &Address, behind: Option<usize>) -> bool
        ensures { result ≡ list_any (is_anothers end at.now behind) self.now.ends }
    {
        self.ends
            .iter()
            .any(|standing| is_anothers(standing, end, at, behind))
    }

    /// Whether a place without a translator is on the host of one.
    fn is_on_translator(&self, at: &Address, behind: Option<usize>) -> bool
        ensures { result ≡ is_on_translator self.now at.now behind }
    {
        match behind {
            None => self.translator_at(at).is_some(),
            Some(_) => false,
        }
    }

    /// Carries what an end sends to an address: outward through its translator, if it stands behind
    /// one, then inward through the one that has the host, if there is one, to the end at that
    /// place. `Lost` has the reasons why it doesn't arrive; an outward step that was made stands
    /// also then. It is bad exactly where the sender has no place.
    pub fn carry(&mut self, sender: usize, to: &Address) -> Result<Carried, PlacesRefusal>
        ensures answer { IfOk result (λ carried.
            carried_of self.old sender to.now ≡ Some carried) }
        ensures ok { OnOk result (self.new ≡ after_carry self.old sender to.now) }
        ensures bad { IfNone (carried_of self.old sender to.now)
            (result ≡ Err PlacesRefusal.Bad) }
        ensures memory { IfSome (carried_of self.old sender to.now)
            (λ carried. IfErr result (λ refusal. refusal ≡ PlacesRefusal.Memory)) }
        ensures err { OnErr result (self.new ≡ self.old) }
    {
        let Some(standing) = find_end(self.ends.as_slice(), sender) else {
            return Err(PlacesRefusal::Bad);
        };
        match self.outward(&standing, to) {
            Ok(out) => Ok(self.carried_on(&out, to)),
            Err(_) => Err(PlacesRefusal::Memory),
        }
    }

    /// What `carry` would make at the sender's translator that isn't there. It changes nothing and
    /// takes no memory.
    pub fn news(&self, sender: usize, to: &Address) -> News
        ensures { result ≡ carry_news self.now sender to.now }
    {
        let Some(standing) = find_end(self.ends.as_slice(), sender) else {
            return News::Nothing;
        };
        self.news_from(&standing, to)
    }

    /// The same, where it is sent from here.
    fn news_from(&self, standing: &Standing, to: &Address) -> News
        ensures { result ≡ news_by (translator_of self.now standing.now.behind)
            (call_from standing.now to.now) }
    {
        let Some(number) = standing.behind else {
            return News::Nothing;
        };
        let Some(named) = self.translators.get(number) else {
            return News::Nothing;
        };
        named.translator.news(&standing.at, to)
    }

    /// Takes back what was carried just now, arrived, and made this: all is as it was before it. It
    /// takes no memory.
    pub fn take_back(&mut self, sender: usize, to: &Address, news: News)
        requires { (before : PlacesSeen) × WasCarried before sender to.now news self.old }
        ensures { (before : PlacesSeen) → WasCarried before sender to.now news self.old →
            self.new ≡ before }
    {
        let Some(standing) = find_end(self.ends.as_slice(), sender) else {
            return;
        };
        let Some(number) = standing.behind else {
            return;
        };
        let Some(named) = self.translators.get_mut(number) else {
            return;
        };
        named.translator.take_back(&standing.at, to, news);
    }

    /// The number of the translator with this name.
    pub fn translator_named(&self, name: &Name) -> Option<usize>
        ensures { result ≡ position (is_called name.now) self.now.translators }
    {
        self.translators
            .iter()
            .position(|named| is_called(named, name))
    }

    /// The number of the translator whose host an address has.
    pub(crate) fn translator_at(&self, at: &Address) -> Option<usize>
        ensures { result ≡ translator_at self.now at.now }
    {
        self.translators
            .iter()
            .position(|named| has_public_host(named, at))
    }
}

/// Puts an end to a place, wherever it stood before.
fn put(ends: &mut Vec<Standing>, standing: Standing) -> Result<(), AllocError>
    ensures ok { OnOk result (ends.new.items ≡ standing_at ends.old.items standing) }
    ensures err { OnErr result (ends.new.items ≡ ends.old.items) }
{
    match index_of(ends.as_slice(), standing.end) {
        Some(index) => ends[index] = standing,
        None => ends.push(standing)?,
    }
    Ok(())
}

/// Where among places that of an end stands.
fn index_of(ends: &[Standing], end: usize) -> Option<usize>
    ensures index { result ≡ position (has_number end) ends.now }
    ensures bound { IfSome result (λ index. index < length ends.now) }
{
    ends.iter().position(|standing| has_number(standing, end))
}
