//! A translator and its two ways.

ghost use Rattle.std.specs.Prelude.{◌≡◌, ◌≤◌, Err, OnOk, OnErr, IfOk, IfErr, IfSome, IfNone, option_copied};
ghost use Rattle.translators.specs.Mappings.{from_to};
ghost use Rattle.translators.specs.Translator.{TranslatorState, new_translator, out_refusal, public_of, after_use, inward_of, mapping_at};
ghost use Rattle.translators.specs.Undoing.{news_of, WentOut};

use crate::mapping::Mapping;
use crate::mappings::Mappings;
use crate::news::News;
use crate::refusal::{InRefusal, OutRefusal};
use crate::rule::Rule;
use rtmfp_forms::Address;
use std::alloc::Global;
use std::marker::Model;

/// The last port.
const LAST_PORT: usize = 65535;

/// A translator: which mappings it makes, what it lets in, its public host, the first of its ports,
/// and the mappings in the order of their ports.
#[derive(Drop)]
pub struct Translator {
    mappings: Mappings,
    filter: Rule,
    host: [u8; 4],
    first: u16,
}

impl Model for Translator {
    ghost use Rattle.std.specs.Prelude.{◌+◌, ◌≤◌, length};
    ghost use Rattle.rtmfp_forms.specs.contracts.address.Address as address_type;
    ghost use Rattle.translators.specs.contracts.rule.Rule as rule_type;
    ghost use Rattle.translators.specs.Mappings.{mapped_code};
    ghost use Rattle.translators.specs.Translator.{TranslatorState, translator_code};

    ghost Value = { TranslatorState };

    ghost coded = { translator_code rule_type.the_row.coded
        (mapped_code address_type.the_row.coded) };

    ghost view = { λ t. record {
      mapping = t.mappings.rule;
      filter = t.filter;
      host = t.host;
      first = t.first;
      mappings = t.mappings.list;
    } };

    ghost invariant = { λ t. t.first + length t.mappings.list ≤ 65536 };
}

impl Translator {
    /// A translator without mappings, by the rule that they are made by, the filter, the public host
    /// and the first port (own). It takes no memory.
    pub fn new(alloc: Global, mapping: Rule, filter: Rule, host: [u8; 4], first: u16) -> Translator
        requires { 1 ≤ first }
        ensures { result ≡ new_translator mapping filter host first }
    {
        Translator {
            mappings: Mappings::new(alloc, mapping),
            filter,
            host,
            first,
        }
    }

    /// Its public host.
    pub fn host(&self) -> [u8; 4]
        ensures { result ≡ self.now.host }
    {
        self.host
    }

    /// What `outward` would make of this that isn't there. It changes nothing and takes no memory.
    pub fn news(&self, inner: &Address, to: &Address) -> News
        ensures { result ≡ news_of self.now (from_to inner.now to.now) }
    {
        if inner.v6 {
            return News::Nothing;
        }
        match self.mappings.get(self.mappings.place_of(inner, to)) {
            None => News::NewMapping,
            Some(mapping) => {
                if mapping.was_used(&to.host) {
                    News::Nothing
                } else {
                    News::NewHost
                }
            }
        }
    }

    /// Takes back what went out just now and made this: all is as it was before it. It takes no
    /// memory.
    pub fn take_back(&mut self, inner: &Address, to: &Address, news: News)
        requires { (before : TranslatorState) ×
            WentOut before (from_to inner.now to.now) news self.old }
        ensures { (before : TranslatorState) →
            WentOut before (from_to inner.now to.now) news self.old → self.new ≡ before }
    {
        match news {
            News::Nothing => {}
            News::NewHost => self.mappings.take_host_back(inner, to),
            News::NewMapping => self.mappings.take_mapping_back(inner, to),
        }
    }

    /// Takes what goes out from an inner place to an address, and gives the public address that it
    /// goes out from, of unknown origin (own). `OutRefusal` has the reasons why not, in their order.
    pub fn outward(&mut self, inner: &Address, to: &Address) -> Result<Address, OutRefusal>
        ensures answer { IfOk result (λ address. address
            ≡ public_of self.old (from_to inner.now to.now)) }
        ensures ok { OnOk result (self.new ≡ after_use self.old (from_to inner.now to.now)) }
        ensures refused { IfSome (out_refusal self.old (from_to inner.now to.now))
            (λ refusal. result ≡ Err refusal) }
        ensures memory { IfNone (out_refusal self.old (from_to inner.now to.now))
            (IfErr result (λ refusal. refusal ≡ OutRefusal.Memory)) }
        ensures err { OnErr result (self.new ≡ self.old) }
    {
        if inner.v6 || to.v6 {
            return Err(OutRefusal::Family);
        }
        let count = self.mappings.len();
        let place = self.mappings.place_of(inner, to);
        if place == count && self.first as usize + count > LAST_PORT {
            return Err(OutRefusal::PortsFull(count as u64));
        }
        match self.mappings.take_call(place, inner, to) {
            Ok(()) => Ok(Address::v4(self.host, (self.first as usize + place) as u16)),
            Err(_) => Err(OutRefusal::Memory),
        }
    }

    /// The mapping of a public address.
    fn mapping_at(&self, to: &Address) -> Option<&Mapping>
        ensures { option_copied result ≡ mapping_at self.now to.now }
    {
        let public = Address::v4(self.host, to.port);
        if to.v6 || to.host != public.host || to.port < self.first {
            return None;
        }
        self.mappings.get((to.port - self.first) as usize)
    }

    /// Takes what comes from an address to a public address, and gives the inner place that it goes
    /// to, of unknown origin (own). `InRefusal` has the reasons why not, in their order. It changes
    /// nothing and takes no memory.
    pub fn inward(&self, to: &Address, from: &Address) -> Result<Address, InRefusal>
        ensures { result ≡ inward_of self.now to.now from.now }
    {
        let Some(mapping) = self.mapping_at(to) else {
            return Err(InRefusal::Unmapped);
        };
        if self.filter == Rule::Dependent && (from.v6 || !mapping.was_used(&from.host)) {
            return Err(InRefusal::Filtered);
        }
        Ok(mapping.inner())
    }
}
