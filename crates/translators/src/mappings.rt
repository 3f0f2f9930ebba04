//! All mappings, in the order of their ports.

ghost use Rattle.std.specs.Prelude.{◌≡◌, ◌≤◌, List, [], ◌∷◌, ◌++◌, OnOk, OnErr, length, slice_get, false, option_copied};
ghost use Rattle.translators.specs.Mappings.{Mapped, from_to, place_of, with_use};
ghost use Rattle.translators.specs.Places.{MappingList, MadeMapping, MadeHost, no_mappings, after_call, IsIndex};

use crate::mapping::Mapping;
use crate::places::{Key, place_or};
use crate::rule::Rule;
use rtmfp_forms::Address;
use std::alloc::{AllocError, Global};
use std::collections::HashMap;
use std::marker::Model;

/// The mappings that calls made, and the place of each by what it is found by.
#[derive(Drop)]
pub(crate) struct Mappings {
    alloc: Global,
    rule: Rule,
    list: Vec<Mapping>,
    places: HashMap<Key, usize>,
}

impl Model for Mappings {
    ghost use Rattle.rtmfp_forms.specs.contracts.address.Address as address_type;
    ghost use Rattle.translators.specs.contracts.rule.Rule as rule_type;
    ghost use Rattle.translators.specs.Mappings.{mapped_code};
    ghost use Rattle.translators.specs.Places.{MappingList, mapping_list_code, IsIndex};

    ghost Value = { MappingList };

    ghost coded = { mapping_list_code rule_type.the_row.coded
        (mapped_code address_type.the_row.coded) };

    ghost view = { λ m. record { rule = m.rule; list = m.list.items } };

    ghost invariant = { λ m. IsIndex m.rule m.places m.list.items };
}

impl Mappings {
    /// None is there. It takes no memory.
    pub fn new(alloc: Global, rule: Rule) -> Mappings
        ensures { result ≡ no_mappings rule }
    {
        Mappings {
            alloc,
            rule,
            list: Vec::new(alloc),
            places: HashMap::new(alloc),
        }
    }

    /// How many there are.
    pub fn len(&self) -> usize
        ensures { result ≡ length self.now.list }
    {
        self.list.len()
    }

    /// The mapping at a place.
    pub fn get(&self, place: usize) -> Option<&Mapping>
        ensures { option_copied result ≡ slice_get self.now.list place }
    {
        self.list.get(place)
    }

    /// How many stand before that of a call; all of them, where it has none yet.
    pub fn place_of(&self, inner: &Address, to: &Address) -> usize
        requires { inner.now.v6 ≡ false }
        ensures place { result ≡ place_of self.now.rule self.now.list (from_to inner.now to.now) }
        ensures most { result ≤ length self.now.list }
    {
        let key = Key::of(self.rule, inner, to);
        place_or(&self.places, &key, self.list.len())
    }

    /// Uses the mapping of a call, which stands at this place, or makes it.
    pub fn take_call(
        &mut self,
        place: usize,
        inner: &Address,
        to: &Address,
    ) -> Result<(), AllocError>
        requires family { inner.now.v6 ≡ false }
        requires there { place ≡ place_of self.old.rule self.old.list (from_to inner.now to.now) }
        ensures ok { OnOk result (self.new ≡ after_call self.old (from_to inner.now to.now)) }
        ensures err { OnErr result (self.new ≡ self.old) }
    {
        match self.list.get_mut(place) {
            Some(mapping) => mapping.use_towards(inner, to),
            None => self.make(inner, to),
        }
    }

    /// Takes back the mapping that a call made just now.
    pub fn take_mapping_back(&mut self, inner: &Address, to: &Address)
        requires { (before : MappingList) ×
            MadeMapping before (from_to inner.now to.now) self.old }
        ensures { (before : MappingList) →
            MadeMapping before (from_to inner.now to.now) self.old → self.new ≡ before }
    {
        take_last(&mut self.list);
        let key = Key::of(self.rule, inner, to);
        let _place = self.places.remove(&key);
    }

    /// Takes back the host that a call added to its mapping just now.
    pub fn take_host_back(&mut self, inner: &Address, to: &Address)
        requires { (before : MappingList) × MadeHost before (from_to inner.now to.now) self.old }
        ensures { (before : MappingList) → MadeHost before (from_to inner.now to.now) self.old →
            self.new ≡ before }
    {
        let place = self.place_of(inner, to);
        let Some(mapping) = self.list.get_mut(place) else {
            return;
        };
        mapping.take_back();
    }

    /// Makes the mapping of a call that has none.
    fn make(&mut self, inner: &Address, to: &Address) -> Result<(), AllocError>
        requires family { inner.now.v6 ≡ false }
        requires none { length self.old.list
            ≤ place_of self.old.rule self.old.list (from_to inner.now to.now) }
        ensures ok { OnOk result (self.new ≡ after_call self.old (from_to inner.now to.now)) }
        ensures err { OnErr result (self.new ≡ self.old) }
    {
        let mapping = Mapping::new(self.alloc, inner, to)?;
        self.list.reserve(1)?;
        let key = Key::of(self.rule, inner, to);
        match self.places.insert(key, self.list.len()) {
            Ok(_) => {}
            Err(_) => return Err(AllocError),
        }
        self.list.push_reserved(mapping);
        Ok(())
    }
}

/// Takes the last mapping away.
fn take_last(list: &mut Vec<Mapping>)
    ensures { (before : List Mapped) (last : Mapped) → list.old.items ≡ before ++ last ∷ [] →
        list.new.items ≡ before }
{
    let _mapping = list.pop();
}
