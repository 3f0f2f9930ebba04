//! The spans above the first one, as an ordered map from their first numbers to their last ones.

ghost use Rattle.std.specs.Prelude.{◌≡◌, ◌+◌, [], OnOk, OnErr, None, List};
ghost use Rattle.std.specs.Prelude.{slice_get, drop};
ghost use Rattle.flow_recv.specs.declared.spans.Span.{Span};
ghost use Rattle.flow_recv.specs.Above.{spans_of, last_from, end_of, without, with_end};
ghost use Rattle.flow_recv.specs.Above.{with_number};

use crate::spans::Span;
use std::alloc::{AllocError, Global};
use std::collections::BTreeMap;
use std::collections::btree_map::Iter;
use std::marker::Model;

/// The spans above the first one. A search, a change and a removal take time by the logarithm of
/// their number.
#[derive(Drop)]
pub struct Above {
    map: BTreeMap<u64, u64>,
}

impl Model for Above {
    ghost use Rattle.std.specs.Prelude.{List};
    ghost use Rattle.flow_recv.specs.declared.spans.Span.{Span};
    ghost use Rattle.flow_recv.specs.Above.{spans_of, AllBegin};

    ghost Value = { List Span };

    ghost view = { λ a. spans_of a.map.entries };

    ghost invariant = { λ a. AllBegin (spans_of a.map.entries) };
}

impl Above {
    pub fn new(alloc: Global) -> Above
        ensures { result ≡ [] }
    {
        Above {
            map: BTreeMap::new(alloc),
        }
    }

    /// The spans in order, each as its first number and its last one.
    pub fn iter(&self) -> Iter<'_, u64, u64>
        ensures { spans_of result ≡ self.now }
    {
        self.map.iter()
    }

    /// The first of the spans.
    pub fn first(&self) -> Option<Span>
        ensures { result ≡ slice_get self.now 0 }
    {
        match self.map.first_key_value() {
            Some((first, last)) => Some(Span {
                first: *first,
                last: *last,
            }),
            None => None,
        }
    }

    /// Takes out the first of the spans.
    pub fn drop_first(&mut self)
        ensures { self.new ≡ drop 1 self.old }
    {
        let _ = self.map.pop_first();
    }

    /// The last one of the spans that begin at or below a number.
    pub fn last_from(&self, number: u128) -> Option<Span>
        ensures { result ≡ last_from number self.now }
    {
        if self.map.is_empty() {
            return None;
        }
        let key = number.min(u128::from(u64::MAX)) as u64;
        match self.map.range(..=key).next_back() {
            Some((first, last)) => Some(Span {
                first: *first,
                last: *last,
            }),
            None => None,
        }
    }

    /// Puts in a number as a span of its own, where no span begins with it.
    pub fn insert(&mut self, number: u64) -> Result<(), AllocError>
        requires { end_of number self.old ≡ None }
        ensures inserted { OnOk result (self.new ≡ with_number number self.old) }
        ensures unchanged { OnErr result (self.new ≡ self.old) }
    {
        self.map.insert(number, number)?;
        Ok(())
    }

    /// Takes out the span that begins with a number. The answer is its end.
    pub fn remove(&mut self, first: u64) -> Option<u64>
        ensures end { result ≡ end_of first self.old }
        ensures rest { self.new ≡ without first self.old }
    {
        self.map.remove(&first)
    }

    /// Takes out the span that begins directly after a number. The answer is its end.
    pub fn remove_after(&mut self, number: u64) -> Option<u64>
        ensures end { result ≡ end_of (number + 1) self.old }
        ensures rest { self.new ≡ without (number + 1) self.old }
    {
        // No span begins with a number of more than 64 bits.
        let _ = &self.map;
        match number.checked_add(1) {
            Some(next) => self.remove(next),
            None => None,
        }
    }

    /// Gives the span that begins with a number another end.
    pub fn set_end(&mut self, first: u64, last: u64)
        ensures { self.new ≡ with_end first last self.old }
    {
        let Some(end) = self.map.get_mut(&first) else {
            return;
        };
        *end = last;
    }
}
