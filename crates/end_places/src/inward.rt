//! The way in.

ghost use Rattle.std.specs.Prelude.{◌≡◌, Some};
ghost use Rattle.end_places.specs.Carrying.{end_at, arrived, inward_at, brought, carried_on};

use crate::carried::{Carried, Lost};
use crate::matching::find_at;
use crate::outward::Out;
use crate::places::Places;
use rtmfp_forms::Address;
use translators::InRefusal;

impl Places {
    /// What becomes of what goes out to an address.
    pub(crate) fn carried_on(&self, out: &Out, to: &Address) -> Carried
        ensures { result ≡ carried_on self.now to.now out.now }
    {
        match out {
            Out::Lost(lost) => Carried::Lost(*lost),
            Out::From(from) => self.brought(to, from),
        }
    }

    /// What becomes of what goes to an address, and comes from this one.
    fn brought(&self, to: &Address, from: &Address) -> Carried
        ensures { result ≡ brought self.now to.now from.now }
    {
        match self.translator_at(to) {
            None => self.arrived(to, None, from),
            Some(number) => self.inward_at(number, to, from),
        }
    }

    /// The same, through the translator with this number.
    fn inward_at(&self, number: usize, to: &Address, from: &Address) -> Carried
        ensures { result ≡ inward_at self.now (Some number) to.now from.now }
    {
        let Some(named) = self.translators.get(number) else {
            return Carried::Lost(Lost::Nobody);
        };
        match named.translator.inward(to, from) {
            Ok(inner) => self.arrived(&inner, Some(number), from),
            Err(InRefusal::Unmapped) => Carried::Lost(Lost::Unmapped),
            Err(InRefusal::Filtered) => Carried::Lost(Lost::Filtered),
        }
    }

    /// The same, at the end of its way.
    fn arrived(&self, at: &Address, behind: Option<usize>, from: &Address) -> Carried
        ensures { result ≡ arrived (end_at self.now at.now behind) from.now }
    {
        match find_at(self.ends.as_slice(), at, behind) {
            None => Carried::Lost(Lost::Nobody),
            Some(standing) => Carried::Arrives {
                end: standing.end,
                from: *from,
            },
        }
    }
}
