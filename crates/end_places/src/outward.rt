//! The way out.

ghost use Rattle.std.specs.Prelude.{◌≡◌, Some, OnOk, OnErr, IfOk};
ghost use Rattle.translators.specs.Mappings.{from_to};
ghost use Rattle.translators.specs.Translator.{out_refusal, public_of};
ghost use Rattle.end_places.specs.Carrying.{lost_by, lost_outward, lost_from, source_of, out_by, taken_by, translator_of, call_from, after_or};

use crate::carried::Lost;
use crate::places::Places;
use crate::standing::{NamedTranslator, Standing};
use rtmfp_base::Memory;
use rtmfp_forms::Address;
use translators::OutRefusal;

/// What an outward step gives.
#[derive(Drop)]
pub(crate) enum Out {
    /// It goes out from this address.
    From(Address),
    /// It doesn't.
    Lost(Lost),
}

impl Places {
    /// Lets what is sent from here go out, through the translator of this place, if there is one.
    pub(crate) fn outward(&mut self, standing: &Standing, to: &Address) -> Result<Out, Memory>
        ensures answer { IfOk result (λ out. out
            ≡ out_by (lost_from self.old standing.now to.now) (source_of
            (translator_of self.old standing.now.behind) (call_from standing.now to.now))) }
        ensures ok { OnOk result (self.new ≡ after_or self.old standing.now.behind
            (call_from standing.now to.now) (lost_from self.old standing.now to.now)) }
        ensures err { OnErr result (self.new ≡ self.old) }
    {
        match standing.behind {
            None => Ok(Out::From(standing.at)),
            Some(number) => self.outward_by(number, &standing.at, to),
        }
    }

    /// The same, through the translator with this number.
    fn outward_by(&mut self, number: usize, at: &Address, to: &Address) -> Result<Out, Memory>
        ensures answer { IfOk result (λ out. out
            ≡ out_by (lost_outward (translator_of self.old (Some number)) (from_to at.now to.now))
            (source_of (translator_of self.old (Some number)) (from_to at.now to.now))) }
        ensures ok { OnOk result (self.new ≡ after_or self.old (Some number)
            (from_to at.now to.now)
            (lost_outward (translator_of self.old (Some number)) (from_to at.now to.now))) }
        ensures err { OnErr result (self.new ≡ self.old) }
    {
        let Some(named) = self.translators.get_mut(number) else {
            return Ok(Out::From(*at));
        };
        through(named, at, to)
    }
}

/// Lets what is sent from an inner place go out through a translator.
fn through(named: &mut NamedTranslator, inner: &Address, to: &Address) -> Result<Out, Memory>
    ensures answer { IfOk result (λ out. out
        ≡ out_by (lost_by (out_refusal named.old.translator (from_to inner.now to.now)))
        (public_of named.old.translator (from_to inner.now to.now))) }
    ensures ok { OnOk result (named.new ≡ taken_by named.old (from_to inner.now to.now)
        (lost_by (out_refusal named.old.translator (from_to inner.now to.now)))) }
    ensures err { OnErr result (named.new ≡ named.old) }
{
    match named.translator.outward(inner, to) {
        Ok(from) => Ok(Out::From(from)),
        Err(OutRefusal::Family) => Ok(Out::Lost(Lost::Family)),
        Err(OutRefusal::PortsFull(count)) => Ok(Out::Lost(Lost::PortsFull(count))),
        Err(OutRefusal::Memory) => Err(Memory),
    }
}
