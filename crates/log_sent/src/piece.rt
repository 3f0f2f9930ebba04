//! A datagram in its context, as the key of a set.

ghost use Rattle.std.specs.Prelude.{◌≡◌};
ghost use Rattle.std.specs.List.{fold};
ghost use Rattle.log_sent.specs.Pieces.{context_input};

use crypto_profile::Context;
use std::hash::{Hash, Hasher};

/// A datagram and what it was sealed for, where a log keeps them.
///
/// As the key of a set it is hashed whole, with all of its context, so two keys have one hash only
/// where somebody looked for such.
#[derive(Clone, Copy)]
pub(crate) struct Piece<'a> {
    pub(crate) datagram: &'a [u8],
    pub(crate) context: &'a Context,
}

impl PartialEq for Piece<'_> {
    ghost use Rattle.std.specs.Ordering.{on};
    ghost use Rattle.std.specs.Cmp.{on_per, partial_equiv_from_equiv};
    ghost use Rattle.log_sent.specs.Pieces.{is_same_sealed};
    ghost use Rattle.log_sent.specs.Piece.{sealed_of};
    ghost use Rattle.log_sent.specs.Same.{same_equivalence};

    ghost eq = { on sealed_of is_same_sealed };

    ghost laws = { on_per sealed_of (partial_equiv_from_equiv same_equivalence) };

    fn eq(&self, other: &Piece<'_>) -> bool {
        self.datagram == other.datagram && self.context.is_same(other.context)
    }
}

impl Eq for Piece<'_> {
    ghost use Rattle.std.specs.Cmp.{on_equiv};
    ghost use Rattle.log_sent.specs.Piece.{sealed_of};
    ghost use Rattle.log_sent.specs.Same.{same_equivalence};

    ghost laws = { on_equiv sealed_of same_equivalence };
}

/// Writes a context.
fn write_context<H: Hasher>(context: &Context, state: &mut H)
    ensures { state.new ≡ fold H.write state.old (context_input context.now) }
{
    match context {
        Context::Startup { generation } => state.write_u64(*generation),
        Context::Session {
            generation,
            ni,
            nr,
            fp_i,
            fp_r,
            sid_i,
            sid_r,
            to_responder,
        } => {
            state.write_u64(*generation);
            state.write(ni);
            state.write(nr);
            state.write(fp_i);
            state.write(fp_r);
            state.write_u32(*sid_i);
            state.write_u32(*sid_r);
            to_responder.hash(state);
        }
    }
}

impl Hash for Piece<'_> {
    ghost use Rattle.std.specs.Hash.{on_Alike, same_Alike};
    ghost use Rattle.log_sent.specs.Pieces.{sealed_input};
    ghost use Rattle.log_sent.specs.Piece.{sealed_of};
    ghost use Rattle.log_sent.specs.Same.{same_decides};

    ghost hash_input = { λ p. sealed_input (sealed_of p) };

    ghost respects_eq = { (on_Alike sealed_of (same_Alike sealed_input same_decides)).fed };

    fn hash<H: Hasher>(&self, state: &mut H) {
        state.write(self.datagram);
        write_context(self.context, state);
    }
}
