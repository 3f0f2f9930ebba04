//! Whom an end introduces: in which session a hello is forwarded, and which addresses answer it.

ghost use Rattle.std.specs.Prelude.{◌≡◌, ◌≤◌, Some, length};
ghost use Rattle.endpoint_model.specs.Introducing.{forwarded_to, redirected_to};

use crate::end_state::EndState;
use glare_core::Held;
use identity::Epd;
use rtmfp_base::limits::CANDIDATES;
use rtmfp_forms::Address;
use std::marker::Model;

/// The addresses of a row, with which a hello is answered: the first `count` of these.
///
/// Contracts see them as their list.
#[derive(Drop)]
pub struct RowAddresses {
    to: [Address; CANDIDATES],
    count: usize,
}

impl Model for RowAddresses {
    ghost use Rattle.std.specs.Prelude.{◌≤◌, List, take};
    ghost use Rattle.rtmfp_forms.specs.Address.{AddressParts};

    ghost Value = { List AddressParts };

    ghost view = { λ row. take row.count row.to };

    ghost invariant = { λ row. row.count ≤ 16 };
}

impl RowAddresses {
    fn copy_of(addresses: &[Address]) -> RowAddresses
        requires { length addresses.now ≤ 16 }
        ensures { result ≡ addresses.now }
    {
        let mut to = [Address::v4([0; 4], 0); CANDIDATES];
        to[..addresses.len()].copy_from_slice(addresses);
        RowAddresses {
            to,
            count: addresses.len(),
        }
    }

    /// The addresses, in order.
    pub fn addresses(&self) -> &[Address]
        ensures addresses { result.now ≡ self.now }
        ensures few { length result.now ≤ 16 }
    {
        &self.to[..self.count]
    }
}

impl EndState {
    /// The session that a hello for the end of this fingerprint is forwarded in.
    pub fn forwarded_to(&self, print: &[u8; 32]) -> Option<u32>
        ensures { result ≡ forwarded_to self.now print.now }
    {
        if !self.settings.introduces {
            return None;
        }
        match self.startup.peers().held(print) {
            Some(Held::KeptAsResponder(joined)) => Some(joined.near),
            Some(Held::KeptAsInitiator(joined)) => Some(joined.near),
            Some(Held::HalfOpen(_)) => None,
            Some(Held::Opening { .. }) => None,
            None => None,
        }
    }

    /// The addresses that a hello for this end is answered with, whether or not it is forwarded. It
    /// takes no memory.
    pub fn redirected_to(&self, selected: &Epd) -> Option<RowAddresses>
        ensures { result ≡ redirected_to self.now selected.now.print }
    {
        match self.settings.directory.redirect(selected) {
            Some(addresses) => Some(RowAddresses::copy_of(addresses)),
            None => None,
        }
    }
}
