//! One mapping.

ghost use Rattle.std.specs.Prelude.{◌≡◌, IfOk, OnOk, OnErr, false};
ghost use Rattle.translators.specs.Mappings.{Mapped, Call, from_to, has_host, new_for, used_by};

use indexmap::IndexSet;
use rtmfp_forms::Address;
use std::alloc::{AllocError, Global};
use std::marker::Model;

/// An inner place, and the hosts that its mapping was used towards: in the order of first use, and
/// found by their hash, however many there are.
#[derive(Drop)]
pub(crate) struct Mapping {
    inner: Address,
    towards: IndexSet<[u8; 16]>,
}

impl Model for Mapping {
    ghost use Rattle.rtmfp_forms.specs.contracts.address.Address as address_type;
    ghost use Rattle.translators.specs.Mappings.{Mapped, mapped_code};

    ghost Value = { Mapped };

    ghost coded = { mapped_code address_type.the_row.coded };

    ghost view = { λ m. record { inner = m.inner; towards = m.towards.keys } };
}

impl Mapping {
    /// A mapping of an inner place that is used towards a host.
    pub fn new(alloc: Global, inner: &Address, to: &Address) -> Result<Mapping, AllocError>
        requires { inner.now.v6 ≡ false }
        ensures { IfOk result (λ m. m ≡ new_for (from_to inner.now to.now)) }
    {
        let mut towards = IndexSet::new(alloc);
        towards.insert(to.host)?;
        Ok(Mapping {
            inner: Address {
                v6: false,
                origin: 0,
                host: inner.host,
                port: inner.port,
            },
            towards,
        })
    }

    pub fn inner(&self) -> Address
        ensures { result ≡ self.now.inner }
    {
        self.inner
    }

    /// Whether it was used towards a host.
    pub fn was_used(&self, host: &[u8; 16]) -> bool
        ensures { result ≡ has_host host.now self.now.towards }
    {
        self.towards.contains(host)
    }

    /// Uses it towards a host.
    pub fn use_towards(&mut self, inner: &Address, to: &Address) -> Result<(), AllocError>
        ensures ok { OnOk result
            (self.new ≡ used_by self.old (from_to inner.now to.now)) }
        ensures err { OnErr result (self.new ≡ self.old) }
    {
        self.towards.insert(to.host)?;
        Ok(())
    }

    /// Takes the host back that a use added last.
    pub fn take_back(&mut self)
        ensures { (before : Mapped) (call : Call) → has_host call.to.host before.towards ≡ false →
            self.old ≡ used_by before call → self.new ≡ before }
    {
        let _host = self.towards.pop();
    }
}
