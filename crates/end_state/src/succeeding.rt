//! The succession of the group's secrets (own): the next one is learnt, and is gone over to.

ghost use Rattle.std.specs.Prelude.{◌≡◌, ◌+◌, IfErr, IfOk, None, Some};
ghost use Rattle.std.specs.Option.{option_map};
ghost use Rattle.crypto_profile.specs.declared.group.GroupSecret.{GroupSecret};
ghost use Rattle.endpoint_model.specs.Succession.{advancing, learn_refusal};

use crate::end_state::EndState;
use crypto_profile::Generation;
use endpoint_model::CallRefusal;

impl EndState {
    /// The number of the next generation, if this may be its secret, or why it isn't learnt.
    pub fn next_number(&self, secret: &[u8; 32]) -> Result<u64, CallRefusal>
        ensures number { IfOk result (λ number. number ≡ self.now.group.generation + 1) }
        ensures ok { IfOk result (λ _. learn_refusal self.now secret.now ≡ None) }
        ensures refused { IfErr result
            (λ refusal. learn_refusal self.now secret.now ≡ Some refusal) }
    {
        if let Some(next) = &self.groups.next {
            return Err(CallRefusal::NextKnown(next.number()));
        }
        let number = self.groups.current.number();
        if number == u64::MAX {
            return Err(CallRefusal::GenerationsSpent);
        }
        if self.has_secret(secret) {
            return Err(CallRefusal::SameSecret);
        }
        Ok(number + 1)
    }

    /// The group's secret in the next generation, which has this number, is known from now on.
    pub fn know_next(&mut self, number: u64, secret: &[u8; 32])
        ensures { self.new ≡ record self.old {
          next = Some (record { generation = number; secret = secret.now });
        } }
    {
        self.groups.next = Some(Generation::of(number, secret));
    }

    /// The number of the next generation, where it is known.
    pub fn known_number(&self) -> Option<u64>
        ensures { result ≡ option_map (λ (next : GroupSecret). next.generation) self.now.next }
    {
        match &self.groups.next {
            Some(next) => Some(next.number()),
            None => None,
        }
    }

    /// The next generation, where it is known, is the current one from now on.
    pub fn go_over(&mut self)
        ensures { self.new ≡ (advancing self.old).state }
    {
        if let Some(next) = self.groups.next.take() {
            self.groups.current = next;
        }
    }
}
