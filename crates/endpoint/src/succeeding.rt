//! Calls by which an end succeeds from one secret of its group to the next (own).

ghost use Rattle.std.specs.Prelude.{ℕ, ◌≡◌, ◌+◌, List, Err, IfErr, IfNone, IfOk, IfSome, OnErr};
ghost use Rattle.std.specs.Prelude.{OnOk};
ghost use Rattle.endpoint.specs.Forgetting.{IsLeft, KeepsSecret};
ghost use Rattle.endpoint_model.specs.Log.{Extends, advance_event, learn_event};
ghost use Rattle.endpoint_model.specs.State.{Done, nothing};
ghost use Rattle.endpoint_model.specs.Succession.{advance_refusal, advancing, learn_refusal};
ghost use Rattle.endpoint_model.specs.Succession.{learning};

use crate::endpoint::Endpoint;
use crate::sizes::are_thirty_two;
use end_state::{EndState, Outbox};
use endpoint_model::{CallRefusal, Entry};

impl Endpoint {
    /// Learns the secret of the group's next generation, and gives that generation's number: the
    /// current one's and 1 (own). Startup packets in it open from now on, while the end goes on
    /// sending in the current one.
    ///
    /// It is refused, in this order, exactly where a next one is known, where the current one is
    /// the last that there is, 2^64 - 1, and where the secret is the current one; or for want of
    /// memory. Then all is as before.
    pub fn learn(&mut self, secret: [u8; 32], out: &mut Outbox) -> Result<u64, CallRefusal>
        ensures number { IfOk result (λ number. number ≡ self.old.group.generation + 1) }
        ensures ok { OnOk result (Done (learning self.old secret) self.new out.old out.new) }
        ensures refused { IfSome (learn_refusal self.old secret)
            (λ refusal. result ≡ Err refusal) }
        ensures memory { IfNone (learn_refusal self.old secret)
            (IfErr result (λ refusal. refusal ≡ CallRefusal.Memory)) }
        ensures err { OnErr result (Done (nothing self.old) self.new out.old out.new) }

        // The end stands for its log with this call.
        ensures stands { Extends self.old self.new
            (learn_event secret result out.old.entries out.new.entries) }
    {
        are_thirty_two(&secret);
        learn_next(&mut self.end, &secret, out)
    }

    /// Goes over to the next generation of the group's secret, which is the current one from now
    /// on, and gives its number (own). The secret before it is forgotten but for the attempts in
    /// the keying stage, which keep it until they end; sessions go on.
    ///
    /// It is refused exactly where no next one is known, or for want of memory; then all is as
    /// before.
    pub fn advance(&mut self, out: &mut Outbox) -> Result<u64, CallRefusal>
        ensures number { IfOk result (λ number. number ≡ self.new.group.generation) }
        ensures ok { OnOk result (Done (advancing self.old) self.new out.old out.new) }
        ensures refused { IfSome (advance_refusal self.old) (λ refusal. result ≡ Err refusal) }
        ensures memory { IfNone (advance_refusal self.old)
            (IfErr result (λ refusal. refusal ≡ CallRefusal.Memory)) }
        ensures err { OnErr result (Done (nothing self.old) self.new out.old out.new) }

        // Of the group's secrets the next one is left, and those of attempts in the keying stage.
        ensures forgets { OnOk result ((secret : List ℕ) → KeepsSecret self.new secret →
            IsLeft self.old secret) }

        // The end stands for its log with this call.
        ensures stands { Extends self.old self.new
            (advance_event result out.old.entries out.new.entries) }
    {
        advance_to_next(&mut self.end, out)
    }

    /// The number of the current generation of the group's secret (own).
    pub fn generation(&self) -> u64
        ensures { result ≡ self.now.group.generation }
    {
        self.end.groups.current.number()
    }
}

/// Learns the next secret, or tells why not.
fn learn_next(end: &mut EndState, secret: &[u8; 32], out: &mut Outbox) -> Result<u64, CallRefusal>
    ensures number { IfOk result (λ number. number ≡ end.old.group.generation + 1) }
    ensures ok { OnOk result (Done (learning end.old secret.now) end.new out.old out.new) }
    ensures refused { IfSome (learn_refusal end.old secret.now)
        (λ refusal. result ≡ Err refusal) }
    ensures memory { IfNone (learn_refusal end.old secret.now)
        (IfErr result (λ refusal. refusal ≡ CallRefusal.Memory)) }
    ensures err { OnErr result (Done (nothing end.old) end.new out.old out.new) }
{
    let generation = match end.next_number(secret) {
        Ok(number) => number,
        Err(refusal) => return Err(refusal),
    };
    if out.make_room(1).is_err() {
        return Err(CallRefusal::Memory);
    }
    end.know_next(generation, secret);
    out.add(Entry::Learnt { generation });
    Ok(generation)
}

/// Goes over to the next generation, or tells why not.
fn advance_to_next(end: &mut EndState, out: &mut Outbox) -> Result<u64, CallRefusal>
    ensures number { IfOk result (λ number. number ≡ end.new.group.generation) }
    ensures ok { OnOk result (Done (advancing end.old) end.new out.old out.new) }
    ensures refused { IfSome (advance_refusal end.old) (λ refusal. result ≡ Err refusal) }
    ensures memory { IfNone (advance_refusal end.old)
        (IfErr result (λ refusal. refusal ≡ CallRefusal.Memory)) }
    ensures err { OnErr result (Done (nothing end.old) end.new out.old out.new) }
    ensures forgets { OnOk result ((secret : List ℕ) → KeepsSecret end.new secret →
        IsLeft end.old secret) }
{
    let Some(generation) = end.known_number() else {
        return Err(CallRefusal::NoNext);
    };
    if out.make_room(1).is_err() {
        return Err(CallRefusal::Memory);
    }
    end.go_over();
    out.add(Entry::Advanced { generation });
    Ok(generation)
}
