//! Calls that make an end introduce others.

ghost use Rattle.std.specs.Prelude.{◌≡◌, Err, IfErr, IfNone, IfSome, OnErr, OnOk, length};
ghost use Rattle.introducer.specs.Directory.{row_refusal};
ghost use Rattle.endpoint_model.specs.Introducing.{introducing, with_redirect};
ghost use Rattle.endpoint_model.specs.Log.{Extends, introduce_event, row_event};

use crate::endpoint::Endpoint;
use introducer::RowRefusal;
use rtmfp_forms::Address;

impl Endpoint {
    /// Adds a row of addresses, in their order and as they are, for the end of this fingerprint,
    /// instead of one that is there (own). A hello for that end is answered with them.
    ///
    /// Where it is refused all is as before; `RowRefusal` has the reasons in their order.
    pub fn add_row(&mut self, print: [u8; 32], addresses: &[Address]) -> Result<(), RowRefusal>
        ensures ok { OnOk result (self.new ≡ with_redirect self.old print addresses.now) }
        ensures refused { IfSome (row_refusal self.old.redirects print (length addresses.now))
            (λ refusal. result ≡ Err refusal) }
        ensures memory { IfNone (row_refusal self.old.redirects print (length addresses.now))
            (IfErr result (λ refusal. refusal ≡ RowRefusal.Memory)) }
        ensures err { OnErr result (self.new ≡ self.old) }

        // The end stands for its log with this call.
        ensures stands { Extends self.old self.new (row_event print addresses.now result) }
    {
        self.end.add_row(print, addresses)
    }

    /// Introduces others from now on: a hello for an end that it keeps a session with is forwarded
    /// there (RFC 7016 section 3.5.1.5). It takes no memory.
    pub fn introduce(&mut self)
        ensures state { self.new ≡ introducing self.old }

        // The end stands for its log with this call.
        ensures stands { Extends self.old self.new introduce_event }
    {
        self.end.introduce();
    }
}
