//! The nodes that meet.
ghost use Rattle.std.specs.Prelude.{◌≡◌, IfOk};
ghost use Rattle.rtmfp_meet.specs.Nodes.{certificate_of, digits_of, instance_of, name_of, prefix_of, print_of};

use identity::Certificate;
use std::alloc::{AllocError, Global};

/// A node that `meet` starts (own).
#[derive(Clone, Copy, Debug, PartialEq, Eq)]
pub enum Node {
    /// It introduces the other two to each other.
    Introducer,
    /// It opens a session with the introducer, and is called.
    Answerer,
    /// It calls the answerer by way of the introducer, and sends a message.
    Caller,
}

impl Node {
    /// The name in its certificate.
    pub(crate) fn name(self) -> &'static str
        ensures { result.now ≡ name_of self }
    {
        match self {
            Node::Introducer => "introducer",
            Node::Answerer => "answerer",
            Node::Caller => "caller",
        }
    }

    /// The instance bytes in its certificate.
    fn instance(self) -> [u8; 16]
        ensures { result ≡ instance_of self }
    {
        match self {
            Node::Introducer => [0x11; 16],
            Node::Answerer => [0x22; 16],
            Node::Caller => [0x33; 16],
        }
    }

    /// The digits of its instance bytes.
    pub(crate) fn digits(self) -> &'static str
        ensures { result.now ≡ digits_of self }
    {
        match self {
            Node::Introducer => "11111111111111111111111111111111",
            Node::Answerer => "22222222222222222222222222222222",
            Node::Caller => "33333333333333333333333333333333",
        }
    }

    /// What stands before each of its lines.
    pub(crate) fn prefix(self) -> &'static str
        ensures { result.now ≡ prefix_of self }
    {
        match self {
            Node::Introducer => "i ",
            Node::Answerer => "b ",
            Node::Caller => "a ",
        }
    }

    /// The fingerprint of its certificate.
    pub(crate) fn print(self, alloc: Global) -> Result<[u8; 32], AllocError>
        ensures { IfOk result (λ print. print ≡ print_of self) }
    {
        let mut bytes = Vec::from_slice(alloc, &self.instance())?;
        bytes.extend_from_slice(self.name().as_bytes())?;
        Ok(print_of(self, bytes.as_slice()))
    }
}

/// The fingerprint of the certificate of a node, which has these bytes.
fn print_of(node: Node, bytes: &[u8]) -> [u8; 32]
    requires { bytes.now ≡ certificate_of node }
    ensures { result ≡ print_of node }
{
    match Certificate::read(bytes) {
        Ok(certificate) => certificate.print(),
        Err(_) => unreachable!(),
    }
}
