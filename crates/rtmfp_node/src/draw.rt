//! Blocks that are drawn, and what is made of them.
ghost use Rattle.std.specs.Prelude.{◌≡◌, ◌++◌, IfOk, IfSome, None, drop, length, take};
ghost use Rattle.rtmfp_host.specs.Faults.{Rose};
ghost use Rattle.identity.specs.Certificates.{IsCertificate};
ghost use Rattle.rtmfp_words.specs.Node.{IsNodeName};
ghost use Rattle.rtmfp_node.specs.Acting.{Drew, DrewSome};
ghost use Rattle.rtmfp_node.specs.Events.{draws_of};
ghost use Rattle.rtmfp_node.specs.Outside.{Stays};
ghost use Rattle.rtmfp_node.specs.Turn.{instance_in};

use endpoint::Draws;
use identity::Certificate;
use rtmfp_host::{Drawn, Entropy};
use std::alloc::{AllocError, Global};

/// Draws a block; none where the source failed.
pub(crate) fn draw<E: Entropy>(entropy: &mut E) -> Option<[u8; 64]>
    ensures drew { IfSome result (λ block. Drew (E.seen entropy.old).blocks
        (E.seen entropy.new).blocks block) }
    ensures drawn { IfSome result (λ block. Stays (E.seen entropy.old).faults
        (E.seen entropy.new).faults) }
    ensures failed { result ≡ None → Rose (E.seen entropy.old).faults
        (E.seen entropy.new).faults }
    ensures undrawn { result ≡ None → DrewSome 0 (E.seen entropy.old).blocks
        (E.seen entropy.new).blocks }
{
    let mut block = [0; 64];
    match entropy.draw(&mut block) {
        Drawn::Done => Some(block),
        Drawn::Failed => None,
    }
}

/// The draws of a block.
pub(crate) fn draws_of(block: &[u8; 64]) -> Draws
    ensures { result ≡ draws_of block.now }
{
    let mut nonce = [0; 16];
    let mut tag = [0; 16];
    let mut token = [0; 16];
    let mut word = [0; 4];
    nonce.copy_from_slice(&block[..16]);
    tag.copy_from_slice(&block[16..32]);
    token.copy_from_slice(&block[32..48]);
    word.copy_from_slice(&block[48..52]);
    Draws {
        nonce,
        tag,
        token,
        word: u32::from_be_bytes(word),
    }
}

/// The cookie secret of the first block.
pub(crate) fn cookie_secret_of(block: &[u8; 64]) -> [u8; 32]
    ensures value { result ≡ take 32 (drop 16 block.now) }
    ensures long { length result ≡ 32 }
{
    let mut secret = [0; 32];
    secret.copy_from_slice(&block[16..48]);
    secret
}

/// The instance bytes: those that are told, or the first of the first block.
fn instance_in(told: &Option<[u8; 16]>, block: &[u8; 64]) -> [u8; 16]
    ensures { result ≡ instance_in told.now block.now }
{
    match told {
        Some(bytes) => *bytes,
        None => {
            let mut bytes = [0; 16];
            bytes.copy_from_slice(&block[..16]);
            bytes
        }
    }
}

/// The certificate of a node with this name.
pub(crate) fn certificate_of(
    alloc: Global,
    told: &Option<[u8; 16]>,
    name: &[u8],
    block: &[u8; 64],
) -> Result<Certificate, AllocError>
    requires { IsNodeName name.now }
    ensures value { IfOk result (λ certificate. certificate
        ≡ instance_in told.now block.now ++ name.now) }
    ensures form { IfOk result (λ _. IsCertificate (instance_in told.now block.now ++ name.now)) }
{
    let instance = instance_in(told, block);
    certificate_with(alloc, &instance, name)
}

/// The certificate of these instance bytes and this name.
fn certificate_with(
    alloc: Global,
    instance: &[u8; 16],
    name: &[u8],
) -> Result<Certificate, AllocError>
    requires { IsNodeName name.now }
    ensures value { IfOk result (λ certificate. certificate ≡ instance.now ++ name.now) }
    ensures form { IfOk result (λ _. IsCertificate (instance.now ++ name.now)) }
{
    let mut bytes = Vec::from_slice(alloc, instance)?;
    bytes.extend_from_slice(name)?;
    match Certificate::read(bytes.as_slice()) {
        Ok(certificate) => Ok(certificate),
        Err(_) => unreachable!(),
    }
}
