//! The sizes of what an end and its calls are given. The functions do nothing: they tell what the
//! types say.

ghost use Rattle.std.specs.Prelude.{◌≡◌, ◌<◌, ◌^◌, length};
ghost use Rattle.identity.specs.ServiceNames.{IsServiceName};
ghost use Rattle.endpoint_laws.specs.Laws.{AreBytes};

use endpoint_model::Draws;
use identity::ServiceName;

/// The bytes of a datagram are bytes.
pub fn are_bytes(datagram: &[u8])
    ensures { AreBytes datagram.now }
{}

/// A fingerprint has 32 bytes, and so has a secret.
pub fn are_thirty_two(bytes: &[u8; 32])
    ensures { length bytes.now ≡ 32 }
{}

/// A name has the form of one.
pub fn is_service_name(name: &ServiceName)
    ensures { IsServiceName name.now }
{
    let _bytes = name.bytes();
}

/// Draws have their sizes.
pub fn are_sized(draws: &Draws)
    ensures nonce { length draws.now.nonce ≡ 16 }
    ensures tag { length draws.now.tag ≡ 16 }
    ensures token { length draws.now.token ≡ 16 }
    ensures word { draws.now.word < 2 ^ 32 }
{
    are_sixteen(&draws.nonce);
    are_sixteen(&draws.tag);
    are_sixteen(&draws.token);
    is_word(draws.word);
}

fn are_sixteen(bytes: &[u8; 16])
    ensures { length bytes.now ≡ 16 }
{}

fn is_word(word: u32)
    ensures { word < 2 ^ 32 }
{}
