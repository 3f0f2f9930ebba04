//! What the ends of a world were given at their beginning.

ghost use Rattle.std.specs.Prelude.{◌≡◌, ◌<◌, ◌≤◌, None, IfSome, length, map};
ghost use Rattle.rendezvous_world.specs.Inside.{end_seen};
ghost use Rattle.rendezvous_world.specs.Beginning.{setup_given};
ghost use Rattle.rendezvous_world.specs.Seen.{setup_at};

use crate::end::End;
use crate::taking::FIRST_GENERATION;
use crate::world::World;
use counted_secrets::counted_secret;
use endpoint::Config;
use identity::Certificate;

/// What an end was given at its beginning (own).
#[derive(Clone, Copy)]
pub struct Beginning {
    /// Its limits.
    pub config: Config,
    /// Its certificate.
    pub cert: Certificate,
    /// The number of its group's first generation.
    pub generation: u64,
    /// The secret of its group in that.
    pub secret: [u8; 32],
    /// The secret of its cookies.
    pub cookie_secret: [u8; 32],
}

impl World {
    /// What the end with this number was given at its beginning; None exactly where there is no
    /// such end.
    pub fn beginning(&self, end: usize) -> Option<Beginning>
        ensures given { IfSome result (λ b. setup_given b ≡ setup_at self.now.ends end) }
        ensures there { IfSome result (λ _. end < length self.now.ends) }
        ensures none { result ≡ None → length self.now.ends ≤ end }
    {
        beginning_at(&self.ends, end)
    }
}

/// That of the end with this number among ends.
fn beginning_at(ends: &[End], end: usize) -> Option<Beginning>
    ensures given { IfSome result
        (λ b. setup_given b ≡ setup_at (map end_seen ends.now) end) }
    ensures there { IfSome result (λ _. end < length (map end_seen ends.now)) }
    ensures none { result ≡ None → length (map end_seen ends.now) ≤ end }
{
    if end >= ends.len() {
        return None;
    }
    let given = &ends[end];
    let cert = given.cert;
    Some(Beginning {
        config: given.config,
        cert,
        generation: FIRST_GENERATION,
        secret: counted_secret(FIRST_GENERATION),
        cookie_secret: cert.print(),
    })
}
