//! What an end keeps to open sessions.

use crate::indexed::IndexedAttempts;
use crate::kept::KeptKeyings;
use cookies::CookieMaker;
use glare_core::Peers;
use identity::Certificate;
use std::alloc::Global;
use std::marker::Model;

/// What an end keeps to open sessions: its certificate, the secret of its cookies, what it holds
/// with its peers, its attempts, and what answers repeated keyings. The secrets of the group come
/// with the calls.
///
/// Contracts see it as the certificate, the secret of its cookies, the ledger of its peers, a finite
/// map from near ids to attempts, and one from peers to what answers their repeated keyings.
#[derive(Drop)]
pub struct Startup {
    pub(crate) cert: Certificate,
    /// The fingerprint of the certificate.
    pub(crate) print: [u8; 32],
    pub(crate) cookies: CookieMaker,
    pub(crate) peers: Peers,
    pub(crate) attempts: IndexedAttempts,
    pub(crate) kept: KeptKeyings,
}

impl Model for Startup {
    ghost use Rattle.startup.specs.State.{StartupState, startup_code};
    ghost use Rattle.startup.specs.contracts.attempt.Attempt as attempt_type;
    ghost use Rattle.startup.specs.contracts.kept.KeptKeying as kept_type;
    ghost use Rattle.glare_core.specs.contracts.peers.Peers as peers_type;

    ghost Value = { StartupState };

    ghost coded = { startup_code peers_type.the_row.coded attempt_type.the_row.coded
        kept_type.the_row.coded };

    ghost use Rattle.startup.specs.Rows.{state_of, IsStartup};

    ghost view = { λ s. state_of s.cert s.cookies s.peers s.attempts.attempts s.kept.keyings };

    ghost invariant = { λ s. IsStartup s.cert s.print s.cookies s.peers s.attempts.attempts
        s.kept.keyings };
}

impl Startup {
    ghost use Rattle.std.specs.Prelude.{◌≡◌};
    ghost use Rattle.startup.specs.State.{new_startup, IsSound};

    /// An end that knows no peer yet, with at most `max_peers` rows of peers. It takes no memory.
    pub fn new(alloc: Global, cert: Certificate, cookie_secret: [u8; 32], max_peers: u32) -> Startup
        ensures { result ≡ new_startup cert cookie_secret max_peers }
    {
        let print = cert.print();
        Startup {
            cert,
            print,
            cookies: CookieMaker::new(cookie_secret),
            peers: Peers::new(alloc, print, max_peers, 0),
            attempts: IndexedAttempts::new(alloc),
            kept: KeptKeyings::new(alloc),
        }
    }

    /// What is held with each peer.
    pub fn peers(&self) -> &Peers
        ensures ledger { result.now ≡ self.now.ledger }
        ensures sound { IsSound self.now }
    {
        &self.peers
    }
}
