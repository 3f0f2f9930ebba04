//! One end.

ghost use Rattle.std.specs.Prelude.{◌≡◌};
ghost use Rattle.endpoint.specs.Keeps.{keeps};

use crate::sizes::are_thirty_two;
use end_state::EndState;
use endpoint_model::Config;
use glare_core::Held;
use identity::Certificate;
use std::alloc::Global;
use std::marker::Model;

/// One end: what it keeps of its attempts, searches and sessions.
///
/// Contracts see its limits, the largest moment that it was given, how many startup packets it
/// sealed, how long a packet of a session may be that goes out whole, the group's secret in the
/// current generation and in a next one that is known, what it keeps of attempts, searches and
/// sessions, each by their session IDs, whether it introduces, and its rows of addresses.
#[derive(Drop)]
pub struct Endpoint {
    pub(crate) end: EndState,
}

impl Model for Endpoint {
    ghost use Rattle.endpoint_model.specs.State.{State};
    ghost use Rattle.end_state.specs.contracts.end_state.EndState as end_type;
    ghost use Rattle.endpoint.specs.Reached.{IsReached};

    ghost Value = { State };

    ghost coded = { end_type.the_row.coded };

    ghost view = { λ e. e.end };

    // Some log leads to it, so what holds for all logs holds of each end.
    ghost invariant = { λ e. IsReached e.end };
}

impl Endpoint {
    ghost use Rattle.std.specs.Prelude.{◌≡◌, ◌≤◌, []};
    ghost use Rattle.endpoint_model.specs.State.{fresh};
    ghost use Rattle.endpoint_model.specs.Log.{StandsFor};
    ghost use Rattle.endpoint.specs.Keeps.{keeps};

    /// An end that holds nothing yet. Its group's secret is in this generation, which may be any
    /// (own): the ends of a group have one secret under one number. It takes no memory.
    pub fn new(
        alloc: Global,
        config: Config,
        cert: Certificate,
        generation: u64,
        secret: [u8; 32],
        cookie_secret: [u8; 32],
    ) -> Endpoint
        requires { config.max_sessions ≤ 65536 }
        ensures state { result
            ≡ fresh (record {
              config = config;
              cert = cert;
              generation = generation;
              secret = secret;
              cookie_secret = cookie_secret;
            }) }

        // It stands for the empty log.
        ensures stands { StandsFor (record {
          config = config;
          cert = cert;
          generation = generation;
          secret = secret;
          cookie_secret = cookie_secret;
        }) [] result }
    {
        let _form = cert.bytes();
        are_thirty_two(&secret);
        are_thirty_two(&cookie_secret);
        Endpoint {
            end: EndState::new(alloc, config, cert, generation, secret, cookie_secret),
        }
    }

    /// Whether the end keeps a session with the peer that has this fingerprint. A half-open session
    /// isn't kept.
    pub fn keeps(&self, peer: &[u8; 32]) -> bool
        ensures { result ≡ keeps self.now peer.now }
    {
        keeps(&self.end, peer)
    }
}

/// Whether an end keeps a session with this peer.
fn keeps(end: &EndState, peer: &[u8; 32]) -> bool
    ensures { result ≡ keeps end.now peer.now }
{
    match end.startup.peers().held(peer) {
        Some(Held::KeptAsResponder(_)) => true,
        Some(Held::KeptAsInitiator(_)) => true,
        Some(Held::HalfOpen(_)) => false,
        Some(Held::Opening { .. }) => false,
        None => false,
    }
}
