//! What an end keeps.

use crate::groups::Groups;
use crate::settings::Settings;
use crypto_profile::Generation;
use endpoint_model::{Config, Place};
use identity::Certificate;
use introducer::{Directory, RowRefusal};
use rtmfp_base::limits::PLAIN;
use rtmfp_forms::Address;
use session_table::SessionTable;
use startup::Startup;
use std::alloc::Global;
use std::marker::Model;

/// What an end keeps of its attempts, searches and sessions.
///
/// Contracts see its limits, the largest moment that it was given, how many startup packets it
/// sealed, how long a packet of a session may be that goes out whole, the group's secret in the
/// current generation and in a next one that is known, what it keeps of attempts, searches and
/// sessions, each by their session IDs, whether it introduces, and its rows of addresses.
#[derive(Drop)]
pub struct EndState {
    pub alloc: Global,
    pub settings: Settings,
    pub moment: u64,
    /// The fingerprint of the own certificate.
    pub print: [u8; 32],
    /// How many startup packets were sealed.
    pub sealed: u64,
    /// The longest plain packet of a session that goes out whole, in bytes.
    pub limit: u16,
    pub groups: Groups,
    pub startup: Startup,
    pub sessions: SessionTable,
}

impl Model for EndState {
    ghost use Rattle.endpoint_model.specs.State.{State, state_code};
    ghost use Rattle.endpoint_model.specs.contracts.config.Config as config_type;
    ghost use Rattle.crypto_profile.specs.contracts.group.GroupSecret as group_type;
    ghost use Rattle.startup.specs.contracts.startup.Startup as startup_type;
    ghost use Rattle.endpoint_model.specs.contracts.row.Row as row_type;
    ghost use Rattle.rtmfp_forms.specs.contracts.address.Address as address_type;

    ghost Value = { State };

    ghost coded = { state_code config_type.the_row.coded group_type.the_row.coded
        startup_type.the_row.coded row_type.the_row.coded address_type.the_row.coded };

    ghost use Rattle.end_state.specs.Stored.{state_of, IsEnd};

    ghost view = { λ e. state_of e.settings e.moment e.sealed e.limit e.groups
        e.startup e.sessions.rows };

    ghost invariant = { λ e. IsEnd e.settings e.print e.startup };
}

impl EndState {
    ghost use Rattle.std.specs.Prelude.{◌≡◌, ◌≤◌, bytes_eq, is_some, length, Err, IfErr, IfNone, IfSome};
    ghost use Rattle.std.specs.Prelude.{OnErr, OnOk};
    ghost use Rattle.introducer.specs.Directory.{row_refusal};
    ghost use Rattle.startup.specs.Attempts.{cancel_fact};
    ghost use Rattle.endpoint_model.specs.Introducing.{introducing, with_redirect};
    ghost use Rattle.endpoint_model.specs.State.{fresh, at_moment, narrowing};
    ghost use Rattle.endpoint_model.specs.Sending.{limit_of};
    ghost use Rattle.endpoint_model.specs.Admission.{group_at};

    /// An end that holds nothing yet, in this generation with this secret of the group. It takes no
    /// memory.
    pub fn new(
        alloc: Global,
        config: Config,
        cert: Certificate,
        generation: u64,
        secret: [u8; 32],
        cookie_secret: [u8; 32],
    ) -> EndState
        requires { config.max_sessions ≤ 65536 }
        ensures { result
            ≡ fresh (record {
              config = config;
              cert = cert;
              generation = generation;
              secret = secret;
              cookie_secret = cookie_secret;
            }) }
    {
        let print = cert.print();
        let startup = Startup::new(alloc, cert, cookie_secret, config.max_peers);
        EndState {
            alloc,
            settings: Settings {
                config,
                introduces: config.introduces,
                directory: Directory::new(alloc),
            },
            moment: 0,
            print,
            sealed: 0,
            limit: PLAIN as u16,
            groups: Groups {
                current: Generation::of(generation, &secret),
                next: None,
            },
            startup,
            sessions: SessionTable::new(alloc),
        }
    }

    /// The group's secret that goes at a place, outside of sessions.
    pub fn group_at(&self, place: Place) -> &Generation
        ensures { result.now ≡ group_at self.now place }
    {
        self.groups.at(&self.startup, place)
    }

    /// Whether this is the group's secret in the current generation.
    pub fn has_secret(&self, secret: &[u8; 32]) -> bool
        ensures { result ≡ bytes_eq self.now.group.secret secret.now }
    {
        *self.groups.current.secret().bytes() == *secret
    }

    /// Notes the moment that a call is given.
    pub fn advance(&mut self, moment: u64)
        ensures { self.new ≡ at_moment self.old moment }
    {
        self.moment = self.moment.max(moment);
        self.startup.advance(self.moment);
    }

    /// Whether a held attempt has this number.
    pub fn has_number(&self, n: u64) -> bool
        ensures { result ≡ is_some (cancel_fact self.now.startup n) }
    {
        self.startup.has_number(n)
    }

    /// Adds a row of addresses for the end of this fingerprint, instead of one that is there.
    pub fn add_row(&mut self, print: [u8; 32], addresses: &[Address]) -> Result<(), RowRefusal>
        ensures ok { OnOk result (self.new ≡ with_redirect self.old print addresses.now) }
        ensures refused { IfSome (row_refusal self.old.redirects print (length addresses.now))
            (λ refusal. result ≡ Err refusal) }
        ensures memory { IfNone (row_refusal self.old.redirects print (length addresses.now))
            (IfErr result (λ refusal. refusal ≡ RowRefusal.Memory)) }
        ensures err { OnErr result (self.new ≡ self.old) }
    {
        self.settings.directory.add_row(print, addresses)
    }

    /// From now on no longer packet of a session goes out whole.
    pub fn narrow(&mut self, limit: u16)
        ensures { self.new ≡ narrowing self.old limit }
    {
        self.limit = limit;
    }

    /// How many plain bytes a packet of a session may have that goes out whole.
    pub(crate) fn limit(&self) -> u16
        ensures value { result ≡ limit_of self.now }
        ensures least { 96 ≤ result }
        ensures most { result ≤ 1164 }
    {
        self.limit.max(96).min(1164)
    }

    /// The end introduces others from now on.
    pub fn introduce(&mut self)
        ensures { self.new ≡ introducing self.old }
    {
        self.settings.introduces = true;
    }
}
