//! One end of a session.

ghost use Rattle.std.specs.Prelude.{◌≡◌, ◌↔◌, ◌+◌, ◌<◌, ◌^◌, IsTrue, List, ℕ, false, true, is_none, ◌≤◌, length, nat_le, ◌-◌, IfSome};
ghost use Rattle.rtmfp_base.specs.Reasons.{where_true};
ghost use Rattle.session_core.specs.Session.{SessionState, context_between, context_of, first_stage, new_session, is_opening, confirmed, mode_of, head_at, with_stamps, moved_to};
ghost use Rattle.session_core.specs.Closing.{is_held, is_near_close, closed_near, asked_to_close, close_answered, first_due, after_due, needs_keepalive, kept_alive, with_acknowledged, with_loss};
ghost use Rattle.session_core.specs.Deadline.{deadline};
ghost use Rattle.session_core.specs.Congestion.{IsCongestion};
ghost use Rattle.session_core.specs.Trips.{resend_time};
ghost use Rattle.session_core.specs.Sealed.{is_spent, seal_answer, after_seal, sealed_into, sealed_part};
ghost use Rattle.session_core.specs.Sealed.{with_part};
ghost use Rattle.session_core.specs.Hearing.{counted, opens_in, unheard, heard_answer, after_heard, opened, OpensBy};

use crate::congestion::{Congestion, first_congestion, grown, shrunk};
use crate::hearing::{Unheard, count_of, has_session_number, opens_under};
use crate::sealing::number_of_count;
use crate::stage::{
    NEVER, Role, SessionDue, Stage, after, after_last, is_held, is_past, is_past_last,
};
use crate::stamps::{Stamp, echo_of, stamp_after, tick_of};
use crate::trips::{RoundTrip, resend_time, trip_after};
use crypto_profile::{
    CIPHERED_AT, Context, HmacKey, Keys, ReplayWindow, StreamKey, open_in_place, seal_into,
};
use glare_core::Joined;
use rtmfp_forms::{Address, Outgoing};
use rtmfp_packet::{Mode, PacketHead};
use std::marker::Model;
use std::ops::Range;

// Spans of milliseconds (own).
const UNCONFIRMED: u64 = 20_000;

const IDLE: u64 = 120_000;

const CLOSING: u64 = 90_000;

const LINGERING: u64 = 19_000;

const CLOSE_AGAIN: u64 = 5000;

const KEEPALIVE: u64 = 10_000;

/// The bytes of the session ID, before the sealed part.
const ID_LEN: usize = 4;

/// One end of a session: its values, its stage, what it has sealed and taken.
///
/// It keeps the keys of both directions, which are made once, and not the group secret.
#[derive(Drop)]
pub struct Session {
    joined: Joined,
    own: [u8; 32],
    role: Role,
    generation: u64,
    inward: Keys,
    outward: Keys,
    address: Address,
    stage: Stage,
    since: u64,
    window: ReplayWindow,
    sealed: u64,
    stamp: Option<Stamp>,
    taken: u64,
    keepalive: Option<u64>,
    close_sent: Option<u64>,
    trip: Option<RoundTrip>,
    congestion: Congestion,
}

impl Model for Session {
    ghost use Rattle.session_core.specs.Congestion.{IsCongestion};
    ghost use Rattle.session_core.specs.Session.{SessionState};

    ghost Value = { SessionState };

    ghost view = { λ s. record {
      joined = s.joined;
      own = s.own;
      role = s.role;
      generation = s.generation;
      inward = s.inward;
      outward = s.outward;
      address = s.address;
      stage = s.stage;
      since = s.since;
      window = s.window;
      sealed = s.sealed;
      stamp = s.stamp;
      taken = s.taken;
      keepalive = s.keepalive;
      close_sent = s.close_sent;
      trip =
          s.trip;
      congestion = s.congestion;
    } };

    ghost invariant = { λ s. IsCongestion s.congestion };
}

/// The context of packets of a generation, away from an end or towards it.
fn context_between(
    generation: u64,
    joined: &Joined,
    own: &[u8; 32],
    role: Role,
    outward: bool,
) -> Context
    ensures { result ≡ context_between generation joined.now own.now role outward }
{
    match role {
        Role::Initiator => Context::Session {
            generation,
            ni: joined.ni,
            nr: joined.nr,
            fp_i: *own,
            fp_r: joined.peer,
            sid_i: joined.near,
            sid_r: joined.far,
            to_responder: outward,
        },
        Role::Responder => Context::Session {
            generation,
            ni: joined.ni,
            nr: joined.nr,
            fp_i: joined.peer,
            fp_r: *own,
            sid_i: joined.far,
            sid_r: joined.near,
            to_responder: !outward,
        },
    }
}

fn first_stage(role: Role) -> Stage
    ensures { result ≡ first_stage role }
{
    match role {
        Role::Initiator => Stage::Open,
        Role::Responder => Stage::Opening,
    }
}

fn mode_of(role: Role) -> Mode
    ensures { result ≡ mode_of role }
{
    match role {
        Role::Initiator => Mode::Initiator,
        Role::Responder => Mode::Responder,
    }
}

impl Session {
    /// A session that was born or opened at a moment, with the peer at this address, under the
    /// group's secret of a generation. It keeps its keys, and stays in its generation (own).
    /// Opening counts as a datagram taken.
    pub fn new(
        joined: &Joined,
        own: &[u8; 32],
        role: Role,
        address: Address,
        generation: u64,
        secret: &[u8; 32],
        moment: u64,
    ) -> Session
        ensures { result ≡ new_session joined.now own.now role address generation
            secret.now moment }
    {
        let hashed = HmacKey::of(secret);
        Session::under(joined, own, role, address, &hashed, generation, moment)
    }

    /// The same under a secret that was hashed before (own).
    pub fn under(
        joined: &Joined,
        own: &[u8; 32],
        role: Role,
        address: Address,
        secret: &HmacKey,
        generation: u64,
        moment: u64,
    ) -> Session
        ensures { result ≡ new_session joined.now own.now role address generation
            secret.now moment }
    {
        Session {
            joined: *joined,
            own: *own,
            role,
            generation,
            inward: Keys::under(
                secret,
                &context_between(generation, joined, own, role, false),
            ),
            outward: Keys::under(
                secret,
                &context_between(generation, joined, own, role, true),
            ),
            address,
            stage: first_stage(role),
            since: moment,
            window: ReplayWindow::new(),
            sealed: 0,
            stamp: None,
            taken: moment,
            keepalive: None,
            close_sent: None,
            trip: None,
            congestion: first_congestion(),
        }
    }

    /// The values of the session, as this end has them.
    pub fn joined(&self) -> &Joined
        ensures { result.now ≡ self.now.joined }
    {
        &self.joined
    }

    pub fn role(&self) -> Role
        ensures { result ≡ self.now.role }
    {
        self.role
    }

    pub fn stage(&self) -> Stage
        ensures { result ≡ self.now.stage }
    {
        self.stage
    }

    /// Where datagrams of the session are sent.
    pub fn address(&self) -> &Address
        ensures { result.now ≡ self.now.address }
    {
        &self.address
    }

    /// The context of packets away from this end where `outward` is true, else of those towards it.
    pub fn context(&self, outward: bool) -> Context
        ensures { result ≡ context_of self.now outward }
    {
        context_between(self.generation, &self.joined, &self.own, self.role, outward)
    }

    /// The key of the keystream of packets away from this end, by which they are deciphered and
    /// none is verified.
    pub fn stream_key(&self) -> &StreamKey
        ensures { result.now ≡ self.now.outward.enc }
    {
        self.outward.stream()
    }

    /// The generation of the group secret, which the session was begun in.
    pub fn generation(&self) -> u64
        ensures { result ≡ self.now.generation }
    {
        self.generation
    }

    /// Whether a sealed part opens by the keys towards this end, also where its number was taken
    /// before. It changes nothing.
    pub fn opens(&self, sealed: &[u8]) -> bool
        ensures value { result ≡ opens_in self.now sealed.now }
        ensures exact { IsTrue result ↔ ((plain : List ℕ) ×
            OpensBy self.now.inward self.now.joined.near sealed.now plain) }
    {
        opens_under(&self.inward, self.joined.near, sealed)
    }

    /// Whether `hear` would hear a sealed part. It changes nothing.
    pub fn hears(&self, sealed: &[u8]) -> bool
        ensures { result ≡ is_none (unheard self.now sealed.now) }
    {
        self.opens(sealed) && self.window.answer(count_of(sealed)).is_ok()
    }

    /// Hears a sealed part: it opens it in place, takes its number, and gives where the plain
    /// packet stands.
    ///
    /// Of the session the numbers taken change alone. The buffer stays as it was after Short and
    /// BadTag, and has the plain packet after Repeated.
    pub fn hear(&mut self, sealed: &mut [u8]) -> Result<Range<usize>, Unheard>
        ensures answer { result ≡ heard_answer self.old sealed.old }
        ensures session { self.new ≡ after_heard self.old sealed.old }
        ensures buffer { sealed.new ≡ opened self.old sealed.old }
    {
        if sealed.len() < CIPHERED_AT {
            return Err(Unheard::Short);
        }
        if !has_session_number(sealed) {
            return Err(Unheard::BadTag);
        }
        let count = count_of(sealed);
        match open_in_place(&self.inward, self.joined.near, sealed) {
            Err(_) => Err(Unheard::BadTag),
            Ok(range) => match self.window.take(count) {
                Ok(()) => Ok(range),
                Err(_) => Err(Unheard::Repeated),
            },
        }
    }

    /// Opens a sealed part in place as `hear` does, but takes no number yet.
    pub fn open(&self, sealed: &mut [u8]) -> Result<Range<usize>, Unheard>
        ensures answer { result ≡ heard_answer self.now sealed.old }
        ensures buffer { sealed.new ≡ opened self.now sealed.old }
    {
        if sealed.len() < CIPHERED_AT {
            return Err(Unheard::Short);
        }
        let is_of_session = has_session_number(sealed);
        if !is_of_session {
            return Err(Unheard::BadTag);
        }
        let number = count_of(sealed);
        let opened = open_in_place(&self.inward, self.joined.near, sealed);
        match opened {
            Err(_fault) => Err(Unheard::BadTag),
            Ok(at) => match self.window.answer(number) {
                Ok(()) => Ok(at),
                Err(_seen) => Err(Unheard::Repeated),
            },
        }
    }

    /// Takes the number of a sealed part that was opened. The first 32 bytes of the part are
    /// enough.
    pub fn take_number(&mut self, sealed: &[u8])
        requires { 32 ≤ length sealed.now }
        ensures { self.new ≡ counted self.old sealed.now }
    {
        let _ = self.window.take(count_of(sealed));
    }

    /// Whether the session is held, half-open or open: it hasn't ended.
    pub fn is_held(&self) -> bool
        ensures { result ≡ is_held self.now.stage }
    {
        is_held(self.stage)
    }

    /// Whether the session is half-open, so that `confirm` would confirm it.
    pub fn is_half_open(&self) -> bool
        ensures { result ≡ is_opening self.now.stage }
    {
        match self.stage {
            Stage::Opening => true,
            Stage::Open | Stage::NearClose | Stage::FarLinger | Stage::Closed => false,
        }
    }

    /// Seals a packet as the session's next into `out`, from byte 4 on, and gives the length of the
    /// datagram; None where all counts are used. The bytes before and after the sealed part stay.
    pub fn seal(&mut self, packet: &Outgoing, out: &mut [u8; 1200]) -> Option<usize>
        ensures length { result ≡ seal_answer self.old packet.now }
        ensures limit { IfSome result (λ len. len ≤ 1200) }
        ensures session { self.new ≡ after_seal self.old }
        ensures written { out.new ≡ sealed_into self.old packet.now out.old }
    {
        if self.is_spent() {
            return None;
        }
        Some(self.seal_behind_id(packet, out))
    }

    /// The same where a count is left.
    fn seal_behind_id(&mut self, packet: &Outgoing, out: &mut [u8; 1200]) -> usize
        requires { is_spent self.old ≡ false }
        ensures length { result ≡ 36 + length packet.now }
        ensures limit { result ≤ 1200 }
        ensures session { self.new ≡ after_seal self.old }
        ensures written { out.new ≡ with_part out.old (sealed_part self.old packet.now) }
    {
        let len = CIPHERED_AT + packet.bytes().len();
        let (_, rest) = out.split_at_mut(ID_LEN);
        let (part, _) = rest.split_at_mut(len);
        self.seal_part(packet, part);
        ID_LEN + len
    }

    /// Seals a packet as the session's next where it will stand: `part` is as long as its sealed
    /// part, which has 32 bytes more than the packet. A count has to be left, as `is_spent` tells.
    pub fn seal_part(&mut self, packet: &Outgoing, part: &mut [u8])
        requires unspent { is_spent self.old ≡ false }
        requires room { length part.old ≡ 32 + length packet.now }
        ensures session { self.new ≡ after_seal self.old }
        ensures sealed { part.new ≡ sealed_part self.old packet.now }
    {
        self.sealed += 1;
        let number = number_of_count(self.sealed);
        seal_into(&self.outward, self.joined.far, number, packet.bytes(), part);
    }

    /// Whether all counts are used, so that `seal` would give None.
    pub fn is_spent(&self) -> bool
        ensures value { result ≡ is_spent self.now }
        ensures count { self.now.sealed < 2 ^ 64 }
    {
        self.sealed == u64::MAX
    }

    /// Whether so many counts are left, each for one packet.
    pub fn has_counts(&self, count: u64) -> bool
        ensures { result ≡ nat_le (self.now.sealed + count) (2 ^ 64 - 1) }
    {
        count <= u64::MAX - self.sealed
    }

    /// The session's datagrams are sent to this address from now on.
    pub fn move_to(&mut self, address: Address)
        ensures { self.new ≡ moved_to address self.old }
    {
        self.address = address;
    }

    /// Confirms a half-open session, which is open then; true exactly where it was half-open.
    pub fn confirm(&mut self) -> bool
        ensures answer { result ≡ is_opening self.old.stage }
        ensures session { self.new ≡ confirmed self.old }
    {
        let was_opening = self.stage == Stage::Opening;
        if was_opening {
            self.stage = Stage::Open;
        }
        was_opening
    }

    /// The head of a packet that is sent at a moment.
    pub fn head(&self, moment: u64) -> PacketHead
        ensures { result ≡ head_at self.now moment }
    {
        PacketHead {
            critical: false,
            reverse: false,
            stamp: Some(tick_of(moment)),
            echo: echo_of(self.stamp, moment),
            mode: mode_of(self.role),
        }
    }

    /// Counts a datagram with this head as taken at a moment, keeps its timestamp, and times a
    /// round trip by its echo.
    pub fn take_stamps(&mut self, head: &PacketHead, moment: u64)
        ensures { self.new ≡ with_stamps head.now moment self.old }
    {
        self.stamp = stamp_after(self.stamp, head.stamp, moment);
        self.taken = moment;
        self.trip = trip_after(self.trip, head.echo, moment);
    }

    /// Closes a session that hasn't ended; true exactly where it hadn't. The close counts as sent.
    pub fn close(&mut self, moment: u64) -> bool
        ensures answer { result ≡ is_held self.old.stage }
        ensures session { self.new ≡ closed_near moment self.old }
    {
        if !is_held(self.stage) {
            return false;
        }
        self.stage = Stage::NearClose;
        self.since = moment;
        self.close_sent = Some(moment);
        true
    }

    /// Takes the peer's close; true exactly where the session hadn't ended. It lingers then, also
    /// where this end was closing it.
    pub fn take_close_request(&mut self, moment: u64) -> bool
        ensures answer { result ≡ is_held self.old.stage }
        ensures session { self.new ≡ asked_to_close moment self.old }
    {
        let was_held = is_held(self.stage);
        if was_held || self.stage == Stage::NearClose {
            self.stage = Stage::FarLinger;
            self.since = moment;
        }
        was_held
    }

    /// Takes the peer's answer to a close; true exactly where this end was closing. The session is
    /// over then.
    pub fn take_close_ack(&mut self) -> bool
        ensures answer { result ≡ is_near_close self.old.stage }
        ensures session { self.new ≡ close_answered self.old }
    {
        let was_closing = self.stage == Stage::NearClose;
        if was_closing {
            self.stage = Stage::Closed;
        }
        was_closing
    }

    /// What `due` would give. It changes nothing.
    pub fn first_due(&self, moment: u64) -> Option<SessionDue>
        ensures { result ≡ first_due self.now moment }
    {
        match self.stage {
            Stage::Opening => {
                where_true(
                    is_past(UNCONFIRMED, self.since, moment),
                    SessionDue::Unconfirmed,
                )
            }
            Stage::Open => where_true(is_past(IDLE, self.taken, moment), SessionDue::Idle),
            Stage::NearClose => {
                if is_past(CLOSING, self.since, moment) {
                    return Some(SessionDue::Over);
                }
                let repeat = is_past_last(CLOSE_AGAIN, self.close_sent, moment);
                where_true(repeat, SessionDue::RepeatClose)
            }
            Stage::FarLinger => {
                where_true(is_past(LINGERING, self.since, moment), SessionDue::Over)
            }
            Stage::Closed => None,
        }
    }

    /// The first that is due at a moment of `SessionDue`, in its order. The session is over after
    /// each but RepeatClose, with which its close counts as sent.
    pub fn due(&mut self, moment: u64) -> Option<SessionDue>
        ensures answer { result ≡ first_due self.old moment }
        ensures session { self.new ≡ after_due result moment self.old }
    {
        let due = self.first_due(moment)?;
        match due {
            SessionDue::Unconfirmed => self.stage = Stage::Closed,
            SessionDue::Idle => self.stage = Stage::Closed,
            SessionDue::Over => self.stage = Stage::Closed,
            SessionDue::RepeatClose => self.close_sent = Some(moment),
        }
        Some(due)
    }

    /// Whether a keepalive is due at a moment, which then counts as sent.
    pub fn keepalive(&mut self, moment: u64) -> bool
        ensures answer { result ≡ needs_keepalive self.old moment }
        ensures session { self.new ≡ kept_alive moment self.old }
    {
        let due = self.needs_keepalive(moment);
        if due {
            self.keepalive = Some(moment);
        }
        due
    }

    /// Whether a keepalive is due at a moment. It changes nothing.
    pub fn needs_keepalive(&self, moment: u64) -> bool
        ensures { result ≡ needs_keepalive self.now moment }
    {
        self.stage == Stage::Open
            && is_past(KEEPALIVE, self.taken, moment)
            && is_past_last(KEEPALIVE, self.keepalive, moment)
    }

    /// From which moment on something of the session's own is due: its end, the end of its closing,
    /// its close again, or a keepalive. 2^64, to which no moment comes, where nothing ever is.
    pub fn deadline(&self) -> u128
        ensures { result ≡ deadline self.now }
    {
        match self.stage {
            Stage::Opening => after(UNCONFIRMED, self.since),
            Stage::Open => {
                let again = after_last(KEEPALIVE, self.keepalive);
                let keepalive = after(KEEPALIVE, self.taken).max(again);
                after(IDLE, self.taken).min(keepalive)
            }
            Stage::NearClose => {
                let again = after_last(CLOSE_AGAIN, self.close_sent);
                after(CLOSING, self.since).min(again)
            }
            Stage::FarLinger => after(LINGERING, self.since),
            Stage::Closed => NEVER,
        }
    }

    /// The milliseconds after which what was sent is sent again.
    pub fn resend_after(&self) -> u64
        ensures { result ≡ resend_time self.now.trip }
    {
        resend_time(self.trip)
    }

    /// How many bytes may be in flight.
    pub fn window(&self) -> u64
        ensures value { result ≡ self.now.congestion.window }
        ensures range { IsCongestion self.now.congestion }
    {
        self.congestion.window
    }

    /// The window grows, since so many bytes were newly acknowledged.
    pub fn acknowledged(&mut self, bytes: u64)
        ensures { self.new ≡ with_acknowledged bytes self.old }
    {
        self.congestion = grown(bytes, self.congestion);
    }

    /// The window shrinks, since something was lost, by time or by acks.
    pub fn lost(&mut self, by_time: bool)
        ensures { self.new ≡ with_loss by_time self.old }
    {
        self.congestion = shrunk(by_time, self.congestion);
    }
}

/// The answer where the test passes.
fn where_true(test: bool, due: SessionDue) -> Option<SessionDue>
    ensures { result ≡ where_true test due }
{
    if test { Some(due) } else { None }
}
