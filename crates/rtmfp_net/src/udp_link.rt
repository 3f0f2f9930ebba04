//! A UDP socket.
ghost use Rattle.std.specs.Prelude.{◌≡◌, None};
ghost use Rattle.rtmfp_host.specs.Faults.{Counted};
ghost use Rattle.rtmfp_host.specs.Linking.{Fits};

use crate::places::{place_of, socket_addr};
use crate::system_clock::read_clock;
use libc::net::{SO_RCVBUF, SOL_SOCKET, setsockopt};
use rtmfp_forms::Address;
use rtmfp_host::{Bound, Got, Link, Sent};
use std::io::{self, ErrorKind};
use std::net::{Net, UdpSocket};
use std::os::fd::AsRawFd;
use std::time::{Clock, Duration};

/// The bytes of datagrams not yet taken that a socket asks the system to keep for it.
const RECEIVE_BUFFER: i32 = 1 << 20;

/// A socket of the machine, from the first bind on. It tells nothing. What a datagram has above
/// 2,048 bytes is lost.
#[derive(Drop)]
pub struct UdpLink<R: Net + Clock + Drop> {
    machine: R,
    socket: Option<BoundSocket>,
    faults: u64,
    losses: u64,
}

/// A socket, and whether it is one of IPv6.
#[derive(Drop)]
struct BoundSocket {
    socket: UdpSocket,
    is_v6: bool,
}

impl<R: Net + Clock + Drop> UdpLink<R> {
    /// A link with no socket yet: each receive and each send fails. The clock is the one of
    /// [`crate::SystemClock`], in whose moments `receive` is told how long to wait.
    pub fn new(machine: R) -> UdpLink<R>
        ensures faults { result.faults ≡ 0 }
        ensures losses { result.losses ≡ 0 }
    {
        UdpLink {
            machine,
            socket: None,
            faults: 0,
            losses: 0,
        }
    }

    /// Counts a fault.
    fn fail(&mut self)
        ensures faults { Counted self.old.faults self.new.faults }
        ensures losses { self.new.losses ≡ self.old.losses }
    {
        self.faults = self.faults.saturating_add(1);
    }
}

impl<R: Net + Clock + Drop> Link for UdpLink<R> {
    ghost seen = { λ s. record { line = None; faults = s.faults; losses = s.losses } };

    fn bind(&mut self, at: &Address) -> Bound {
        match BoundSocket::bind(&self.machine, at) {
            Ok(bound) => {
                self.socket = Some(bound);
                Bound::Done
            }
            Err(_) => {
                self.fail();
                Bound::Failed
            }
        }
    }

    fn receive(&mut self, until: u64, buf: &mut [u8; 2048]) -> Got {
        let limit = time_until(&self.machine, until);
        match receive_within(&self.socket, limit, buf) {
            Got::Failed => {
                self.fail();
                Got::Failed
            }
            Got::Quiet => Got::Quiet,
            Got::Datagram { from, length } => Got::Datagram { from, length },
        }
    }

    fn send(&mut self, to: &Address, bytes: &[u8]) -> Sent {
        if send_to(&self.socket, to, bytes) {
            return Sent::Done;
        }
        self.losses = self.losses.saturating_add(1);
        Sent::Failed
    }
}

impl BoundSocket {
    /// A socket at a place, whose receive buffer is as large as the system lets it be.
    fn bind(machine: &impl Net, at: &Address) -> io::Result<BoundSocket> {
        let socket = UdpSocket::bind(machine, socket_addr(at.v6, at))?;
        ask_for_buffer(&socket);
        Ok(BoundSocket {
            socket,
            is_v6: at.v6,
        })
    }
}

/// Asks the system for a receive buffer: what comes while a turn is at work waits there. A system
/// that has less to give gives that, and one that refuses leaves the buffer as it is.
fn ask_for_buffer(socket: &UdpSocket) {
    let mut value = [0; 16];
    value[..4].copy_from_slice(&RECEIVE_BUFFER.to_ne_bytes());
    // What this call asks for is proved: the option is one of the level's, and 4 bytes are there.
    let _status = unsafe { setsockopt(socket.as_raw_fd(), SOL_SOCKET, SO_RCVBUF, &value, 4) };
}

/// How long it is until a moment of the clock: 1 ms at least, which is the shortest limit of a
/// read that isn't without end.
fn time_until(clock: &impl Clock, until: u64) -> Duration {
    let now = read_clock(clock).unwrap_or(until);
    Duration::from_millis(until.saturating_sub(now).max(1))
}

/// Waits for a datagram, for this long at most.
fn receive_within(bound: &Option<BoundSocket>, limit: Duration, buf: &mut [u8; 2048]) -> Got
    ensures { Fits result }
{
    let Some(bound) = bound else {
        return Got::Failed;
    };
    if bound.socket.set_read_timeout(Some(limit)).is_err() {
        return Got::Failed;
    }
    match bound.socket.recv_from(buf) {
        Ok((length, from)) => Got::Datagram {
            from: place_of(from),
            length,
        },
        Err(error) => quiet_or_failed(error.kind()),
    }
}

/// Whether the limit was reached, or a signal came, or the outside failed.
fn quiet_or_failed(kind: ErrorKind) -> Got
    ensures { Fits result }
{
    match kind {
        ErrorKind::WouldBlock => Got::Quiet,
        ErrorKind::TimedOut => Got::Quiet,
        ErrorKind::Interrupted => Got::Quiet,
        _ => Got::Failed,
    }
}

/// Sends a datagram whole, or tells that it is lost.
fn send_to(bound: &Option<BoundSocket>, to: &Address, bytes: &[u8]) -> bool {
    let Some(bound) = bound else {
        return false;
    };
    match bound.socket.send_to(bytes, socket_addr(bound.is_v6, to)) {
        Ok(count) => count == bytes.len(),
        Err(_) => false,
    }
}
