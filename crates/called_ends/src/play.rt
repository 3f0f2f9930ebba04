//! The ends of a script, and what is done with them. A call that found no memory is made again.

mod called;

use crate::play::called::{Called, Deed, do_deed};
use counted_secrets::counted_secret;
use endpoint::{Config, Draws, Endpoint, Entry, MessageOptions, Outbox};
use identity::Certificate;
use rtmfp_base::Message;
use rtmfp_forms::Address;
use rtmfp_host::{Sink, StreamSink};
use rtmfp_report::{GroupKeys, GroupSecrets, push_entries};
use rtmfp_script::{BringLine, CallLine, Content, Said, ScriptLine, read_line};
use rtmfp_text::{Directory, Name, Named, Text};
use std::alloc::Global;
use std::test::Fail;

/// The generation in which an end begins.
const GENERATION: u64 = 0;

/// How often a call is made at most.
const TRIES: u32 = 3;

/// An end, what it is called, and where its datagrams come from.
#[derive(Drop)]
struct Player {
    name: Name,
    end: Endpoint,
    place: Address,
}

/// A datagram that went out, the number of the end that sent it, and where to.
#[derive(Drop)]
struct Sent {
    by: usize,
    to: Address,
    datagram: Message,
}

/// The ends, the datagrams that they sent, and how many lines of the script there were.
#[derive(Drop)]
pub(crate) struct Play {
    lines: u32,
    alloc: Global,
    players: Vec<Player>,
    names: Directory,
    keys: GroupKeys,
    sent: Vec<Sent>,
    moment: u64,
    text: Text,
    scratch: Vec<u8>,
}

/// A number, and another one before it.
fn two_numbers(first: u8, second: u32) -> [u8; 16] {
    let mut bytes = [0; 16];
    bytes[7] = first;
    let [a, b, c, d] = second.to_be_bytes();
    bytes[12] = a;
    bytes[13] = b;
    bytes[14] = c;
    bytes[15] = d;
    bytes
}

/// The random values of a line of a script.
fn draws_of(line: u32) -> Draws {
    Draws {
        nonce: two_numbers(0, line),
        tag: two_numbers(2, line),
        token: two_numbers(1, line),
        word: line,
    }
}

fn copy_of(alloc: Global, message: &Message) -> Result<Message, Fail> {
    Ok(
        Message::copy_of(alloc, message.bytes())
            .ok()
            .ok_or("memory")?,
    )
}

/// Tells whose allocations begin.
fn mark(rt: &HostRuntime, sign: &[u8]) {
    let _ = StreamSink::new(rt.stderr()).write(sign);
}

impl Play {
    pub(crate) fn new(rt: &HostRuntime) -> Play {
        let alloc = rt.alloc();
        Play {
            lines: 0,
            alloc,
            players: Vec::new(alloc),
            names: Directory::new(alloc),
            keys: GroupKeys::of(alloc, GroupSecrets::Counted),
            sent: Vec::new(alloc),
            moment: 0,
            text: Text::new(alloc),
            scratch: Vec::new(alloc),
        }
    }

    /// Adds an end, unless one has its name or its certificate.
    fn add(
        &mut self,
        name: Name,
        peers: u32,
        sessions: u32,
        cert: Certificate,
    ) -> Result<(), Fail> {
        let print = cert.print();
        if self.names.has_like(&name, &print) {
            return Ok(());
        }
        let config = Config {
            max_peers: peers,
            max_sessions: sessions.min(65_536),
            introduces: false,
        };
        let end = Endpoint::new(
            self.alloc,
            config,
            cert,
            GENERATION,
            counted_secret(GENERATION),
            print,
        );
        let named = Named {
            print,
            name: name.again(),
        };
        self.names.push(named)?;
        let place = Address::v4([0, 0, 0, 0], 0);
        let player = Player { name, end, place };
        self.players.push(player)?;
        Ok(())
    }

    /// The fingerprint of the end of a name.
    fn print_of(&self, name: &Name) -> [u8; 32] {
        match self.names.as_slice().get(self.number_of(name)) {
            Some(named) => named.print,
            None => [0; 32],
        }
    }

    /// The number of the end of a name.
    fn number_of(&self, name: &Name) -> usize {
        self.names.number_of(name).unwrap_or(usize::MAX)
    }

    /// Writes the lines of the entries of an outbox.
    fn tell(&mut self, rt: &HostRuntime, line: u32, by: usize, out: &Outbox) -> Result<(), Fail> {
        let Some(player) = self.players.get(by) else {
            return Ok(());
        };
        self.text.clear();
        push_entries(
            &mut self.keys,
            &self.names,
            u64::from(line),
            &player.name,
            self.sent.len() as u64,
            out.entries(),
            &mut self.scratch,
            &mut self.text,
        )?;
        let _ = StreamSink::new(rt.stdout()).write(self.text.bytes());
        Ok(())
    }

    /// Keeps a datagram that an end sent.
    fn keep(&mut self, by: usize, to: Address, datagram: &Message) -> Result<(), Fail> {
        let datagram = copy_of(self.alloc, datagram)?;
        self.sent.push(Sent { by, to, datagram })?;
        Ok(())
    }

    /// Keeps the datagrams of an outbox, and writes the lines of its entries.
    fn note(&mut self, rt: &HostRuntime, line: u32, by: usize, out: &Outbox) -> Result<(), Fail> {
        self.tell(rt, line, by, out)?;
        for entry in out.entries() {
            if let Entry::Out { to, datagram, .. } = entry {
                self.keep(by, *to, datagram)?;
            }
        }
        Ok(())
    }

    /// Makes a call once, with an outbox that has no room yet.
    fn try_once(
        &mut self,
        rt: &HostRuntime,
        line: u32,
        by: usize,
        deed: &Deed,
    ) -> Result<Called, Fail> {
        let mut out = Outbox::new(self.alloc, 0).ok().ok_or("memory")?;
        let Some(player) = self.players.get_mut(by) else {
            return Ok(Called::Done);
        };
        mark(rt, b"+");
        let called = do_deed(
            &mut player.end,
            deed,
            self.moment,
            &draws_of(line),
            &mut out,
        );
        mark(rt, b"-");
        self.note(rt, line, by, &out)?;
        Ok(called)
    }

    /// Makes a call until it finds memory.
    fn call(&mut self, rt: &HostRuntime, line: u32, by: usize, deed: &Deed) -> Result<(), Fail> {
        for _ in 0..TRIES {
            match self.try_once(rt, line, by, deed)? {
                Called::Done => return Ok(()),
                Called::Wanting => println!(rt; "{line} wanting")?,
                Called::Stopped(taken) => println!(rt; "{line} wanting taken={taken}")?,
            }
        }
        Ok(())
    }

    /// Brings a datagram to an end. One that never went out is told and skipped.
    fn bring(
        &mut self,
        rt: &HostRuntime,
        line: u32,
        index: usize,
        to: usize,
        from: Address,
    ) -> Result<(), Fail> {
        let Some(sent) = self.sent.get(index) else {
            return Ok(println!(rt; "{line} missing")?);
        };
        let deed = Deed::Take {
            from,
            datagram: copy_of(self.alloc, &sent.datagram)?,
        };
        if let Some(sender) = self.players.get_mut(sent.by) {
            sender.place = from;
        }
        self.call(rt, line, to, &deed)
    }

    /// Brings the datagram of this number, counted from 1, to the end of a name.
    fn deliver(
        &mut self,
        rt: &HostRuntime,
        line: u32,
        number: u64,
        name: &Name,
        from: Address,
    ) -> Result<(), Fail> {
        let (index, to) = (number.saturating_sub(1) as usize, self.number_of(name));
        self.bring(rt, line, index, to, from)
    }

    /// Queues a message at an end.
    fn queue(
        &mut self,
        rt: &HostRuntime,
        line: u32,
        by: usize,
        near: u32,
        flow: u64,
        options: MessageOptions,
        message: Message,
    ) -> Result<(), Fail> {
        let deed = Deed::Queue {
            near,
            flow,
            options,
            message,
        };
        self.call(rt, line, by, &deed)
    }

    /// The message that a step queues.
    fn message_of(&self, content: Content) -> Result<Message, Fail> {
        Ok(content.into_message(self.alloc).ok().ok_or("memory")?)
    }

    /// Does a step of a script.
    fn step(&mut self, rt: &HostRuntime, line: u32, step: ScriptLine) -> Result<(), Fail> {
        match step {
            ScriptLine::End {
                name,
                peers,
                sessions,
                cert,
            } => self.add(name, peers, sessions, cert),
            ScriptLine::At { moment } => {
                self.moment = moment;
                Ok(())
            }
            ScriptLine::Call { name, call } => {
                let by = self.number_of(&name);
                self.call_line(rt, line, by, call)
            }
            ScriptLine::Towards {
                name,
                peer,
                addresses,
                aim,
            } => {
                let (by, peer) = (self.number_of(&name), self.print_of(&peer));
                let deed = Deed::Aim {
                    aim,
                    peer,
                    addresses,
                };
                self.call(rt, line, by, &deed)
            }
            ScriptLine::Bring { name, from, what } => match what {
                BringLine::Deliver { number } => self.deliver(rt, line, number, &name, from),
                _ => Ok(()),
            },
            // Places are no matter of an end.
            _ => Ok(()),
        }
    }

    /// Does what an end is called to do.
    fn call_line(
        &mut self,
        rt: &HostRuntime,
        line: u32,
        by: usize,
        call: CallLine,
    ) -> Result<(), Fail> {
        match call {
            CallLine::Tick => self.call(rt, line, by, &Deed::Tick),
            CallLine::Queue {
                near,
                flow,
                deadline,
                resends,
                content,
            } => {
                let message = self.message_of(content)?;
                let options = MessageOptions { deadline, resends };
                self.queue(rt, line, by, near, flow, options, message)
            }
            other => self.call(rt, line, by, &Deed::Call { call: other }),
        }
    }

    /// Does the next line of the script.
    pub(crate) fn line(&mut self, rt: &HostRuntime, line: &str) -> Result<(), Fail> {
        self.lines = self.lines.saturating_add(1);
        let number = self.lines;
        match read_line(self.alloc, line.as_bytes()).ok().ok_or("memory")? {
            Said::Step(step) => self.step(rt, number, step),
            Said::Nothing => Ok(()),
            Said::Outside => Ok(println!(rt; "{number} outside")?),
        }
    }

    /// The number of the end whose datagrams come from a place.
    fn player_at(&self, place: &Address) -> Option<usize> {
        self.players
            .iter()
            .position(|player| player.place.same_place(place))
    }

    /// Brings what went out from a datagram on to where it goes, the answers to it included. The
    /// answer is the next one.
    fn deliver_from(&mut self, rt: &HostRuntime, line: u32, from: usize) -> Result<usize, Fail> {
        let mut at = from;
        for _ in 0..10_000 {
            let Some(sent) = self.sent.get(at) else {
                break;
            };
            let by = self.players.get(sent.by);
            if let (Some(to), Some(sender)) = (self.player_at(&sent.to), by) {
                let place = sender.place;
                self.bring(rt, line, at, to, place)?;
            }
            at = at.saturating_add(1);
        }
        Ok(at)
    }

    /// Where there was a script, has each end do what is due, once a second, and brings all that goes
    /// out then.
    pub(crate) fn settle(&mut self, rt: &HostRuntime) -> Result<(), Fail> {
        if self.lines == 0 {
            return Ok(());
        }
        println!(rt; "settle")?;
        let mut at = self.sent.len();
        for second in 1..9 {
            self.moment = self.moment.saturating_add(1000);
            let line = self.lines.saturating_add(second);
            for by in 0..self.players.len() {
                self.call(rt, line, by, &Deed::Tick)?;
            }
            at = self.deliver_from(rt, line, at)?;
        }
        Ok(())
    }
}
