//! The lines of a report that the script of the program `rtmfp_called` doesn't show: each cause
//! and each end by its name, what is told of a datagram, why a row isn't added, and a refusal that no
//! script comes to.

use crypto_profile::{Context, Keys, seal_in_place};
use endpoint::{CallRefusal, Entry, OpenRefusal, QueueRefusal};
use glare_core::{Fact, Joined, StartRefusal, Why};
use introducer::RowRefusal;
use rtmfp_base::{Cause, Message};
use rtmfp_forms::Address;
use rtmfp_report::{
    GroupKeys, GroupSecrets, push_call_refusal, push_entries, push_open_refusal, push_row_refusal,
};
use rtmfp_text::{Directory, Name, Named, Text};
use std::alloc::Global;
use std::test::Fail;

const SECRET: [u8; 32] = [7; 32];

/// Each cause of a discard, in the order of the rules. What has a value has its own here.
const CAUSES: [Cause; 33] = [
    Cause::Short,
    Cause::UnknownSession,
    Cause::BadTag,
    Cause::Repeated,
    Cause::BadPacket(1),
    Cause::UnknownChunk(0x0a),
    Cause::Malformed(2),
    Cause::WrongPlace,
    Cause::NotSelected,
    Cause::NoAttempt,
    Cause::WrongPeer,
    Cause::WrongState,
    Cause::BadCookie,
    Cause::BadSignature,
    Cause::WrongResponder,
    Cause::OwnCertificate,
    Cause::Stale(3),
    Cause::Glare(4),
    Cause::PeersFull(5),
    Cause::SessionsFull(6),
    Cause::SecondKeying,
    Cause::UnknownFlow,
    Cause::BeyondBuffer(7),
    Cause::AfterFinal(8),
    Cause::AckBeyond(9),
    Cause::CandidatesFull(10),
    Cause::Fragment,
    Cause::FlowsFull(11),
    Cause::Wide(12),
    Cause::AlreadyHeld(13),
    Cause::AttemptsSpent,
    Cause::Piece(2, 14),
    Cause::BadWhole(4),
];

const CAUSE_LINES: &str = "1 a drop 9 short
1 a drop 9 unknown-session
1 a drop 9 bad-tag
1 a drop 9 repeated
1 a drop 9 bad-packet 1
1 a drop 9 unknown-chunk 0a
1 a drop 9 malformed 2
1 a drop 9 wrong-place
1 a drop 9 not-selected
1 a drop 9 no-attempt
1 a drop 9 wrong-peer
1 a drop 9 wrong-state
1 a drop 9 bad-cookie
1 a drop 9 bad-signature
1 a drop 9 wrong-responder
1 a drop 9 own-certificate
1 a drop 9 stale 3
1 a drop 9 glare 4
1 a drop 9 peers-full 5
1 a drop 9 sessions-full 6
1 a drop 9 second-keying
1 a drop 9 unknown-flow
1 a drop 9 beyond-buffer 7
1 a drop 9 after-final 8
1 a drop 9 ack-beyond 9
1 a drop 9 candidates-full 10
1 a drop 9 fragment
1 a drop 9 flows-full 11
1 a drop 9 wide 12
1 a drop 9 already-held 13
1 a drop 9 attempts-spent
1 a drop 9 piece 2 14
1 a drop 9 bad-whole 4
";

const WHYS: [Why; 8] = [
    Why::Cancelled,
    Why::Expired,
    Why::Glare,
    Why::Override,
    Why::Unconfirmed,
    Why::Near,
    Why::Far,
    Why::Idle,
];

const WHY_LINES: &str = "1 a ended near=3 cancelled
1 a ended near=3 expired
1 a ended near=3 glare
1 a ended near=3 override
1 a ended near=3 unconfirmed
1 a ended near=3 near
1 a ended near=3 far
1 a ended near=3 idle
";

/// A peer without a name is told by its fingerprint, and a nonce without its leading zeros.
const OTHER_LINES: &str =
    "1 a opened peer=0909090909090909090909090909090909090909090909090909090909090909 n=1 near=6 far=3 ni=0 nr=a0 k=2
1 a sent 1 10.0.0.2:1935 ping+close
1 a sent 1 10.0.0.2:1935 none
1 a sent 1 10.0.0.2:1935 none
1 a refused attempts-spent
1 a refused candidates 17
1 a refused rows-full 1024
1 a refused sequence-spent
";

fn name() -> Result<Name, Fail> {
    Ok(Name::new(b"a").ok_or("a name")?)
}

fn ends(alloc: Global) -> Result<Directory, Fail> {
    let mut ends = Directory::new(alloc);
    let named = Named {
        print: [1; 32],
        name: name()?,
    };
    ends.push(named)?;
    Ok(ends)
}

/// Adds the report of these entries.
fn report_all(
    alloc: Global,
    ends: &Directory,
    name: &Name,
    entries: &[Entry],
    text: &mut Text,
) -> Result<(), Fail> {
    let mut scratch = Vec::new(alloc);
    let mut keys = GroupKeys::of(
        alloc,
        GroupSecrets::Given {
            first: SECRET,
            next: None,
        },
    );
    push_entries(&mut keys, ends, 1, name, 0, entries, &mut scratch, text)?;
    Ok(())
}

/// Adds the report of one entry.
fn report(alloc: Global, entry: Entry, text: &mut Text) -> Result<(), Fail> {
    let entries = [entry];
    let ends = ends(alloc)?;
    report_all(alloc, &ends, &name()?, &entries, text)
}

fn cause_lines(alloc: Global) -> Result<Text, Fail> {
    let mut text = Text::new(alloc);
    for cause in CAUSES.iter() {
        let discard = Entry::Discard {
            place: 9,
            cause: *cause,
        };
        report(alloc, discard, &mut text)?;
    }
    Ok(text)
}

fn ended(why: Why) -> Fact {
    Fact::Ended {
        peer: [2; 32],
        near: 3,
        why,
    }
}

fn why_lines(alloc: Global) -> Result<Text, Fail> {
    let mut text = Text::new(alloc);
    for why in WHYS.iter() {
        report(alloc, Entry::Fact(ended(*why)), &mut text)?;
    }
    Ok(text)
}

/// A datagram of this plain packet, sealed in the startup context, goes out.
fn out(alloc: Global, plain: &[u8; 7]) -> Result<Entry, Fail> {
    let mut part = [0; 39];
    part[32..].copy_from_slice(plain);
    let keys = Keys::of(&SECRET, &Context::Startup { generation: 0 });
    seal_in_place(&keys, 3, [9; 16], &mut part);
    let mut datagram = [0; 43];
    datagram[4..].copy_from_slice(&part);
    sent(alloc, &datagram)
}

fn sent(alloc: Global, datagram: &[u8]) -> Result<Entry, Fail> {
    match Message::copy_of(alloc, datagram) {
        Ok(datagram) => Ok(Entry::Out {
            to: Address::v4([10, 0, 0, 2], 1935),
            datagram,
            context: Context::Startup { generation: 0 },
        }),
        Err(_) => Err(Fail::from("memory")),
    }
}

fn opened() -> Joined {
    let mut nr = [0; 16];
    nr[15] = 0xa0;
    Joined {
        peer: [9; 32],
        n: 1,
        near: 6,
        far: 3,
        ni: [0; 16],
        nr,
        k: 2,
    }
}

/// Adds the line of a datagram of this plain packet.
fn push_out(alloc: Global, plain: &[u8; 7], text: &mut Text) -> Result<(), Fail> {
    let out = out(alloc, plain)?;
    report(alloc, out, text)
}

fn push_datagrams(alloc: Global, text: &mut Text) -> Result<(), Fail> {
    push_out(alloc, &[0x01, 0x01, 0, 0, 0x0c, 0, 0], text)?;
    push_out(alloc, &[0x00, 0x30, 0, 3, 1, 2, 3], text)?;
    let short = sent(alloc, &[3; 35])?;
    report(alloc, short, text)
}

fn push_refusals(text: &mut Text) -> Result<(), Fail> {
    let name = name()?;
    let refusal = OpenRefusal::Start(StartRefusal::AttemptsSpent);
    push_open_refusal(1, &name, &refusal, text)?;
    push_row_refusal(1, &name, &RowRefusal::Candidates(17), text)?;
    push_row_refusal(1, &name, &RowRefusal::RowsFull(1024), text)?;
    let refusal = CallRefusal::Queue(QueueRefusal::SequenceSpent);
    push_call_refusal(1, &name, &refusal, text)?;
    Ok(())
}

fn other_lines(alloc: Global) -> Result<Text, Fail> {
    let mut text = Text::new(alloc);
    report(alloc, Entry::Fact(Fact::Opened(opened())), &mut text)?;
    push_datagrams(alloc, &mut text)?;
    push_refusals(&mut text)?;
    Ok(text)
}

#[test]
fn causes_and_ends_have_these_names(rt: HostRuntime) -> Result<(), Fail> {
    assert_eq!(rt; cause_lines(rt.alloc())?.bytes(), CAUSE_LINES.as_bytes());
    assert_eq!(rt; why_lines(rt.alloc())?.bytes(), WHY_LINES.as_bytes());
    assert_eq!(rt; other_lines(rt.alloc())?.bytes(), OTHER_LINES.as_bytes());
    Ok(())
}
