//! What an end does for others as an introducer, and redirects of its own attempts.

ghost use Rattle.std.specs.Prelude.{◌≡◌, ◌≤◌, ◌+◌, All, IfErr, IfOk, None, Ok, OnErr, OnOk};
ghost use Rattle.std.specs.Prelude.{Some, length};
ghost use Rattle.identity.specs.declared.discriminator.Epd.{Epd};
ghost use Rattle.identity.specs.Discriminators.{discriminator_of};
ghost use Rattle.cookies.specs.Cookie.{observed};
ghost use Rattle.rtmfp_chunks.specs.Chunk.{FIHello, Redirect};
ghost use Rattle.rtmfp_chunks.specs.Writing.{chunk_bytes};
ghost use Rattle.startup.specs.Attempts.{wide};
ghost use Rattle.startup.specs.Redirects.{adds, redirect_cause};
ghost use Rattle.startup.specs.Judging.{after_extension_of, extension_spread, Extends, found_in};
ghost use Rattle.endpoint_model.specs.Admission.{group_at};
ghost use Rattle.endpoint_model.specs.Effects.{forwarded, hello_reply, read_done, replied};
ghost use Rattle.endpoint_model.specs.Introducing.{hello_cause, redirect_of};
ghost use Rattle.endpoint_model.specs.Sending.{limit_of, sent_if};
ghost use Rattle.endpoint_model.specs.State.{Done, nothing, then_do, with_startup};
ghost use Rattle.end_state.specs.Steps.{datagrams_for};
ghost use Rattle.end_chunks.specs.Judging.{Stands};

use crate::judging::Verdict;
use end_state::{Blanks, EndState, Outbox, RowAddresses, blank, blanks};
use endpoint_model::Place;
use identity::Epd;
use rtmfp_base::Cause;
use rtmfp_chunks::ChunkView;
use rtmfp_forms::Address;
use startup::{Answer, Extension, Spread, redirect_answer, wide};
use std::alloc::AllocError;

/// No hello that is forwarded has more bytes.
const FORWARDED: usize = 288;

/// The origin of an address that an end observed.
const OBSERVED: u8 = 2;

/// An address as one that an end observed.
fn observed(address: &Address) -> Address
    ensures { result ≡ observed address.now }
{
    Address {
        v6: address.v6,
        origin: OBSERVED,
        host: address.host,
        port: address.port,
    }
}

/// What a hello does, which came from an address and is for the end that its discriminator
/// selects; or why it is discarded.
pub(crate) fn judge_hello<'a>(
    end: &EndState,
    place: Place,
    from: &Address,
    epd: &'a [u8],
    tag: &'a [u8],
) -> Result<Verdict<'a>, Cause>
    ensures ok { IfOk result (Stands end.now place from.now
        (λ _. replied end.now place from.now
        (hello_reply end.now epd.now tag.now from.now (group_at end.now place)))) }
    ensures none { IfOk result (λ _. hello_cause end.now epd.now tag.now ≡ None) }
    ensures refused { IfErr result (λ cause. hello_cause end.now epd.now tag.now
        ≡ Some cause) }
{
    if let Some(cause) = wide(tag) {
        return Err(cause);
    }
    if end.startup.is_selected_by(epd) {
        return Ok(Verdict::Hello { tag });
    }
    // A name is nobody's fingerprint, so nobody is introduced for it.
    let Some(selected) = Epd::read(epd) else {
        return Err(Cause::NotSelected);
    };
    let near = end.forwarded_to(&selected.print);
    let row = end.redirected_to(&selected);
    if near.is_none() && row.is_none() {
        return Err(Cause::NotSelected);
    }
    Ok(Verdict::Introduction {
        epd,
        tag,
        near,
        row,
    })
}

/// What a redirect does, which came from an address, or why it is discarded.
pub(crate) fn judge_redirect<'a>(
    end: &EndState,
    place: Place,
    from: &Address,
    tag: &[u8],
    list: &[u8],
) -> Result<Verdict<'a>, Cause>
    ensures ok { IfOk result (Stands end.now place from.now
        (λ _. read_done end.now place from.now (Ok (Redirect tag.now list.now)))) }
    ensures none { IfOk result (λ _. redirect_cause end.now.startup tag.now list.now from.now
        ≡ None) }
    ensures refused { IfErr result (λ cause. redirect_cause end.now.startup tag.now list.now
        from.now ≡ Some cause) }
    ensures quiet { adds end.now.startup tag.now list.now from.now ≡ 0 →
        IfOk result (λ verdict. verdict ≡ Verdict.Quiet) }
{
    match end.startup.judge_redirect(tag, list, from) {
        Ok(extension) => {
            if extension.count() == 0 {
                Ok(Verdict::Quiet)
            } else {
                Ok(Verdict::Redirect { extension })
            }
        }
        Err(cause) => Err(cause),
    }
}

/// Forwards a hello, with the address that it came from, where there is a session to forward it in.
fn forward(
    end: &mut EndState,
    blanks: Blanks,
    near: Option<u32>,
    epd: &[u8],
    tag: &[u8],
    from: &Address,
    out: &mut Outbox,
)
    requires enough { datagrams_for (limit_of end.old) 288 ≤ blanks }
    requires room { blanks ≤ out.old.free }
    requires tag { wide tag.now ≡ None }
    requires selected { (selected : Epd) × (discriminator_of epd.now ≡ Some selected) }
    ensures done { Done (forwarded end.old near
        (chunk_bytes (FIHello epd.now (observed from.now) tag.now))) end.new out.old out.new }
    ensures free { out.old.free ≤ out.new.free + blanks }
{
    let Some(near) = near else {
        return;
    };
    let chunk = ChunkView::FIHello {
        epd,
        reply: observed(from),
        tag,
    };
    end.send_home(blanks, near, &chunk, out);
}

/// The redirect that answers a hello with this tag, which came at a place, with the addresses of a
/// row, where there is one.
fn redirect_at(
    end: &EndState,
    place: Place,
    tag: &[u8],
    from: &Address,
    row: &Option<RowAddresses>,
) -> Option<Answer>
    requires { wide tag.now ≡ None }
    ensures { result ≡ redirect_of tag.now from.now row.now (group_at end.now place) }
{
    match row {
        Some(row) => {
            let group = end.group_at(place);
            Some(redirect_answer(tag, row.addresses(), from, group))
        }
        None => None,
    }
}

/// Does what a hello asks that came from an address at a place and selects another end: it is
/// forwarded in this session of that end, and then answered with the addresses of its row.
pub(crate) fn introduce(
    end: &mut EndState,
    place: Place,
    near: Option<u32>,
    row: &Option<RowAddresses>,
    epd: &[u8],
    tag: &[u8],
    from: &Address,
    out: &mut Outbox,
) -> Result<(), AllocError>
    requires tag { wide tag.now ≡ None }
    requires selected { (selected : Epd) × (discriminator_of epd.now ≡ Some selected) }
    ensures ok { OnOk result (Done (then_do (forwarded end.old near
        (chunk_bytes (FIHello epd.now (observed from.now) tag.now)))
        (λ t. sent_if t (redirect_of tag.now from.now row.now (group_at end.old place))))
        end.new out.old out.new) }
    ensures err { OnErr result (Done (nothing end.old) end.new out.old out.new) }
{
    let blanks = end.blanks(FORWARDED)?;
    out.make_room(1 + blanks.count())?;
    let blank = blank(end.alloc)?;
    let redirect = redirect_at(end, place, tag, from, row);
    forward(end, blanks, near, epd, tag, from, out);
    if let Some(answer) = redirect {
        out.add_some(end.seal_answer(blank, &answer));
    }
    Ok(())
}

/// The hellos that go out for a redirect, and memory for each of them.
#[derive(Drop)]
pub(crate) struct Hellos {
    pub(crate) blanks: Vec<Vec<u8>>,
    pub(crate) spread: Spread,
}

/// Takes a redirect, which adds this to the attempt that was found, and gives the hellos that go
/// out for it, for which it finds room.
pub(crate) fn extend(
    end: &mut EndState,
    extension: &Extension,
    out: &mut Outbox,
) -> Result<Hellos, AllocError>
    requires { Extends end.old.startup extension.now }
    ensures state { OnOk result (end.new ≡ with_startup end.old
        (after_extension_of end.old.startup (found_in end.old.startup extension.now.found)
        extension.now.new end.old.moment)) }
    ensures spread { IfOk result (λ hellos. extension_spread
        (found_in end.old.startup extension.now.found) extension.now.new ≡ Some hellos.spread) }
    ensures blanks { IfOk result (λ hellos. All (λ bytes. length bytes.items ≡ 1200)
        hellos.blanks.items) }
    ensures enough { IfOk result (λ hellos. length hellos.spread.to
        ≤ length hellos.blanks.items) }
    ensures space { IfOk result (λ hellos. length hellos.spread.to ≤ out.new.free) }
    ensures entries { out.new.entries ≡ out.old.entries }
    ensures free { out.old.free ≤ out.new.free }
    ensures room { out.new.room ≡ out.old.room }
    ensures err { OnErr result (end.new ≡ end.old) }
{
    let count = extension.count();
    out.make_room(count)?;
    let blanks = blanks(end.alloc, count)?;
    let spread = end.startup.apply_redirect(extension, end.moment);
    Ok(Hellos { blanks, spread })
}
