//! What `show` prints of a chunk: its name and its fields.
ghost use Rattle.std.specs.Prelude.{◌≡◌, ◌++◌, OnOk, map};
ghost use Rattle.rtmfp_chunks.specs.Chunk.{Fragment, FIHello, IHello, IIKeying, CookieChange, RHello, RIKeying, Redirect, chunk_of};
ghost use Rattle.rtmfp_chunks.specs.FieldReading.{addresses_in};
ghost use Rattle.rtmfp_text.specs.Words.{behind_commas, list_text};
ghost use Rattle.rtmfp_text.specs.AddressText.{address_text};
ghost use Rattle.rtmfp_show.specs.ChunkText.{chunk_text};

use rtmfp_chunks::{Addresses, ChunkView};
use rtmfp_forms::Address;
use rtmfp_text::{Text, push_address};
use std::alloc::AllocError;

/// Adds the name and the fields of a chunk.
#[tactic(auto, unfolding(crate::specs::ChunkText::chunk_text))]
pub(crate) fn show_view(view: &ChunkView<'_>, text: &mut Text) -> Result<(), AllocError>
    ensures { OnOk result (text.new ≡ text.old ++ chunk_text (chunk_of view.now)) }
{
    match view {
        ChunkView::IHello { epd, tag } => show_ihello(epd, tag, text),
        ChunkView::FIHello { epd, reply, tag } => show_fihello(epd, reply, tag, text),
        ChunkView::RHello { tag, cookie, cert } => show_rhello(tag, cookie, cert, text),
        ChunkView::Redirect { tag, list } => show_redirect(tag, list, text),
        ChunkView::CookieChange { old, new } => show_cookiechange(old, new, text),
        ChunkView::IIKeying {
            near,
            cookie,
            cert,
            part,
            sign,
        } => show_iikeying(u64::from(*near), cookie, cert, part, sign, text),
        ChunkView::RIKeying { near, part, sign } => show_rikeying(
            u64::from(*near),
            part,
            sign,
            text,
        ),
        ChunkView::Ping { bytes } => text.push_field(" ping bytes=", bytes),
        ChunkView::PingReply { bytes } => text.push_field(" pingreply bytes=", bytes),
        ChunkView::Close => text.push(" close"),
        ChunkView::CloseAck => text.push(" closeack"),
        ChunkView::Fragment {
            more,
            id,
            number,
            bytes,
        } => show_fragment(*more, *id, *number, bytes, text),
    }
}

fn show_ihello(epd: &[u8], tag: &[u8], text: &mut Text) -> Result<(), AllocError>
    ensures { OnOk result (text.new ≡ text.old ++ chunk_text (IHello epd.now tag.now)) }
{
    text.push_field(" ihello epd=", epd)?;
    text.push_field(" tag=", tag)?;
    Ok(())
}

fn show_fihello(epd: &[u8], reply: &Address, tag: &[u8], text: &mut Text) -> Result<(), AllocError>
    ensures { OnOk result (text.new ≡ text.old ++ chunk_text (FIHello epd.now reply.now tag.now)) }
{
    text.push_field(" fihello epd=", epd)?;
    text.push(" reply=")?;
    push_address(reply, text)?;
    text.push_field(" tag=", tag)?;
    Ok(())
}

fn show_rhello(tag: &[u8], cookie: &[u8], cert: &[u8], text: &mut Text) -> Result<(), AllocError>
    ensures { OnOk result (text.new ≡ text.old ++ chunk_text (RHello tag.now cookie.now cert.now)) }
{
    text.push_field(" rhello tag=", tag)?;
    text.push_field(" cookie=", cookie)?;
    text.push_field(" cert=", cert)?;
    Ok(())
}

fn show_redirect(tag: &[u8], list: &[u8], text: &mut Text) -> Result<(), AllocError>
    ensures { OnOk result (text.new ≡ text.old ++ chunk_text (Redirect tag.now list.now)) }
{
    text.push_field(" redirect tag=", tag)?;
    text.push(" to=")?;
    show_addresses(list, text)?;
    Ok(())
}

fn show_cookiechange(old: &[u8], new: &[u8], text: &mut Text) -> Result<(), AllocError>
    ensures { OnOk result (text.new ≡ text.old ++ chunk_text (CookieChange old.now new.now)) }
{
    text.push_field(" cookiechange old=", old)?;
    text.push_field(" new=", new)?;
    Ok(())
}

fn show_iikeying(
    near: u64,
    cookie: &[u8],
    cert: &[u8],
    part: &[u8],
    sign: &[u8],
    text: &mut Text,
) -> Result<(), AllocError>
    ensures { OnOk result (text.new ≡ text.old
        ++ chunk_text (IIKeying near cookie.now cert.now part.now sign.now)) }
{
    text.push_number_field(" iikeying near=", near)?;
    text.push_field(" cookie=", cookie)?;
    text.push_field(" cert=", cert)?;
    text.push_field(" part=", part)?;
    text.push_field(" sign=", sign)?;
    Ok(())
}

fn show_rikeying(near: u64, part: &[u8], sign: &[u8], text: &mut Text) -> Result<(), AllocError>
    ensures { OnOk result (text.new ≡ text.old ++ chunk_text (RIKeying near part.now sign.now)) }
{
    text.push_number_field(" rikeying near=", near)?;
    text.push_field(" part=", part)?;
    text.push_field(" sign=", sign)?;
    Ok(())
}

fn show_fragment(
    more: bool,
    id: u64,
    number: u64,
    bytes: &[u8],
    text: &mut Text,
) -> Result<(), AllocError>
    ensures { OnOk result (text.new ≡ text.old ++ chunk_text (Fragment more id number bytes.now)) }
{
    text.push_bit_field(" fragment more=", more)?;
    text.push_number_field(" id=", id)?;
    text.push_number_field(" number=", number)?;
    text.push_field(" bytes=", bytes)?;
    Ok(())
}

/// Adds addresses with commas between them, or `-` where there are none.
fn show_addresses(list: &[u8], text: &mut Text) -> Result<(), AllocError>
    ensures { OnOk result (text.new ≡ text.old
        ++ list_text (map address_text (addresses_in list.now))) }
{
    let mut addresses = Addresses::new(list);
    match addresses.next() {
        None => text.push("-"),
        Some(first) => {
            push_address(&first, text)?;
            show_more_addresses(addresses, text)
        }
    }
}

/// Adds addresses, each behind a comma.
fn show_more_addresses(addresses: Addresses<'_>, text: &mut Text) -> Result<(), AllocError>
    ensures { OnOk result (text.new ≡ text.old
        ++ behind_commas (map address_text addresses.entry)) }
{
    for address in addresses {
        text.push(",")?;
        push_address(&address, text)?;
    }
    Ok(())
}
