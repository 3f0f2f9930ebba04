//! The texts of facts.
ghost use Rattle.std.specs.Prelude.{◌≡◌, ◌++◌, OnOk};
ghost use Rattle.rtmfp_report.specs.FactText.{ended_text, fact_text, joined_text, why_text};

use crate::nonces::push_nonce;
use glare_core::{Fact, Joined, Why};
use rtmfp_text::{Directory, Text};
use std::alloc::AllocError;

/// Adds a fact. Its peer is called as among these ends.
#[tactic(auto, unfolding(crate::specs::FactText::fact_text))]
pub(crate) fn push_fact(ends: &Directory, fact: &Fact, text: &mut Text) -> Result<(), AllocError>
    ensures { OnOk result (text.new ≡ text.old ++ fact_text ends.now fact.now) }
{
    match fact {
        Fact::Started { peer, n, near, ni } => push_started(
            ends,
            peer,
            *n,
            u64::from(*near),
            ni,
            text,
        ),
        Fact::Born(joined) => push_born(ends, joined, text),
        Fact::Opened(joined) => push_opened(ends, joined, text),
        Fact::Confirmed { near, .. } => text.push_number_field("confirmed near=", u64::from(*near)),
        Fact::Ended { near, why, .. } => push_ended(u64::from(*near), *why, text),
    }
}

fn push_started(
    ends: &Directory,
    peer: &[u8; 32],
    n: u64,
    near: u64,
    ni: &[u8; 16],
    text: &mut Text,
) -> Result<(), AllocError>
    ensures { OnOk result (text.new ≡ text.old
        ++ fact_text ends.now (Fact.Started peer.now n near ni.now)) }
{
    text.push("started peer=")?;
    ends.push_peer(peer, text)?;
    text.push_number_field(" n=", n)?;
    text.push_number_field(" near=", near)?;
    text.push(" ni=")?;
    push_nonce(ni, text)?;
    Ok(())
}

fn push_born(ends: &Directory, joined: &Joined, text: &mut Text) -> Result<(), AllocError>
    ensures { OnOk result (text.new ≡ text.old ++ fact_text ends.now (Fact.Born joined.now)) }
{
    text.push("born ")?;
    push_joined(ends, joined, text)?;
    Ok(())
}

fn push_opened(ends: &Directory, joined: &Joined, text: &mut Text) -> Result<(), AllocError>
    ensures { OnOk result (text.new ≡ text.old ++ fact_text ends.now (Fact.Opened joined.now)) }
{
    text.push("opened ")?;
    push_joined(ends, joined, text)?;
    Ok(())
}

/// Adds the values of a session. Its other end is called as among these ends.
fn push_joined(ends: &Directory, joined: &Joined, text: &mut Text) -> Result<(), AllocError>
    ensures { OnOk result (text.new ≡ text.old ++ joined_text ends.now joined.now) }
{
    text.push("peer=")?;
    ends.push_peer(&joined.peer, text)?;
    text.push_number_field(" n=", joined.n)?;
    text.push_number_field(" near=", u64::from(joined.near))?;
    text.push_number_field(" far=", u64::from(joined.far))?;
    text.push(" ni=")?;
    push_nonce(&joined.ni, text)?;
    text.push(" nr=")?;
    push_nonce(&joined.nr, text)?;
    text.push_number_field(" k=", joined.k)?;
    Ok(())
}

fn push_ended(near: u64, why: Why, text: &mut Text) -> Result<(), AllocError>
    ensures { OnOk result (text.new ≡ text.old ++ ended_text near why) }
{
    text.push_number_field("ended near=", near)?;
    text.push(" ")?;
    text.push(why_name(why))?;
    Ok(())
}

/// Adds a reason for an end.
pub(crate) fn push_why(why: Why, text: &mut Text) -> Result<(), AllocError>
    ensures { OnOk result (text.new ≡ text.old ++ why_text why) }
{
    text.push(why_name(why))
}

/// What a reason for an end is called.
#[tactic(auto, unfolding(crate::specs::FactText::why_text))]
fn why_name(why: Why) -> &'static str
    ensures { result.now ≡ why_text why }
{
    match why {
        Why::Cancelled => "cancelled",
        Why::Expired => "expired",
        Why::Glare => "glare",
        Why::Override => "override",
        Why::Unconfirmed => "unconfirmed",
        Why::Near => "near",
        Why::Far => "far",
        Why::Idle => "idle",
    }
}
