//! The calls of the end in a turn.
ghost use Rattle.std.specs.Prelude.{◌≡◌, ◌≤◌, ◌++◌, [], OnOk, length};
ghost use Rattle.rtmfp_host.specs.Linking.{Fits, given_by};
ghost use Rattle.rtmfp_host.specs.declared.link.Given.TheVariants.{Datagram};
ghost use Rattle.rtmfp_node.specs.Acting.{Acted, ActedOn};

use crate::calls::{receive, tick};
use crate::messages::send_calls;
use crate::notes::Notes;
use endpoint::{Draws, Endpoint, Outbox};
use rtmfp_base::Message;
use rtmfp_forms::Address;
use rtmfp_host::Got;
use std::alloc::AllocError;

/// Takes what the link gave, makes the calls for what it opened, and does what is due, all at one
/// moment. `heard` gets what the datagram added, and `out` the rest. It fails for want of memory,
/// or where the link failed.
pub(crate) fn act(
    end: &mut Endpoint,
    got: Got,
    buf: &mut [u8; 2048],
    moment: u64,
    draws: &Draws,
    message: &Option<Message>,
    turn: u64,
    heard: &mut Outbox,
    out: &mut Outbox,
    notes: &mut Notes,
) -> Result<(), AllocError>
    requires fits { Fits got }
    requires unheard { heard.old.entries ≡ [] }
    requires empty { out.old.entries ≡ [] }
    ensures { OnOk result (ActedOn message.now (given_by got buf.old) moment draws.now turn end.old
        end.new (heard.new.entries ++ out.new.entries) notes.old notes.new) }
{
    match got {
        Got::Failed => Err(AllocError),
        Got::Quiet => {
            tick(end, moment, draws, turn, out, notes)?;
            Ok(())
        }
        Got::Datagram { from, length } => {
            let (datagram, _) = buf.split_at_mut(length);
            take(
                end, from, moment, datagram, draws, message, turn, heard, out, notes,
            )?;
            Ok(())
        }
    }
}

/// Takes a datagram, makes the calls for what it opened, and does what is due.
fn take(
    end: &mut Endpoint,
    from: Address,
    moment: u64,
    datagram: &mut [u8],
    draws: &Draws,
    message: &Option<Message>,
    turn: u64,
    heard: &mut Outbox,
    out: &mut Outbox,
    notes: &mut Notes,
) -> Result<(), AllocError>
    requires short { length datagram.old ≤ 2048 }
    requires unheard { heard.old.entries ≡ [] }
    requires empty { out.old.entries ≡ [] }
    ensures { OnOk result (Acted message.now (Datagram from datagram.old) moment draws.now turn
        end.old end.new (heard.new.entries ++ out.new.entries) notes.old notes.new) }
{
    receive(end, from, moment, datagram, draws, turn, heard, notes)?;
    send_calls(end, message, heard.entries(), turn, out, notes)?;
    tick(end, moment, draws, turn, out, notes)?;
    Ok(())
}
