//! An exchange of letters over one connection.
ghost use Rattle.std.specs.Prelude.{◌≡◌};
ghost use Rattle.pcrf_serve.specs.Exchanging.{Exchanged};

use crate::dialing::send_letters;
use crate::end::LinkEnd;
use crate::gate::Gate;
use crate::letters::Letters;
use crate::listening::take_letters;
use crate::peer_link::Link;
use crate::pushes::Pushes;
use peer_exchange::Cursors;
use site_lock::SharedSite;
use std::alloc::Global;
use std::io::{Read, Write};
use std::sync::Wait;
use std::thread::Threads;

/// Which side of an exchange a worker is.
#[derive(Clone, Copy, Debug, PartialEq, Eq)]
pub enum Role {
    /// It sends letters, and reads acknowledgements.
    Dial,
    /// It takes letters, and acknowledges them.
    Listen,
}

/// Exchanges so many letters.
fn exchanged<T: Threads + Wait + Sync, A: SharedSite, P: Pushes, S: Read + Write + Drop, G: Gate>(
    rt: &T,
    alloc: Global,
    site: &A,
    seat: &mut A::Seat,
    cursors: &mut Cursors,
    gateways: &P,
    role: Role,
    stream: S,
    turns: u32,
    gate: &G,
) -> Result<(), LinkEnd>
    ensures { Exchanged (A.seen seat.old) (A.seen seat.new) cursors.old.makers cursors.new.makers }
{
    let link = Link {
        site,
        gateways,
        gate,
    };
    let mut letters = Letters::start(alloc, site.edition(), site.seed(), stream);
    match role {
        Role::Dial => send_letters(rt, &link, seat, cursors, &mut letters, turns),
        Role::Listen => take_letters(rt, alloc, &link, seat, cursors, &mut letters, turns),
    }
}

/// Exchanges letters with a peer, so many in all, and tells how the connection ended: `Closed` after the last.
///
/// Who dials sends all that its site holds first. From then on the sender of the first acknowledgement is its peer: each
/// further letter brings what the site made past what that peer took, and waits until there is more. Who listens has due pushes
/// made before it acknowledges; an acknowledgement that it reads is counted, and not answered.
///
/// A letter that is not read or not written, and an answer to a letter that is no acknowledgement (`BadShape`), ends with
/// `Letter`; a full history with `HistoryFull`. A letter that was taken in part, for want of memory, is not counted and not
/// acknowledged. What was taken stands, whatever the end is.
pub fn exchange_with<
    T: Threads + Wait + Sync,
    A: SharedSite,
    P: Pushes,
    S: Read + Write + Drop,
    G: Gate,
>(
    rt: &T,
    alloc: Global,
    site: &A,
    seat: &mut A::Seat,
    cursors: &mut Cursors,
    gateways: &P,
    role: Role,
    stream: S,
    turns: u32,
    gate: &G,
) -> LinkEnd
    ensures { Exchanged (A.seen seat.old) (A.seen seat.new) cursors.old.makers cursors.new.makers }
{
    match exchanged(
        rt, alloc, site, seat, cursors, gateways, role, stream, turns, gate,
    ) {
        Ok(()) => LinkEnd::Closed,
        Err(end) => end,
    }
}
