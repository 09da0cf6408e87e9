//! The sessions of a site are counted again and again, a thousand at a time under its lock, and it is noted every few seconds what is seen.
use crate::staying::machine::Machine;
use crate::staying::status::figures::Figures;
use crate::staying::status::history::Sample;
use crate::staying::status::looked::Looked;
use crate::staying::working::Shared;
use log::Log;
use pcrf_values::{AfSid, GxSid};
use site_looks::{
    CallCounts, CallPiece, GatewayCounts, GatewayPiece, KnownSessions, NotesRoom, PIECE,
};
use std::alloc::{AllocError, Global};
use std::thread;
use std::time::{Duration, Instant};
use watched_links::KINDS;

/// How many milliseconds lie between two looks at what there is to do.
const LOOK_MILLIS: u64 = 250;

/// How many milliseconds lie between two pieces of a pass.
const PIECE_MILLIS: u64 = 10;

/// A pass takes this part of the time at most.
const PART: u32 = 50;

/// Reads which sessions the site came to know of.
fn read_notes<'s, 'r, S: Looked, M: Machine, G: Log>(
    rt: &'s M,
    all: &'s Shared<'s, 'r, S, M, G>,
    known: &mut KnownSessions,
    room: &mut NotesRoom,
) -> Result<(), AllocError> {
    match &all.furniture.figures.meters.sessions {
        Some(notes) => known.read(room.take(rt, notes)?),
        None => Ok(()),
    }
}

/// Counts some sessions of gateways.
fn count_gateways<'s, 'r, S: Looked, M: Machine, G: Log>(
    rt: &'s M,
    all: &'s Shared<'s, 'r, S, M, G>,
    ids: &[&GxSid],
    counts: GatewayCounts,
) -> GatewayCounts {
    let mut piece = GatewayPiece { ids, counts };
    all.server.site.look(rt, &mut piece);
    piece.counts
}

/// Counts some sessions of application functions.
fn count_calls<'s, 'r, S: Looked, M: Machine, G: Log>(
    rt: &'s M,
    all: &'s Shared<'s, 'r, S, M, G>,
    ids: &[&AfSid],
    counts: CallCounts,
) -> CallCounts {
    let mut piece = CallPiece { ids, counts };
    all.server.site.look(rt, &mut piece);
    piece.counts
}

/// Leaves the lock to others between two pieces.
fn pause<M: Machine>(rt: &M, figures: &Figures) {
    sample(rt, figures);
    thread::sleep(rt, Duration::from_millis(PIECE_MILLIS));
}

/// Counts all sessions of gateways, with the lock free between pieces.
fn pass_gateways<'s, 'r, S: Looked, M: Machine, G: Log>(
    rt: &'s M,
    all: &'s Shared<'s, 'r, S, M, G>,
    known: &KnownSessions,
) -> Result<GatewayCounts, AllocError> {
    let mut counts = GatewayCounts { live: 0, ended: 0 };
    let mut piece = Vec::with_capacity(all.furniture.alloc, PIECE)?;
    for id in known.gateways().iter() {
        piece.push(id)?;
        if piece.len() >= PIECE {
            counts = count_gateways(rt, all, piece.as_slice(), counts);
            piece.clear();
            pause(rt, &all.furniture.figures);
        }
    }
    Ok(count_gateways(rt, all, piece.as_slice(), counts))
}

/// Counts all sessions of application functions, with the lock free between pieces.
fn pass_calls<'s, 'r, S: Looked, M: Machine, G: Log>(
    rt: &'s M,
    all: &'s Shared<'s, 'r, S, M, G>,
    known: &KnownSessions,
) -> Result<CallCounts, AllocError> {
    let mut counts = CallCounts {
        live: 0,
        ended: 0,
        bound: 0,
    };
    let mut piece = Vec::with_capacity(all.furniture.alloc, PIECE)?;
    for id in known.calls().iter() {
        piece.push(id)?;
        if piece.len() >= PIECE {
            counts = count_calls(rt, all, piece.as_slice(), counts);
            piece.clear();
            pause(rt, &all.furniture.figures);
        }
    }
    Ok(count_calls(rt, all, piece.as_slice(), counts))
}

/// Counts all sessions.
fn pass<'s, 'r, S: Looked, M: Machine, G: Log>(
    rt: &'s M,
    all: &'s Shared<'s, 'r, S, M, G>,
    known: &mut KnownSessions,
    room: &mut NotesRoom,
) -> Result<(), AllocError> {
    read_notes(rt, all, known, room)?;
    let figures = &all.furniture.figures;
    let since = figures.uptime(rt);
    let gateways = pass_gateways(rt, all, known)?;
    let calls = pass_calls(rt, all, known)?;
    let sessions = &figures.sessions;
    sessions.gateways_live.put(gateways.live);
    sessions.gateways_ended.put(gateways.ended);
    sessions.calls_live.put(calls.live);
    sessions.calls_ended.put(calls.ended);
    sessions.calls_bound.put(calls.bound);
    sessions.since.put(since.max(1));
    Ok(())
}

/// How many requests came and went.
fn messages_of(figures: &Figures) -> u64 {
    let mut all = 0u64;
    for kind in KINDS {
        if let Some(counts) = figures.messages.of(kind) {
            let taken = counts.requests_taken.get();
            all = all
                .saturating_add(taken)
                .saturating_add(counts.requests_sent.get());
        }
    }
    all
}

/// Notes what is seen, if it is time to.
fn sample<M: Machine>(rt: &M, figures: &Figures) {
    let at = figures.seconds(rt);
    if figures.history.is_due(rt, at) {
        let sample = Sample {
            at,
            sessions: figures.sessions.gateways_live.get(),
            calls: figures.sessions.calls_live.get(),
            messages: messages_of(figures),
        };
        figures.history.put(rt, sample);
    }
}

/// How long nothing is counted behind a pass that took the time since then.
fn rest_of<M: Machine>(rt: &M, begun: Option<Instant>) -> Duration {
    let taken = match begun {
        Some(begun) => begun.elapsed(rt).unwrap_or(Duration::ZERO),
        None => Duration::ZERO,
    };
    taken.saturating_mul(PART)
}

/// Waits so long, and notes meanwhile what is seen.
fn wait_and_sample<M: Machine>(rt: &M, figures: &Figures, limit: Duration) {
    let begun = Instant::now(rt).ok();
    for _ in rt.forever() {
        sample(rt, figures);
        thread::sleep(rt, Duration::from_millis(LOOK_MILLIS));
        let is_over = match begun {
            Some(begun) => begun.elapsed(rt).is_ok_and(|elapsed| elapsed >= limit),
            None => true,
        };
        if is_over {
            return;
        }
    }
}

/// Counts sessions as long as the server runs. Where memory is refused the counts stay as they were.
pub fn count_sessions<'s, 'r, S: Looked, M: Machine, G: Log>(
    rt: &'s M,
    all: &'s Shared<'s, 'r, S, M, G>,
) {
    let alloc: Global = all.furniture.alloc;
    let mut known = KnownSessions::start(alloc);
    let mut room = NotesRoom::start(alloc);
    for _ in rt.forever() {
        let begun = Instant::now(rt).ok();
        let _ = pass(rt, all, &mut known, &mut room);
        wait_and_sample(rt, &all.furniture.figures, rest_of(rt, begun));
    }
}
