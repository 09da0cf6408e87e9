//! The updates by which a site takes over sessions whose homes are left by their hosts (this project's own): these are found by a pass
//! over all sessions, some at a time.
ghost use Rattle.std.specs.Prelude.{◌≡◌, ◌<◌, ◌≤◌, ◌++◌, [], IfOk, map, option_map, length};
ghost use Rattle.gx_profile.specs.Requests.{ccr_view};
ghost use Rattle.pcrf_serve.specs.Taking.{is_left, taken_among, update_of, update_if_left};
ghost use Rattle.pcrf_serve.specs.LookLimits.{piece};

use crate::leaves::Leaves;
use dia_base::Origin;
use gx_profile::Ccr;
use gx_records::GxRec;
use pcrf_values::{GxSid, Ranked, RequestKind};
use site_join::Entries;
use std::alloc::{AllocError, Global};

/// For how many sessions there are requests at once at most.
pub const PIECE: usize = 100;

/// Whether a session with this record is live, and its home is left by its host.
fn is_left<L: Leaves>(leaves: &L, record: &GxRec) -> bool
    ensures { result ≡ is_left (L.leaves leaves.now) record.now }
{
    if !record.live() {
        return false;
    }
    let Some((_, host)) = record.host() else {
        return false;
    };
    match record.home() {
        Some(home) => leaves.leaves(host, home),
        None => false,
    }
}

/// The update by which a session with this record is taken over: as from its host, under the number of its last request, and without a word
/// of its user, so that it brings nothing new (TS 29.212, 4.5.1). None where it has no host, no realm or no request.
fn update_of(session: &GxSid, record: &GxRec) -> Result<Option<Ccr>, AllocError>
    ensures { IfOk result (λ update. option_map ccr_view update
        ≡ update_of session.now record.now) }
{
    let Some((_, host)) = record.host() else {
        return Ok(None);
    };
    let Some((_, realm)) = record.realm() else {
        return Ok(None);
    };
    let Some((tag, _)) = record.last() else {
        return Ok(None);
    };
    let session = session.try_copy()?;
    let host = host.try_copy()?;
    let realm = realm.try_copy()?;
    Ok(Some(Ccr {
        session,
        origin: Origin { host, realm },
        kind: RequestKind::Update,
        number: tag.number,
        address: None,
        prefix: None,
        apn: None,
        subscribers: None,
    }))
}

/// That of a session which is to be taken over.
fn update_if_left<L: Leaves>(
    leaves: &L,
    session: &GxSid,
    record: &GxRec,
) -> Result<Option<Ccr>, AllocError>
    ensures { IfOk result (λ update. option_map ccr_view update
        ≡ update_if_left (L.leaves leaves.now) (session.now, record.now)) }
{
    if !is_left(leaves, record) {
        return Ok(None);
    }
    update_of(session, record)
}

/// The updates of the next sessions that are to be taken over, 100 at most, and what is left of the sessions behind them. Where memory is
/// refused the sessions that were passed by then are found by another pass alone.
pub fn next_updates<L: Leaves>(
    alloc: Global,
    leaves: &L,
    sessions: &mut Entries<'_, GxSid, GxRec>,
) -> Result<Vec<Ccr>, AllocError>
    ensures all { IfOk result (λ updates. map ccr_view updates.items
        ++ taken_among (L.leaves leaves.now) sessions.new
        ≡ taken_among (L.leaves leaves.now) sessions.old) }
    ensures within { IfOk result (λ updates. length updates.items ≤ piece) }
    ensures last { IfOk result (λ updates. length updates.items < piece → sessions.new ≡ []) }
{
    let mut updates = Vec::new(alloc);
    while let Some((session, record)) = sessions.next() {
        if let Some(update) = update_if_left(leaves, session, record)? {
            updates.push(update)?;
            if updates.len() >= PIECE {
                return Ok(updates);
            }
        }
    }
    Ok(updates)
}
