//! A site takes over a session of a gateway that it reaches: it serves an update of the session of its own accord, and what that tells goes
//! out as a re-authorisation request.
ghost use Rattle.std.specs.Prelude.{◌≡◌, IfOk, option_map};
ghost use Rattle.pcrf_serve.specs.Going.{last_telling, push_of_reply, request_telling};
ghost use Rattle.pcrf_serve.specs.Requests.{WasReplied};
ghost use Rattle.gx_profile.specs.Requests.{ccr_view};
ghost use Rattle.pcrf_serve.specs.Earlier.{Adds};
ghost use Rattle.site_lock.specs.Values.{event_value, reply_value};
ghost use Rattle.pcrf_model.specs.Differences.{is_empty};
ghost use Rattle.pcrf_model.specs.Requests as requests;
ghost use Rattle.pcrf_model.specs.Steps as events;
ghost use Rattle.pcrf_model.specs.ReplyViews.{push_view};

use crate::gateways::Gateways;
use crate::half::Half;
use crate::observer::Observer;
use crate::pushing::{end_id_at, hop_id_at, request_bytes};
use dia_base::Identity;
use gx_profile::Ccr;
use pcrf_model::{FirstEntries, GxReply, PushOut};
use pcrf_values::Ranked;
use site_lock::{Event, Reply, Request, SharedSite, StepFault};
use std::alloc::{AllocError, Global};
use std::io::Write;
use std::sync::Wait;

/// How the taking over of a session ended.
#[derive(Clone, Copy, Debug, PartialEq, Eq)]
pub enum GoneOver {
    /// The update was served, and what it tells was written, if it tells something.
    Taken,
    /// It was refused, as where the session has ended meanwhile.
    Refused,
    /// The host is reached no more.
    Unreached,
    /// The site takes no further event.
    Full,
}

/// Nothing is removed or installed.
fn says_nothing(delta: &FirstEntries) -> bool
    ensures { result ≡ is_empty delta.now }
{
    delta.removed().len() + delta.installed().len() == 0
}

/// What the reply to an update tells, as a push to the host and the realm of the update; none where it tells nothing.
fn push_of_reply(update: &Ccr, reply: Reply) -> Result<Option<PushOut>, AllocError>
    ensures { IfOk result (λ push. option_map push_view push
        ≡ push_of_reply (ccr_view update.now) (reply_value reply)) }
{
    let Reply::Gx(GxReply::Granted(delta, _)) = reply else {
        return Ok(None);
    };
    if says_nothing(&delta) {
        return Ok(None);
    }
    let session = update.session.try_copy()?;
    let host = update.origin.host.try_copy()?;
    let realm = update.origin.realm.try_copy()?;
    Ok(Some(PushOut {
        session,
        host,
        realm,
        delta,
    }))
}

/// The re-authorisation request of what was replied to an update at a place; none where nothing is told.
fn request_telling(
    alloc: Global,
    identity: &Identity,
    first: u32,
    update: &Ccr,
    place: u64,
    reply: Reply,
) -> Result<Option<Vec<u8>>, AllocError>
    ensures { IfOk result (λ request. option_map (λ bytes. bytes.items) request
        ≡ request_telling identity.now first (ccr_view update.now) place (reply_value reply)) }
{
    let Some(push) = push_of_reply(update, reply)? else {
        return Ok(None);
    };
    let (hop_id, end_id) = (hop_id_at(place), end_id_at(first, place));
    let bytes = request_bytes(alloc, identity, hop_id, end_id, &push)?;
    Ok(Some(bytes))
}

/// The re-authorisation request of the call that a seat made last, which was an update and was replied to so, as its receipt has it.
#[tactic(auto, using(crate::proofs::Told::told_by_last, crate::proofs::Told::told_by_none))]
fn last_telling<S: SharedSite>(
    alloc: Global,
    site: &S,
    seat: &S::Seat,
    first: u32,
    update: &Ccr,
    reply: Reply,
) -> Result<Option<Vec<u8>>, AllocError>
    requires { WasReplied (S.seen seat.now).receipts (reply_value reply) }
    ensures { IfOk result (λ request. option_map (λ bytes. bytes.items) request
        ≡ last_telling (S.beside site.now).identity first (ccr_view update.now)
        (S.seen seat.now).receipts) }
{
    match site.last_of(seat) {
        Some(place) => request_telling(alloc, site.identity(), first, update, place, reply),
        None => Ok(None),
    }
}

/// The event by which an update is served.
fn event_of(update: &Ccr) -> Result<Event, AllocError>
    ensures { IfOk result (λ event. event_value event
        ≡ events.Serve (requests.Ccr (ccr_view update.now))) }
{
    Ok(Event::Serve(Request::Ccr(update.try_copy()?)))
}

/// Serves an update of the site's own: what is replied is what the seat's last receipt has.
fn serve_update<R: Wait, S: SharedSite>(
    rt: &R,
    site: &S,
    seat: &mut S::Seat,
    event: &Event,
) -> Result<Reply, StepFault>
    ensures adds { Adds (λ added. added ≡ event_value event.now)
        (S.seen seat.old) (S.seen seat.new) }
    ensures last { IfOk result (λ reply.
        WasReplied (S.seen seat.new).receipts (reply_value reply)) }
{
    site.call_alone(rt, seat, event)
}

/// Writes what an update tells that was replied to so, as the seat's last receipt has it: the bytes are those of `last_telling`. False if
/// it can't be written.
fn tell<R: Wait, S: SharedSite, W: Write + Drop>(
    rt: &R,
    alloc: Global,
    site: &S,
    seat: &S::Seat,
    half: &Half<W>,
    update: &Ccr,
    reply: Reply,
) -> Result<bool, AllocError>
    requires { WasReplied (S.seen seat.now).receipts (reply_value reply) }
{
    let first = half.first_end_id();
    let Some(bytes) = last_telling(alloc, site, seat, first, update, reply)? else {
        return Ok(true);
    };
    Ok(half.put(rt, bytes.as_slice()))
}

/// Whether a reply is a refusal.
fn is_refused(reply: &Reply) -> bool {
    matches!(reply, Reply::Gx(GxReply::Refused(_)))
}

/// Takes over a session of a host that is reached: serves its update, so that this site is its home, and writes what it tells, as an
/// answer would have told it. Nothing is served where the host isn't reached.
pub fn go_over<R: Wait, S: SharedSite, W: Write + Drop, O: Observer>(
    rt: &R,
    alloc: Global,
    site: &S,
    seat: &mut S::Seat,
    gateways: &Gateways<W, O>,
    update: &Ccr,
) -> Result<GoneOver, AllocError>
    ensures { Adds (λ event. event ≡ events.Serve (requests.Ccr (ccr_view update.now)))
        (S.seen seat.old) (S.seen seat.new) }
{
    let Some(half) = gateways.half_of(rt, &update.origin.host)? else {
        return Ok(GoneOver::Unreached);
    };
    let event = event_of(update)?;
    let replied = serve_update(rt, site, seat, &event);
    drop(event);
    let reply = match replied {
        Ok(reply) => reply,
        Err(StepFault::HistoryFull | StepFault::ClockFull) => return Ok(GoneOver::Full),
        Err(StepFault::NoMemory) => return Err(AllocError),
    };
    if is_refused(&reply) {
        return Ok(GoneOver::Refused);
    }
    if tell(rt, alloc, site, seat, &half, update, reply)? {
        return Ok(GoneOver::Taken);
    }
    gateways.take_ended_out(rt);
    gateways.observer().unreached(&update.origin.host);
    Ok(GoneOver::Unreached)
}
