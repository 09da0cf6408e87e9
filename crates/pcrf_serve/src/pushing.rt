//! What a site asks of the hosts that can be reached: pushes to gateways, and aborts at application functions.
ghost use Rattle.std.specs.Prelude.{◌≡◌, ◌↔◌, ◌+◌, false, IfNone, IfOk, IsTrue, option_map};
ghost use Rattle.dia_codec.specs.Written.{written_spelling};
ghost use Rattle.pcrf_serve.specs.Due.{FindsNone, NothingWasDue, WasAsked};
ghost use Rattle.pcrf_serve.specs.Requests.{WasReplied, asks, identifier_at, last_request, request_saying};
ghost use Rattle.gx_profile.specs.Pushes.{rar};
ghost use Rattle.pcrf_serve.specs.Earlier.{Adds, HasEarlier};
ghost use Rattle.site_lock.specs.Books.{SeatValue};
ghost use Rattle.pcrf_serve.specs.Events.{IsPushTo, IsPushToHost, event_to};
ghost use Rattle.pcrf_serve.specs.declared.demand.Demand.TheVariants as demands;
ghost use Rattle.site_lock.specs.Values.{event_value, reply_value};
ghost use Rattle.pcrf_model.specs.ReplyViews.{push_view};
ghost use Rattle.rx_profile.specs.Aborts.{abort_view, asr};
ghost use Rattle.dia_base.specs.Stated.{stated};

use crate::demand::Demand;
use crate::gateways::Gateways;
use crate::half::Half;
use crate::observer::Observer;
use crate::outgoing::Outgoing;
use crate::pushes::Pushes;
use dia_base::{Identity, stated};
use gx_profile::write_rar;
use pcrf_model::PushOut;
use pcrf_values::{DiameterIdentity, Ranked};
use rx_profile::{AbortOut, write_asr};
use site_lock::{Event, Reply, SharedSite, StepFault};
use std::alloc::{AllocError, Global};
use std::io::Write;
use std::sync::Wait;
use std::thread::Threads;

/// How many identifiers a request can have (RFC 6733, 3).
const IDENTIFIERS: u64 = 1 << 32;

/// How the pushing to one host ended.
#[derive(Clone, Copy, PartialEq, Eq)]
enum Pushed {
    /// Nothing is to be asked of it any more.
    All,
    /// Nothing can be written to it.
    Unreached,
    /// The site makes no further one: its history is full.
    HistoryFull,
    /// It makes none: its clock is at its end.
    ClockFull,
}

/// The bytes of a push's re-authorisation request with these identifiers, in the form in which the site writes.
pub(crate) fn request_bytes(
    alloc: Global,
    identity: &Identity,
    hop_id: u32,
    end_id: u32,
    push: &PushOut,
) -> Result<Vec<u8>, AllocError>
    ensures { IfOk result (λ bytes. bytes.items
        ≡ stated identity.now (written_spelling
        (rar identity.now hop_id end_id (push_view push.now)))) }
{
    let request = write_rar(alloc, identity, hop_id, end_id, push)?;
    stated(alloc, identity, request)
}

/// The bytes of an abort session request with these identifiers, in the form in which the site writes.
fn abort_bytes(
    alloc: Global,
    identity: &Identity,
    hop_id: u32,
    end_id: u32,
    abort: &AbortOut,
) -> Result<Vec<u8>, AllocError>
    ensures { IfOk result (λ bytes. bytes.items
        ≡ stated identity.now (written_spelling
        (asr identity.now hop_id end_id (abort_view abort.now)))) }
{
    let request = write_asr(alloc, identity, hop_id, end_id, abort)?;
    stated(alloc, identity, request)
}

/// The Hop-by-Hop Identifier of a request that stands at this place.
pub(crate) fn hop_id_at(place: u64) -> u32
    ensures { result ≡ identifier_at place }
{
    (place % IDENTIFIERS) as u32
}

/// The End-to-End Identifier of a request that stands at this place.
pub(crate) fn end_id_at(first: u32, place: u64) -> u32
    ensures { result ≡ identifier_at (first + place) }
{
    ((u64::from(first) + place % IDENTIFIERS) % IDENTIFIERS) as u32
}

/// The request of what was replied at a place; none where nothing is asked.
fn request_saying(
    alloc: Global,
    identity: &Identity,
    first: u32,
    place: u64,
    reply: &Reply,
) -> Result<Option<Vec<u8>>, AllocError>
    ensures request { IfOk result (λ request. option_map (λ bytes. bytes.items) request
        ≡ request_saying identity.now first place (reply_value reply.now)) }
    ensures none { IfOk result (λ request. IfNone request (asks (reply_value reply.now) ≡ false)) }
{
    let (hop_id, end_id) = (hop_id_at(place), end_id_at(first, place));
    match reply {
        Reply::Pushed(Some(push)) => {
            let bytes = request_bytes(alloc, identity, hop_id, end_id, push)?;
            Ok(Some(bytes))
        }
        Reply::Aborted(Some(abort)) => {
            let bytes = abort_bytes(alloc, identity, hop_id, end_id, abort)?;
            Ok(Some(bytes))
        }
        _ => Ok(None),
    }
}

/// The request of the call that a seat made last, which was replied to so, as its receipt has it: a push goes out just as it counts
/// as told, and an abort just as it counts as asked for.
#[tactic(auto, using(crate::proofs::Asked::asked_by_last, crate::proofs::Asked::asked_by_none))]
fn last_request<S: SharedSite>(
    alloc: Global,
    site: &S,
    seat: &S::Seat,
    first: u32,
    reply: &Reply,
) -> Result<Option<Vec<u8>>, AllocError>
    requires { WasReplied (S.seen seat.now).receipts (reply_value reply.now) }
    ensures request { IfOk result (λ request. option_map (λ bytes. bytes.items) request
        ≡ last_request (S.beside site.now).identity first (S.seen seat.now).receipts) }
    ensures none { IfOk result (λ request. IfNone request (asks (reply_value reply.now) ≡ false)) }
{
    match site.last_of(seat) {
        Some(place) => request_saying(alloc, site.identity(), first, place, reply),
        None => Ok(None),
    }
}

/// Makes a push, if something is due: what is replied tells what is asked, as the seat's last receipt does.
fn push_once<R: Threads + Wait + Sync, S: SharedSite>(
    rt: &R,
    site: &S,
    seat: &mut S::Seat,
    event: &Event,
) -> Result<Reply, StepFault>
    ensures adds { Adds (λ e. e ≡ event_value event.now) (S.seen seat.old) (S.seen seat.new) }
    ensures last { IfOk result (λ reply.
        WasReplied (S.seen seat.new).receipts (reply_value reply)) }
    ensures asked { IfOk result (λ reply.
        WasAsked (S.seen seat.new).receipts (event_value event.now)) }
{
    site.call(rt, seat, event)
}

/// Writes the request of the push that the seat made last, which was replied to so, behind the answers that are gathered: the bytes
/// are those of `last_request`. None where nothing is asked, and false if it can't be written.
fn send<S: SharedSite, W: Write + Drop>(
    rt: &impl Wait,
    alloc: Global,
    site: &S,
    seat: &S::Seat,
    reply: &Reply,
    half: &Half<W>,
    outgoing: &mut Outgoing<'_, W>,
) -> Result<Option<bool>, AllocError>
    requires { WasReplied (S.seen seat.now).receipts (reply_value reply.now) }
    ensures { IfOk result (λ sent. IfNone sent (asks (reply_value reply.now) ≡ false)) }
{
    let Some(bytes) = last_request(alloc, site, seat, half.first_end_id(), reply)? else {
        return Ok(None);
    };
    let _is_written = outgoing.flush(rt);
    Ok(Some(half.put(rt, bytes.as_slice())))
}

/// Whether a call that asks this of a host is to be made.
fn is_wanted<R: Wait, S: SharedSite>(
    rt: &R,
    site: &S,
    seat: &mut S::Seat,
    host: &DiameterIdentity,
    demand: Demand,
) -> bool
    ensures none { result ≡ false → FindsNone S.found demand (S.seen seat.old) host.now }
    ensures same { seat.new ≡ seat.old }
{
    match demand {
        Demand::Rules => site.wants_push(rt, seat, host),
        Demand::Abort => site.wants_abort(rt, seat, host),
    }
}

/// Asks it of one host until nothing is left to ask, or it can't go on. No call is made where the site wants none.
fn push_each<R: Threads + Wait + Sync, S: SharedSite, W: Write + Drop>(
    rt: &R,
    alloc: Global,
    site: &S,
    seat: &mut S::Seat,
    host: &DiameterIdentity,
    demand: Demand,
    event: &Event,
    half: &Half<W>,
    outgoing: &mut Outgoing<'_, W>,
) -> Result<Pushed, AllocError>
    requires { event_value event.now ≡ event_to demand host.now }
    ensures adds { Adds (IsPushTo host.now) (S.seen seat.old) (S.seen seat.new) }
    ensures settled { IfOk result (λ pushed. pushed ≡ Pushed.All
        → NothingWasDue S.found demand host.now (S.seen seat.new)) }
{
    for _ in rt.forever() {
        if !is_wanted(rt, site, seat, host, demand) {
            return Ok(Pushed::All);
        }
        let reply = match push_once(rt, site, seat, event) {
            Ok(reply) => reply,
            Err(StepFault::HistoryFull) => return Ok(Pushed::HistoryFull),
            Err(StepFault::ClockFull) => return Ok(Pushed::ClockFull),
            Err(StepFault::NoMemory) => return Err(AllocError),
        };
        let sent = send(rt, alloc, site, seat, &reply, half, outgoing);
        drop(reply);
        match sent? {
            Some(true) => {}
            Some(false) => return Ok(Pushed::Unreached),
            None => return Ok(Pushed::All),
        }
    }
    unreachable!()
}

/// The event by which it is asked of a host.
fn event_to(host: &DiameterIdentity, demand: Demand) -> Result<Event, AllocError>
    ensures { IfOk result (λ event. event_value event ≡ event_to demand host.now) }
{
    let host = Some(host.try_copy()?);
    match demand {
        Demand::Rules => Ok(Event::Push(host)),
        Demand::Abort => Ok(Event::Abort(host)),
    }
}

/// Asks it of a host, by its half.
fn push_demand<R: Threads + Wait + Sync, S: SharedSite, W: Write + Drop>(
    rt: &R,
    alloc: Global,
    site: &S,
    seat: &mut S::Seat,
    host: &DiameterIdentity,
    half: &Half<W>,
    demand: Demand,
    outgoing: &mut Outgoing<'_, W>,
) -> Result<Pushed, AllocError>
    ensures adds { Adds (IsPushTo host.now) (S.seen seat.old) (S.seen seat.new) }
    ensures settled { IfOk result (λ pushed. pushed ≡ Pushed.All
        → NothingWasDue S.found demand host.now (S.seen seat.new)) }
{
    if !is_wanted(rt, site, seat, host, demand) {
        return Ok(Pushed::All);
    }
    let event = event_to(host, demand)?;
    let pushed = push_each(rt, alloc, site, seat, host, demand, &event, half, outgoing);
    drop(event);
    pushed
}

/// Nothing was left to ask.
fn is_all(pushed: Pushed) -> bool
    ensures { IsTrue result ↔ (pushed ≡ Pushed.All) }
{
    matches!(pushed, Pushed::All)
}

/// Pushes to a host, by its half: first what its gateway is to be told, and then what its application function is to end.
fn push_gateway<R: Threads + Wait + Sync, S: SharedSite, W: Write + Drop>(
    rt: &R,
    alloc: Global,
    site: &S,
    seat: &mut S::Seat,
    host: &DiameterIdentity,
    half: &Half<W>,
    outgoing: &mut Outgoing<'_, W>,
) -> Result<Pushed, AllocError>
    ensures adds { Adds (IsPushTo host.now) (S.seen seat.old) (S.seen seat.new) }
    ensures told { IfOk result (λ pushed. pushed ≡ Pushed.All → (between : SeatValue)
        × HasEarlier between (S.seen seat.new)
        × NothingWasDue S.found demands.Rules host.now between) }
    ensures aborted { IfOk result (λ pushed. pushed ≡ Pushed.All
        → NothingWasDue S.found demands.Abort host.now (S.seen seat.new)) }
{
    let told = push_demand(rt, alloc, site, seat, host, half, Demand::Rules, outgoing)?;
    if !is_all(told) {
        return Ok(told);
    }
    push_demand(rt, alloc, site, seat, host, half, Demand::Abort, outgoing)
}

/// Tells an observer how many entries the history had when the seat made its last call.
pub fn tell_entries<S: SharedSite, O: Observer>(observer: &O, site: &S, seat: &S::Seat) {
    if let Some(place) = site.last_of(seat) {
        observer.entered(place.saturating_add(1) as usize);
    }
}

/// Tells the observer how the pushing to a host ended, which is reached no more if nothing can be written to it. True if there
/// may be pushes to others.
fn conclude<R: Threads + Wait + Sync, S: SharedSite, W: Write + Drop, O: Observer>(
    rt: &R,
    site: &S,
    seat: &S::Seat,
    gateways: &Gateways<W, O>,
    host: &DiameterIdentity,
    pushed: Pushed,
) -> bool {
    let observer = gateways.observer();
    tell_entries(observer, site, seat);
    match pushed {
        Pushed::All => true,
        Pushed::Unreached => {
            gateways.take_ended_out(rt);
            observer.unreached(host);
            true
        }
        Pushed::HistoryFull => {
            observer.history_full();
            false
        }
        Pushed::ClockFull => false,
    }
}

/// Whether anything is to be asked of a host: where it answers false the seat found that nothing was due to the host's gateways, and
/// that no session of the host was to be aborted.
fn is_any_wanted<R: Wait, S: SharedSite>(
    rt: &R,
    site: &S,
    seat: &mut S::Seat,
    host: &DiameterIdentity,
) -> bool
    ensures rules { result ≡ false
        → FindsNone S.found demands.Rules (S.seen seat.old) host.now }
    ensures abort { result ≡ false
        → FindsNone S.found demands.Abort (S.seen seat.new) host.now }
    ensures same { seat.new ≡ seat.old }
{
    if is_wanted(rt, site, seat, host, Demand::Rules) {
        return true;
    }
    is_wanted(rt, site, seat, host, Demand::Abort)
}

/// Pushes to a host, if anything is to be asked of it and it can still be reached. True if there may be pushes to others.
fn push_host<R: Threads + Wait + Sync, S: SharedSite, W: Write + Drop, O: Observer>(
    rt: &R,
    alloc: Global,
    site: &S,
    seat: &mut S::Seat,
    gateways: &Gateways<W, O>,
    host: &DiameterIdentity,
    outgoing: &mut Outgoing<'_, W>,
) -> Result<bool, AllocError>
    ensures { Adds (IsPushTo host.now) (S.seen seat.old) (S.seen seat.new) }
{
    if !is_any_wanted(rt, site, seat, host) {
        return Ok(true);
    }
    let Some(half) = gateways.half_of(rt, host)? else {
        return Ok(true);
    };
    let pushed = push_gateway(rt, alloc, site, seat, host, &half, outgoing)?;
    Ok(conclude(rt, site, seat, gateways, host, pushed))
}

/// Pushes to every host that can be reached, one after another, until nothing is due to any and no session of any is to be
/// aborted; none is asked where the site says that nothing is due to anybody. A full history or clock ends it; a host to which
/// nothing can be written is reached no more. What was gathered is written before the first request, so that an answer comes
/// before what it led to.
pub fn push_all<R: Threads + Wait + Sync, S: SharedSite, W: Write + Drop, O: Observer>(
    rt: &R,
    alloc: Global,
    site: &S,
    seat: &mut S::Seat,
    gateways: &Gateways<W, O>,
    outgoing: &mut Outgoing<'_, W>,
) -> Result<(), AllocError>
    ensures { Adds IsPushToHost (S.seen seat.old) (S.seen seat.new) }
{
    if site.is_quiet(rt, seat) {
        return Ok(());
    }
    let hosts = gateways.hosts(rt, alloc)?;
    for host in hosts.iter() {
        let goes_on = push_host(rt, alloc, site, seat, gateways, host, outgoing)?;
        if !goes_on {
            return Ok(());
        }
    }
    Ok(())
}

impl<W: Write + Drop, O: Observer> Pushes for Gateways<W, O> {
    fn push_all<R: Threads + Wait + Sync, S: SharedSite>(
        &self,
        rt: &R,
        alloc: Global,
        site: &S,
        seat: &mut S::Seat,
    ) -> Result<(), AllocError> {
        push_all(rt, alloc, site, seat, self, &mut Outgoing::nothing(alloc))
    }
}
