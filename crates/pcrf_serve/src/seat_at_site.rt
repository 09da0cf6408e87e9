//! A seat at a locked site serves requests.
ghost use Rattle.std.specs.Prelude.{◌≡◌, IfOk, OnErr};
ghost use Rattle.pcrf_model.specs.Steps.{Serve as ServeEvent};
ghost use Rattle.site_lock.specs.Calls.{GainsReceipt};
ghost use Rattle.pcrf_serve.specs.Events.{IsServed};
ghost use Rattle.site_lock.specs.Values.{event_value, reply_value, request_value};

use crate::observer::Observer;
use crate::pushing::tell_entries;
use dia_base::codes::results::SUCCESS;
use dia_base::{BaseKind, Identity, MessageForm, Origin};
use pcrf_values::{DiameterIdentity, Ranked};
use site_core::{Serve, ServeFault};
use site_lock::{Event, Reply, Request, SharedSite, StepFault};
use std::alloc::AllocError;
use std::sync::Wait;

/// A seat with the locked site at which it calls. Each request that it serves is a call of the seat, and an observer is told
/// what comes of it.
#[derive(Drop)]
pub struct SeatAtSite<'a, R, S: SharedSite, O> {
    rt: &'a R,
    observer: &'a O,
    pub(crate) site: &'a S,
    pub(crate) seat: S::Seat,
    /// The peer of the capabilities exchange that was accepted, until it is asked for.
    accepted: Option<Origin>,
    /// The host whose request was granted, until it is asked for: in the standards' form alone, where pushes follow requests.
    followed: Option<DiameterIdentity>,
}

/// The peer of a capabilities exchange.
fn exchanging_peer(request: &Request) -> Option<&Origin> {
    match request {
        Request::Base(base) => match &base.kind {
            BaseKind::CapabilitiesExchange(_) => Some(&base.origin),
            BaseKind::DeviceWatchdog | BaseKind::DisconnectPeer => None,
        },
        Request::Ccr(_) | Request::Aar(_) | Request::Str(_) => None,
    }
}

/// The peer of a capabilities exchange, copied.
fn copied_peer(request: &Request) -> Result<Option<Origin>, AllocError> {
    match exchanging_peer(request) {
        Some(peer) => Ok(Some(peer.try_copy()?)),
        None => Ok(None),
    }
}

/// The host that made a request of Gx or Rx.
fn requesting_host(request: &Request) -> Option<&DiameterIdentity> {
    match request {
        Request::Ccr(ccr) => Some(&ccr.origin.host),
        Request::Aar(aar) => Some(&aar.origin.host),
        Request::Str(call) => Some(&call.origin.host),
        Request::Base(_) => None,
    }
}

/// The host that made a request of Gx or Rx, copied in the standards' form.
fn copied_host(
    form: MessageForm,
    request: &Request,
) -> Result<Option<DiameterIdentity>, AllocError> {
    match (form, requesting_host(request)) {
        (MessageForm::Standard, Some(host)) => Ok(Some(host.try_copy()?)),
        _ => Ok(None),
    }
}

/// Whether a request of Gx or Rx is granted.
fn is_granted(reply: &Reply) -> bool {
    match reply {
        Reply::Gx(reply) => reply.refusal().is_none(),
        Reply::Done => true,
        _ => false,
    }
}

/// The Result-Code of a request of the base protocol.
fn base_code(reply: &Reply) -> Option<u32> {
    match reply {
        Reply::Base(code) => Some(*code),
        _ => None,
    }
}

/// The request of an event.
fn request_of(event: Event) -> Request
    requires { IsServed (event_value event) }
    ensures { ServeEvent (request_value result) ≡ event_value event }
{
    match event {
        Event::Serve(request) => request,
        Event::Push(_)
        | Event::Ops(_)
        | Event::Whole(_)
        | Event::AskOwn(_)
        | Event::AskWhole
        | Event::Abort(_)
        | Event::Retell(_) => { unreachable!() }
    }
}

/// Why a request is not served that a site doesn't take. A site needs no counter for its reply to a request: it refuses one by
/// itself where the clock is at its end.
fn fault_of(fault: StepFault) -> ServeFault {
    match fault {
        StepFault::HistoryFull | StepFault::ClockFull => ServeFault::Full,
        StepFault::NoMemory => ServeFault::NoMemory,
    }
}

impl<'a, R: Wait, S: SharedSite, O: Observer> SeatAtSite<'a, R, S, O> {
    /// A seat that calls at that site.
    pub fn of(rt: &'a R, site: &'a S, observer: &'a O, seat: S::Seat) -> SeatAtSite<'a, R, S, O>
        ensures { result.seat ≡ seat }
    {
        SeatAtSite {
            rt,
            observer,
            site,
            seat,
            accepted: None,
            followed: None,
        }
    }

    /// The seat, back.
    pub fn into_seat(self) -> S::Seat
        ensures { result ≡ self.entry.seat }
    {
        let SeatAtSite {
            rt: _,
            observer: _,
            site: _,
            seat,
            accepted: _,
            followed: _,
        } = self;
        seat
    }

    /// How many calls the seat has made, 2^64 - 1 if there are more.
    pub(crate) fn calls(&self) -> u64 {
        self.site.calls_of(&self.seat)
    }

    /// The peer whose capabilities exchange was accepted since this was asked last.
    pub(crate) fn take_accepted(&mut self) -> Option<Origin>
        ensures seat { self.new.seat ≡ self.old.seat }
    {
        self.accepted.take()
    }

    /// The host whose request was granted since this was asked last, where pushes follow requests.
    pub(crate) fn take_followed(&mut self) -> Option<DiameterIdentity>
        ensures seat { self.new.seat ≡ self.old.seat }
    {
        self.followed.take()
    }

    /// Tells the observer what came of a call that was made, by a peer if it was a capabilities exchange.
    fn tell(&self, peer: Option<&Origin>, code: Option<u32>) {
        tell_entries(self.observer, self.site, &self.seat);
        if let (Some(peer), Some(code)) = (peer, code) {
            let connection = self.site.number_of(&self.seat);
            self.observer.exchanged(connection, peer, code);
        }
    }

    /// Tells the observer of a call that was not made.
    fn tell_fault(&self, fault: StepFault) {
        if fault == StepFault::HistoryFull {
            self.observer.history_full();
        }
    }

    /// Has a request served, of which this peer is known if it is a capabilities exchange, and this host if pushes follow it.
    fn call(
        &mut self,
        event: &Event,
        peer: Option<Origin>,
        host: Option<DiameterIdentity>,
    ) -> Result<Reply, ServeFault>
        ensures site { self.new.site ≡ self.old.site }
        ensures receipt { IfOk result (λ reply. GainsReceipt (S.seen self.old.seat)
            (event_value event.now) (reply_value reply) (S.seen self.new.seat)) }
        ensures err { OnErr result (self.new ≡ self.old) }
    {
        match self.site.call_alone(self.rt, &mut self.seat, event) {
            Ok(reply) => {
                let code = base_code(&reply);
                self.tell(peer.as_ref(), code);
                if code == Some(SUCCESS) {
                    self.accepted = peer;
                }
                if is_granted(&reply) {
                    self.followed = host;
                }
                Ok(reply)
            }
            Err(fault) => {
                self.tell_fault(fault);
                Err(fault_of(fault))
            }
        }
    }
}

impl<R: Wait, S: SharedSite, O: Observer> Serve for SeatAtSite<'_, R, S, O> {
    ghost use Rattle.pcrf_serve.specs.Serving.{GainsReply, MayBeFull};

    ghost names = { λ s. (S.beside s.site.now).identity };

    ghost may_reply = { λ old request reply new.
        (new.site ≡ old.site) × GainsReply (S.seen old.seat) request reply (S.seen new.seat) };

    ghost is_full = { MayBeFull };

    fn identity(&self) -> &Identity {
        self.site.identity()
    }

    fn serve(&mut self, request: Request) -> (Request, Result<Reply, ServeFault>) {
        let Ok(peer) = copied_peer(&request) else {
            return (request, Err(ServeFault::NoMemory));
        };
        let Ok(host) = copied_host(self.site.identity().form, &request) else {
            return (request, Err(ServeFault::NoMemory));
        };
        let event = Event::Serve(request);
        let called = self.call(&event, peer, host);
        (request_of(event), called)
    }
}
