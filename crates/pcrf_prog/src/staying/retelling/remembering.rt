//! Initial requests whose gateways may have lost what their sessions were told.
use crate::staying::answers::RecentAnswers;
use crate::staying::retelling::glance::Glance;
use crate::staying::retelling::losses::Losses;
use crate::staying::retelling::retell;
use dia_base::ReadFault;
use dia_base::codes::GX;
use dia_base::codes::commands::CREDIT_CONTROL;
use dia_base::codes::results::SUCCESS;
use dia_codec::{Header, MsgFault, read_header, read_message};
use gx_profile::{Ccr, RequestKind, read_ccr};
use op_tables::Tables;
use pcrf_serve::{Repeats, SharedSite, StepFault, is_grantable};
use pcrf_values::{DiameterIdentity, GxSid, Ranked, SessionId};
use std::alloc::{AllocError, Global};
use std::sync::{Mutex, Wait};
use std::time::Clock;

/// The command Capabilities-Exchange of the base protocol (RFC 6733, 5.3).
const CAPABILITIES_EXCHANGE: u32 = 257;

const BASE: u32 = 0;

/// The CC-Request-Type of an initial request (RFC 8506, 8.3).
const INITIAL: u32 = 1;

/// Keeps answers for requests that are repeated. Where an initial request is repeated whose answer isn't kept, or its host may have started
/// again since its session's last request, the gateway has lost what it was told: unless the request is refused for what it says, the
/// session is told all its rules again, by the answer. A peer's letter may bring the session, and what its gateway was told there, just before the request is served: then the answer has no rule,
/// and the push behind it has all.
#[derive(Drop)]
pub struct Remembering<'s, 'r, S: SharedSite, M> {
    pub(crate) kept: RecentAnswers<'r, M>,
    pub(crate) losses: &'r Losses,
    pub(crate) site: &'s S,
    /// By which requests are refused for what they say.
    pub(crate) tables: &'r Tables,
    /// The seat at which sessions are told again, if there is one.
    pub(crate) seat: Mutex<Option<S::Seat>>,
}

/// Whether a request is one of credit control.
fn is_credit_control(header: &Header) -> bool {
    header.flags.request && header.application == GX && header.command == CREDIT_CONTROL
}

/// Whether a request is an initial one of credit control, as it is seen at a glance.
fn is_initial(header: &Header, request: &[u8]) -> bool {
    is_credit_control(header) && Glance::of(request).kind == Some(INITIAL)
}

/// Whether it is for the exchange of capabilities.
fn is_exchange(header: &Header) -> bool {
    header.flags.request && header.application == BASE && header.command == CAPABILITIES_EXCHANGE
}

/// The initial request that a message of credit control is, if it can be read.
fn read_initial(alloc: Global, message: &[u8]) -> Result<Option<Ccr>, AllocError> {
    let message = match read_message(alloc, message) {
        Ok(message) => message,
        Err(MsgFault::NoMemory) => return Err(AllocError),
        Err(_) => return Ok(None),
    };
    match read_ccr(alloc, &message) {
        Ok(ccr) if ccr.kind == RequestKind::Initial => Ok(Some(ccr)),
        Ok(_) | Err(ReadFault::Refused(_)) => Ok(None),
        Err(ReadFault::NoMemory) => Err(AllocError),
    }
}

impl<S: SharedSite, M> Remembering<'_, '_, S, M> {
    /// Whether the gateway of an initial request may have lost what its session was told.
    fn may_be_lost<R: Wait>(
        &self,
        rt: &R,
        is_repeated: bool,
        state: Option<u32>,
        request: &Ccr,
    ) -> bool {
        if is_repeated {
            return true;
        }
        let states = self.losses.states.lock(rt);
        match state.or(states.of_host(&request.origin.host)) {
            Some(state) => states.may_have_grown(&request.session, state),
            None => false,
        }
    }

    /// Has a session told all its rules again. Where the site's clock is at its end the request is refused that would bring them.
    fn tell_again<R: Wait>(&self, rt: &R, session: GxSid) -> Result<(), AllocError> {
        let mut seat = self.seat.lock(rt);
        let Some(seat) = &mut *seat else {
            return Ok(());
        };
        match retell(rt, self.site, seat, session) {
            Ok(_) | Err(StepFault::HistoryFull | StepFault::ClockFull) => Ok(()),
            Err(StepFault::NoMemory) => Err(AllocError),
        }
    }

    /// Has the session of an initial request told all its rules again, if its gateway may have lost what it was told.
    fn tell_lost<R: Wait>(
        &self,
        rt: &R,
        header: &Header,
        message: &[u8],
        request: &Ccr,
    ) -> Result<(), AllocError> {
        let state = Glance::of(message).state;
        if self.may_be_lost(rt, header.flags.retransmitted, state, request) {
            return self.tell_again(rt, request.session.try_copy()?);
        }
        Ok(())
    }

    /// The same behind the answer to it, if that has no rule.
    fn tell_unheard<R: Wait>(
        &self,
        rt: &R,
        alloc: Global,
        request: &[u8],
        answer: &[u8],
    ) -> Result<(), AllocError> {
        let Some(head) = request.first_chunk() else {
            return Ok(());
        };
        let header = read_header(head);
        if !is_initial(&header, request) || Glance::of(answer).installs {
            return Ok(());
        }
        match read_initial(alloc, request)? {
            Some(initial) if is_grantable(self.tables, &initial) => {
                self.tell_lost(rt, &header, request, &initial)
            }
            _ => Ok(()),
        }
    }

    /// Notes in which state a host is that exchanged capabilities.
    fn remember_host<R: Wait>(
        &self,
        rt: &R,
        alloc: Global,
        seen: Glance<'_>,
    ) -> Result<(), AllocError> {
        let (Some(host), Some(state)) = (seen.host, seen.state) else {
            return Ok(());
        };
        let Some(host) = DiameterIdentity::read(alloc, host)? else {
            return Ok(());
        };
        self.losses.states.lock(rt).tell_host(&host, state)
    }

    /// Notes in which state the host of a session is.
    fn remember_session<R: Wait>(
        &self,
        rt: &R,
        alloc: Global,
        seen: Glance<'_>,
    ) -> Result<(), AllocError> {
        let (Some(session), Some(host)) = (seen.session, seen.host) else {
            return Ok(());
        };
        let (Some(session), Some(host)) = (
            SessionId::read(alloc, session)?,
            DiameterIdentity::read(alloc, host)?,
        ) else {
            return Ok(());
        };
        let mut states = self.losses.states.lock(rt);
        match seen.state.or(states.of_host(&host)) {
            Some(state) => states.tell_session(&GxSid::of(session), state),
            None => Ok(()),
        }
    }

    /// Notes what a request that was granted says of its host. One that was refused told its gateway nothing.
    fn remember<R: Wait>(
        &self,
        rt: &R,
        alloc: Global,
        request: &[u8],
        answer: &[u8],
    ) -> Result<(), AllocError> {
        let Some(head) = request.first_chunk() else {
            return Ok(());
        };
        if Glance::of(answer).code != Some(SUCCESS) {
            return Ok(());
        }
        let header = read_header(head);
        if is_exchange(&header) {
            return self.remember_host(rt, alloc, Glance::of(request));
        }
        if is_credit_control(&header) {
            return self.remember_session(rt, alloc, Glance::of(request));
        }
        Ok(())
    }
}

impl<S: SharedSite, M: Clock> Repeats for Remembering<'_, '_, S, M> {
    ghost use Rattle.pcrf_serve.specs.Granting as granting;

    ghost is_grantable = { λ r q. granting.is_grantable r.tables.now q };

    fn answer_again<R: Wait>(
        &self,
        rt: &R,
        alloc: Global,
        peer: &DiameterIdentity,
        header: &Header,
        request: &[u8],
    ) -> Result<Option<Vec<u8>>, AllocError> {
        self.kept.answer_again(rt, alloc, peer, header, request)
    }

    fn may_prepare(&self, header: &Header, message: &[u8]) -> bool {
        is_initial(header, message)
    }

    fn is_grantable(&self, request: &Ccr) -> bool {
        is_grantable(self.tables, request)
    }

    fn prepare<R: Wait>(
        &self,
        rt: &R,
        header: &Header,
        message: &[u8],
        request: &Ccr,
    ) -> Result<(), AllocError> {
        self.tell_lost(rt, header, message, request)
    }

    /// What isn't noted, for want of memory, is taken for lost later; what isn't told again stands as told.
    fn keep<R: Wait>(
        &self,
        rt: &R,
        alloc: Global,
        peer: Option<&DiameterIdentity>,
        request: &[u8],
        answer: &[u8],
    ) {
        let _ = self.tell_unheard(rt, alloc, request, answer);
        let _ = self.remember(rt, alloc, request, answer);
        if let Some(peer) = peer {
            self.kept.keep(rt, alloc, peer, request, answer);
        }
    }
}
