//! A connection beside its seat.
use crate::end::LinkEnd;
use crate::gate::Gate;
use crate::gateways::Gateways;
use crate::granting::initial_of;
use crate::half::Half;
use crate::observer::Observer;
use crate::outgoing::Outgoing;
use crate::repeats::{Repeats, Unrepeated};
use dia_base::Identity;
use dia_codec::read_header;
use pcrf_values::{DiameterIdentity, Ranked};
use std::alloc::{AllocError, Global};
use std::io::Write;
use std::sync::{Arc, Wait};

/// What all connections of a server share: the site, the gateways that can be reached, what lets messages through, and who keeps answers.
#[derive(Drop)]
pub struct Server<'a, S, W, O, G, K = Unrepeated> {
    /// Where memory comes from.
    pub alloc: Global,
    /// The site at which requests are served.
    pub site: &'a S,
    /// The gateways that pushes go to.
    pub gateways: &'a Gateways<W, O>,
    /// What lets messages through.
    pub gate: &'a G,
    /// Who keeps answers for requests that are repeated.
    pub repeats: &'a K,
}

/// A connection, with the answers that are gathered for it.
#[derive(Drop)]
pub(crate) struct Link<'a, W, O, G, K> {
    alloc: Global,
    /// The number of its seat.
    number: usize,
    pub(crate) gateways: &'a Gateways<W, O>,
    gate: &'a G,
    repeats: &'a K,
    half: &'a Arc<Half<W>>,
    /// The host that exchanged capabilities on it last, if one did.
    peer: Option<DiameterIdentity>,
    pub(crate) outgoing: Outgoing<'a, W>,
    /// How many messages were let in.
    entered: u64,
    /// How many of them were answered.
    answered: u64,
    /// How many of these have left.
    left: u64,
}

impl<'a, W: Write + Drop, O: Observer, G: Gate, K: Repeats> Link<'a, W, O, G, K> {
    /// A connection that goes by a number.
    pub(crate) fn start<S>(
        server: &Server<'a, S, W, O, G, K>,
        number: usize,
        half: &'a Arc<Half<W>>,
    ) -> Link<'a, W, O, G, K> {
        Link {
            alloc: server.alloc,
            number,
            gateways: server.gateways,
            gate: server.gate,
            repeats: server.repeats,
            half,
            peer: None,
            outgoing: Outgoing::by(server.alloc, half),
            entered: 0,
            answered: 0,
            left: 0,
        }
    }

    /// Lets the next message in.
    pub(crate) fn enter(&mut self) -> Result<(), LinkEnd> {
        if !self.gate.enter(self.number, self.entered) {
            return Err(LinkEnd::Gate);
        }
        self.entered = self.entered.saturating_add(1);
        Ok(())
    }

    /// Gathers the answer to the last message, which may be empty.
    pub(crate) fn gather(&mut self, answer: &[u8]) -> Result<(), AllocError> {
        self.outgoing.gather(answer)?;
        self.answered = self.entered;
        Ok(())
    }

    /// Gathers the answer that is kept for a request, if it repeats one of the connection's host; whether it did.
    pub(crate) fn repeat(&mut self, rt: &impl Wait, frame: &[u8]) -> Result<bool, AllocError> {
        let (Some(head), Some(peer)) = (frame.first_chunk(), &self.peer) else {
            return Ok(false);
        };
        let header = read_header(head);
        if !header.flags.request || !header.flags.retransmitted {
            return Ok(false);
        }
        let kept = self
            .repeats
            .answer_again(rt, self.alloc, peer, &header, frame)?;
        let Some(answer) = kept else {
            return Ok(false);
        };
        self.gather(answer.as_slice())?;
        Ok(true)
    }

    /// A message is about to be answered anew by the node of this identity: where it is an initial request that isn't refused for what it
    /// says, what has to be is prepared.
    pub(crate) fn prepare(
        &self,
        rt: &impl Wait,
        identity: &Identity,
        frame: &[u8],
    ) -> Result<(), AllocError> {
        let Some(head) = frame.first_chunk() else {
            return Ok(());
        };
        let header = read_header(head);
        if !self.repeats.may_prepare(&header, frame) {
            return Ok(());
        }
        let Some(request) = initial_of(self.alloc, identity, frame)? else {
            return Ok(());
        };
        if self.repeats.is_grantable(&request) {
            return self.repeats.prepare(rt, &header, frame, &request);
        }
        Ok(())
    }

    /// A request was served, and is answered so.
    pub(crate) fn keep(&self, rt: &impl Wait, frame: &[u8], answer: &[u8]) {
        let peer = self.peer.as_ref();
        self.repeats.keep(rt, self.alloc, peer, frame, answer);
    }

    /// Writes the answers that are gathered, and lets their messages leave.
    pub(crate) fn flush(&mut self, rt: &impl Wait) -> Result<(), LinkEnd> {
        if !self.outgoing.flush(rt) {
            return Err(LinkEnd::WriteFailed);
        }
        for message in self.left..self.answered {
            self.left = message.saturating_add(1);
            if !self.gate.leave(self.number, message) {
                return Err(LinkEnd::Gate);
            }
        }
        Ok(())
    }

    /// A host exchanged capabilities on this connection, and is reached by it from now on.
    pub(crate) fn register(
        &mut self,
        rt: &impl Wait,
        host: DiameterIdentity,
    ) -> Result<(), AllocError> {
        self.peer = Some(host.try_copy()?);
        self.gateways.register(rt, host, self.number, self.half)
    }

    /// A host's request came by this connection: it is reached by it from now on.
    pub(crate) fn follow(&self, rt: &impl Wait, host: DiameterIdentity) -> Result<(), AllocError> {
        self.gateways.follow(rt, host, self.number, self.half)
    }

    /// The connection is over: its gateway is reached by it no more, and it is closed.
    pub(crate) fn close(&self, rt: &impl Wait) {
        self.half.close(rt);
        self.gateways.take_ended_out(rt);
    }
}
