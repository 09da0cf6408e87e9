//! Who is told what an operator may want to know of a server's connections.
use crate::end::LinkEnd;
use dia_base::Origin;
use pcrf_values::{DiameterIdentity, GxSid};

/// Is told what happens at connections, and changes nothing of it: each method does nothing unless it is written. Workers call
/// it side by side, with no lock held, and a connection goes on only when the call has returned.
pub trait Observer {
    /// A peer's capabilities exchange is answered by that Result-Code: 2001 if it was accepted (RFC 6733, 5.3 and 7.1). The
    /// connection goes by the number of its seat, and its answer isn't written yet.
    fn exchanged(&self, _connection: usize, _peer: &Origin, _code: u32) {}

    /// A gateway answered the re-authorisation request of that Hop-by-Hop Identifier and that session, and not by a code of success,
    /// which is from 2000 to 2999 (RFC 6733, 7.1.2): the Result-Code or else the Experimental-Result-Code, if there is one.
    fn push_refused(&self, _hop_id: u32, _session: &GxSid, _code: Option<u32>) {}

    /// A gateway answered a re-authorisation request of that session by a code of success.
    fn push_accepted(&self, _session: &GxSid) {}

    /// A re-authorisation request could not be written to that host, which is reached no more.
    fn unreached(&self, _host: &DiameterIdentity) {}

    /// A worker made an entry of the site's history, which has so many by then, or more. The numbers that different workers
    /// tell can come in any order.
    fn entered(&self, _entries: usize) {}

    /// A request or a push found no room in the history. It is told again each time.
    fn history_full(&self) {}

    /// A connection that was served ended so. It goes by the number of its seat.
    fn ended(&self, _connection: usize, _end: LinkEnd) {}
}

/// Tells nobody.
#[derive(Clone, Copy, Debug)]
pub struct Unobserved;

impl Observer for Unobserved {}
