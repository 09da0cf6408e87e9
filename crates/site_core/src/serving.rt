//! Whoever serves requests.
ghost use Rattle.std.specs.Prelude.{◌≡◌, IfOk, IfErr, OnErr};
ghost use Rattle.dia_base.specs.declared.identity.Identity.{Identity as IdentityValue};
ghost use Rattle.pcrf_model.specs.Replies.{ReplyValue};
ghost use Rattle.pcrf_model.specs.Requests.{RequestValue};
ghost use Rattle.site_core.specs.Frames.{NeverFull, SiteReplies};
ghost use Rattle.site_machine.specs.Values.{reply_value, request_value};

use dia_base::Identity;
use site_machine::{Reply, Request, Site};

/// Why a request was not served.
#[derive(Clone, Copy, Debug, PartialEq, Eq)]
pub enum ServeFault {
    /// There is no room for a further request.
    Full,
    /// Memory ran out.
    NoMemory,
}

/// Whoever serves the requests of a connection: a site, or what stands before one. It says which replies a request may get.
pub trait Serve {
    /// The names that it answers under.
    ghost names: { Self → IdentityValue };

    /// A request may get this reply, which leaves the last value.
    ghost may_reply: { Self → RequestValue → ReplyValue → Self → Type 0 };

    /// It has no room for a request.
    ghost is_full: { Self → Type 0 };

    /// The names that it answers under.
    fn identity(&self) -> &Identity
        ensures { result.now ≡ names self.now };

    /// Serves a request, and gives it back with the reply. An error changes nothing.
    fn serve(&mut self, request: Request) -> (Request, Result<Reply, ServeFault>)
        ensures given_back { request_value result.0 ≡ request_value request }
        ensures replied { IfOk result.1 (λ reply. may_reply self.old
            (request_value request) (reply_value reply) self.new) }
        ensures full { IfErr result.1 (λ fault. fault ≡ ServeFault.Full → is_full self.old) }
        ensures unchanged { OnErr result.1 (self.new ≡ self.old) };
}

impl Serve for Site {
    ghost names = { λ s. s.identity };

    ghost may_reply = { SiteReplies };

    ghost is_full = { NeverFull };

    fn identity(&self) -> &Identity {
        self.identity()
    }

    fn serve(&mut self, request: Request) -> (Request, Result<Reply, ServeFault>) {
        match self.serve(&request) {
            Ok(reply) => (request, Ok(reply)),
            Err(_) => (request, Err(ServeFault::NoMemory)),
        }
    }
}
