//! What a site is asked to serve.
ghost use Rattle.std.specs.Prelude.{◌≡◌, ◌↔◌, IfOk, IsTrue};
ghost use Rattle.site_machine.specs.Values.{request_value};

use dia_base::BaseRequest;
use gx_profile::Ccr;
use rx_profile::{Aar, Str};
use std::alloc::AllocError;

/// A request as it was read.
#[derive(Debug, Drop)]
pub enum Request {
    /// A credit control request of a gateway.
    Ccr(Ccr),
    /// An AA request of an application function.
    Aar(Aar),
    /// A session termination request of an application function.
    Str(Str),
    /// A request of the base protocol.
    Base(BaseRequest),
}

impl Request {
    /// An equal request.
    pub fn try_copy(&self) -> Result<Request, AllocError>
        ensures { IfOk result (λ copy. request_value copy ≡ request_value self.now) }
    {
        match self {
            Request::Ccr(ccr) => Ok(Request::Ccr(ccr.try_copy()?)),
            Request::Aar(aar) => Ok(Request::Aar(aar.try_copy()?)),
            Request::Str(call) => Ok(Request::Str(call.try_copy()?)),
            Request::Base(base) => Ok(Request::Base(base.try_copy()?)),
        }
    }

    /// Both ask for the same.
    pub fn equal(&self, other: &Request) -> bool
        ensures { IsTrue result ↔ (request_value self.now ≡ request_value other.now) }
    {
        match (self, other) {
            (Request::Ccr(ours), Request::Ccr(theirs)) => ours.equal(theirs),
            (Request::Aar(ours), Request::Aar(theirs)) => ours.equal(theirs),
            (Request::Str(ours), Request::Str(theirs)) => ours.equal(theirs),
            (Request::Base(ours), Request::Base(theirs)) => ours.equal(theirs),
            _ => false,
        }
    }
}
