//! Requests that are repeated.
ghost use Rattle.std.specs.Prelude.{◌≡◌, true};
ghost use Rattle.gx_profile.specs.Requests.{ccr_view};

use dia_codec::Header;
use gx_profile::Ccr;
use pcrf_values::DiameterIdentity;
use std::alloc::{AllocError, Global};
use std::sync::Wait;

/// Whoever keeps answers for requests that are repeated: a peer that lost a connection sends what wasn't answered once more, with the T
/// flag and the same End-to-End Identifier (RFC 6733, 3 and 5.5.4). Workers call it side by side.
pub trait Repeats {
    ghost use Rattle.std.specs.Prelude.{Bool};
    ghost use Rattle.pcrf_model.specs.Requests.{CcrValue};

    // An initial request that isn't refused for what it says.
    ghost is_grantable: { Self → CcrValue → Bool };

    /// The answer to a request with the T flag that was answered before, on a connection of this host; none where it wasn't, or nobody keeps
    /// its answer.
    fn answer_again<R: Wait>(
        &self,
        _rt: &R,
        _alloc: Global,
        _peer: &DiameterIdentity,
        _header: &Header,
        _request: &[u8],
    ) -> Result<Option<Vec<u8>>, AllocError> {
        Ok(None)
    }

    /// Whether something may have to be prepared before a message is answered anew, by what is seen of it at a glance.
    fn may_prepare(&self, _header: &Header, _message: &[u8]) -> bool {
        false
    }

    /// Whether an initial request isn't refused for what it says.
    fn is_grantable(&self, request: &Ccr) -> bool
        ensures { result ≡ is_grantable self.now (ccr_view request.now) };

    /// An initial request that isn't answered again, and isn't refused for what it says, is about to be served, before the site is asked.
    /// Whoever is called here may call the site itself, by a seat of its own.
    fn prepare<R: Wait>(
        &self,
        rt: &R,
        header: &Header,
        message: &[u8],
        request: &Ccr,
    ) -> Result<(), AllocError>
        requires granted { is_grantable self.now (ccr_view request.now) ≡ true };

    /// A request was served, on a connection of this host if it exchanged capabilities, and is answered so.
    fn keep<R: Wait>(
        &self,
        _rt: &R,
        _alloc: Global,
        _peer: Option<&DiameterIdentity>,
        _request: &[u8],
        _answer: &[u8],
    ) {}
}

/// Keeps nothing, and prepares nothing for any request.
#[derive(Clone, Copy, Debug)]
pub struct Unrepeated;

impl Repeats for Unrepeated {
    ghost use Rattle.std.specs.Prelude.{true};

    ghost is_grantable = { λ _ _. true };

    fn is_grantable(&self, _request: &Ccr) -> bool {
        true
    }

    fn prepare<R: Wait>(
        &self,
        _rt: &R,
        _header: &Header,
        _message: &[u8],
        _request: &Ccr,
    ) -> Result<(), AllocError> {
        Ok(())
    }
}
