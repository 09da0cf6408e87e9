//! Whether an initial request is refused for what it says, which is known before a site is asked.
ghost use Rattle.std.specs.Prelude.{◌≡◌};
ghost use Rattle.gx_profile.specs.Requests.{ccr_view};
ghost use Rattle.pcrf_model.specs.Refusals.{names_no_row};
ghost use Rattle.pcrf_serve.specs.Granting.{is_grantable};

use dia_base::Identity;
use dia_codec::HEADER_BYTES;
use gx_profile::{Ccr, RequestKind};
use op_tables::Tables;
use pcrf_values::Apn;
use site_core::{Asked, read_request_at};
use site_lock::Request;
use std::alloc::{AllocError, Global};

/// An access point without a row is named.
fn names_no_row(tables: &Tables, apn: &Option<Apn>) -> bool
    ensures { result ≡ names_no_row tables.now apn.now }
{
    match apn {
        Some(name) => tables.apn(name).is_none(),
        None => false,
    }
}

/// Whether an initial request isn't refused for what it says: a site with these tables grants it, unless its session has ended there, or
/// the site has no counter left (`ccr_refusal`).
pub fn is_grantable(tables: &Tables, request: &Ccr) -> bool
    ensures { result ≡ is_grantable tables.now (ccr_view request.now) }
{
    let gives_no_address = request.address.is_none() && request.prefix.is_none();
    let lacks = gives_no_address || request.apn.is_none() || request.subscribers.is_none();
    !(lacks || names_no_row(tables, &request.apn))
}

/// The initial request of a gateway's session that is asked to be served, if one is.
fn initial_in(asked: Asked) -> Option<Ccr> {
    let Asked::Request(_, Request::Ccr(ccr)) = asked else {
        return None;
    };
    if ccr.kind == RequestKind::Initial {
        Some(ccr)
    } else {
        None
    }
}

/// The initial request of a gateway's session that a frame asks to serve, at the node of this identity, if it asks for one.
pub(crate) fn initial_of(
    alloc: Global,
    identity: &Identity,
    frame: &[u8],
) -> Result<Option<Ccr>, AllocError> {
    if frame.len() < HEADER_BYTES {
        return Ok(None);
    }
    let asked = read_request_at(alloc, identity, frame)?;
    Ok(initial_in(asked))
}
