//! What checks of several kinds make: a site, a request, a subscriber, operator tables.
use crate::fault::Fault;
use crate::host::Host;
use dia_codec::HEADER_BYTES;
use op_tables::{Tables, read_tables};
use pcrf_values::{BoundedText, Subscriber, SubscriptionType};
use pcrf_world::{WorldFault, WorldOutcome, identity_of};
use site_core::{Asked, Request, Site, read_request};
use std::alloc::{AllocError, Global};

/// The edition of the operator tables, and of who writes letters.
pub const EDITION: u32 = 7;

/// The file of the operator tables of what names none.
pub const TABLES: &str = "telephony.toml";

/// What an event of a world gave.
pub type Answer = Result<WorldOutcome, WorldFault>;

/// The operator tables of a file.
pub fn tables_of(rt: &impl Host, file: &str) -> Result<Tables, Fault> {
    let text = rt.text_of(file)?;
    Ok(read_tables(rt.alloc(), text.as_str())?)
}

/// Site 0 with operator tables, which took nothing.
pub fn new_site(alloc: Global, tables: &Tables) -> Result<Site, AllocError> {
    let tables = tables.try_copy(alloc)?;
    Ok(Site::start(alloc, tables, identity_of(alloc, 0)?, 0))
}

/// The request that a frame asks to serve, if it does.
pub fn request_of(alloc: Global, frame: &[u8]) -> Result<Option<Request>, AllocError> {
    if frame.len() < HEADER_BYTES {
        return Ok(None);
    }
    match read_request(alloc, frame)? {
        Asked::Request(_, request) => Ok(Some(request)),
        _ => Ok(None),
    }
}

/// The subscriber of a type and a name, if the name is one.
pub fn subscriber_of(
    alloc: Global,
    kind: SubscriptionType,
    name: &str,
) -> Result<Option<Subscriber>, AllocError> {
    let name = BoundedText::read(alloc, name.as_bytes())?;
    Ok(name.map(|name| Subscriber::of(kind, name)))
}
