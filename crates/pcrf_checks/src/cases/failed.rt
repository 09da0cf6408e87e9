//! Refused requests and what their answers say of it: `failed CODE HEX` prints, of a request whose answer has that code, the Failed-AVP as
//! bytes, or `none` (RFC 6733, 7.1.5 and 7.5); before it `unsupported` where an AVP of the request has M and isn't recognized, and
//! `ill-formed` where it has one Session-Id alone which isn't UTF-8.
use crate::fault::Fault;
use dia_codec::{HEADER_BYTES, Header, OwnedAvp, read_group, read_header, write_group};
use pcrf_world::words::{Further, bytes, number, two};
use site_core::{failed_avp, has_ill_formed_session, has_unsupported};
use std::alloc::Global;
use std::fmt::Write as _;

/// Adds what is said of AVPs, if these bytes are cut into some.
fn put_judged(alloc: Global, header: &Header, avps: &[u8], out: &mut String) -> Result<(), Fault> {
    let Ok(avps) = read_group(alloc, avps) else {
        return Ok(());
    };
    if has_unsupported(alloc, header, avps.as_slice())? {
        out.push_str("unsupported ")?;
    }
    if has_ill_formed_session(header, avps.as_slice()) {
        out.push_str("ill-formed ")?;
    }
    Ok(())
}

/// Adds an AVP as bytes.
fn put_avp(alloc: Global, avp: Option<OwnedAvp>, out: &mut String) -> Result<(), Fault> {
    let Some(avp) = avp else {
        return Ok(out.push_str("none\n")?);
    };
    let Ok(bytes) = write_group(alloc, &[avp.as_avp()]) else {
        return Err(Fault::NoMemory);
    };
    let digits = hex::encode(alloc, bytes.as_slice())?;
    Ok(writeln!(out, "{digits}")?)
}

/// Adds what is said of a request.
pub fn put_failed(alloc: Global, further: Further<'_>, out: &mut String) -> Result<(), Fault> {
    let (code, digits) = two(further)?;
    let frame = bytes(alloc, digits)?;
    let Ok(code) = u32::try_from(number(code)?) else {
        return Err(Fault::NoValue);
    };
    if frame.len() < HEADER_BYTES {
        return Err(Fault::NoValue);
    }
    let Some((head, avps)) = frame.as_slice().split_first_chunk::<HEADER_BYTES>() else {
        return Err(Fault::NoValue);
    };
    let header = read_header(head);
    put_judged(alloc, &header, avps, out)?;
    put_avp(
        alloc,
        failed_avp(alloc, &header, code, frame.as_slice())?,
        out,
    )
}
