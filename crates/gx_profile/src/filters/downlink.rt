//! Filters as gateways take them.
ghost use Rattle.std.specs.Prelude.{◌≡◌, ◌++◌, IfOk, OnOk};
ghost use Rattle.gx_profile.specs.Downlinks.{as_downlink, exchanged};
ghost use Rattle.gx_profile.specs.Filters.{spelled};
ghost use Rattle.gx_profile.specs.Texts.{endpoint_text, options_text};
ghost use Rattle.gx_profile.specs.Views.{endpoint_view, parts_view, rest_view};

use crate::filters::direction::Direction;
use crate::filters::parts::{Endpoint, Parts};
use crate::filters::reading::parts_of;
use std::alloc::{AllocError, Global};

/// Writes an address, and the ports where they are given.
fn put_endpoint(out: &mut Vec<u8>, end: &Endpoint<'_>) -> Result<(), AllocError>
    ensures { OnOk result (out.new.items ≡ out.old.items ++ endpoint_text (endpoint_view end.now)) }
{
    out.extend_from_slice(end.address)?;
    let Some(ports) = end.ports else {
        return Ok(());
    };
    out.push(b' ')?;
    out.extend_from_slice(ports)?;
    Ok(())
}

/// Writes options, each behind a space.
fn put_options(out: &mut Vec<u8>, options: Option<&[u8]>) -> Result<(), AllocError>
    ensures { OnOk result (out.new.items
        ≡ out.old.items ++ options_text (rest_view options.entry)) }
{
    let Some(options) = options else {
        return Ok(());
    };
    out.push(b' ')?;
    out.extend_from_slice(options)?;
    Ok(())
}

/// The text of a filter from the terminal with its source and destination exchanged, as one to the terminal.
fn exchanged(alloc: Global, parts: &Parts<'_>) -> Result<Vec<u8>, AllocError>
    requires { parts.now.direction ≡ Direction.Uplink }
    ensures { IfOk result (λ text. text.items ≡ spelled (exchanged (parts_view parts.now))) }
{
    let mut out = Vec::from_slice(alloc, b"permit out ")?;
    out.extend_from_slice(parts.protocol)?;
    out.extend_from_slice(b" from ")?;
    put_endpoint(&mut out, &parts.destination)?;
    out.extend_from_slice(b" to ")?;
    put_endpoint(&mut out, &parts.source)?;
    put_options(&mut out, parts.options)?;
    Ok(out)
}

/// A filter as gateways take it beside its Flow-Direction: `permit in P from A to B` becomes `permit out P from B to A`. What
/// is to the terminal, and what is no filter by RFC 6733, 4.3.1, stays as it is.
#[tactic(auto, unfolding(crate::specs::Downlinks::as_downlink))]
pub fn as_downlink(alloc: Global, filter: &[u8]) -> Result<Vec<u8>, AllocError>
    ensures { IfOk result (λ text. text.items ≡ as_downlink filter.now) }
{
    match parts_of(filter) {
        Some(parts) if parts.direction == Direction::Uplink => exchanged(alloc, &parts),
        _ => Vec::from_slice(alloc, filter),
    }
}
