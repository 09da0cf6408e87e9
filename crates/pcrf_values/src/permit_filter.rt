//! Filters that permit.
ghost use Rattle.std.specs.Prelude.{◌≡◌, true, false, IfOk, IfSome, IfNone};
ghost use Rattle.std.specs.List.{list_all};
ghost use Rattle.pcrf_values.specs.Filters.{begins_as_filter, filter_of, is_filter, is_printable};

use crate::limits::{FILTER_LIMIT, FILTERS_LIMIT};
use crate::lists::{BoundedList, Filters};
use crate::order::Ranked;
use crate::text::{FilterText, Text};
use std::alloc::{AllocError, Global};
use std::fmt::{self, Debug, Formatter, Write};
use std::marker::Model;

/// An IPFilterRule (RFC 6733, 4.3.1) that permits, in one direction, which contracts see as its text. What it says behind
/// the direction isn't looked at, but that its bytes are printable.
#[derive(Drop, PartialEq, Eq, PartialOrd, Ord)]
pub struct PermitFilter {
    text: FilterText,
}

/// One or two filters that permit, in the order given.
pub type PermitFilters = BoundedList<PermitFilter, FILTERS_LIMIT>;

impl Debug for PermitFilter {
    fn fmt<W: Write>(&self, f: &mut Formatter<W>) -> fmt::Result {
        write!(f, "\"{}\"", self.text.as_slice().escape_ascii())
    }
}

impl Model for PermitFilter {
    ghost use Rattle.std.specs.Prelude.{◌≡◌, ℕ, List, true};
    ghost use Rattle.pcrf_values.specs.Filters.{is_filter};

    ghost Value = { List ℕ };

    ghost view = { λ f. f.text };

    ghost inverse = { λ bytes. record { text = bytes } };

    ghost invariant = { λ f. is_filter f.text ≡ true };
}

/// Whether a byte is a space or a printable character of ASCII.
fn is_printable(byte: u8) -> bool
    ensures { result ≡ is_printable byte }
{
    (b' '..=b'~').contains(&byte)
}

/// Whether bytes begin with the action and the direction of a filter.
fn begins_as_filter(bytes: &[u8]) -> bool
    ensures { result ≡ begins_as_filter bytes.now }
{
    bytes.starts_with(b"permit in ") || bytes.starts_with(b"permit out ")
}

/// Whether all bytes are printable.
fn are_printable(bytes: &[u8]) -> bool
    ensures { result ≡ list_all is_printable bytes.now }
{
    bytes.iter().all(|&byte| is_printable(byte))
}

/// Whether bytes are a filter.
fn is_filter(bytes: &[u8]) -> bool
    ensures { result ≡ is_filter bytes.now }
{
    bytes.len() <= FILTER_LIMIT && begins_as_filter(bytes) && are_printable(bytes)
}

impl PermitFilter {
    /// The filter of a copy of these bytes; `None` where they are no filter.
    pub fn read(alloc: Global, bytes: &[u8]) -> Result<Option<PermitFilter>, AllocError>
        ensures { IfOk result (λ filter. filter ≡ filter_of bytes.now) }
    {
        if !is_filter(bytes) {
            return Ok(None);
        }
        let Some(text) = FilterText::read(alloc, bytes)? else {
            unreachable!()
        };
        Ok(Some(PermitFilter { text }))
    }

    /// The filter of this text; `None` where it is none.
    pub fn of(text: Text) -> Option<PermitFilter>
        ensures text { IfSome result (λ filter. filter ≡ text) }
        ensures filter { IfSome result (λ _. is_filter text ≡ true) }
        ensures none { IfNone result (is_filter text ≡ false) }
    {
        if !is_filter(text.as_slice()) {
            return None;
        }
        let Some(text) = FilterText::from_text(text) else {
            unreachable!()
        };
        Some(PermitFilter { text })
    }

    /// The text.
    pub fn text(&self) -> &FilterText
        ensures text { result.now ≡ self.now }
        ensures filter { is_filter self.now ≡ true }
    {
        &self.text
    }
}

/// The texts of filters.
pub fn texts_of(alloc: Global, given: &PermitFilters) -> Result<Filters, AllocError>
    ensures { IfOk result (λ texts. texts ≡ given.now) }
{
    let mut texts = Vec::new(alloc);
    for filter in given.as_slice() {
        texts.push(filter.text().try_copy()?)?;
    }
    let Some(filters) = Filters::of(texts) else {
        unreachable!()
    };
    Ok(filters)
}

impl Ranked for PermitFilter {
    ghost use Rattle.pcrf_values.specs.laws.Exact.{nat_same, list_same};

    ghost same = { list_same nat_same };

    fn try_copy(&self) -> Result<PermitFilter, AllocError> {
        Ok(PermitFilter {
            text: self.text.try_copy()?,
        })
    }
}
