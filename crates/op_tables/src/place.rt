//! Where a fault stands.
ghost use Rattle.std.specs.Prelude.{◌≡◌, is_none};
ghost use Rattle.op_tables.specs.Keys.{key_text};
ghost use Rattle.op_tables.specs.Placing.{key_step, row_step};

use std::fmt::{self, Display, Formatter, Write};

/// A key of operator tables.
#[derive(Clone, Copy, Debug, PartialEq, Eq)]
pub enum TableKey {
    Edition,
    RtcpBps,
    Signalling,
    Media,
    Apn,
    MediaType,
    Name,
    Default,
    Rule,
    Qci,
    Priority,
    Capability,
    Vulnerability,
    MaxUl,
    MaxDl,
    Precedence,
    AmbrUl,
    AmbrDl,
    Status,
    Filters,
}

impl TableKey {
    /// The key as it stands in a document.
    pub fn text(self) -> &'static str
        ensures { result.now ≡ key_text self }
    {
        match self {
            TableKey::Edition => "edition",
            TableKey::RtcpBps => "rtcp_bps",
            TableKey::Signalling => "signalling",
            TableKey::Media => "media",
            TableKey::Apn => "apn",
            TableKey::MediaType => "type",
            TableKey::Name => "name",
            TableKey::Default => "default",
            TableKey::Rule => "rule",
            TableKey::Qci => "qci",
            TableKey::Priority => "priority",
            TableKey::Capability => "capability",
            TableKey::Vulnerability => "vulnerability",
            TableKey::MaxUl => "max_ul",
            TableKey::MaxDl => "max_dl",
            TableKey::Precedence => "precedence",
            TableKey::AmbrUl => "ambr_ul",
            TableKey::AmbrDl => "ambr_dl",
            TableKey::Status => "status",
            TableKey::Filters => "filters",
        }
    }
}

/// A step of the way to a place: to what stands at a key, or to one row of the array that stands there.
#[derive(Clone, Copy, Debug, PartialEq, Eq)]
pub struct Step {
    /// The key.
    pub key: TableKey,
    /// Which row, from 1.
    pub row: Option<usize>,
}

impl Step {
    /// To what stands at a key.
    pub(crate) fn key(key: TableKey) -> Step
        ensures { result ≡ key_step key }
    {
        Step { key, row: None }
    }

    /// To a row of the array at a key, counted from 1.
    pub(crate) fn row(key: TableKey, number: usize) -> Step
        ensures { result ≡ row_step key number }
    {
        Step {
            key,
            row: Some(number),
        }
    }
}

impl Display for Step {
    fn fmt<W: Write>(&self, f: &mut Formatter<W>) -> fmt::Result {
        f.write_str(self.key.text())?;
        match self.row {
            Some(number) => write!(f, " {number}"),
            None => Ok(()),
        }
    }
}

/// A place of a document: the steps to it, the outermost first. The document as a whole is no step away.
#[derive(Clone, Copy, Debug, PartialEq, Eq)]
pub struct Place {
    /// From the document.
    pub outer: Option<Step>,
    /// From what stands there.
    pub middle: Option<Step>,
    /// And from there.
    pub inner: Option<Step>,
}

impl Place {
    /// Whether it is the document as a whole.
    pub fn is_whole(&self) -> bool
        ensures { result ≡ is_none self.now.outer }
    {
        self.outer.is_none()
    }
}

/// Writes a step behind others.
fn put_further<W: Write>(step: Option<Step>, f: &mut Formatter<W>) -> fmt::Result {
    match step {
        Some(step) => write!(f, ", {step}"),
        None => Ok(()),
    }
}

impl Display for Place {
    /// As an operator reads it: `apn 2, rule 1, qci`. The document as a whole is nothing.
    fn fmt<W: Write>(&self, f: &mut Formatter<W>) -> fmt::Result {
        if let Some(step) = self.outer {
            write!(f, "{step}")?;
        }
        put_further(self.middle, f)?;
        put_further(self.inner, f)
    }
}
