//! Figures in the text format of Prometheus, version 0.0.4.
ghost use Rattle.std.specs.Prelude.{◌≡◌, ◌++◌, OnOk};
ghost use Rattle.site_status.specs.Exposition.{escaped, escaped_byte, label_text, others_text, labels_text, number_text, kind_text, heading_text, sample_text, figure_text};

use itoa::Buffer;
use std::alloc::{AllocError, Global};

/// What kind of figure one is.
#[derive(Clone, Copy, Debug, PartialEq, Eq)]
pub enum Kind {
    /// It only grows, from 0 at the start.
    Counter,
    /// It goes up and down.
    Gauge,
    /// How often each of some ranges was met.
    Histogram,
}

/// A figure that there is, whatever it says.
#[derive(Clone, Copy)]
pub struct Family<'a> {
    /// Its name, which has the unit in it and ends in `_total` where it only grows.
    pub name: &'a str,
    /// What it says, on one line.
    pub help: &'a str,
    pub kind: Kind,
}

/// What tells a sample of a figure from the others.
#[derive(Clone, Copy)]
pub struct Label<'a> {
    pub name: &'a str,
    pub value: &'a [u8],
}

/// What a sample says.
#[derive(Clone, Copy, Debug, PartialEq, Eq)]
pub enum Number {
    /// So many.
    Whole(u64),
    /// So many nanoseconds, said in seconds.
    Nanos(u64),
}

/// How many nanoseconds a second has.
pub const NANOS: u64 = 1_000_000_000;

/// Writes a byte of a label's value: a backslash, a quote and a line feed stand behind a backslash, the last as an `n`.
fn put_escaped_byte(out: &mut Vec<u8>, byte: u8) -> Result<(), AllocError>
    ensures { OnOk result (out.new.items ≡ out.old.items ++ escaped_byte byte) }
{
    match byte {
        b'\\' => out.extend_from_slice(b"\\\\"),
        b'"' => out.extend_from_slice(b"\\\""),
        b'\n' => out.extend_from_slice(b"\\n"),
        other => out.extend_from_slice(&[other]),
    }
}

/// Writes a label's value.
fn put_escaped(out: &mut Vec<u8>, value: &[u8]) -> Result<(), AllocError>
    ensures { OnOk result (out.new.items ≡ out.old.items ++ escaped value.now) }
{
    for byte in value {
        put_escaped_byte(out, *byte)?;
    }
    Ok(())
}

/// Writes a label.
fn put_label(out: &mut Vec<u8>, label: &Label<'_>) -> Result<(), AllocError>
    ensures { OnOk result (out.new.items ≡ out.old.items ++ label_text label.now) }
{
    out.extend_from_slice(label.name.as_bytes())?;
    out.extend_from_slice(b"=\"")?;
    put_escaped(out, label.value)?;
    out.push(b'"')?;
    Ok(())
}

/// Writes labels, each behind a comma.
fn put_others(out: &mut Vec<u8>, others: &[Label<'_>]) -> Result<(), AllocError>
    ensures { OnOk result (out.new.items ≡ out.old.items ++ others_text others.now) }
{
    for label in others {
        out.push(b',')?;
        put_label(out, label)?;
    }
    Ok(())
}

/// Writes labels in braces, and nothing where there are none.
fn put_labels(out: &mut Vec<u8>, labels: &[Label<'_>]) -> Result<(), AllocError>
    ensures { OnOk result (out.new.items ≡ out.old.items ++ labels_text labels.now) }
{
    let Some((first, others)) = labels.split_first() else {
        return Ok(());
    };
    out.push(b'{')?;
    put_label(out, first)?;
    put_others(out, others)?;
    out.push(b'}')?;
    Ok(())
}

/// Writes a number.
pub(crate) fn put_number(out: &mut Vec<u8>, number: Number) -> Result<(), AllocError>
    ensures { OnOk result (out.new.items ≡ out.old.items ++ number_text number) }
{
    let mut buffer = Buffer::new();
    match number {
        Number::Whole(count) => out.extend_from_slice(buffer.format(count).as_bytes())?,
        Number::Nanos(nanos) => {
            out.extend_from_slice(buffer.format(nanos / NANOS).as_bytes())?;
            out.push(b'.')?;
            let digits = buffer.format(NANOS + nanos % NANOS).as_bytes();
            out.extend_from_slice(digits.get(1..).unwrap_or(&[]))?;
        }
    }
    Ok(())
}

/// What the format calls a kind.
fn kind_word(kind: Kind) -> &'static [u8]
    ensures { result.now ≡ kind_text kind }
{
    match kind {
        Kind::Counter => b"counter",
        Kind::Gauge => b"gauge",
        Kind::Histogram => b"histogram",
    }
}

/// Figures, written one behind the other.
#[derive(Drop)]
pub struct Exposition {
    pub(crate) text: Vec<u8>,
}

impl Exposition {
    /// Nothing is written.
    pub fn start(alloc: Global) -> Exposition {
        Exposition {
            text: Vec::new(alloc),
        }
    }

    /// Its text.
    pub fn text(&self) -> &[u8]
        ensures { result.now ≡ self.now.text.items }
    {
        self.text.as_slice()
    }

    /// What a figure is, which stands before its samples.
    pub fn heading(&mut self, family: &Family<'_>) -> Result<(), AllocError>
        ensures { OnOk result
            (self.new.text.items ≡ self.old.text.items ++ heading_text family.now) }
    {
        let out = &mut self.text;
        out.extend_from_slice(b"# HELP ")?;
        out.extend_from_slice(family.name.as_bytes())?;
        out.push(b' ')?;
        out.extend_from_slice(family.help.as_bytes())?;
        out.extend_from_slice(b"\n# TYPE ")?;
        out.extend_from_slice(family.name.as_bytes())?;
        out.push(b' ')?;
        out.extend_from_slice(kind_word(family.kind))?;
        out.push(b'\n')?;
        Ok(())
    }

    /// A sample of a figure.
    pub fn sample(
        &mut self,
        name: &str,
        suffix: &str,
        labels: &[Label<'_>],
        number: Number,
    ) -> Result<(), AllocError>
        ensures { OnOk result (self.new.text.items ≡ self.old.text.items
            ++ sample_text name.now suffix.now labels.now number) }
    {
        let out = &mut self.text;
        out.extend_from_slice(name.as_bytes())?;
        out.extend_from_slice(suffix.as_bytes())?;
        put_labels(out, labels)?;
        out.push(b' ')?;
        put_number(out, number)?;
        out.push(b'\n')?;
        Ok(())
    }
    /// A figure of one sample.
    pub fn figure(&mut self, family: &Family<'_>, number: Number) -> Result<(), AllocError>
        ensures { OnOk result
            (self.new.text.items ≡ self.old.text.items ++ figure_text family.now number) }
    {
        self.heading(family)?;
        self.sample(family.name, "", &[], number)?;
        Ok(())
    }
}
