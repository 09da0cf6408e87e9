//! An observer that notes what it is told.
use dia_base::Origin;
use pcrf_serve::{LinkEnd, Observer};
use pcrf_values::{DiameterIdentity, GxSid};
use std::alloc::{AllocError, Global};
use std::fmt::Write as _;
use std::sync::{Mutex, Wait};

/// What an observer was told: a line each, the most entries of which it was told, and how many connections ended.
#[derive(Drop)]
pub struct Told {
    pub lines: String,
    pub entries: usize,
    pub ended: usize,
}

/// Notes what it is told.
#[derive(Drop)]
pub struct Notes<'a, R> {
    rt: &'a R,
    told: Mutex<Told>,
}

/// Bytes as text.
fn text(bytes: &[u8]) -> &str {
    std::str::from_utf8(bytes).unwrap_or("?")
}

/// Writes words and a code, if there is one, into a line.
fn put_line(lines: &mut String, words: &[&str], code: Option<u32>) -> Result<(), AllocError> {
    for word in words {
        write!(lines, "{word} ")?;
    }
    match code {
        Some(code) => writeln!(lines, "{code}"),
        None => writeln!(lines),
    }
}

impl<'a, R: Wait> Notes<'a, R> {
    /// It was told nothing yet.
    pub fn start(rt: &'a R, alloc: Global) -> Notes<'a, R> {
        let told = Told {
            lines: String::new(alloc),
            entries: 0,
            ended: 0,
        };
        Notes {
            rt,
            told: Mutex::new(told),
        }
    }

    /// A copy of what it was told.
    pub fn told(&self) -> Result<Told, AllocError> {
        let held = self.told.lock(self.rt);
        Ok(Told {
            lines: held.lines.clone()?,
            entries: held.entries,
            ended: held.ended,
        })
    }

    /// Notes a line.
    fn note(&self, words: &[&str], code: Option<u32>) {
        let mut held = self.told.lock(self.rt);
        let told = &mut *held;
        let _is_noted = put_line(&mut told.lines, words, code);
    }
}

impl<R: Wait> Observer for Notes<'_, R> {
    fn exchanged(&self, _connection: usize, peer: &Origin, code: u32) {
        let (host, realm) = (text(peer.host.as_slice()), text(peer.realm.as_slice()));
        self.note(&[host, realm], Some(code));
    }

    fn push_refused(&self, _hop_id: u32, session: &GxSid, code: Option<u32>) {
        self.note(&[text(session.as_slice()), "refused"], code);
    }

    fn unreached(&self, host: &DiameterIdentity) {
        self.note(&[text(host.as_slice()), "unreached"], None);
    }

    fn entered(&self, entries: usize) {
        let mut held = self.told.lock(self.rt);
        let told = &mut *held;
        told.entries = told.entries.max(entries);
    }

    fn history_full(&self) {
        self.note(&["full"], None);
    }

    fn ended(&self, _connection: usize, _end: LinkEnd) {
        let mut held = self.told.lock(self.rt);
        let told = &mut *held;
        told.ended = told.ended.saturating_add(1);
    }
}
