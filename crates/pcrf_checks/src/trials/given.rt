//! What the trials are given: a machine with memory, and what other programs wrote: operator tables, scripts of worlds, and messages
//! and letters as bytes.
//!
//! The allocations between a line that begins with `# ` and the next line are those of the call that the line names:
//! `.ci/refused-memory` counts them, refuses each in turn, and leaves all others alone. So what a call is made of, and what it is
//! compared with, is made outside. A call that was refused is made again, once, under its line again. A line that can't be written is
//! missed where what is printed is compared.
use crate::makers::{EDITION, new_site, request_of};
use crate::trials::events::session_of;
use op_tables::Tables;
use pcrf_world::words;
use peer_exchange::{Body, read_letter};
use site_core::{Event, Site};
use site_join::State;
use std::alloc::Global;
use std::io::Print;

/// The machine, its memory, the operator tables, lines of a word and bytes each, and scripts of worlds, each from its `sites N` on.
#[derive(Drop)]
pub struct Given<'a, R> {
    pub rt: &'a R,
    pub alloc: Global,
    pub tables: Tables,
    pub lines: String,
    pub scripts: String,
}

/// That a request is served, or what a letter says is taken.
fn event_of(alloc: Global, bytes: &[u8]) -> Option<Event> {
    if let Some(request) = request_of(alloc, bytes).ok()? {
        return Some(Event::Serve(request));
    }
    match read_letter(alloc, bytes, EDITION).ok()?.into_body() {
        Body::Range(range) => Some(Event::Ops(range.operations)),
        Body::Snapshot(snapshot) => Some(Event::Whole(snapshot.state)),
        Body::Acknowledgement(_) => None,
    }
}

impl<R> Given<'_, R> {
    /// The bytes of the line that begins with a word.
    pub fn bytes(&self, word: &str) -> Option<Vec<u8>> {
        for line in self.lines.lines() {
            let (first, digits) = line.split_once(' ').unwrap_or((line, ""));
            if first == word {
                return words::bytes(self.alloc, digits).ok();
            }
        }
        None
    }

    /// What happens by a word: what it says itself, or that of the request or the letter of its line.
    pub fn event(&self, word: &str) -> Option<Event> {
        match word {
            "push" => Some(Event::Push(None)),
            "abort" => Some(Event::Abort(None)),
            "retell" => Some(Event::Retell(session_of(self.alloc, "gw;1;1")?)),
            "whole" => Some(Event::AskWhole),
            "own" | "grown" => Some(Event::AskOwn(0)),
            _ => event_of(self.alloc, self.bytes(word)?.as_slice()),
        }
    }

    /// The state of the letter of a line.
    pub fn state(&self, word: &str) -> Option<State> {
        match self.event(word)? {
            Event::Whole(state) => Some(state),
            _ => None,
        }
    }

    /// A copy of the operator tables.
    pub fn tables(&self) -> Option<Tables> {
        self.tables.try_copy(self.alloc).ok()
    }

    /// A site with the operator tables, which took nothing.
    pub fn site(&self) -> Option<Site> {
        new_site(self.alloc, &self.tables).ok()
    }
}

impl<R: Print> Given<'_, R> {
    /// A call follows, of something.
    pub fn begin(&self, call: &str, what: &str) {
        let _ = println!(self.rt; "# {call}: {what}");
    }

    /// The call gave something, or was refused.
    pub fn end(&self, is_refused: bool) {
        let word = if is_refused { "refused" } else { "done" };
        let _ = println!(self.rt; "{word}");
    }

    /// Tells it where something is otherwise than it has to be, or couldn't be compared.
    pub fn judge(&self, is_well: Option<bool>) {
        if is_well != Some(true) {
            let _ = println!(self.rt; "otherwise");
        }
    }
}
