//! Re-authorisation requests that went out, kept for a while, so that an operator can be told which rules one was about that a gateway
//! refused.
use crate::avps::first_avp;
use crate::message::{MessageKey, RecentMessage};
use crate::messages::RecentMessages;
use crate::printable::Printable;
use dia_codec::{HEADER_BYTES, read_header};
use pcrf_values::HashSeed;
use std::alloc::{AllocError, Global};
use std::fmt::Write;
use std::sync::{Mutex, Wait};

/// How much room they have: 4 MiB.
const ROOM: u32 = 1 << 22;

/// The command Re-Auth (RFC 6733, 8.3).
const RE_AUTH: u32 = 258;

/// The AVPs that tell a gateway of rules (TS 29.212, 5.3.2 to 5.3.6).
const CHARGING_RULE_INSTALL: u32 = 1001;

const CHARGING_RULE_REMOVE: u32 = 1002;

const CHARGING_RULE_DEFINITION: u32 = 1003;

const CHARGING_RULE_NAME: u32 = 1005;

/// The time from which all are kept: they go by room alone.
const EVER: u64 = 1;

/// Requests that went out.
#[derive(Drop)]
pub struct SentPushes {
    alloc: Global,
    kept: Mutex<RecentMessages>,
}

/// Writes a name behind others.
fn put_name(out: &mut String, name: &[u8]) -> Result<(), AllocError> {
    if !out.is_empty() {
        out.push_str(", ")?;
    }
    write!(out, "{}", Printable(name))
}

/// Writes the name of a rule that is defined.
fn put_defined(out: &mut String, definition: &[u8]) -> Result<(), AllocError> {
    let mut rest = definition;
    for _ in 0..definition.len() {
        let Some(avp) = first_avp(rest) else {
            break;
        };
        if avp.has_vendor && avp.code == CHARGING_RULE_NAME {
            put_name(out, avp.value)?;
        }
        rest = avp.rest;
    }
    Ok(())
}

/// Writes the names of rules that are installed or removed.
fn put_changed(out: &mut String, change: &[u8]) -> Result<(), AllocError> {
    let mut rest = change;
    for _ in 0..change.len() {
        let Some(avp) = first_avp(rest) else {
            break;
        };
        match avp.code {
            CHARGING_RULE_NAME => put_name(out, avp.value)?,
            CHARGING_RULE_DEFINITION => put_defined(out, avp.value)?,
            _ => {}
        }
        rest = avp.rest;
    }
    Ok(())
}

/// The names of the rules that a request tells of.
fn names_in(alloc: Global, request: &[u8]) -> Result<String, AllocError> {
    let mut names = String::new(alloc);
    let mut rest = request.get(HEADER_BYTES..).unwrap_or(&[]);
    for _ in 0..request.len() {
        let Some(avp) = first_avp(rest) else {
            break;
        };
        match avp.code {
            CHARGING_RULE_INSTALL | CHARGING_RULE_REMOVE => put_changed(&mut names, avp.value)?,
            _ => {}
        }
        rest = avp.rest;
    }
    Ok(names)
}

/// What the request of a Hop-by-Hop Identifier is found by: the site gives each of its requests another one.
fn key_of(alloc: Global, hop_id: u32) -> MessageKey {
    MessageKey {
        command: RE_AUTH,
        number: hop_id,
        session: Vec::new(alloc),
        host: Vec::new(alloc),
        peer: Vec::new(alloc),
    }
}

/// A message as it is kept, if it is a re-authorisation request.
fn kept_push(alloc: Global, message: &[u8]) -> Option<RecentMessage> {
    let header = read_header(message.first_chunk()?);
    if !header.flags.request || header.command != RE_AUTH {
        return None;
    }
    let bytes = Vec::from_slice(alloc, message).ok()?;
    RecentMessage::of(key_of(alloc, header.hop_id), EVER, bytes)
}

impl SentPushes {
    /// None yet. No peer chooses what they are found by, so anybody may know what hashes begin with.
    pub fn start(alloc: Global) -> SentPushes {
        let seed = HashSeed::of(0);
        SentPushes {
            alloc,
            kept: Mutex::new(RecentMessages::with_room(alloc, ROOM, seed)),
        }
    }

    /// A message goes out. It is kept if it is a re-authorisation request.
    pub fn keep(&self, rt: &impl Wait, message: &[u8]) {
        if let Some(push) = kept_push(self.alloc, message) {
            let _ = self.kept.lock(rt).keep(push);
        }
    }

    /// The names of the rules that the request of a Hop-by-Hop Identifier told of, if it is kept still.
    pub fn names(&self, rt: &impl Wait, hop_id: u32) -> Option<String> {
        let kept = self.kept.lock(rt);
        let request = kept.find(&key_of(self.alloc, hop_id), 0)?;
        names_in(self.alloc, request).ok()
    }
}
