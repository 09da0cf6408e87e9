//! Answers that are kept for requests which are repeated.
use crate::staying::retelling::Glance;
use dia_codec::{HEADER_BYTES, Header, read_header};
use pcrf_values::{DiameterIdentity, HashSeed};
use std::alloc::{AllocError, Global};
use std::sync::{Mutex, Wait};
use std::time::Clock;
use watched_links::{MessageKey, RecentMessage, RecentMessages, with_hop_id};

/// In how many parts answers are kept, each under a lock of its own, so that no lock is taken by each request.
const PARTS: usize = 16;

/// How much room a part has: 4 MiB, so 64 MiB in all.
const ROOM: u32 = 1 << 22;

/// How many seconds they are kept.
const KEPT_SECONDS: u64 = 240;

/// The application of the base protocol, whose messages make no event that counts (RFC 6733, 2.4).
const BASE: u32 = 0;

/// Answers to requests that were served, each under the request's command, End-to-End Identifier, Session-Id and Origin-Host, and the host
/// of the connection on which it came. An answer stands in the part of its End-to-End Identifier.
#[derive(Drop)]
pub struct RecentAnswers<'r, C> {
    clock: &'r C,
    parts: Vec<Mutex<RecentMessages>>,
}

/// By what the answer to a request is found that came on a connection of this host; none where the request doesn't say it.
fn key_of(
    alloc: Global,
    peer: &DiameterIdentity,
    header: &Header,
    request: &[u8],
) -> Result<Option<MessageKey>, AllocError> {
    let seen = Glance::of(request);
    let (Some(session), Some(host)) = (seen.session, seen.host) else {
        return Ok(None);
    };
    Ok(Some(MessageKey {
        command: header.command,
        number: header.end_id,
        session: Vec::from_slice(alloc, session)?,
        host: Vec::from_slice(alloc, host)?,
        peer: Vec::from_slice(alloc, peer.as_slice())?,
    }))
}

/// An answer, as it is kept.
fn kept_answer(
    alloc: Global,
    at: u64,
    peer: &DiameterIdentity,
    header: &Header,
    request: &[u8],
    answer: &[u8],
) -> Option<RecentMessage> {
    let key = key_of(alloc, peer, header, request).ok()??;
    let bytes = Vec::from_slice(alloc, answer).ok()?;
    RecentMessage::of(key, at, bytes)
}

impl<'r, C: Clock> RecentAnswers<'r, C> {
    /// None yet. Hashes begin with this seed.
    pub fn start(
        alloc: Global,
        clock: &'r C,
        seed: HashSeed,
    ) -> Result<RecentAnswers<'r, C>, AllocError> {
        let mut parts = Vec::with_capacity(alloc, PARTS)?;
        for _ in 0..PARTS {
            parts.push(Mutex::new(RecentMessages::with_room(alloc, ROOM, seed)))?;
        }
        Ok(RecentAnswers { clock, parts })
    }

    /// The time in seconds, from 1.
    fn now(&self) -> Option<u64> {
        let elapsed = self.clock.monotonic().ok()?;
        Some(elapsed.as_secs().saturating_add(1))
    }

    /// The part in which the answer to a request with that header stands.
    fn part_of(&self, header: &Header) -> Option<&Mutex<RecentMessages>> {
        self.parts.get(header.end_id as usize % PARTS)
    }

    /// The answer to a request that was answered before on a connection of this host, if it is kept.
    pub fn answer_again<R: Wait>(
        &self,
        rt: &R,
        alloc: Global,
        peer: &DiameterIdentity,
        header: &Header,
        request: &[u8],
    ) -> Result<Option<Vec<u8>>, AllocError> {
        let (Some(part), Some(now)) = (self.part_of(header), self.now()) else {
            return Ok(None);
        };
        let Some(key) = key_of(alloc, peer, header, request)? else {
            return Ok(None);
        };
        let kept = part.lock(rt);
        match kept.find(&key, now.saturating_sub(KEPT_SECONDS)) {
            Some(answer) if answer.len() >= HEADER_BYTES => {
                Ok(Some(with_hop_id(alloc, answer, header.hop_id)?))
            }
            _ => Ok(None),
        }
    }

    /// Keeps the answer to a request that came on a connection of this host.
    pub fn keep<R: Wait>(
        &self,
        rt: &R,
        alloc: Global,
        peer: &DiameterIdentity,
        request: &[u8],
        answer: &[u8],
    ) {
        let (Some(head), Some(now)) = (request.first_chunk(), self.now()) else {
            return;
        };
        let header = read_header(head);
        let Some(part) = self.part_of(&header) else {
            return;
        };
        if header.application == BASE {
            return;
        }
        if let Some(message) = kept_answer(alloc, now, peer, &header, request, answer) {
            let _ = part.lock(rt).keep(message);
        }
    }
}
