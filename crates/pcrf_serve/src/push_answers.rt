//! What gateways answer to re-authorisation requests.
use crate::observer::Observer;
use dia_base::codes::GX;
use dia_codec::{read_header, read_message};
use gx_profile::{Raa, read_raa};
use std::alloc::Global;

/// The command Re-Auth (RFC 6733, 8.3).
const RE_AUTH: u32 = 258;

/// The first of the codes of success (RFC 6733, 7.1.2), and the first code behind them.
const SUCCESSES: (u32, u32) = (2000, 3000);

/// Whether a code is one of success.
fn is_success(code: u32) -> bool {
    SUCCESSES.0 <= code && code < SUCCESSES.1
}

/// The re-authorisation answer that a frame is, if it can be read, with its Hop-by-Hop Identifier.
fn read_push_answer(alloc: Global, frame: &[u8]) -> Option<(u32, Raa)> {
    let header = read_header(frame.first_chunk()?);
    if header.flags.request || header.command != RE_AUTH || header.application != GX {
        return None;
    }
    let message = read_message(alloc, frame).ok()?;
    let answer = read_raa(alloc, &message).ok()?;
    Some((header.hop_id, answer))
}

/// Tells an observer of a re-authorisation answer, whether it is one of success. An answer that can't be read is passed over, also for want
/// of memory.
pub(crate) fn tell_push_answer<O: Observer>(alloc: Global, observer: &O, frame: &[u8]) {
    let Some((hop_id, answer)) = read_push_answer(alloc, frame) else {
        return;
    };
    let code = answer.result.or(answer.experimental);
    if code.is_some_and(is_success) {
        observer.push_accepted(&answer.session);
    } else {
        observer.push_refused(hop_id, &answer.session, code);
    }
}
