//! Peers that are dialed.
use crate::exchanging::letters::*;
use crate::exchanging::peers::{Case, Letters, assert_case, ends, failed_at, gone_behind, told};
use crate::exchanging::wire::WRITE_BYTES;
use pcrf_serve::{LinkEnd, Role};
use peer_exchange::LetterFault;
use std::test::*;

/// A peer that answers so to a site that holds nothing, which is asked once.
fn answered(said: Letters, end: LinkEnd) -> Case {
    told(Role::Dial, said, &[NOTHING], ends(end, 0, 1, 0, 0))
}

/// A peer to which nothing is written.
fn unasked(end: LinkEnd) -> Case {
    told(Role::Dial, &[TOOK_NONE], &[], ends(end, 0, 0, 0, 0))
}

/// A peer that answers so, turn by turn, to a site of two sessions.
fn answered_two(turns: u32, said: Letters, letters: Letters, end: LinkEnd, entries: usize) -> Case {
    let outcome = ends(end, 0, entries, 2, 2);
    Case {
        places: b"12",
        ..told(Role::Dial, said, letters, outcome).turns(turns)
    }
}

/// Exchanges of one letter, or of none.
fn single() -> [Case; 11] {
    [
        answered(&[TOOK_NONE], LinkEnd::Closed),
        answered(&[], LinkEnd::Closed),
        answered(&[RANGE], LinkEnd::Letter(LetterFault::BadShape)),
        answered(&[ONE], LinkEnd::Letter(LetterFault::BadShape)),
        answered(&[OTHER_VERSION], LinkEnd::Letter(LetterFault::BadVersion)),
        answered(&[OTHER_EDITION], LinkEnd::Letter(LetterFault::BadEdition)),
        answered(&[TOO_LONG], LinkEnd::Letter(LetterFault::TooLong)),
        answered(&[TOOK_NONE], LinkEnd::Gate).doors(9, 0),
        unasked(LinkEnd::Gate).doors(0, 9),
        unasked(LinkEnd::HistoryFull).limit(0),
        unasked(LinkEnd::Closed).turns(0),
    ]
}

/// Exchanges of several letters. The third letter of the second waits for the site to grow past both operations, or for a full history.
/// In the next a peer that took nothing is sent the whole again; then what another site says it took counts for that site.
fn several() -> [Case; 5] {
    let (closed, gate) = (LinkEnd::Closed, LinkEnd::Gate);
    let both: Letters = &[TOOK_ONE, TOOK_TWO];
    let other: Letters = &[TOOK_ONE, OTHER_TOOK_TWO, TOOK_TWO];
    [
        answered_two(2, both, &[TWO, SECOND], closed, 4),
        answered_two(3, both, &[TWO, SECOND], LinkEnd::HistoryFull, 4).limit(4),
        answered_two(2, &[TOOK_NONE, TOOK_TWO], &[TWO, TWO], closed, 4),
        answered_two(3, other, &[TWO, SECOND, SECOND], closed, 5),
        answered_two(2, both, &[TWO], gate, 3).doors(1, 9),
    ]
}

#[test]
fn letters_are_sent(rt: HostRuntime) {
    for (i, case) in single().iter().enumerate() {
        assert_case(&rt, rt.alloc(), case, i);
    }
    for (i, case) in several().iter().enumerate() {
        assert_case(&rt, rt.alloc(), case, 100 + i);
    }
}

/// A peer that is gone within its acknowledgement, which has 24 bytes.
fn gone(given: usize) -> Case {
    Case {
        given,
        ..answered_two(1, &[TOOK_TWO], &[TWO], gone_behind(given), 3)
    }
}

/// A reader that fails at a call, of which four are made.
fn fails_at_read(call: usize) -> Case {
    Case {
        reads: call,
        ..answered(&[TOOK_NONE], failed_at(call, 4, LinkEnd::ReadFailed))
    }
}

/// A writer that fails at a call, of which a flush is the last. The letter has 33 bytes.
fn fails_at_write(call: usize) -> Case {
    Case {
        writes: call,
        written: call.saturating_mul(WRITE_BYTES),
        ..answered(&[TOOK_NONE], failed_at(call, 8, LinkEnd::WriteFailed))
    }
}

#[test]
fn what_fails_loses_nothing_held(rt: HostRuntime) {
    for i in 0..24 {
        assert_case(&rt, rt.alloc(), &gone(i), i);
    }
    for i in 0..5 {
        assert_case(&rt, rt.alloc(), &fails_at_read(i), 100 + i);
    }
    for i in 0..9 {
        assert_case(&rt, rt.alloc(), &fails_at_write(i), 200 + i);
    }
}
