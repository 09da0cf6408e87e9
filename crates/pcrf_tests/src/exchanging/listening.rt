//! Peers that are listened to.
use crate::exchanging::letters::*;
use crate::exchanging::peers::{
    Case, Letters, Outcome, assert_case, ends, failed_at, gone_behind, told,
};
use crate::exchanging::wire::{Gateways, WRITE_BYTES};
use pcrf_serve::{LinkEnd, Role};
use peer_exchange::LetterFault;
use std::test::*;

/// Nothing happened at the site.
fn unchanged(end: LinkEnd) -> Outcome {
    ends(end, 0, 0, 0, 0)
}

/// The first range was taken.
fn took_one(end: LinkEnd) -> Outcome {
    ends(end, 1, 1, 1, 0)
}

/// A peer that says this, and is told that.
fn heard(said: Letters, answers: Letters, outcome: Outcome) -> Case {
    told(Role::Listen, said, answers, outcome)
}

/// A peer whose letter is not read.
fn refused(said: Letters, fault: LetterFault) -> Case {
    heard(said, &[], unchanged(LinkEnd::Letter(fault)))
}

/// The letters are taken as they should be. A letter may come again; a range past what was taken is taken, and counts for nothing; an
/// acknowledgement counts as a turn, and isn't answered.
fn taken() -> [Case; 11] {
    let closed = LinkEnd::Closed;
    let (none, one, two) = (
        unchanged(closed),
        took_one(closed),
        ends(closed, 2, 2, 2, 0),
    );
    let again = ends(closed, 1, 2, 1, 0);
    let past = ends(closed, 0, 1, 2, 0);
    let both: Letters = &[RANGE, NEXT];
    let behind: Letters = &[OTHER_TOOK_TWO, RANGE];
    [
        heard(&[RANGE], &[TOOK_ONE], one),
        heard(both, &[TOOK_ONE], one),
        heard(both, &[TOOK_ONE, TOOK_TWO], two).turns(2),
        heard(both, &[TOOK_ONE, TOOK_TWO], two).turns(3),
        heard(&[RANGE, RANGE], &[TOOK_ONE, TOOK_ONE], again).turns(2),
        heard(&[NEXT], &[TOOK_NONE], past),
        heard(&[ONE], &[TOOK_ONE], ends(closed, 1, 1, 1, 1)),
        heard(&[RANGE], &[], none).turns(0),
        heard(&[OTHER_TOOK_TWO], &[], none),
        heard(behind, &[], none),
        heard(behind, &[TOOK_ONE], one).turns(2),
    ]
}

/// The exchange ends early. In the last cases what is due is pushed, and only then is the letter acknowledged.
fn ended() -> [Case; 14] {
    let (gate, full) = (LinkEnd::Gate, LinkEnd::HistoryFull);
    let bad_shape = took_one(LinkEnd::Letter(LetterFault::BadShape));
    let unwritten = ends(LinkEnd::WriteFailed, 1, 2, 1, 0);
    let both: Letters = &[RANGE, NEXT];
    [
        refused(&[OTHER_VERSION], LetterFault::BadVersion),
        refused(&[OTHER_EDITION], LetterFault::BadEdition),
        refused(&[SHORTER], LetterFault::BadShape),
        refused(&[LONGER], LetterFault::BadShape),
        refused(&[TOO_LONG], LetterFault::TooLong),
        heard(&[RANGE, LONGER], &[TOOK_ONE], bad_shape).turns(2),
        heard(&[RANGE], &[], unchanged(full)).limit(0),
        heard(both, &[TOOK_ONE], took_one(full)).turns(2).limit(1),
        heard(&[RANGE], &[], unchanged(gate)).doors(0, 9),
        heard(both, &[TOOK_ONE], took_one(gate))
            .turns(2)
            .doors(1, 9),
        heard(&[RANGE], &[TOOK_ONE], took_one(gate)).doors(9, 0),
        heard(&[RANGE], &[TOOK_ONE], ends(LinkEnd::Closed, 1, 2, 1, 0)).gateways(Gateways::Asked),
        Case {
            writes: 0,
            ..heard(&[RANGE], &[], unwritten).gateways(Gateways::Asked)
        },
        heard(&[RANGE], &[], took_one(LinkEnd::NoMemory)).gateways(Gateways::Refused),
    ]
}

#[test]
fn letters_are_taken(rt: HostRuntime) {
    for (i, case) in taken().iter().enumerate() {
        assert_case(&rt, rt.alloc(), case, i);
    }
    for (i, case) in ended().iter().enumerate() {
        assert_case(&rt, rt.alloc(), case, 100 + i);
    }
}

/// A peer that is gone within its second letter: the session that the site had, and the first letter, stay.
fn gone(given: usize) -> Case {
    Case {
        given: given.saturating_add(50),
        places: b"1",
        ..heard(
            &[RANGE, NEXT],
            &[TOOK_ONE],
            ends(gone_behind(given), 1, 2, 1, 1),
        )
        .turns(2)
    }
}

/// A reader that fails at a call, of which eight are made for a letter of 50 bytes.
fn fails_at_read(call: usize) -> Case {
    Case {
        reads: call,
        ..if call < 8 {
            heard(&[RANGE], &[], unchanged(LinkEnd::ReadFailed))
        } else {
            heard(&[RANGE], &[TOOK_ONE], took_one(LinkEnd::Closed))
        }
    }
}

/// A writer that fails at a call, of which a flush is the last. The acknowledgement has 24 bytes.
fn fails_at_write(call: usize) -> Case {
    let end = failed_at(call, 6, LinkEnd::WriteFailed);
    Case {
        writes: call,
        written: call.saturating_mul(WRITE_BYTES),
        ..heard(&[RANGE], &[TOOK_ONE], took_one(end))
    }
}

#[test]
fn what_fails_loses_nothing_taken(rt: HostRuntime) {
    for i in 0..50 {
        assert_case(&rt, rt.alloc(), &gone(i), i);
    }
    for i in 0..9 {
        assert_case(&rt, rt.alloc(), &fails_at_read(i), 100 + i);
    }
    for i in 0..7 {
        assert_case(&rt, rt.alloc(), &fails_at_write(i), 200 + i);
    }
}
