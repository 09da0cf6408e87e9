//! How connections end at a server, what is written to them, and what an observer is told.
ghost use Rattle.std.specs.Prelude.{◌≡◌};

use crate::exchanging::wire::Doors;
use crate::messages::{
    CALL, DISCONNECT, EXCHANGE, INITIAL, OTHER_EXCHANGE, PUSH_DONE, PUSH_NAMELESS, PUSH_REFUSED,
    PUSH_UNAVAILABLE, RELEASE, WATCHDOG, WATCHDOG_ANSWER,
};
use crate::serving::connections::Input;
use crate::serving::gates::{AtFirstWrite, InOrder, Order, Place, Writes};
use crate::serving::outcomes::{Outcome, serve};
use pcrf_serve::Gate;
use std::alloc::{AllocError, Global};
use std::marker::Brand;
use std::process::Abort;
use std::sync::Wait;
use std::sync::ledger::Blank;
use std::test::*;
use std::thread::Threads;
use std::time::Clock;

/// The messages of each read of a connection.
type Sends = &'static [&'static [&'static [u8]]];

/// Nothing.
const QUIET: Sends = &[];

/// A watchdog request.
const WATCHED: Sends = &[&[WATCHDOG]];

/// Which read fails at the first connection, and from which write on all do, counted from 0.
type Fails = (Option<usize>, Option<usize>);

/// Nothing does.
const NOTHING: Fails = (None, None);

/// Three connections at a site whose history has room for so many entries. Each order is of a message that waits, and one that
/// is answered first.
#[derive(Clone, Copy)]
struct Case {
    limit: u16,
    orders: &'static [(Place, Place)],
    sends: [Sends; 3],
    fails: Fails,
    outcome: &'static str,
}

/// The entries that the history of most cases has room for.
const ROOM: u16 = 30;

/// The bytes of messages, one after another.
fn bytes_of(alloc: Global, messages: &[&[u8]]) -> Result<Vec<u8>, AllocError> {
    let mut bytes = Vec::new(alloc);
    for message in messages {
        bytes.extend_from_slice(message)?;
    }
    Ok(bytes)
}

/// The input of a connection of which something fails.
fn input_of(alloc: Global, sends: Sends, fails: Fails) -> Result<Input, AllocError> {
    let mut pieces = Vec::new(alloc);
    for messages in sends {
        pieces.push(bytes_of(alloc, messages)?)?;
    }
    let (failing_read, failing_write) = fails;
    Ok(Input {
        pieces,
        failing_read,
        failing_write,
    })
}

/// The inputs of connections, of which the first fails.
fn inputs_of(alloc: Global, sends: [Sends; 3], fails: Fails) -> Result<Vec<Input>, AllocError> {
    let mut inputs = Vec::new(alloc);
    let mut fails = fails;
    for each in sends {
        inputs.push(input_of(alloc, each, fails)?)?;
        fails = NOTHING;
    }
    Ok(inputs)
}

/// A gate that keeps orders.
fn in_order<'a, R: Clock>(
    rt: &'a R,
    alloc: Global,
    pairs: &[(Place, Place)],
) -> Result<InOrder<'a, R>, AllocError> {
    let mut orders = Vec::new(alloc);
    for (waits, first) in pairs {
        orders.push(Order::of(*waits, *first))?;
    }
    Ok(InOrder { rt, orders })
}

/// What comes of a case, in words.
fn text_of<R: Threads + Wait + Abort + Sync, G: Gate + Writes + Sync>(
    rt: &R,
    alloc: Global,
    case: Case,
    gate: &G,
) -> String {
    let inputs = inputs_of(alloc, case.sends, case.fails).expect(rt, "memory");
    let limit = case.limit as usize;
    let served = serve::<Brand, _, _>(rt, alloc, Blank::new(3), limit, inputs, gate);
    told(rt, alloc, served)
}

/// An outcome in words.
fn told(rt: &impl Abort, alloc: Global, served: Result<Outcome, AllocError>) -> String {
    let outcome = served.expect(rt, "memory");
    let text = outcome.text(alloc);
    drop(outcome);
    text.expect(rt, "memory")
}

/// A case comes out as it says.
fn check<R: Threads + Wait + Abort + Clock + Sync>(rt: &R, alloc: Global, case: Case) {
    let gate = in_order(rt, alloc, case.orders).expect(rt, "memory");
    let text = text_of(rt, alloc, case, &gate);
    assert_eq!(rt; text.as_str(), case.outcome);
}

/// A case of these connections, of which nothing fails and no message waits.
fn plain(sends: [Sends; 3], outcome: &'static str) -> Case {
    Case {
        limit: ROOM,
        orders: &[],
        sends,
        fails: NOTHING,
        outcome,
    }
}

#[test]
fn connections_are_served_side_by_side(rt: HostRuntime) {
    let outcome = "Closed 1: 280=2001\nClosed 1: 280=2001\nClosed 0:\n\
        2 entries, 2 told, clock 0, 0 reached\n";
    // The first connection's message is there before the second one's is served, and is held until that was answered.
    let held = Case {
        orders: &[((0, 0), (1, 0))],
        ..plain([WATCHED, WATCHED, QUIET], outcome)
    };
    check(&rt, rt.alloc(), held);
}

/// Messages that come by one read.
const TOGETHER: Sends = &[&[WATCHDOG, INITIAL, WATCHDOG]];

#[test]
fn answers_to_one_read_leave_together(rt: HostRuntime) {
    let outcome = "Closed 1: 280=2001 272=2001 280=2001\nClosed 0:\nClosed 0:\n\
        3 entries, 3 told, clock 1, 0 reached\n";
    check(&rt, rt.alloc(), plain([TOGETHER, QUIET, QUIET], outcome));
}

/// A length that is below a header's, behind a request and before another.
const SHORT: Sends = &[&[WATCHDOG, b"\x01\x00\x00\x10", WATCHDOG]];

/// A length that is no multiple of 4.
const ODD: Sends = &[&[b"\x01\x00\x00\x16"]];

/// A length above the longest message's.
const LONG: Sends = &[&[b"\x01\x01\x00\x00"]];

/// A message that ends within its header.
const CUT: Sends = &[&[WATCHDOG], &[b"\x01\x00\x00\x2c\x80"]];

#[test]
fn a_stream_that_ends_within_a_message_is_cut(rt: HostRuntime) {
    let outcome = "Cut 1: 280=2001\nClosed 0:\nClosed 0:\n1 entries, 1 told, clock 0, 0 reached\n";
    check(&rt, rt.alloc(), plain([CUT, QUIET, QUIET], outcome));
}

#[test]
fn length_faults_end_their_connection(rt: HostRuntime) {
    let outcome = "Frame(ShortLength) 1: 280=2001\nFrame(OddLength) 0:\nFrame(TooLong) 0:\n\
        1 entries, 1 told, clock 0, 0 reached\n";
    check(&rt, rt.alloc(), plain([SHORT, ODD, LONG], outcome));
}

/// A session is set up, and the next read brings a watchdog request.
const ATTACHED: Sends = &[&[INITIAL], &[WATCHDOG]];

/// The first connection fails, and the second is served.
fn failing(fails: Fails, outcome: &'static str) -> Case {
    Case {
        fails,
        ..plain([ATTACHED, WATCHED, QUIET], outcome)
    }
}

/// Each read fails in turn.
const FAILING_READS: [&str; 3] = [
    "ReadFailed 0:\nClosed 1: 280=2001\nClosed 0:\n\
        1 entries, 1 told, clock 0, 0 reached\n",
    "ReadFailed 1: 272=2001\nClosed 1: 280=2001\nClosed 0:\n\
        2 entries, 2 told, clock 1, 0 reached\n",
    "ReadFailed 2: 272=2001 280=2001\nClosed 1: 280=2001\nClosed 0:\n\
        3 entries, 3 told, clock 1, 0 reached\n",
];

#[test]
fn a_reader_that_fails_ends_its_connection_alone(rt: HostRuntime) {
    for (read, outcome) in FAILING_READS.iter().enumerate() {
        check(&rt, rt.alloc(), failing((Some(read), None), outcome));
    }
}

/// Each write fails in turn.
const FAILING_WRITES: [&str; 2] = [
    "WriteFailed 0:\nClosed 1: 280=2001\nClosed 0:\n\
        2 entries, 2 told, clock 1, 0 reached\n",
    "WriteFailed 1: 272=2001\nClosed 1: 280=2001\nClosed 0:\n\
        3 entries, 3 told, clock 1, 0 reached\n",
];

#[test]
fn a_writer_that_fails_ends_its_connection_alone(rt: HostRuntime) {
    for (write, outcome) in FAILING_WRITES.iter().enumerate() {
        check(&rt, rt.alloc(), failing((None, Some(write)), outcome));
    }
}

/// A request of each command that is served.
const EVERY_COMMAND: Sends = &[&[EXCHANGE, INITIAL], &[CALL, RELEASE, WATCHDOG]];

#[test]
fn a_full_history_is_told(rt: HostRuntime) {
    let outcome = "Closed 2: 257=3004 272=3004 265=3004 275=3004 280=3004\n\
        Closed 0:\nClosed 0:\n\
        0 entries, 0 told, clock 0, 0 reached\nfull \nfull \nfull \nfull \nfull \n";
    let full = Case {
        limit: 0,
        ..plain([EVERY_COMMAND, QUIET, QUIET], outcome)
    };
    check(&rt, rt.alloc(), full);
}

/// A gateway makes itself known, and goes on.
const KNOWN: Sends = &[&[EXCHANGE], &[WATCHDOG]];

#[test]
fn a_push_without_room_ends_no_connection(rt: HostRuntime) {
    let outcome = "Closed 2: 257=2001 280=3004\nClosed 0:\nClosed 0:\n\
        1 entries, 1 told, clock 0, 0 reached\ngw r 2001\nfull \nfull \n";
    let full = Case {
        limit: 1,
        ..plain([KNOWN, QUIET, QUIET], outcome)
    };
    check(&rt, rt.alloc(), full);
}

/// A call is set up.
const CALLING: Sends = &[&[CALL]];

/// The second connection's call is set up once the first has a session, and the first goes on once it is. The exchange, the
/// request and the call make an entry each, and each a push behind it, of which the last tells of the call, and a question whether
/// something is to be aborted.
fn with_call(sends: [Sends; 3], fails: Fails, outcome: &'static str) -> Case {
    Case {
        orders: &[((1, 0), (0, 1)), ((0, 2), (1, 0))],
        fails,
        ..plain(sends, outcome)
    }
}

/// A gateway makes itself known and sets up a session, and then asks for the end.
const GATEWAY: Sends = &[&[EXCHANGE, INITIAL], &[DISCONNECT]];

#[test]
fn a_gateway_is_told_of_a_call(rt: HostRuntime) {
    let outcome = "Disconnected 3: 257=2001 272=2001 258#7#7:gw;1;1@gw 282=2001\n\
        Closed 1: 265=2001\nClosed 0:\n\
        13 entries, 13 told, clock 3, 0 reached\ngw r 2001\n";
    let told = with_call([GATEWAY, CALLING, QUIET], NOTHING, outcome);
    check(&rt, rt.alloc(), told);
}

/// The same under an application that is not served.
const REFUSED_GATEWAY: Sends = &[&[OTHER_EXCHANGE, INITIAL], &[DISCONNECT]];

#[test]
fn a_gateway_that_was_refused_is_not_told(rt: HostRuntime) {
    let outcome = "Disconnected 2: 257=5010 272=2001 282=2001\n\
        Closed 1: 265=2001\nClosed 0:\n\
        4 entries, 4 told, clock 2, 0 reached\ngw r 5010\n";
    let refused = with_call([REFUSED_GATEWAY, CALLING, QUIET], NOTHING, outcome);
    check(&rt, rt.alloc(), refused);
}

#[test]
fn a_gateway_that_cannot_be_told_is_reached_no_more(rt: HostRuntime) {
    let outcome = "WriteFailed 1: 257=2001 272=2001\nClosed 1: 265=2001\nClosed 0:\n\
        9 entries, 9 told, clock 3, 0 reached\ngw r 2001\ngw unreached \n";
    let lost = with_call([GATEWAY, CALLING, QUIET], (None, Some(1)), outcome);
    check(&rt, rt.alloc(), lost);
}

/// The same gateway by a further connection.
const AGAIN: Sends = &[&[EXCHANGE], &[DISCONNECT]];

/// A call is set up, and ended.
const CALL_TO_ITS_END: Sends = &[&[CALL], &[RELEASE]];

#[test]
fn a_gateway_is_told_by_its_last_connection(rt: HostRuntime) {
    let outcome = "Disconnected 2: 257=2001 272=2001 282=2001\n\
        Disconnected 4: 257=2001 258#10#10:gw;1;1@gw \
        258#17#17:gw;1;1@gw 282=2001\n\
        Closed 2: 265=2001 275=2001\n\
        23 entries, 23 told, clock 5, 0 reached\ngw r 2001\ngw r 2001\n";
    // The gateway connects again before the call; its first connection has its last answer before the call ends.
    let again = Case {
        orders: &[
            ((1, 0), (0, 1)),
            ((2, 0), (1, 0)),
            ((0, 2), (2, 0)),
            ((2, 1), (0, 2)),
            ((1, 1), (2, 1)),
        ],
        ..plain([GATEWAY, AGAIN, CALL_TO_ITS_END], outcome)
    };
    check(&rt, rt.alloc(), again);
}

/// A gateway answers, for a failure of each kind and once without saying for which session, and goes on.
const ANSWERS: Sends = &[&[
    EXCHANGE,
    PUSH_REFUSED,
    WATCHDOG_ANSWER,
    PUSH_DONE,
    PUSH_NAMELESS,
    PUSH_UNAVAILABLE,
    WATCHDOG,
]];

#[test]
fn answers_of_a_peer_are_passed_over(rt: HostRuntime) {
    let outcome = "Closed 1: 257=2001 280=2001\nClosed 0:\nClosed 0:\n\
        6 entries, 6 told, clock 0, 0 reached\ngw r 2001\ngw;1;1 refused 5012\n\
        gw;1;1 refused 5065\n";
    check(&rt, rt.alloc(), plain([ANSWERS, QUIET, QUIET], outcome));
}

/// What comes of a watchdog request by doors that let so many messages in and out.
fn check_doors<R: Threads + Wait + Abort + Sync>(
    rt: &R,
    alloc: Global,
    doors: Doors,
    outcome: &'static str,
) {
    let text = text_of(rt, alloc, plain([WATCHED, QUIET, QUIET], outcome), &doors);
    assert_eq!(rt; text.as_str(), outcome);
}

#[test]
fn a_gate_that_lets_nothing_in_or_go_on_ends_a_connection(rt: HostRuntime) {
    let outcome = "Gate 0:\nClosed 0:\nClosed 0:\n0 entries, 0 told, clock 0, 0 reached\n";
    check_doors(&rt, rt.alloc(), Doors { into: 0, out_of: 0 }, outcome);
    let outcome = "Gate 1: 280=2001\nClosed 0:\nClosed 0:\n1 entries, 1 told, clock 0, 0 reached\n";
    check_doors(&rt, rt.alloc(), Doors { into: 9, out_of: 0 }, outcome);
}

/// A gateway makes itself known, and nothing else.
const EXCHANGED: Sends = &[&[EXCHANGE]];

#[test]
fn a_gateway_is_reached_before_it_has_its_answer(rt: HostRuntime) {
    // Each of the two requests makes an entry, and each a push and a question for aborts behind it.
    let outcome = "Closed 1: 257=2001\nClosed 1: 280=2001\nClosed 0:\n\
        6 entries, 6 told, clock 0, 0 reached\ngw r 2001\n";
    let known = plain([EXCHANGED, WATCHED, QUIET], outcome);
    let text = text_of(&rt, rt.alloc(), known, &AtFirstWrite::start(&rt));
    assert_eq!(rt; text.as_str(), outcome);
}
