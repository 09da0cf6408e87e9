//! Bytes wait in order, and find room by what waits before them.
use crate::checks::{check, check_same};
use std::test::*;
use watched_links::{Outbox, PutFault};

#[test]
fn what_was_left_is_taken_in_order_and_no_more_is_left_than_may_wait(rt: HostRuntime) {
    let alloc = rt.alloc();
    let mut outbox = Outbox::with_room(alloc, 4);
    for bytes in [b"abcd".as_slice(), b"efghij"] {
        check(&rt, outbox.put(bytes) == Ok(()));
    }
    check(&rt, outbox.put(b"k") == Err(PutFault::Full));
    // What is being written counts until it is written.
    check_same(&rt, outbox.take(alloc).as_slice(), b"abcdefghij".as_slice());
    check(&rt, outbox.put(b"k") == Err(PutFault::Full));
    outbox.clear_taken();
    check(&rt, outbox.put(b"k") == Ok(()));
    check_same(&rt, outbox.take(alloc).as_slice(), b"k".as_slice());
}
