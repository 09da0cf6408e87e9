//! A length that no letter may have. How letters are cut from a stream is tried by `cases`.
use crate::checks::check;
use peer_exchange::{FrameFault, LetterAssembler};

#[test]
fn a_letter_has_at_most_two_to_the_thirtieth_bytes(rt: HostRuntime) {
    let mut assembler = LetterAssembler::start(rt.alloc());
    check(&rt, assembler.feed(&[0x40, 0, 0, 0]).is_ok());
    check(&rt, assembler.next() == Ok(None));
    drop(assembler);
    let mut assembler = LetterAssembler::start(rt.alloc());
    check(&rt, assembler.feed(&[0x40, 0, 0, 1, 5]).is_ok());
    for _ in 0..2 {
        check(&rt, assembler.next() == Err(FrameFault::TooLong));
        check(&rt, assembler.feed(&[0]) == Err(FrameFault::TooLong));
    }
    drop(assembler);
}
