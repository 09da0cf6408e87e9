//! Texts of lengths about the greatest at which their bytes stand in the value itself.
use crate::checks::check_case;
use pcrf_values::{DiameterIdentity, Ranked, Text};
use std::alloc::Global;
use std::process::Abort;

/// None, one below the most that stand in the value, that many, one more, and the most that an identity has.
const COUNTS: [usize; 5] = [0, 29, 30, 31, 255];

/// So many bytes, all the same but for the last, which is that one.
fn bytes(rt: &impl Abort, alloc: Global, count: usize, last: u8) -> Vec<u8> {
    let mut bytes = vec![in alloc; b'm'; count].expect(rt, "memory");
    if let Some(byte) = bytes.last_mut() {
        *byte = last;
    }
    bytes
}

/// The text of these.
fn text(rt: &impl Abort, alloc: Global, count: usize, last: u8) -> Text {
    Text::of(bytes(rt, alloc, count, last)).expect(rt, "memory")
}

#[test]
fn texts_and_their_copies_have_their_bytes(rt: HostRuntime) {
    for count in COUNTS {
        let wanted = bytes(&rt, rt.alloc(), count, b'z');
        let read = Text::read(rt.alloc(), wanted.as_slice()).expect(&rt, "memory");
        let copy = read.try_copy().expect(&rt, "memory");
        check_case(&rt, count, read.as_slice(), wanted.as_slice());
        drop(read);
        check_case(&rt, count, copy.as_slice(), wanted.as_slice());
        let made = text(&rt, rt.alloc(), count, b'z');
        check_case(&rt, count, made == copy, true);
    }
}

#[test]
fn a_text_is_below_each_that_it_begins(rt: HostRuntime) {
    for ours in COUNTS {
        for theirs in COUNTS {
            let one = text(&rt, rt.alloc(), ours, b'm');
            let other = text(&rt, rt.alloc(), theirs, b'm');
            check_case(&rt, ours, one.cmp(&other), ours.cmp(&theirs));
            check_case(&rt, ours, one == other, ours == theirs);
        }
    }
}

#[test]
fn identities_have_one_to_255_bytes(rt: HostRuntime) {
    for count in [0, 1, 30, 31, 255, 256] {
        let name = bytes(&rt, rt.alloc(), count, b'z');
        let read = DiameterIdentity::read(rt.alloc(), name.as_slice()).expect(&rt, "memory");
        let made = DiameterIdentity::of(name).expect(&rt, "memory");
        check_case(&rt, count, read.is_some(), 1 <= count && count <= 255);
        check_case(&rt, count, read == made, true);
    }
}
