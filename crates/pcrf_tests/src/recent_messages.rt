//! Messages go out, the oldest first, and are found by their keys, for a time.
use pcrf_values::HashSeed;
use std::alloc::Global;
use std::process::Abort;
use std::test::*;
use watched_links::{MessageKey, RecentMessage, RecentMessages, with_hop_id};

/// What a message of that number and Origin-Host is found by, with 3 bytes beside.
fn key(rt: &impl Abort, alloc: Global, number: u32, host: &[u8]) -> MessageKey {
    MessageKey {
        command: 272,
        number,
        session: Vec::from_slice(alloc, b"s").expect(rt, "memory"),
        host: Vec::from_slice(alloc, host).expect(rt, "memory"),
        peer: Vec::from_slice(alloc, b"pr").expect(rt, "memory"),
    }
}

/// A message of so many bytes, all of which are the number that it is found by.
fn message(
    rt: &impl Abort,
    alloc: Global,
    number: u8,
    host: &[u8],
    at: u64,
    count: usize,
) -> RecentMessage {
    let bytes = vec![in alloc; number; count].expect(rt, "memory");
    let key = key(rt, alloc, u32::from(number), host);
    RecentMessage::of(key, at, bytes).expect(rt, "a short message")
}

/// Room for messages.
fn room(alloc: Global, room: u32) -> RecentMessages {
    RecentMessages::with_room(alloc, room, HashSeed::of(7))
}

#[test]
fn the_oldest_go_out_first(rt: HostRuntime) {
    let alloc = rt.alloc();
    // Each takes 256 + 2 * 4 + 36 = 300 bytes.
    let mut kept = room(alloc, 1050);
    for number in 1..=3 {
        kept.keep(message(&rt, alloc, number, b"a", 10, 36))
            .expect(&rt, "memory");
    }
    for number in 1..=3 {
        assert!(rt; kept.find(&key(&rt, alloc, number, b"a"), 9).is_some());
    }
    kept.keep(message(&rt, alloc, 4, b"a", 10, 36))
        .expect(&rt, "memory");
    assert!(rt; kept.find(&key(&rt, alloc, 1, b"a"), 9).is_none());
    assert_eq!(rt;
        kept.find(&key(&rt, alloc, 2, b"a"), 9),
        Some([2; 36].as_slice())
    );
    // One of 800 bytes leaves no room for any but itself.
    kept.keep(message(&rt, alloc, 5, b"a", 10, 536))
        .expect(&rt, "memory");
    assert!(rt; kept.find(&key(&rt, alloc, 4, b"a"), 9).is_none());
    assert!(rt; kept.find(&key(&rt, alloc, 5, b"a"), 9).is_some());
    // One that takes more than there is leaves nothing.
    kept.keep(message(&rt, alloc, 6, b"a", 10, 787))
        .expect(&rt, "memory");
    for number in 1..=6 {
        assert!(rt; kept.find(&key(&rt, alloc, number, b"a"), 9).is_none());
    }
}

/// Whether a message of number 1 that is kept under a host from a time behind that one has these bytes.
fn finds(
    rt: &impl Abort,
    alloc: Global,
    kept: &RecentMessages,
    host: &[u8],
    behind: u64,
    bytes: &[u8],
) -> bool {
    match kept.find(&key(rt, alloc, 1, host), behind) {
        Some(found) => found == bytes,
        None => false,
    }
}

#[test]
fn the_newest_is_found_for_a_time(rt: HostRuntime) {
    let alloc = rt.alloc();
    let mut kept = room(alloc, 10_000);
    kept.keep(message(&rt, alloc, 1, b"a", 10, 2))
        .expect(&rt, "memory");
    kept.keep(message(&rt, alloc, 1, b"b", 11, 3))
        .expect(&rt, "memory");
    kept.keep(message(&rt, alloc, 1, b"a", 12, 4))
        .expect(&rt, "memory");
    assert!(rt; finds(&rt, alloc, &kept, b"a", 0, &[1; 4]));
    assert!(rt; finds(&rt, alloc, &kept, b"b", 10, &[1; 3]));
    assert!(rt; kept.find(&key(&rt, alloc, 1, b"b"), 11).is_none());
    assert!(rt; kept.find(&key(&rt, alloc, 1, b"ab"), 0).is_none());
    assert!(rt; kept.find(&key(&rt, alloc, 2, b"a"), 0).is_none());
}

#[test]
fn a_message_is_found_by_the_whole_of_its_key(rt: HostRuntime) {
    let alloc = rt.alloc();
    let mut kept = room(alloc, 10_000);
    kept.keep(message(&rt, alloc, 1, b"a", 10, 2))
        .expect(&rt, "memory");
    assert!(rt; finds(&rt, alloc, &kept, b"a", 0, &[1; 2]));
    let mut other = key(&rt, alloc, 1, b"a");
    other.command = 275;
    assert!(rt; kept.find(&other, 0).is_none());
    let mut other = key(&rt, alloc, 1, b"a");
    other.session.push(b's').expect(&rt, "memory");
    assert!(rt; kept.find(&other, 0).is_none());
    let mut other = key(&rt, alloc, 1, b"a");
    other.peer.clear();
    assert!(rt; kept.find(&other, 0).is_none());
    // The same bytes, cut elsewhere.
    let mut other = key(&rt, alloc, 1, b"");
    other.session.push(b'a').expect(&rt, "memory");
    assert!(rt; kept.find(&other, 0).is_none());
}

/// A message of a plain list: its number, from when it is kept, how many bytes it has, and how many it takes.
type Plain = (u8, u64, usize, usize);

/// How many bytes the newest message of a number has in a plain list, if it is kept from a time behind that one.
fn plain_find(list: &[Plain], number: u8, behind: u64) -> Option<usize> {
    for (other, at, count, _) in list.iter().rev() {
        if *other == number {
            return if *at > behind { Some(*count) } else { None };
        }
    }
    None
}

/// Takes the first ones out of a plain list until the others have room.
fn plain_shed(list: &mut Vec<Plain>, room: usize) {
    for _ in 0..=list.len() {
        let mut total: usize = 0;
        for (_, _, _, size) in list.iter() {
            total = total.saturating_add(*size);
        }
        if total <= room || list.is_empty() {
            return;
        }
        drop(list.remove(0));
    }
}

#[test]
fn drawn_messages_are_found_as_in_a_plain_list(rt: HostRuntime) {
    let alloc = rt.alloc();
    let mut kept = room(alloc, 3_000);
    let mut plain: Vec<Plain> = Vec::new(alloc);
    let mut drawn = 1u32;
    for turn in 0..600u64 {
        drawn = drawn.wrapping_mul(1_664_525).wrapping_add(1_013_904_223);
        let number = (drawn >> 24) as u8 % 13;
        let count = (drawn >> 12) as usize % 500;
        kept.keep(message(&rt, alloc, number, b"a", turn, count))
            .expect(&rt, "memory");
        plain
            .push((number, turn, count, count.saturating_add(264)))
            .expect(&rt, "memory");
        plain_shed(&mut plain, 3_000);
        for number in 0..13u8 {
            for behind in [0, turn.saturating_sub(5)] {
                let found = kept.find(&key(&rt, alloc, u32::from(number), b"a"), behind);
                let wanted = plain_find(plain.as_slice(), number, behind);
                assert_eq!(rt; found.map(|bytes| bytes.len()), wanted);
            }
        }
    }
}

#[test]
fn what_is_too_long_is_no_message(rt: HostRuntime) {
    let alloc = rt.alloc();
    for (length, is_kept) in [(255, true), (256, false)] {
        let host = vec![in alloc; b'a'; length].expect(&rt, "memory");
        let key = key(&rt, alloc, 1, host.as_slice());
        assert_eq!(rt;
            RecentMessage::of(key, 1, Vec::new(alloc)).is_some(),
            is_kept
        );
    }
    for (length, is_kept) in [(512, true), (513, false)] {
        let mut key = key(&rt, alloc, 1, b"a");
        key.session = vec![in alloc; b's'; length].expect(&rt, "memory");
        assert_eq!(rt;
            RecentMessage::of(key, 1, Vec::new(alloc)).is_some(),
            is_kept
        );
    }
}

#[test]
fn one_word_alone_is_another(rt: HostRuntime) {
    let alloc = rt.alloc();
    let bytes = [
        0, 1, 2, 3, 4, 5, 6, 7, 8, 9, 10, 11, 12, 13, 14, 15, 16, 17, 18, 19, 20, 21, 22, 23,
    ];
    let renamed = with_hop_id(alloc, &bytes, 0xA0B0_C0D0).expect(&rt, "memory");
    let wanted = [
        0, 1, 2, 3, 4, 5, 6, 7, 8, 9, 10, 11, 0xA0, 0xB0, 0xC0, 0xD0, 16, 17, 18, 19, 20, 21, 22,
        23,
    ];
    assert_eq!(rt; renamed.as_slice(), wanted.as_slice());
}
