//! What no clause says: notes that are written and read, and counts and texts of a site that serves a session and a call.
use pcrf_values::{AfSid, GxSid, SessionId};
use site_lock::AnySid;
use site_looks::{EndedSessions, KnownSessions, NotesRoom, SessionNotes};
use std::alloc::Global;
use std::process::Abort;
use std::test::Fail;

/// How many bytes of notes wait at most: 4 MiB.
const ROOM: usize = 1 << 22;

/// A Session-Id.
fn id(rt: &impl Abort, alloc: Global, name: &[u8]) -> SessionId {
    SessionId::read(alloc, name)
        .expect(rt, "memory")
        .expect(rt, "a short name")
}

#[test]
fn notes_are_read_once_each(rt: HostRuntime) -> Result<(), Fail> {
    let alloc = rt.alloc();
    let notes = SessionNotes::start(alloc)?;
    let mut known = KnownSessions::start(alloc);
    for _ in 0..3 {
        notes.add_gateway(&rt, &GxSid::of(id(&rt, alloc, b"g;1")));
        notes.add_gateway(&rt, &GxSid::of(id(&rt, alloc, b"g;2")));
        notes.add_call(&rt, &AfSid::of(id(&rt, alloc, b"g;1")));
    }
    let mut room = NotesRoom::start(alloc);
    known.read(room.take(&rt, &notes)?)?;
    assert_eq!(rt; known.gateways().len(), 2);
    assert_eq!(rt; known.calls().len(), 1);
    assert_eq!(rt; room.take(&rt, &notes)?.len(), 0);
    assert_eq!(rt; notes.lost(), 0);
    Ok(())
}

#[test]
fn a_session_that_is_forgotten_is_known_no_more(rt: HostRuntime) -> Result<(), Fail> {
    let alloc = rt.alloc();
    let notes = SessionNotes::start(alloc)?;
    let mut known = KnownSessions::start(alloc);
    let gateway = GxSid::of(id(&rt, alloc, b"g;1"));
    notes.add_gateway(&rt, &gateway);
    notes.add_call(&rt, &AfSid::of(id(&rt, alloc, b"g;1")));
    let forgotten = AnySid::Gx(GxSid::of(id(&rt, alloc, b"g;1")));
    notes.add_forgotten(&rt, &forgotten);
    let mut room = NotesRoom::start(alloc);
    known.read(room.take(&rt, &notes)?)?;
    assert_eq!(rt; known.gateways().len(), 0);
    assert_eq!(rt; known.calls().len(), 1);
    notes.add_gateway(&rt, &gateway);
    known.read(room.take(&rt, &notes)?)?;
    assert_eq!(rt; known.gateways().len(), 1);
    Ok(())
}

#[test]
fn ended_sessions_are_due_once_they_are_old_enough(rt: HostRuntime) -> Result<(), Fail> {
    let alloc = rt.alloc();
    let notes = SessionNotes::start(alloc)?;
    let mut ended = EndedSessions::start(alloc);
    let mut room = NotesRoom::start(alloc);
    for _ in 0..150 {
        notes.add_gateway(&rt, &GxSid::of(id(&rt, alloc, b"g;1")));
    }
    ended.read(room.take(&rt, &notes)?, 3)?;
    notes.add_call(&rt, &AfSid::of(id(&rt, alloc, b"a;1")));
    ended.read(room.take(&rt, &notes)?, 5)?;
    assert_eq!(rt; (ended.len(), ended.oldest()), (151, Some(3)));
    assert_eq!(rt; ended.take_due(2, 100)?.len(), 0);
    assert_eq!(rt; ended.take_due(3, 100)?.len(), 100);
    assert_eq!(rt; ended.take_due(4, 100)?.len(), 50);
    assert_eq!(rt; (ended.len(), ended.oldest()), (1, Some(5)));
    let last = ended.take_due(5, 100)?;
    assert!(rt; matches!(last.first(), Some(AnySid::Af(_))));
    assert_eq!(rt; (ended.len(), ended.oldest()), (0, None));
    Ok(())
}

#[test]
fn notes_have_room_for_so_many_bytes(rt: HostRuntime) -> Result<(), Fail> {
    let alloc = rt.alloc();
    let notes = SessionNotes::start(alloc)?;
    let call = AfSid::of(id(&rt, alloc, [b'a'; 509].as_slice()));
    for _ in 0..ROOM / 512 {
        notes.add_call(&rt, &call);
    }
    assert_eq!(rt; notes.lost(), 0);
    notes.add_call(&rt, &call);
    assert_eq!(rt; notes.lost(), 1);
    notes.add_taken_call(&rt, &call);
    assert_eq!(rt; notes.lost(), 1);
    let mut room = NotesRoom::start(alloc);
    let taken = room.take(&rt, &notes)?;
    assert_eq!(rt; taken.len(), ROOM + 512);
    let mut known = KnownSessions::start(alloc);
    known.read(taken)?;
    assert_eq!(rt; known.calls().len(), 1);
    assert_eq!(rt; known.gateways().len(), 0);
    Ok(())
}
