//! What a site noted of sessions beside its calls, until it is read: which it came to know of, which ended, and which it forgot.
use indexed_state::AnySid;
use pcrf_values::{AfSid, GxSid, SessionId};
use site_status::Counter;
use std::alloc::{AllocError, Global};
use std::mem::replace;
use std::sync::{Mutex, Wait};

/// How many bytes of notes wait at most, but for those of a whole state that is taken.
const NOTES_BYTES: usize = 1 << 22;

/// The first byte of a note: of a gateway's session, and of an application function's.
const GATEWAY: u8 = 0;

const CALL: u8 = 1;

/// That of a session that is forgotten.
const FORGOTTEN_GATEWAY: u8 = 2;

const FORGOTTEN_CALL: u8 = 3;

/// How many bytes a note has before the Session-Id: its kind, and how many follow.
const FRONT_BYTES: usize = 3;

/// What a note says of its session.
#[derive(Clone, Copy)]
pub(crate) enum Noted {
    /// That it is there, or that it ended, as the notes are of the one or of the other.
    Known,
    /// That it is forgotten.
    Forgotten,
}

/// Who reads notes.
pub(crate) trait ReadNotes {
    /// Reads the next note.
    fn read_note(&mut self, noted: Noted, session: AnySid) -> Result<(), AllocError>;
}

/// What a note of this kind says of the session with this Session-Id, if it is a kind that there is.
fn as_noted(kind: u8, id: SessionId) -> Option<(Noted, AnySid)> {
    match kind {
        GATEWAY => Some((Noted::Known, AnySid::Gx(GxSid::of(id)))),
        CALL => Some((Noted::Known, AnySid::Af(AfSid::of(id)))),
        FORGOTTEN_GATEWAY => Some((Noted::Forgotten, AnySid::Gx(GxSid::of(id)))),
        FORGOTTEN_CALL => Some((Noted::Forgotten, AnySid::Af(AfSid::of(id)))),
        _ => None,
    }
}

/// The first note, as its kind and its Session-Id, and what stands behind it.
fn first_note(notes: &[u8]) -> Option<(u8, &[u8], &[u8])> {
    let front = notes.first_chunk::<FRONT_BYTES>()?;
    let length = usize::from(u16::from_be_bytes([front[1], front[2]]));
    let rest = notes.get(FRONT_BYTES..)?;
    Some((front[0], rest.get(..length)?, rest.get(length..)?))
}

/// Has notes read, one after the other.
pub(crate) fn read_notes(
    alloc: Global,
    notes: &[u8],
    reader: &mut impl ReadNotes,
) -> Result<(), AllocError> {
    let mut rest = notes;
    for _ in 0..notes.len() {
        let Some((kind, id, behind)) = first_note(rest) else {
            break;
        };
        let id = SessionId::read(alloc, id)?;
        if let Some((noted, session)) = id.and_then(|id| as_noted(kind, id)) {
            reader.read_note(noted, session)?;
        }
        rest = behind;
    }
    Ok(())
}

/// Notes that wait to be read. To write one takes no memory.
#[derive(Drop)]
pub struct SessionNotes {
    waiting: Mutex<Vec<u8>>,
    /// How many found no room.
    lost: Counter,
}

/// Writes a note behind the others.
fn put_note(notes: &mut Vec<u8>, kind: u8, id: &[u8]) -> Result<(), AllocError> {
    let length = u16::try_from(id.len()).unwrap_or(u16::MAX).to_be_bytes();
    notes.extend_from_slice(&[kind, length[0], length[1]])?;
    notes.extend_from_slice(id)
}

impl SessionNotes {
    /// None yet.
    pub fn start(alloc: Global) -> Result<SessionNotes, AllocError> {
        let notes = Vec::with_capacity(alloc, NOTES_BYTES)?;
        Ok(SessionNotes {
            waiting: Mutex::new(notes),
            lost: Counter::start(),
        })
    }

    /// Writes a note, if there is room.
    fn add(&self, rt: &impl Wait, kind: u8, id: &[u8]) {
        let mut notes = self.waiting.lock(rt);
        let length = notes
            .len()
            .saturating_add(FRONT_BYTES)
            .saturating_add(id.len());
        if length > NOTES_BYTES || put_note(&mut *notes, kind, id).is_err() {
            self.lost.add();
        }
    }

    /// The site knows a gateway's session.
    pub fn add_gateway(&self, rt: &impl Wait, id: &GxSid) {
        self.add(rt, GATEWAY, id.as_slice());
    }

    /// The site knows an application function's session.
    pub fn add_call(&self, rt: &impl Wait, id: &AfSid) {
        self.add(rt, CALL, id.as_slice());
    }

    /// The site knows a session by a whole state that it took: such notes take memory, where they are more than there is room for.
    fn add_taken(&self, rt: &impl Wait, kind: u8, id: &[u8]) {
        if put_note(&mut *self.waiting.lock(rt), kind, id).is_err() {
            self.lost.add();
        }
    }

    /// A gateway's session of a whole state.
    pub fn add_taken_gateway(&self, rt: &impl Wait, id: &GxSid) {
        self.add_taken(rt, GATEWAY, id.as_slice());
    }

    /// An application function's session of a whole state.
    pub fn add_taken_call(&self, rt: &impl Wait, id: &AfSid) {
        self.add_taken(rt, CALL, id.as_slice());
    }

    /// The site is about to forget a session. No request can bring it back before it has.
    pub fn add_forgotten(&self, rt: &impl Wait, session: &AnySid) {
        match session {
            AnySid::Gx(id) => self.add(rt, FORGOTTEN_GATEWAY, id.as_slice()),
            AnySid::Af(id) => self.add(rt, FORGOTTEN_CALL, id.as_slice()),
        }
    }

    /// How many found no room.
    pub fn lost(&self) -> u64 {
        self.lost.get()
    }

    /// Takes the notes, and has further ones written into that room.
    fn take(&self, rt: &impl Wait, room: Vec<u8>) -> Vec<u8> {
        replace(&mut *self.waiting.lock(rt), room)
    }
}

/// Room into which notes are taken over.
#[derive(Drop)]
pub struct NotesRoom {
    alloc: Global,
    bytes: Vec<u8>,
}

impl NotesRoom {
    /// It has no room yet.
    pub fn start(alloc: Global) -> NotesRoom {
        NotesRoom {
            alloc,
            bytes: Vec::new(alloc),
        }
    }

    /// Takes the notes that wait to be read. Where memory is refused they wait on.
    pub fn take(&mut self, rt: &impl Wait, notes: &SessionNotes) -> Result<&[u8], AllocError> {
        self.bytes.clear();
        if self.bytes.capacity() != NOTES_BYTES {
            self.bytes = Vec::with_capacity(self.alloc, NOTES_BYTES)?;
        }
        let empty = replace(&mut self.bytes, Vec::new(self.alloc));
        self.bytes = notes.take(rt, empty);
        Ok(self.bytes.as_slice())
    }
}
