//! A site without peers forgets sessions that ended, a while later. One that has peers keeps them: a peer that has yet to be told of the end
//! would bring the session back.
use crate::staying::keeping::Housekeeper;
use crate::staying::machine::Machine;
use crate::staying::status::Figures;
use crate::staying::working::Shared;
use indexed_state::AnySid;
use log::Log;
use pcrf_serve::SharedSite;
use site_looks::{EndedSessions, NotesRoom};
use std::alloc::{AllocError, Global};
use std::thread;
use std::time::Duration;

/// How many sessions are forgotten at most while all others wait.
pub const FORGOTTEN_AT_ONCE: usize = 100;

/// How many milliseconds the others have before more are forgotten.
const PAUSE_MILLIS: u64 = 1;

/// The sessions that ended and are yet to be forgotten.
#[derive(Drop)]
pub struct Forgetting {
    alloc: Global,
    ended: EndedSessions,
    /// How many seconds each is kept at least.
    keep: u64,
    room: NotesRoom,
}

impl Forgetting {
    /// None ended yet.
    pub fn start(alloc: Global, keep: u32) -> Forgetting {
        Forgetting {
            alloc,
            ended: EndedSessions::start(alloc),
            keep: u64::from(keep),
            room: NotesRoom::start(alloc),
        }
    }

    /// Reads which sessions ended. Where memory is refused some are kept for good.
    fn read<M: Machine>(&mut self, rt: &M, figures: &Figures, now: u64) -> Result<(), AllocError> {
        match &figures.meters.ended {
            Some(notes) => self.ended.read(self.room.take(rt, notes)?, now),
            None => Ok(()),
        }
    }

    /// Those that may be forgotten next.
    fn take_due(&mut self, now: u64) -> Result<Vec<AnySid>, AllocError> {
        match now.checked_sub(self.keep) {
            Some(until) => self.ended.take_due(until, FORGOTTEN_AT_ONCE),
            None => Ok(Vec::new(self.alloc)),
        }
    }

    /// Says how many are kept.
    fn tell(&self, figures: &Figures, now: u64) {
        let sessions = &figures.sessions;
        sessions.ended_kept.put(self.ended.len() as u64);
        sessions.ended_since.put(self.ended.oldest().unwrap_or(now));
    }
}

/// Forgets some sessions that ended.
fn forget_some<'s, 'r, S: SharedSite, M: Machine, G: Log, K: Housekeeper<S>>(
    rt: &'s M,
    all: &'s Shared<'s, 'r, S, M, G>,
    keeper: &mut K,
    sessions: &[AnySid],
) {
    let figures = &all.furniture.figures;
    if let Some(notes) = &figures.meters.sessions {
        for session in sessions {
            notes.add_forgotten(rt, session);
        }
    }
    let count = keeper.forget(rt, all.server.site, sessions);
    figures.sessions.forgotten.add_many(count as u64);
}

/// Forgets all sessions that ended long enough ago, with pauses for the others.
pub fn forget_ended<'s, 'r, S: SharedSite, M: Machine, G: Log, K: Housekeeper<S>>(
    rt: &'s M,
    all: &'s Shared<'s, 'r, S, M, G>,
    keeper: &mut K,
    forgetting: &mut Forgetting,
) {
    let figures = &all.furniture.figures;
    let now = figures.seconds(rt);
    let _ = forgetting.read(rt, figures, now);
    for _ in rt.forever() {
        let Ok(due) = forgetting.take_due(now) else {
            break;
        };
        if due.is_empty() {
            break;
        }
        forget_some(rt, all, keeper, due.as_slice());
        thread::sleep(rt, Duration::from_millis(PAUSE_MILLIS));
    }
    forgetting.tell(figures, now);
}
