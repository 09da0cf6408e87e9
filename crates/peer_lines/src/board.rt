//! The seats at which letters of peer sites are taken, one for each site, and the link of each; and which sites are gone that may have told
//! something to this site alone.
use crate::heads::Sender;
use crate::line::Line;
use std::alloc::AllocError;
use std::sync::{Arc, Condvar, CondvarTimeouts, Mutex, Wait};
use std::time::{Clock, Duration, Instant};

/// For how many seconds a peer site whose link ended may begin another one, before it counts as gone.
const RETURN_SECONDS: u64 = 5;

/// The seat of a peer site.
#[derive(Drop)]
pub struct Slot<S: Drop> {
    /// Who it is for, since its first letter.
    sender: Option<Sender>,
    /// The number of its link, and this, which a newer one takes the place of.
    link: Option<(u64, Arc<Line>)>,
    /// The seat, while nobody uses it.
    seat: Option<S>,
    /// When its link ended, as long as its site may come back.
    ended: Option<Instant>,
}

impl<S: Drop> Slot<S> {
    /// One for nobody yet.
    pub fn of(seat: S) -> Slot<S> {
        Slot {
            sender: None,
            link: None,
            seat: Some(seat),
            ended: None,
        }
    }

    /// Whether its site counts as gone from now on.
    fn is_given_up(&mut self, now: Instant) -> bool {
        let Some(ended) = self.ended else {
            return false;
        };
        if now.duration_since(ended) < Duration::from_secs(RETURN_SECONDS) {
            return false;
        }
        self.ended = None;
        true
    }

    /// Whether a link of that site may have it.
    fn is_for(&self, site: u8) -> bool {
        match self.sender {
            Some(sender) => sender.site == site,
            None => false,
        }
    }

    /// Whether that one is its site in another epoch.
    fn began_again(&self, sender: Sender) -> bool {
        match self.sender {
            Some(before) => before.epoch != sender.epoch,
            None => false,
        }
    }

    /// Whether that link is still its link.
    fn has_link(&self, number: u64) -> bool {
        match &self.link {
            Some((current, _)) => *current == number,
            None => false,
        }
    }
}

/// What is known of the peer sites.
#[derive(Drop)]
struct Peers<S: Drop> {
    slots: Vec<Slot<S>>,
    /// How many links there were.
    links: u64,
    /// A peer site told all that it holds.
    is_told: bool,
    /// How often a peer site was gone.
    losses: u64,
}

/// The seats at which letters are taken.
#[derive(Drop)]
pub struct Board<S: Drop> {
    peers: Mutex<Peers<S>>,
    changed: Condvar,
}

/// A link that has a place at the board.
#[derive(Clone, Copy)]
pub struct Claim {
    slot: usize,
    link: u64,
    /// The epoch in which its site was before, if it is a later one.
    pub later: Option<u16>,
}

impl<S: Drop> Board<S> {
    /// With these seats.
    pub fn start(slots: Vec<Slot<S>>) -> Board<S> {
        Board {
            peers: Mutex::new(Peers {
                slots,
                links: 0,
                is_told: false,
                losses: 0,
            }),
            changed: Condvar::new(),
        }
    }

    /// Gives a link the place of its site, and ends the one that had it; none where there are more sites than peers.
    pub fn claim(
        &self,
        rt: &impl Wait,
        sender: Sender,
        line: &Arc<Line>,
    ) -> Result<Option<Claim>, AllocError> {
        let line = Arc::try_clone(line)?;
        let mut guard = self.peers.lock(rt);
        let peers = &mut *guard;
        let link = peers.links;
        peers.links = link.saturating_add(1);
        let Some(slot) = place_of(peers.slots.as_slice(), sender.site) else {
            return Ok(None);
        };
        let Some(place) = peers.slots.get_mut(slot) else {
            return Ok(None);
        };
        let later = match place.sender {
            Some(before) if before.epoch > sender.epoch => Some(before.epoch),
            _ => None,
        };
        if place.began_again(sender) {
            peers.losses = peers.losses.saturating_add(1);
        }
        place.ended = None;
        if let Some((_, old)) = &place.link {
            old.end();
        }
        place.sender = Some(sender);
        place.link = Some((link, line));
        self.changed.notify_all();
        Ok(Some(Claim { slot, link, later }))
    }

    /// The seat of a link, once the one before has given it back; none where a newer link took its place.
    pub fn take(&self, rt: &impl Wait, claim: Claim) -> Option<S> {
        let mut peers = self
            .changed
            .wait_while(rt, self.peers.lock(rt), |peers| peers.is_awaited(claim));
        let slot = peers.slots.get_mut(claim.slot)?;
        if !slot.has_link(claim.link) {
            return None;
        }
        slot.seat.take()
    }

    /// A link has ended, and gives its seat back.
    pub fn give_back<R: Wait + Clock>(&self, rt: &R, claim: Claim, seat: S) {
        let now = Instant::now(rt).ok();
        let mut peers = self.peers.lock(rt);
        if let Some(slot) = peers.slots.get_mut(claim.slot) {
            slot.seat = Some(seat);
            if slot.has_link(claim.link) {
                slot.link = None;
                slot.ended = now;
            }
        }
        self.changed.notify_all();
    }

    /// How often a peer site was gone so far: its link ended, and it began no other one in its epoch for some seconds. What it told last may
    /// be known to this site alone, which tells the others then all that it holds.
    pub fn losses<R: Wait + Clock>(&self, rt: &R) -> u64 {
        let mut guard = self.peers.lock(rt);
        let peers = &mut *guard;
        let Ok(now) = Instant::now(rt) else {
            return peers.losses;
        };
        for slot in &mut peers.slots {
            if slot.is_given_up(now) {
                peers.losses = peers.losses.saturating_add(1);
            }
        }
        peers.losses
    }

    /// A peer site told all that it holds.
    pub fn told(&self, rt: &impl Wait) {
        let mut peers = self.peers.lock(rt);
        peers.is_told = true;
        self.changed.notify_all();
    }

    /// Waits until a peer site told all that it holds, but so many seconds at most.
    pub fn wait<R: Wait + Clock>(&self, rt: &R, seconds: u64) {
        let (peers, _) = self.changed.wait_timeout_while(
            rt,
            self.peers.lock(rt),
            Duration::from_secs(seconds),
            |peers| !peers.is_told,
        );
        drop(peers);
    }
}

impl<S: Drop> Peers<S> {
    /// Whether a link has still to wait for its seat.
    fn is_awaited(&self, claim: Claim) -> bool {
        match self.slots.get(claim.slot) {
            Some(slot) => slot.has_link(claim.link) && slot.seat.is_none(),
            None => false,
        }
    }
}

/// The place of a site: its own, or one that is nobody's yet.
fn place_of<S: Drop>(slots: &[Slot<S>], site: u8) -> Option<usize> {
    let mut free = None;
    for (place, slot) in slots.iter().enumerate() {
        if slot.is_for(site) {
            return Some(place);
        }
        if slot.sender.is_none() && free.is_none() {
            free = Some(place);
        }
    }
    free
}
