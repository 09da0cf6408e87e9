//! A site whose calls are noted, and some of them timed.
ghost use Rattle.std.specs.Prelude.{◌≡◌};

use crate::meters::Meters;
use dia_base::Identity;
use pcrf_values::{DiameterIdentity, HashSeed};
use site_lock::{Dated, Event, Grown, Reply, SharedSite, StepFault};
use std::sync::Wait;
use std::thread::Threads;
use std::time::{Clock, Duration};

/// Of so many calls of a seat one is timed, from its first on: reading the clock twice costs more than all else that is noted of a call. It
/// is a prime, so that where kinds of calls take turns, as messages and pushes do, each is timed.
const TIMED_EVERY: u64 = 7;

/// A site that threads share, with what is noted of its calls.
#[derive(Drop)]
pub struct MeteredSite<'r, S, C> {
    site: S,
    clock: &'r C,
    meters: &'r Meters,
}

impl<'r, S, C: Clock> MeteredSite<'r, S, C> {
    /// That site. Its calls are noted there.
    pub fn of(site: S, clock: &'r C, meters: &'r Meters) -> MeteredSite<'r, S, C>
        ensures { result.site ≡ site }
    {
        MeteredSite {
            site,
            clock,
            meters,
        }
    }

    /// The site beneath.
    pub fn site(&self) -> &S
        ensures { result.now ≡ self.now.site }
    {
        &self.site
    }

    /// A call that is timed took the time since then, unless the machine tells no time.
    fn tell(&self, begun: Option<Duration>) {
        let Some(begun) = begun else {
            return;
        };
        let Ok(ended) = self.clock.monotonic() else {
            return;
        };
        let taken = ended.saturating_sub(begun).as_nanos();
        self.meters
            .times
            .add(u64::try_from(taken).unwrap_or(u64::MAX));
    }
}

impl<S: SharedSite, C: Clock> MeteredSite<'_, S, C> {
    /// When a call of a seat begins, if it is one that is timed, and the machine tells the time.
    fn begin(&self, seat: &S::Seat, event: &Event) -> Option<Duration> {
        if self.site.calls_of(seat) % TIMED_EVERY != 0 || is_asking(event) {
            return None;
        }
        self.clock.monotonic().ok()
    }
}

/// Whether an event only asks what the site made or holds, as is done again and again.
fn is_asking(event: &Event) -> bool {
    matches!(event, Event::AskOwn(_) | Event::AskWhole)
}

/// Noted are the calls that wait for nothing but the lock. Of each seat's some are timed, unless they only ask: from when the lock is asked
/// for to the reply.
impl<S: SharedSite, C: Clock> SharedSite for MeteredSite<'_, S, C> {
    type Seat = S::Seat;

    ghost seen = { S.seen };

    ghost beside = { λ metered. S.beside metered.site };

    ghost found = { S.found };

    ghost answered = { S.answered };

    ghost has_begun = { S.has_begun };

    fn identity(&self) -> &Identity {
        self.site.identity()
    }

    fn edition(&self) -> u32 {
        self.site.edition()
    }

    fn seed(&self) -> HashSeed {
        self.site.seed()
    }

    fn number(&self) -> u8 {
        self.site.number()
    }

    fn number_of(&self, seat: &S::Seat) -> usize {
        self.site.number_of(seat)
    }

    fn calls_of(&self, seat: &S::Seat) -> u64 {
        self.site.calls_of(seat)
    }

    fn last_of(&self, seat: &S::Seat) -> Option<u64> {
        self.site.last_of(seat)
    }

    fn wants_push<R: Wait>(&self, rt: &R, seat: &mut S::Seat, host: &DiameterIdentity) -> bool {
        self.site.wants_push(rt, seat, host)
    }

    fn wants_abort<R: Wait>(&self, rt: &R, seat: &mut S::Seat, host: &DiameterIdentity) -> bool {
        self.site.wants_abort(rt, seat, host)
    }

    fn is_quiet<R: Wait>(&self, rt: &R, seat: &mut S::Seat) -> bool {
        self.site.is_quiet(rt, seat)
    }

    fn call<R: Threads + Wait + Sync>(
        &self,
        rt: &R,
        seat: &mut S::Seat,
        event: &Event,
    ) -> Result<Reply, StepFault> {
        let begun = self.begin(seat, event);
        let reply = self.site.call(rt, seat, event);
        self.tell(begun);
        if let Ok(told) = &reply {
            self.meters.note(rt, event, told);
        }
        reply
    }

    fn call_dated<R: Threads + Wait + Sync>(
        &self,
        rt: &R,
        seat: &mut S::Seat,
        event: &Event,
    ) -> Result<Dated, StepFault> {
        let begun = self.begin(seat, event);
        let told = self.site.call_dated(rt, seat, event);
        self.tell(begun);
        if let Ok(dated) = &told {
            self.meters.note(rt, event, &dated.reply);
        }
        told
    }

    fn call_alone<R: Wait>(
        &self,
        rt: &R,
        seat: &mut S::Seat,
        event: &Event,
    ) -> Result<Reply, StepFault> {
        let begun = self.begin(seat, event);
        let reply = self.site.call_alone(rt, seat, event);
        self.tell(begun);
        if let Ok(told) = &reply {
            self.meters.note(rt, event, told);
        }
        reply
    }

    fn call_grown<R: Threads + Wait + Sync>(
        &self,
        rt: &R,
        seat: &mut S::Seat,
        event: &Event,
        past: u64,
    ) -> Result<Reply, StepFault> {
        self.site.call_grown(rt, seat, event, past)
    }

    fn call_grown_since<R: Threads + Wait + Sync>(
        &self,
        rt: &R,
        seat: &mut S::Seat,
        event: &Event,
        past: u64,
        begun: u16,
    ) -> Result<Grown, StepFault> {
        self.site.call_grown_since(rt, seat, event, past, begun)
    }
}
