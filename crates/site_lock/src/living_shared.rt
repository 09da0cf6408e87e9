//! A site whose history stands in the proofs alone.
use crate::living::{Dated, Grown, LivingSite, Roll, Seat};
use crate::shared::SharedSite;
use dia_base::Identity;
use pcrf_values::{DiameterIdentity, HashSeed};
use site_machine::{Event, Reply, StepFault};
use std::sync::Wait;
use std::thread::Threads;

impl<L: Roll> SharedSite for LivingSite<L> {
    ghost use Rattle.site_lock.specs.LivingCalls.{IsFound};
    ghost use Rattle.site_lock.specs.Epochs.{HasBegun, IsAnswered};

    type Seat = Seat<L>;

    ghost seen = { λ s. s };

    ghost beside = { λ s. s };

    ghost found = { IsFound L.seats L.opening };

    ghost answered = { IsAnswered L.seats L.opening };

    ghost has_begun = { HasBegun L.seats L.opening };

    fn identity(&self) -> &Identity {
        self.identity()
    }

    fn edition(&self) -> u32 {
        self.edition()
    }

    fn seed(&self) -> HashSeed {
        self.seed()
    }

    fn number(&self) -> u8 {
        self.number()
    }

    fn number_of(&self, seat: &Seat<L>) -> usize {
        seat.number()
    }

    fn calls_of(&self, seat: &Seat<L>) -> u64 {
        seat.calls()
    }

    fn last_of(&self, seat: &Seat<L>) -> Option<u64> {
        seat.last()
    }

    fn wants_push<R: Wait>(&self, rt: &R, seat: &mut Seat<L>, host: &DiameterIdentity) -> bool {
        self.is_waiting(rt, seat, host)
    }

    fn wants_abort<R: Wait>(&self, rt: &R, seat: &mut Seat<L>, host: &DiameterIdentity) -> bool {
        self.is_aborting(rt, seat, host)
    }

    fn is_quiet<R: Wait>(&self, rt: &R, seat: &mut Seat<L>) -> bool {
        self.is_quiet(rt, seat)
    }

    fn call<R: Threads + Wait + Sync>(
        &self,
        rt: &R,
        seat: &mut Seat<L>,
        event: &Event,
    ) -> Result<Reply, StepFault> {
        self.call(rt, seat, event)
    }

    fn call_dated<R: Threads + Wait + Sync>(
        &self,
        rt: &R,
        seat: &mut Seat<L>,
        event: &Event,
    ) -> Result<Dated, StepFault> {
        self.call_dated(rt, seat, event)
    }

    fn call_alone<R: Wait>(
        &self,
        rt: &R,
        seat: &mut Seat<L>,
        event: &Event,
    ) -> Result<Reply, StepFault> {
        self.call_alone(rt, seat, event)
    }

    fn call_grown<R: Threads + Wait + Sync>(
        &self,
        rt: &R,
        seat: &mut Seat<L>,
        event: &Event,
        past: u64,
    ) -> Result<Reply, StepFault> {
        self.call_grown(rt, seat, event, past)
    }

    fn call_grown_since<R: Threads + Wait + Sync>(
        &self,
        rt: &R,
        seat: &mut Seat<L>,
        event: &Event,
        past: u64,
        begun: u16,
    ) -> Result<Grown, StepFault> {
        self.call_grown_since(rt, seat, event, past, begun)
    }
}
