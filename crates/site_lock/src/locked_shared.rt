//! A site whose history is kept when the program runs: a book under a lock.
use crate::living::{Dated, Grown};
use crate::locked::LockedSite;
use crate::shared::SharedSite;
use dia_base::Identity;
use pcrf_values::{DiameterIdentity, HashSeed};
use site_book::Seat;
use site_machine::{Event, Reply, StepFault};
use std::sync::Wait;
use std::sync::ledger::Ledger;
use std::thread::Threads;

impl<L: Ledger> SharedSite for LockedSite<L> {
    ghost use Rattle.std.specs.Prelude.{◌≡◌};

    type Seat = Seat<L>;

    ghost seen = { λ s. s };

    ghost beside = { λ s. s };

    ghost found = { λ seat site. ⊥ };

    ghost answered = { λ seat begun. begun ≡ 0 };

    ghost has_begun = { λ seat begun. begun ≡ 0 };

    fn identity(&self) -> &Identity {
        self.identity()
    }

    fn edition(&self) -> u32 {
        self.edition()
    }

    fn seed(&self) -> HashSeed {
        self.seed()
    }

    fn number(&self) -> u8 {
        self.number()
    }

    fn number_of(&self, seat: &Seat<L>) -> usize {
        seat.number()
    }

    fn calls_of(&self, seat: &Seat<L>) -> u64 {
        seat.receipts().len() as u64
    }

    #[tactic(auto, using(crate::proofs::Places::place_told))]
    fn last_of(&self, seat: &Seat<L>) -> Option<u64> {
        match seat.receipts().last() {
            Some(receipt) => Some(receipt.place() as u64),
            None => None,
        }
    }

    fn wants_push<R: Wait>(&self, _rt: &R, _seat: &mut Seat<L>, _host: &DiameterIdentity) -> bool {
        true
    }

    fn wants_abort<R: Wait>(&self, _rt: &R, _seat: &mut Seat<L>, _host: &DiameterIdentity) -> bool {
        true
    }

    fn is_quiet<R: Wait>(&self, _rt: &R, _seat: &mut Seat<L>) -> bool {
        false
    }

    fn call<R: Threads + Wait + Sync>(
        &self,
        rt: &R,
        seat: &mut Seat<L>,
        event: &Event,
    ) -> Result<Reply, StepFault> {
        self.call(rt, seat, event)
    }

    fn call_dated<R: Threads + Wait + Sync>(
        &self,
        rt: &R,
        seat: &mut Seat<L>,
        event: &Event,
    ) -> Result<Dated, StepFault> {
        let reply = self.call(rt, seat, event)?;
        Ok(Dated { reply, begun: 0 })
    }

    fn call_alone<R: Wait>(
        &self,
        rt: &R,
        seat: &mut Seat<L>,
        event: &Event,
    ) -> Result<Reply, StepFault> {
        self.call_alone(rt, seat, event)
    }

    fn call_grown<R: Threads + Wait + Sync>(
        &self,
        rt: &R,
        seat: &mut Seat<L>,
        event: &Event,
        past: u64,
    ) -> Result<Reply, StepFault> {
        self.call_grown(rt, seat, event, past)
    }

    /// It never begins anew: who waits for what it made after it had is told so at once.
    fn call_grown_since<R: Threads + Wait + Sync>(
        &self,
        rt: &R,
        seat: &mut Seat<L>,
        event: &Event,
        past: u64,
        begun: u16,
    ) -> Result<Grown, StepFault> {
        if begun != 0 {
            return Ok(Grown::BegunAnew(0));
        }
        let reply = self.call_grown(rt, seat, event, past)?;
        Ok(Grown::Told(reply))
    }
}
