//! Records of sessions (`gx_records`, `af_records`): made of the facts of an operation, and joined with that of another.
use crate::fault::{Fault, Unmeasured};
use crate::measures::figures::Figures;
use af_records::{AfFact, AfRec};
use gx_records::{GxFact, GxRec};
use lattice_core::Join;
use site_join::{Operation, SessionFacts, are_af_facts, are_gx_facts};
use std::alloc::{AllocError, AllocGlobal, Global};
use std::time::{Clock, Duration, Instant};

/// A record of one kind of session, made of facts.
trait SessionRecord: Join {
    /// A fact of such a session.
    type Fact: Drop;

    /// The record of these facts, which are judged first.
    fn record_of(alloc: Global, facts: &[Self::Fact]) -> Result<Self, AllocError>;
}

impl SessionRecord for GxRec {
    type Fact = GxFact;

    fn record_of(alloc: Global, facts: &[GxFact]) -> Result<GxRec, AllocError> {
        if !are_gx_facts(facts) {
            return Err(AllocError);
        }
        GxRec::of_facts(alloc, facts)
    }
}

impl SessionRecord for AfRec {
    type Fact = AfFact;

    fn record_of(alloc: Global, facts: &[AfFact]) -> Result<AfRec, AllocError> {
        if !are_af_facts(facts) {
            return Err(AllocError);
        }
        AfRec::of_facts(alloc, facts)
    }
}

/// Makes records of the facts, and tells how long that takes.
fn time_making<R: SessionRecord>(
    rt: &(impl AllocGlobal + Clock),
    facts: &[R::Fact],
    rounds: u32,
) -> Result<Duration, Fault> {
    let start = Instant::now(rt)?;
    for _ in 0..rounds {
        R::record_of(rt.alloc(), facts)?;
    }
    Ok(start.elapsed(rt)?)
}

/// Makes joins of two records, which stay as they are, and tells how long that takes.
fn time_joins<R: Join>(
    rt: &impl Clock,
    ours: &R,
    theirs: &R,
    rounds: u32,
) -> Result<Duration, Fault> {
    let start = Instant::now(rt)?;
    for _ in 0..rounds {
        ours.joined_copy(theirs)?;
    }
    Ok(start.elapsed(rt)?)
}

/// Makes records of the first facts, and joins one with a record of the others.
fn measure_facts<R: SessionRecord>(
    rt: &(impl AllocGlobal + Clock),
    ours: &[R::Fact],
    theirs: &[R::Fact],
    rounds: u32,
    name: &str,
    figures: &mut Figures,
) -> Result<(), Fault> {
    let making = time_making::<R>(rt, ours, rounds)?;
    figures.add_part(name, "made", rounds as usize, making)?;
    let ours = R::record_of(rt.alloc(), ours)?;
    let theirs = R::record_of(rt.alloc(), theirs)?;
    let joining = time_joins(rt, &ours, &theirs, rounds)?;
    figures.add_part(name, "joined", rounds as usize, joining)
}

/// Makes and joins records of the facts of two operations of one kind.
pub fn measure(
    rt: &(impl AllocGlobal + Clock),
    operations: &[Operation],
    rounds: u32,
    name: &str,
    figures: &mut Figures,
) -> Result<(), Fault> {
    let [first, second] = operations else {
        return Err(Fault::Unmeasured(Unmeasured::NoPair));
    };
    match (first.facts(), second.facts()) {
        (SessionFacts::Gx(_, ours), SessionFacts::Gx(_, theirs)) => {
            measure_facts::<GxRec>(
                rt,
                ours.as_slice(),
                theirs.as_slice(),
                rounds,
                name,
                figures,
            )
        }
        (SessionFacts::Af(_, ours), SessionFacts::Af(_, theirs)) => {
            measure_facts::<AfRec>(
                rt,
                ours.as_slice(),
                theirs.as_slice(),
                rounds,
                name,
                figures,
            )
        }
        _ => Err(Fault::Unmeasured(Unmeasured::TwoKinds)),
    }
}
