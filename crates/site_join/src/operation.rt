//! Operations: what accepted requests and pushes make, and what sites send each other.
ghost use Rattle.std.specs.Prelude.{◌≡◌, ◌≤◌, IfOk, map, true};
ghost use Rattle.pcrf_values.specs.Limits.{last_counter};
ghost use Rattle.pcrf_model.specs.Forms.{is_operation, is_record};
ghost use Rattle.pcrf_model.specs.Sessions.{Gx, Af};
ghost use Rattle.gx_records.specs.GxFacts as gx_facts;
ghost use Rattle.af_records.specs.RecordFacts as af_facts;
ghost use Rattle.site_join.specs.Formed.{if_formed, operation_of};
ghost use Rattle.site_join.specs.States.{session_of, facts_in};

use crate::form::{is_operation, is_record};
use af_records::AfFact;
use gx_records::GxFact;
use lattice_core::copy_facts;
use pcrf_values::{AfSid, GxSid, Ranked};
use std::alloc::AllocError;
use std::marker::Model;

/// A session with facts on it.
#[derive(Debug, Drop)]
pub enum SessionFacts {
    /// A gateway's session (TS 29.212).
    Gx(GxSid, Vec<GxFact>),
    /// An AF session (TS 29.214).
    Af(AfSid, Vec<AfFact>),
}

impl SessionFacts {
    /// Equal facts on the same session.
    pub fn try_copy(&self) -> Result<SessionFacts, AllocError>
        ensures session { IfOk result (λ r. session_of r ≡ session_of self.now) }
        ensures facts { IfOk result (λ r. facts_in r ≡ facts_in self.now) }
    {
        match self {
            SessionFacts::Gx(id, facts) => {
                let facts = copy_facts(*facts.allocator(), facts.as_slice())?;
                Ok(SessionFacts::Gx(id.try_copy()?, facts))
            }
            SessionFacts::Af(id, facts) => {
                let facts = copy_facts(*facts.allocator(), facts.as_slice())?;
                Ok(SessionFacts::Af(id.try_copy()?, facts))
            }
        }
    }
}

/// There is a fact, and each is one of some operation on a gateway's session: so a record can be made of them.
pub fn are_gx_facts(facts: &[GxFact]) -> bool
    ensures { result ≡ is_record Gx (map gx_facts.fact_of facts.now) }
{
    is_record(facts)
}

/// There is a fact, and each is one of some operation on an application function's session.
pub fn are_af_facts(facts: &[AfFact]) -> bool
    ensures { result ≡ is_record Af (map af_facts.fact_of facts.now) }
{
    is_record(facts)
}

/// What one accepted request or push adds to what its site knows: the counter and the site that it is stamped with, the
/// CC-Request-Number (0 where there is none), a session, and facts on it.
///
/// Each is one that a site may make: it has a counter of 1 or more and a site that there may be; the CC-Request-Number, 0 for an
/// application function's session; and facts on the session, at ascending positions, of which none removes another, each
/// with the tag that an operation of that stamp and number gives it, and each rule that was told under its own name.
#[derive(Debug, Drop)]
pub struct Operation {
    counter: u64,
    site: u8,
    number: u32,
    facts: SessionFacts,
}

impl Model for Operation {
    ghost use Rattle.std.specs.Prelude.{◌≡◌, true};
    ghost use Rattle.pcrf_model.specs.Forms.{is_operation, is_record};
    ghost use Rattle.pcrf_model.specs.Sessions.{Gx, Af};
    ghost use Rattle.gx_records.specs.GxFacts as gx_facts;
    ghost use Rattle.af_records.specs.RecordFacts as af_facts;
    ghost use Rattle.pcrf_model.specs.Operations.{Operation};
    ghost use Rattle.site_join.specs.Formed.{operation_of};

    ghost Value = { Operation };

    ghost view = { λ o. operation_of o.counter o.site o.number o.facts };

    ghost invariant = { λ o. is_operation (operation_of o.counter o.site o.number o.facts) ≡ true };
}

impl Operation {
    /// The operation of these parts; `None` where no site may make it.
    pub fn of(counter: u64, site: u8, number: u32, facts: SessionFacts) -> Option<Operation>
        ensures { result ≡ if_formed (operation_of counter site number facts) }
    {
        if !is_operation(counter, site, number, &facts) {
            return None;
        }
        Some(Operation::with_stamp(counter, site, number, facts))
    }

    /// The operation of these parts, which the caller knows that a site may make: nothing is judged.
    pub fn with_stamp(counter: u64, site: u8, number: u32, facts: SessionFacts) -> Operation
        requires { is_operation (operation_of counter site number facts) ≡ true }
        ensures { result ≡ operation_of counter site number facts }
    {
        Operation {
            counter,
            site,
            number,
            facts,
        }
    }

    /// The counter that it is stamped with.
    #[tactic(auto, using(crate::proofs::FormedLaws::counter_low))]
    pub fn counter(&self) -> u64
        ensures counter { result ≡ self.now.counter }
        ensures bounded { result ≤ last_counter }
    {
        self.counter
    }

    /// The site that made it.
    pub fn site(&self) -> u8
        ensures { result ≡ self.now.site }
    {
        self.site
    }

    /// The CC-Request-Number, 0 where there is none.
    pub fn number(&self) -> u32
        ensures { result ≡ self.now.number }
    {
        self.number
    }

    /// The session and the facts on it.
    pub fn facts(&self) -> &SessionFacts
        ensures session { session_of result.now ≡ self.now.session }
        ensures facts { facts_in result.now ≡ self.now.facts }
    {
        &self.facts
    }

    /// Does nothing: its contract tells a proof that a site may make the operation.
    pub fn note_form(&self)
        ensures { is_operation self.now ≡ true }
    {
        let _ = &self.facts;
    }

    /// An equal operation.
    pub fn try_copy(&self) -> Result<Operation, AllocError>
        ensures { IfOk result (λ r. r ≡ self.now) }
    {
        let facts = self.facts.try_copy()?;
        Ok(Operation::with_stamp(self.counter, self.site, self.number, facts))
    }
}
