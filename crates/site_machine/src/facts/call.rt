//! The facts of AA requests and session termination requests (TS 29.214, 4.4.1, 4.4.2 and 4.4.4).
ghost use Rattle.std.specs.Prelude.{◌≡◌, ◌∷◌, [], ◌<◌, ◌≤◌, IfOk, map};
ghost use Rattle.pcrf_values.specs.Ascending.{ascending};
ghost use Rattle.pcrf_values.specs.Facts.{End, fact_cmp};
ghost use Rattle.pcrf_values.specs.Held.{kept_list};
ghost use Rattle.pcrf_values.specs.Limits.{site_limit};
ghost use Rattle.lattice_core.specs.SessionFacts.{session_fact};
ghost use Rattle.af_records.specs.RecordFacts.{fact_of};
ghost use Rattle.rx_profile.specs.Requests.{aar_view};
ghost use Rattle.site_machine.specs.Call.{call_fields, call_facts};

use crate::facts::component::put_components;
use crate::facts::forms::note_aar;
use crate::facts::session::{User, session_values};
use af_records::{AfFact, AfRec, AfRequestType, SessionValue};
use pcrf_values::{Enumerated, Tag};
use rx_profile::Aar;
use std::alloc::{AllocError, Global};

/// What values say under a tag.
fn of_values(
    alloc: Global,
    tag: Tag,
    values: Vec<SessionValue<Enumerated<AfRequestType>>>,
) -> Result<Vec<AfFact>, AllocError>
    ensures { IfOk result (λ facts.
        map fact_of facts.items ≡ map (session_fact tag) values.items) }
{
    let mut facts = Vec::new(alloc);
    for value in values {
        facts.push(AfFact::Session(tag, value))?;
    }
    Ok(facts)
}

/// The fields of the session that a request sets.
#[tactic(auto, using(crate::proofs::GivenFields::values_say))]
fn fields_of(alloc: Global, aar: &Aar, tag: Tag) -> Result<Vec<AfFact>, AllocError>
    ensures { IfOk result (λ facts. map fact_of facts.items ≡ call_fields (aar_view aar.now) tag) }
{
    let last = Enumerated::of(AfRequestType::AaRequest);
    let user = User {
        address: aar.address,
        prefix: aar.prefix,
        apn: &aar.apn,
        subscribers: &aar.subscribers,
    };
    let values = session_values(alloc, user, &aar.origin, last)?;
    of_values(alloc, tag, values)
}

/// The record of what an AA request describes, as the operation of a site under a counter has it. None of its facts overshadows
/// another, so the record has them all.
pub fn call_of(alloc: Global, aar: &Aar, counter: u64, site: u8) -> Result<AfRec, AllocError>
    requires first { 1 ≤ counter }
    requires within { site < site_limit }
    ensures held { IfOk result (λ call. call
        ≡ kept_list (call_facts site counter (aar_view aar.now))) }
    ensures all { IfOk result (λ call.
        call ≡ ascending fact_cmp (call_facts site counter (aar_view aar.now))) }
{
    let tag = Tag {
        number: 0,
        counter,
        site,
    };
    note_aar(aar);
    let components = aar.components.as_slice();
    let mut facts = fields_of(alloc, aar, tag)?;
    put_components(&mut facts, tag, components)?;
    AfRec::of(facts)
}

/// The fact that an accepted session termination request makes: its session has ended (TS 29.214, 4.4.4).
pub fn end_facts(alloc: Global) -> Result<Vec<AfFact>, AllocError>
    ensures { IfOk result (λ facts. map fact_of facts.items ≡ End ∷ []) }
{
    let mut facts = Vec::new(alloc);
    facts.push(AfFact::End)?;
    Ok(facts)
}

/// The record of a session that has ended.
pub fn ended_call(alloc: Global) -> Result<AfRec, AllocError>
    ensures { IfOk result (λ known. known ≡ End ∷ []) }
{
    AfRec::of_facts(alloc, &[AfFact::End])
}
