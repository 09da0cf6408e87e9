//! The form of operations that a site may make, decided.
//!
//! Facts stand together just where all of them are kept (`lattice_core`), so an operation of n facts takes n log n steps.
ghost use Rattle.std.specs.Prelude.{◌≡◌, ◌&&◌, map};
ghost use Rattle.std.specs.List.{list_all};
ghost use Rattle.pcrf_model.specs.Sessions.{Kind};
ghost use Rattle.pcrf_model.specs.Forms.{fits, is_counted, is_operation, is_record, is_stamp, is_tagged, stand_together};
ghost use Rattle.site_join.specs.Formed.{operation_of};
ghost use Rattle.site_join.specs.TagForms.{has_tag};

use crate::operation::SessionFacts;
use crate::tag_form::TagForm;
use lattice_core::{Tag, TypedFact, are_kept};
use pcrf_model::ranges::note_text;
use pcrf_values::limits::{LAST_COUNTER, SITE_LIMIT};

/// A fact of sessions of one kind, as the form of operations asks for it.
pub(crate) trait FormFact: TypedFact {
    /// The kind of the sessions.
    ghost kind: { Kind };

    /// The fact is one of its kind, and its tag of that form.
    fn has_form(&self, form: TagForm) -> bool
        ensures { result ≡ (fits kind (Self.fact self.now)
            && has_tag form kind (Self.fact self.now)) };
}

/// A stamp that a site may give.
pub(crate) fn is_stamp(counter: u64, site: u8) -> bool
    ensures { result ≡ is_stamp counter site }
{
    1 <= counter && counter <= LAST_COUNTER && site < SITE_LIMIT
}

/// The facts may be those of one operation.
fn stand_together<F: FormFact>(facts: &[F]) -> bool
    ensures { result ≡ stand_together (map F.fact facts.now) }
{
    !facts.is_empty() && are_kept(facts)
}

/// Each fact is one of its kind, and its tag of that form.
fn have_form<F: FormFact>(facts: &[F], form: TagForm) -> bool
    ensures { result ≡ list_all (λ f. fits F.kind f && has_tag form F.kind f)
        (map F.fact facts.now) }
{
    let mut left = facts;
    while let Some((first, rest)) = left.split_first() {
        if !first.has_form(form) {
            return false;
        }
        left = rest;
    }
    true
}

/// There is a fact, and each is one of some operation.
pub(crate) fn is_record<F: FormFact>(facts: &[F]) -> bool
    ensures { result ≡ is_record F.kind (map F.fact facts.now) }
{
    !facts.is_empty() && have_form(facts, TagForm::Recorded)
}

/// A state with that clock may hold the facts of one session.
pub(crate) fn are_held<F: FormFact>(facts: &[F], clock: u64) -> bool
    ensures { result ≡ (stand_together (map F.fact facts.now)
        && list_all (λ f. fits F.kind f && is_counted F.kind clock f) (map F.fact facts.now)) }
{
    stand_together(facts) && have_form(facts, TagForm::Counted(clock))
}

/// The facts are those of an operation of that stamp and number.
fn are_of_operation<F: FormFact>(facts: &[F], made: Tag) -> bool
    ensures { result ≡ (stand_together (map F.fact facts.now)
        && list_all (λ f. fits F.kind f
        && is_tagged F.kind made.counter made.site made.number f) (map F.fact facts.now)) }
{
    stand_together(facts) && have_form(facts, TagForm::Made(made))
}

/// The parts are those of an operation that a site may make.
pub(crate) fn is_operation(counter: u64, site: u8, number: u32, facts: &SessionFacts) -> bool
    ensures { result ≡ is_operation (operation_of counter site number facts.now) }
{
    if !is_stamp(counter, site) {
        return false;
    }
    let made = Tag {
        number,
        counter,
        site,
    };
    match facts {
        SessionFacts::Gx(id, facts) => {
            note_text(id.id());
            are_of_operation(facts.as_slice(), made)
        }
        SessionFacts::Af(id, facts) => {
            note_text(id.id());
            number == 0 && are_of_operation(facts.as_slice(), made)
        }
    }
}
