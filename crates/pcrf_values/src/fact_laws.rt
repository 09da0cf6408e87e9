//! The laws of the facts of one session, each the contract of a function without a body.

ghost use Rattle.pcrf_values.specs.FactLaws.{JoinsHeld, HeldShowsTheSame, MembersShowTheSame, HeldSaysTheSame, ValueIsTheGreatest, FactGivesAValue, AbortedUntilTheEnd};

/// What is kept of a union is commutative, associative and idempotent, whether or not its parts were kept before.
pub fn kept_facts_join()
    ensures { JoinsHeld }
{}

/// Kept facts show what all facts show, and only the set of facts counts.
pub fn kept_facts_show_the_same()
    ensures held { HeldShowsTheSame }
    ensures members { MembersShowTheSame }
{}

/// The value at a place is the greatest of the facts there, and there is one where there is a fact.
pub fn value_is_the_greatest_fact()
    ensures greatest { ValueIsTheGreatest }
    ensures some { FactGivesAValue }
{}

/// Whether a session is live, its home, its flows with status and rates, and what was told: kept facts say of them what all
/// facts say.
pub fn kept_facts_say_the_same()
    ensures { HeldSaysTheSame }
{}

/// That a session was asked to abort is known as soon as one fact says so, until the session ends.
pub fn abort_is_known_until_the_end()
    ensures { AbortedUntilTheEnd }
{}
