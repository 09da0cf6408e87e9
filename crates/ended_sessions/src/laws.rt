//! The laws of forgetting, each the contract of a function without a body.
ghost use Rattle.ended_sessions.specs.Laws.{ForgettingChangesOne, ForgettingIsKept, ForgettingLeavesTheLive, ForgettingUnderUnions, LackingTheEndedReadsAlike};

/// To forget a session takes out its facts alone: every other session has the facts that it had, and the clock stays. It makes no
/// difference whether a session is forgotten before or after the state is reduced to what is kept. Facts that come later are joined,
/// for every other session, as if nothing had been forgotten.
pub fn forgetting_is_of_one_session()
    ensures one { ForgettingChangesOne }
    ensures kept { ForgettingIsKept }
    ensures unions { ForgettingUnderUnions }
{}

/// A session that has ended may be forgotten: every place of every session shows the same, the same sessions live, with the same homes,
/// bindings, rules and told entries, and the same pushes and aborts are due at each site. The same holds for a state that lacks any
/// number of sessions that have ended.
pub fn ended_sessions_may_go()
    ensures one { ForgettingLeavesTheLive }
    ensures all { LackingTheEndedReadsAlike }
{}
