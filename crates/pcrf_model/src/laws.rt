//! The laws of the definitions, each the contract of a function without a body.

ghost use Rattle.pcrf_model.specs.Laws.{KeepsUnions, KeepsUnionsOfHoldings, KeepsEachSession, KeepsOnce, ReplacingChangesOne, UnionIsCommutative, UnionIsAssociative, UnionIsIdempotent, OnlyOperationsCount, HoldsTheUnion, HoldsJustTheFacts, SameOperationsHoldTheSame, SessionsAreReadAlone, KeptShowsTheSame, OnlyMembersCount, KeptReadsTheSame, MembersReadTheSame, KeptHasTheSameValue, KeptServesTheSame, KeptPushesTheSame, KeptAbortsTheSame, KeptRetellsTheSame, KeptStepsTheSame, DifferenceLeadsThere, NoNameTwice, FirstLeavesTheRest, FirstIsAll, ToldIsTold, BindsToTheGreatest, BindsToNoneWhereNoneMatches, PushesTheFirstDue, PushesNoneWhereNoneIsDue, AbortsTheFirstAbandoned, AbortsNoneWhereNoneIsAbandoned, AbortsOnce, AbortChangesNothingElse, RetellingLeavesAllRules, RetellingChangesNothingElse, RetellsOnce, RetellingIsAgreed, RuleNamesDiffer, SessionIsTold, ProvisioningTells, PushingTells, TakingChangesOne, UnionShowsWhatOneShows, ShowsAFact, OthersKeepTheirRules, AllKeepTheirRules, UnboundKeepTheirRules, HistoriesCompose, HistoriesKeep, UnionKeepsTheForm, KeepingKeepsTheForm, OperationsMakeTheForm, ServingAddsTheForm, PushingAddsTheForm, AbortingAddsTheForm, RetellingAddsTheForm};
ghost use Rattle.pcrf_model.specs.CursorLaws.{EntriesAreTaken, PeersSaidWhatTheyTook, RangesLeaveNoGap, SnapshotsHoldWhatWasTaken, TakingHoldsTheUnion};
ghost use Rattle.pcrf_model.specs.Seen.{SeenIsWhatWasTaken, SnapshotsStay};
ghost use Rattle.pcrf_model.specs.Waiting.{PushesTheFirstWaiting, OnlyTheDueNeedWait, NeighboursAreEnough, OneIsEnough, BoundAreEnough, AllAtHomeAreEnough};

/// What is kept of what was kept and of more is what is kept of all.
pub fn keeping_keeps_unions()
    ensures facts { KeepsUnions }
    ensures holdings { KeepsUnionsOfHoldings }
    ensures sessions { KeepsEachSession }
    ensures once { KeepsOnce }
{}

/// Where the facts of one session are replaced every other session has what it had.
pub fn replacing_changes_one_session()
    ensures { ReplacingChangesOne }
{}

/// The union of holdings is commutative, associative, and idempotent on what is kept.
pub fn union_is_a_join()
    ensures commutative { UnionIsCommutative }
    ensures associative { UnionIsAssociative }
    ensures idempotent { UnionIsIdempotent }
{}

/// What operations make depends on the set of them alone, and of two sets together it is the union.
pub fn only_the_set_of_operations_counts()
    ensures same { OnlyOperationsCount }
    ensures union { HoldsTheUnion }
    ensures facts { HoldsJustTheFacts }
    ensures sites { SameOperationsHoldTheSame }
{}

/// Of each session its own facts are read; the kept facts show what all facts show, and only the set of facts counts.
pub fn kept_facts_show_the_same()
    ensures sessions { SessionsAreReadAlone }
    ensures kept { KeptShowsTheSame }
    ensures members { OnlyMembersCount }
{}

/// All that is read of facts is the same on what is kept of them, and on any list with the same members.
pub fn kept_facts_read_the_same()
    ensures kept { KeptReadsTheSame }
    ensures members { MembersReadTheSame }
    ensures value { KeptHasTheSameValue }
{}

/// A site answers, adds, pushes, aborts and retells the same on what is kept of what it took.
pub fn kept_facts_serve_the_same()
    ensures requests { KeptServesTheSame }
    ensures pushes { KeptPushesTheSame }
    ensures aborts { KeptAbortsTheSame }
    ensures retellings { KeptRetellsTheSame }
    ensures steps { KeptStepsTheSame }
{}

/// The difference leads from what was told to the rules, names nothing twice, and its first entries leave just its rest.
pub fn difference_leads_to_the_rules()
    ensures whole { DifferenceLeadsThere }
    ensures apart { NoNameTwice }
    ensures first { FirstLeavesTheRest }
    ensures all { FirstIsAll }
{}

/// An AF session is bound to just the Gx session that matches and that no other one that matches exceeds, and to none just where none matches.
pub fn binding_is_the_greatest_match()
    ensures greatest { BindsToTheGreatest }
    ensures none { BindsToNoneWhereNoneMatches }
{}

/// The session that is pushed is due and none that is due is before it; none is pushed just where none is due.
pub fn first_due_session_is_pushed()
    ensures first { PushesTheFirstDue }
    ensures none { PushesNoneWhereNoneIsDue }
{}

/// The session that is aborted is abandoned and none that is abandoned is before it; none is aborted
/// just where none is abandoned; none is aborted twice, whatever is taken later; and an abort changes
/// nothing else that is read: no rule, no binding, nothing told.
pub fn first_abandoned_session_is_aborted_once()
    ensures first { AbortsTheFirstAbandoned }
    ensures none { AbortsNoneWhereNoneIsAbandoned }
    ensures once { AbortsOnce }
    ensures alone { AbortChangesNothingElse }
{}

/// After a session's retelling its gateway is still to be told all rules, and nothing else that is read
/// has changed: no rule, no binding, no home, nothing of another session. A second one makes no
/// operation, and each site that takes the operation counts what the gateway was told as not told.
pub fn retelling_leaves_all_rules_to_be_told()
    ensures whole { RetellingLeavesAllRules }
    ensures alone { RetellingChangesNothingElse }
    ensures once { RetellsOnce }
    ensures agreed { RetellingIsAgreed }
{}

/// An operation changes its session alone, and what a place shows after it the place showed before, or the operation gives it.
pub fn operation_changes_its_session_alone()
    ensures one { TakingChangesOne }
    ensures shown { UnionShowsWhatOneShows }
    ensures given { ShowsAFact }
{}

/// Where the facts of one session alone change, only sessions that share an address with it, before or after, can get other rules; none does where
/// it is a gateway's session that binds as before; and where it is an application function's, only those to which it is bound before or after.
pub fn change_of_one_session_changes_its_neighbours_alone()
    ensures others { OthersKeepTheirRules }
    ensures alike { AllKeepTheirRules }
    ensures unbound { UnboundKeepTheirRules }
{}

/// No two rules of one session have one name.
pub fn names_of_rules_differ()
    ensures { RuleNamesDiffer }
{}

/// What a gateway was told of a session is in order, with no name twice; told the difference it has just the session's rules, and told its first
/// entries it lacks just the rest.
pub fn gateway_is_told_the_rules()
    ensures told { ToldIsTold }
    ensures session { SessionIsTold }
{}

/// An accepted initial request, an update or a push tells a gateway the first entries of the difference, and what it lacks then is the rest.
pub fn gateway_lacks_what_the_first_entries_left()
    ensures provisioning { ProvisioningTells }
    ensures pushing { PushingTells }
{}

/// Operations of the form make holdings of the form, and a union of such holdings, or what is kept of one, has it.
pub fn holdings_keep_their_form()
    ensures union { UnionKeepsTheForm }
    ensures kept { KeepingKeepsTheForm }
    ensures operations { OperationsMakeTheForm }
{}

/// Served requests, pushes, aborts and retellings add operations of the form.
pub fn sites_add_operations_of_the_form()
    ensures serving { ServingAddsTheForm }
    ensures pushing { PushingAddsTheForm }
    ensures aborting { AbortingAddsTheForm }
    ensures retelling { RetellingAddsTheForm }
{}

/// The session that is pushed to a host is the first that is due of those that wait under it, where all that are due wait; and they do after one
/// session changed, where it waits and those that it can have given other rules, and after a whole state was taken, where all at home wait.
pub fn pushes_look_at_waiting_sessions_alone()
    ensures first { PushesTheFirstWaiting }
    ensures due { OnlyTheDueNeedWait }
    ensures neighbours { NeighboursAreEnough }
    ensures one { OneIsEnough }
    ensures bound { BoundAreEnough }
    ensures all { AllAtHomeAreEnough }
{}

/// After any list of events, what a site's cursors count of a maker is among what the site took, and what it knows of a peer the peer took.
pub fn cursors_count_what_was_taken()
    ensures makers { EntriesAreTaken }
    ensures peers { PeersSaidWhatTheyTook }
{}

/// A range that a site writes by what a peer said in its present epoch leaves no gap there.
pub fn ranges_leave_no_gap()
    ensures { RangesLeaveNoGap }
{}

/// A snapshot holds what its maker had taken when it was made, and who takes it whole holds the union of both.
pub fn snapshots_hold_what_was_taken()
    ensures behind { SnapshotsHoldWhatWasTaken }
    ensures union { TakingHoldsTheUnion }
{}

/// What is seen of a world after an event, by what was seen before, is what is seen of what each site then took; and each snapshot that was ever sent
/// stays what is kept of what its maker had taken.
pub fn what_is_seen_is_what_was_taken()
    ensures seen { SeenIsWhatWasTaken }
    ensures snapshots { SnapshotsStay }
{}

/// A history and one that goes on where it ends are one history, and whoever held at its beginning just what is kept does so at its end.
pub fn histories_compose()
    ensures one { HistoriesCompose }
    ensures kept { HistoriesKeep }
{}
