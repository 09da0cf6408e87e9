//! Worked examples of what a change of one session leaves as it is, of who waits for a push, and of what cursors count.

ghost use Rattle.std.specs.Prelude.{◌≡◌, [], ◌∷◌, Some, None, codes, true, false};
ghost use Rattle.pcrf_values.specs.Values.{Address};
ghost use Rattle.pcrf_model.specs.CursorLaws.{AllSound, FirstTaken, Reaches};
ghost use Rattle.pcrf_model.specs.Laws.{BindsAlike, HasAddress, NeverMeet};
ghost use Rattle.pcrf_model.specs.Waiting.{first_waiting, may_be_due};
ghost use Rattle.pcrf_model.specs.Neighbours.{count_rules, counted, far_call, none_waits, refreshed, two_apart, waits, written_from};
ghost use Rattle.pcrf_model.specs.Samples.{operator, call_session, first_session, second_session, host_address};
ghost use Rattle.pcrf_model.specs.Scenes.{call_pushed, one, seen, updated, with_call};

/// A call at the address of the second session never meets the first session, which keeps its rules, and meets the second,
/// which gets two more.
pub fn call_changes_the_rules_of_its_neighbour_alone()
    ensures apart { NeverMeet (seen two_apart) (seen far_call) call_session first_session }
    ensures meets { HasAddress (seen two_apart) (seen far_call) call_session
        (Address (host_address 2)) }
    ensures met { HasAddress (seen two_apart) (seen far_call) second_session
        (Address (host_address 2)) }
    ensures before { count_rules two_apart first_session ≡ 1 }
    ensures kept { count_rules far_call first_session ≡ 1 }
    ensures other { count_rules two_apart second_session ≡ 1 }
    ensures more { count_rules far_call second_session ≡ 3 }
{}

/// An update that gives no address leaves its session to bind as before, and one to another address doesn't.
pub fn session_binds_alike_where_its_address_stays()
    ensures again { BindsAlike (seen one) (seen refreshed) first_session }
    ensures moved { BindsAlike (seen one) (seen updated) first_session → ⊥ }
{}

/// Of the sessions that wait the first that is due is pushed, and none where none waits or the one that does isn't due; told
/// or not, a live session at home may be due.
pub fn only_sessions_that_wait_are_pushed()
    ensures due { first_waiting operator 0 (seen with_call) (waits first_session) (codes "gw")
        ≡ Some first_session }
    ensures none { first_waiting operator 0 (seen with_call) none_waits (codes "gw") ≡ None }
    ensures other_host { first_waiting operator 0 (seen with_call) (waits first_session)
        (codes "gw2") ≡ None }
    ensures told { first_waiting operator 0 (seen call_pushed) (waits first_session) (codes "gw")
        ≡ None }
    ensures told_may { may_be_due 0 (seen call_pushed) (codes "gw") first_session ≡ true }
    ensures away { may_be_due 1 (seen call_pushed) (codes "gw") first_session ≡ false }
{}

/// An entry reaches as far as one of an earlier epoch, or of the same with a cursor that is no greater; the first operation
/// of a site's log is among what it took, and there is no second.
pub fn cursors_count_the_first_operations_of_a_log()
    ensures later { Reaches (counted 1 3) (counted 2 0) }
    ensures further { Reaches (counted 1 3) (counted 1 4) }
    ensures earlier { Reaches (counted 2 0) (counted 1 3) → ⊥ }
    ensures shorter { Reaches (counted 1 3) (counted 1 2) → ⊥ }
    ensures first { FirstTaken 1 one.log one.log }
    ensures no_second { FirstTaken 2 one.log one.log → ⊥ }
{}

/// A world is sound whose site tells its one operation at the place where its log has it, and not where the letter tells it
/// one place further on.
pub fn letters_tell_a_log_at_its_places()
    ensures sound { AllSound (written_from 0) }
    ensures further { AllSound (written_from 1) → ⊥ }
{}
