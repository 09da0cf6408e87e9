//! Worked examples at the edges of the definitions, computed, against what is worked out by hand.

ghost use Rattle.std.specs.Prelude.{◌≡◌, ◌+◌, ℕ, List, [], ◌∷◌, Some, None, Err, codes, is_some, is_none, true, replicate, slice_get};
ghost use Rattle.pcrf_values.specs.Applications.{rx_application, relay_application};
ghost use Rattle.pcrf_values.specs.Results.{success, unknown_session_id, authorization_rejected, unable_to_comply, session_not_available};
ghost use Rattle.pcrf_values.specs.Limits.{delta_limit, range_limit};
ghost use Rattle.pcrf_values.specs.Places.{OfRuleName, apn};
ghost use Rattle.pcrf_values.specs.Values.{Text, Told, Untold};
ghost use Rattle.pcrf_model.specs.Holdings.{kept_of};
ghost use Rattle.pcrf_model.specs.Views.{value, view};
ghost use Rattle.pcrf_model.specs.Pushing.{lacks_counter};
ghost use Rattle.pcrf_model.specs.Replies.{OnGx, Granted, Done, Refused, OnBase};
ghost use Rattle.pcrf_model.specs.Letters.{Range};
ghost use Rattle.pcrf_model.specs.Steps.{kept_state, own_from, Replays};
ghost use Rattle.pcrf_model.specs.Worlds.{SiteTook, PushAt, Restart, EpochFull, ClockFull, start, WholeLogs, ByCursors, epoch_of, log_in};
ghost use Rattle.std.proofs.Common.{option_map};
ghost use Rattle.pcrf_model.specs.Letterbox.{writing, exchange, exchange_answers, answers_all, astray, astray_answers, answer_at_its_end, body_of, count_taken, seen_holding, seen_cursor, cursor, two_requests};
ghost use Rattle.pcrf_model.specs.Samples.{operator, first_session, second_session, host_address, nobodys_address, initial, update, termination, call, hang_up, audio, capabilities, sip_rule, delta};
ghost use Rattle.pcrf_model.specs.Scenes.{empty_site, answers, serves, pushes, pushed, seen, rejected, push_of, no_push, at_the_end, with_call, one, last_operation, call_at_the_end};
ghost use Rattle.pcrf_model.specs.Edges.{pushed_session, two_due, flow_removed, flow_described_again, flow_status, update_to, moved_access_point, call_ended, told_as, own_of, letter_of_many, both_epochs, first_of_older};

/// Of two sessions that are due the one with the lesser Session-Id is pushed; where a host is named, that host's; where
/// no session is of that host, none.
pub fn pushes_go_to_the_named_host_and_the_least_session()
    ensures any { pushed_session None ≡ Some first_session.id }
    ensures first_host { pushed_session (Some (codes "gw")) ≡ Some first_session.id }
    ensures other_host { pushed_session (Some (codes "gw2")) ≡ Some second_session.id }
    ensures no_host { pushed_session (Some (codes "gw3")) ≡ None }
{}

/// At the last counter every request that would make an operation is refused, and what is due can't be pushed; a call
/// that would bind to none is refused for that first.
pub fn no_request_is_accepted_at_the_last_counter()
    ensures initial { answers 0 at_the_end (initial second_session (host_address 2))
        ≡ rejected unable_to_comply }
    ensures termination { answers 0 at_the_end (termination first_session 1)
        ≡ rejected unable_to_comply }
    ensures call { answers 0 at_the_end (call (Some (host_address 1)) (audio ∷ []))
        ≡ Refused unable_to_comply }
    ensures unbound { answers 0 at_the_end (call (Some nobodys_address) (audio ∷ []))
        ≡ Refused session_not_available }
    ensures hang_up { answers 0 call_at_the_end hang_up ≡ Refused unable_to_comply }
    ensures push { lacks_counter operator 0 call_at_the_end.holding None ≡ true }
{}

/// A flow that is removed takes its own rule with it, and does not come back when it is described again.
pub fn removed_flow_stays_removed()
    ensures pushed { pushes 0 flow_removed ≡ push_of (delta (codes "af/af;1/1/1" ∷ []) []) }
    ensures again { answers 0 (pushed 0 flow_removed) (call None (audio ∷ [])) ≡ Done }
    ensures next { pushes 0 (pushed 0 flow_described_again) ≡ no_push }
{}

/// The default quality of service that is answered is that of the access point that the session shows: an update with a
/// lower number that comes late names another, and changes nothing of it.
pub fn late_update_gets_the_quality_of_the_shown_access_point()
    ensures moved { answers 0 one (update_to 5 (codes "net"))
        ≡ OnGx (Granted (delta (codes "op/sip" ∷ []) []) None) }
    ensures late { answers 0 moved_access_point (update_to 3 (codes "ims"))
        ≡ OnGx (Granted (delta [] []) None) }
    ensures shown { value (seen moved_access_point) first_session apn
        ≡ Some (Text (codes "net")) }
{}

/// An update to an access point without a row is refused, and changes nothing.
pub fn update_to_an_unknown_access_point_is_refused()
    ensures refused { answers 0 one (update_to 1 (codes "none")) ≡ rejected authorization_rejected }
    ensures nothing { serves 0 one (update_to 1 (codes "none")) ≡ one }
{}

/// Neither a session that is not known nor one that ended is terminated, and a call that ended is not described again.
pub fn ended_and_unknown_sessions_are_refused()
    ensures unknown { answers 0 empty_site (termination first_session 1)
        ≡ rejected unknown_session_id }
    ensures unknown_call { answers 0 one hang_up ≡ Refused unknown_session_id }
    ensures hung_up { answers 0 call_ended hang_up ≡ Refused unknown_session_id }
    ensures called_again { answers 0 call_ended (call (Some (host_address 1)) (audio ∷ []))
        ≡ Refused unknown_session_id }
{}

/// Rx alone and a relay alone are applications in common.
pub fn one_common_application_is_enough()
    ensures rx { answers 0 empty_site (capabilities (rx_application ∷ [])) ≡ OnBase success }
    ensures relay { answers 0 empty_site (capabilities (relay_application ∷ [])) ≡ OnBase success }
{}

/// A rule that was told ranks above none under equal tags.
pub fn told_rule_stands_above_none_under_equal_tags()
    ensures first { value (view (told_as (Told sip_rule) ∷ told_as Untold ∷ [])) first_session
        (OfRuleName sip_rule.name)
        ≡ Some (Told sip_rule) }
    ensures second { value (view (told_as Untold ∷ told_as (Told sip_rule) ∷ [])) first_session
        (OfRuleName sip_rule.name)
        ≡ Some (Told sip_rule) }
{}

/// A letter carries as many operations as are answered at once, and not one more.
pub fn letters_carry_no_more_than_the_limit()
    ensures most { is_some (letter_of_many range_limit) ≡ true }
    ensures more { letter_of_many (range_limit + 1) ≡ None }
    ensures asked { own_from (replicate (range_limit + 1) last_operation) 0
        ≡ replicate range_limit last_operation }
{}

/// A site that starts again has an empty log; letters of both its epochs are taken, and where memory ran out in the
/// middle of one its first operations stand.
pub fn letters_of_both_epochs_are_taken()
    ensures older { body_of both_epochs 0
        ≡ Some (Range 0 (serves 0 one (update 1 None)).log) }
    ensures newer { body_of both_epochs 1
        ≡ Some (Range 0 (serves 0 empty_site (initial second_session (host_address 2))).log) }
    ensures emptied { count_taken both_epochs 0 ≡ Some 1 }
    ensures taken { count_taken both_epochs 1 ≡ Some 3 }
    ensures in_the_middle { count_taken first_of_older 1 ≡ Some 2 }
{}

/// What a world answers is a function of the events, where memory is found: replies, numbers of letters, and the first
/// fault.
pub fn world_answers_by_its_sites_and_letters()
    ensures exchange { answers_all (writing ByCursors) (start 2) exchange ≡ exchange_answers }
    ensures astray { answers_all (writing WholeLogs) (start 2) astray ≡ astray_answers }
    ensures epoch { answer_at_its_end (Restart 0) ≡ Err EpochFull }
    ensures counter { answer_at_its_end (PushAt 0 None) ≡ Err ClockFull }
{}

/// The log of an epoch stays after a restart, and the epoch counts up.
pub fn logs_of_all_epochs_stay()
    ensures epoch { option_map epoch_of (slice_get both_epochs.sites 0) ≡ Some 2 }
    ensures none { option_map (λ (s : SiteTook). log_in s 0) (slice_get both_epochs.sites 0)
        ≡ Some [] }
    ensures older { option_map (λ (s : SiteTook). log_in s 1) (slice_get both_epochs.sites 0)
        ≡ Some (serves 0 one (update 1 None)).log }
    ensures newer { option_map (λ (s : SiteTook). log_in s 2) (slice_get both_epochs.sites 0)
        ≡ Some (serves 0 empty_site (initial second_session (host_address 2))).log }
{}

/// What is seen of a site that took a letter is what is kept of the letter's operations; its cursor rises where sites write by their cursors.
pub fn what_is_seen_of_a_site_that_took_a_letter()
    ensures by_cursors { seen_holding ByCursors ≡ Some (kept_of one.holding) }
    ensures whole_logs { seen_holding WholeLogs ≡ Some (kept_of one.holding) }
    ensures raised { seen_cursor ByCursors ≡ Some (cursor 1 1) }
    ensures unused { seen_cursor WholeLogs ≡ Some (cursor 0 0) }
{}

/// A history goes on from what is kept: an update overshadows the CC-Request-Type of the initial request.
pub fn history_goes_on_from_what_is_kept()
    ensures { Replays delta_limit operator 0 empty_site two_requests
        (kept_state (serves 0 (kept_state one) (update 1 None))) }
{}
