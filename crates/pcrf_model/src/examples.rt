//! Worked examples: what the definitions give, computed, against what is worked out by hand.

ghost use Rattle.std.specs.Prelude.{◌≡◌, ℕ, List, [], ◌∷◌, Some, None, codes, true, false, drop};
ghost use Rattle.pcrf_values.specs.Places.{address, apn, subscribers};
ghost use Rattle.pcrf_values.specs.Values.{Text, Address, Subscribers};
ghost use Rattle.pcrf_values.specs.Limits.{last_counter, delta_limit};
ghost use Rattle.pcrf_model.specs.Holdings.{nothing_held, kept_of, union};
ghost use Rattle.pcrf_model.specs.Views.{value};
ghost use Rattle.pcrf_model.specs.Live.{is_live, home};
ghost use Rattle.pcrf_model.specs.Bindings.{bind};
ghost use Rattle.pcrf_model.specs.Rules.{rules};
ghost use Rattle.pcrf_model.specs.Differences.{told_rules_of};
ghost use Rattle.pcrf_model.specs.SiteOverviews.{Ended, Partial, Live, site_overview};
ghost use Rattle.pcrf_values.specs.Applications.{gx_application};
ghost use Rattle.pcrf_values.specs.Results.{success, unknown_session_id, authorization_rejected, missing_avp, no_common_application, unable_to_comply, service_not_authorized, session_not_available, initial_parameters};
ghost use Rattle.pcrf_model.specs.Replies.{OnGx, Granted, Done, Refused, OnBase};
ghost use Rattle.pcrf_model.specs.Serving.{serve};
ghost use Rattle.pcrf_model.specs.Letters.{Range, Snapshot, Acknowledgement};
ghost use Rattle.pcrf_model.specs.Worlds.{ByCursors, WholeLogs};
ghost use Rattle.pcrf_model.specs.Letterbox.{letter, newer_epoch, range_at, cursor_after, cursor, exchanged, body_of, held_at, count_taken, started_again};
ghost use Rattle.pcrf_model.specs.Samples.{operator, imsi, e164, number_as_imsi, first_session, second_session, call_session, host_address, initial, initial_to, without_access_point, without_address, without_subscriber, nobodys_address, other_media, capabilities, many_flows, update, termination, call, hang_up, call_asking, no_media, signalling_rule, audio, status_only, sip_rule, audio_rule, rtcp_rule, delta};
ghost use Rattle.pcrf_model.specs.Scenes.{live_first, live_call, empty_site, taking, first_counter, ended_under_call, answers, serves, pushes, pushed, seen, granted, rejected, push_of, no_push, count_installed, one, repeated, with_call, with_signalling, call_pushed, disabled, component_removed, described_again, two_sessions, bound_to_second, second_ended, equal_stamps, updated, updated_late, overshadowed, other, other_updated, ended_there, ended_and_told, moved, hung_up, first_after_hang_up, other_after_hang_up, call_elsewhere, call_alone, call_and_session, older_first, newer_first, at_the_end, many_rules, first_forty, all_fifty};

/// An initial request is granted: it installs the operator's rule, with the default quality of service, and the session is live there.
pub fn initial_request_installs_the_operators_rule()
    ensures answer { answers 0 empty_site (initial first_session (host_address 1))
        ≡ granted (delta [] (sip_rule ∷ [])) }
    ensures clock { one.holding.clock ≡ 1 }
    ensures live { is_live (seen one) first_session ≡ true }
    ensures access_point { value (seen one) first_session apn ≡ Some (Text (codes "ims")) }
    ensures home { home (seen one) first_session ≡ Some 0 }
    ensures told { told_rules_of (seen one) first_session ≡ (codes "op/sip", sip_rule) ∷ [] }
{}

/// The same request again is granted, with nothing to install or remove, and changes the clock alone.
pub fn repeated_initial_request_installs_nothing()
    ensures answer { answers 0 one (initial first_session (host_address 1))
        ≡ granted (delta [] []) }
    ensures clock { repeated.holding.clock ≡ 2 }
    ensures address { value (seen repeated) first_session address
        ≡ Some (Address (host_address 1)) }
    ensures subscribers { value (seen repeated) first_session subscribers
        ≡ Some (Subscribers (e164 ∷ imsi ∷ [])) }
{}

/// An update with a lower number that comes later is granted, and the address of the higher number stays.
pub fn late_update_with_a_lower_number_leaves_the_address()
    ensures first { answers 0 one (update 2 (Some (host_address 2))) ≡ granted (delta [] []) }
    ensures second { answers 0 updated (update 1 (Some (host_address 3))) ≡ granted (delta [] []) }
    ensures address { value (seen updated_late) first_session address
        ≡ Some (Address (host_address 2)) }
    ensures clock { updated_late.holding.clock ≡ 3 }
{}

/// A session that ended at one site stays ended, whatever its other site told of it meanwhile.
pub fn ended_session_is_never_revived()
    ensures elsewhere { answers 1 other (update 9 None) ≡ granted (delta [] []) }
    ensures ends { answers 0 one (termination first_session 3) ≡ OnGx (Granted (delta [] []) None) }
    ensures again { answers 0 ended_there (initial first_session (host_address 1))
        ≡ rejected unknown_session_id }
    ensures after_the_letter { answers 0 ended_and_told (initial first_session (host_address 1))
        ≡ rejected unknown_session_id }
{}

/// An update is refused where the session is unknown, and granted there once the site took what made it; the session is then at home there.
pub fn update_moves_the_home_once_the_session_is_known()
    ensures unknown { answers 1 empty_site (update 1 None) ≡ rejected unknown_session_id }
    ensures granted { answers 1 other (update 1 None) ≡ granted (delta [] []) }
    ensures home { home (seen moved) first_session ≡ Some 1 }
    ensures clock { moved.holding.clock ≡ 2 }
{}

/// A call with an audio flow and its RTCP flow is accepted, and its two rules are pushed once.
pub fn call_is_pushed_once()
    ensures answer { answers 0 one (call (Some (host_address 1)) (audio ∷ [])) ≡ Done }
    ensures bound { bind (seen with_call) call_session ≡ Some first_session }
    ensures pushed { pushes 0 with_call ≡ push_of (delta [] (audio_rule 2 ∷ rtcp_rule ∷ [])) }
    ensures next { pushes 0 call_pushed ≡ no_push }
{}

/// A component's status alone changes the rules of its flows that have none of their own: filters and rates stay.
pub fn component_status_alone_changes_its_flows()
    ensures answer { answers 0 call_pushed (call None (status_only 3 ∷ [])) ≡ Done }
    ensures pushed { pushes 0 disabled ≡ push_of (delta [] (audio_rule 3 ∷ [])) }
{}

/// A component that is removed takes its rules with it, and does not come back when it is described again.
pub fn removed_component_stays_removed()
    ensures answer { answers 0 call_pushed (call None (status_only 4 ∷ [])) ≡ Done }
    ensures pushed { pushes 0 component_removed
        ≡ push_of (delta (codes "af/af;1/1/1" ∷ codes "af/af;1/1/2" ∷ []) []) }
    ensures again { answers 0 (pushed 0 component_removed) (call None (audio ∷ [])) ≡ Done }
    ensures next { pushes 0 described_again ≡ no_push }
{}

/// An initial request that lacks its access point is refused, and so is one for an access point without a row.
pub fn initial_requests_are_refused_in_order()
    ensures no_access_point { answers 0 empty_site without_access_point
        ≡ rejected initial_parameters }
    ensures no_address { answers 0 empty_site without_address
        ≡ rejected initial_parameters }
    ensures no_subscriber { answers 0 empty_site without_subscriber
        ≡ rejected initial_parameters }
    ensures no_row { answers 0 empty_site (initial_to (codes "none"))
        ≡ rejected authorization_rejected }
    ensures nothing { serves 0 empty_site (initial_to (codes "none"))
        ≡ empty_site }
{}

/// A call is refused where its address is nobody's, where its media have no row unless they are removed, and where it gives no address; nothing changes.
pub fn calls_are_refused_in_order()
    ensures nobody { answers 0 one (call (Some nobodys_address) (audio ∷ []))
        ≡ Refused session_not_available }
    ensures nothing { (serves 0 one (call (Some nobodys_address) (audio ∷ []))) ≡ one }
    ensures no_row { answers 0 one (call (Some (host_address 1)) (other_media 2 ∷ []))
        ≡ Refused service_not_authorized }
    ensures row_before_binding { answers 0 one (call (Some nobodys_address) (other_media 2 ∷ []))
        ≡ Refused service_not_authorized }
    ensures removed { answers 0 one (call (Some (host_address 1)) (other_media 4 ∷ [])) ≡ Done }
    ensures no_address { answers 0 one (call None (other_media 2 ∷ [])) ≡ Refused missing_avp }
{}

/// Of two sessions with the call's address the one whose address came later has it, and when that ends the other.
pub fn later_session_has_the_call_until_it_ends()
    ensures later { bind (seen bound_to_second) call_session ≡ Some second_session }
    ensures ended { bind (seen second_ended) call_session ≡ Some first_session }
{}

/// Under equal counters and sites the greater Session-Id has the call.
pub fn greater_session_id_has_the_call_under_equal_stamps()
    ensures first { first_counter one ≡ Some 1 }
    ensures second { first_counter (serves 0 empty_site (initial second_session (host_address 1)))
        ≡ Some 1 }
    ensures bound { bind (seen equal_stamps) call_session ≡ Some second_session }
{}

/// Two operations under equal stamps, taken in either order, each twice: the same is kept, and the greater address shows.
pub fn order_of_letters_does_not_count()
    ensures same { kept_of older_first.holding ≡ kept_of newer_first.holding }
    ensures address { value (seen older_first) first_session address
        ≡ Some (Address (host_address 9)) }
    ensures other { value (seen newer_first) first_session address
        ≡ Some (Address (host_address 9)) }
{}

/// A call is bound once its session is known: a site that took the call first has no rules, and has all three when the session comes; the session's home pushes.
pub fn call_is_bound_when_its_session_comes()
    ensures unbound { bind (seen call_alone) call_session ≡ None }
    ensures no_rules { rules operator (seen call_alone) first_session ≡ [] }
    ensures bound { bind (seen call_and_session) call_session ≡ Some first_session }
    ensures three { rules operator (seen call_and_session) first_session
        ≡ sip_rule ∷ audio_rule 2 ∷ rtcp_rule ∷ [] }
    ensures elsewhere { pushes 2 call_and_session ≡ no_push }
    ensures at_home { pushes 0 (taking one call_elsewhere.log)
        ≡ push_of (delta [] (audio_rule 2 ∷ rtcp_rule ∷ [])) }
{}

/// When the call ends at one site and the session moves to another, the new home alone takes the rules back.
pub fn home_that_moved_removes_the_rules()
    ensures update { answers 1 other (update 1 None) ≡ granted (delta [] []) }
    ensures hang_up { answers 0 call_pushed hang_up ≡ Done }
    ensures first { pushes 0 first_after_hang_up ≡ no_push }
    ensures second { pushes 1 other_after_hang_up
        ≡ push_of (delta (codes "af/af;1/1/1" ∷ codes "af/af;1/1/2" ∷ []) []) }
{}

/// At the last counter an update is refused and changes nothing; a clock counts operations that nothing shows any more.
pub fn clock_ends_and_counts_every_operation()
    ensures refused { answers 0 at_the_end (update 1 None) ≡ rejected unable_to_comply }
    ensures nothing { serves 0 at_the_end (update 1 None) ≡ at_the_end }
    ensures clock { overshadowed.holding.clock ≡ 3 }
    ensures snapshot { (union nothing_held (kept_of overshadowed.holding)).clock ≡ 3 }
{}

/// Fifty rules are pushed by forty, then ten, then none.
pub fn fifty_rules_take_two_pushes()
    ensures answer { answers 0 one (call (Some (host_address 1)) (many_flows 50 ∷ [])) ≡ Done }
    ensures first { count_installed (pushes 0 many_rules) ≡ Some 40 }
    ensures second { count_installed (pushes 0 first_forty) ≡ Some 10 }
    ensures third { pushes 0 all_fifty ≡ no_push }
{}

/// A call whose session ended is bound to nothing, and nothing is pushed.
pub fn ended_session_leaves_its_call_unbound()
    ensures unbound { bind (seen ended_under_call) call_session ≡ None }
    ensures pushed { pushes 0 ended_under_call ≡ no_push }
    ensures rules { rules operator (seen ended_under_call) first_session ≡ [] }
{}

/// A capabilities exchange needs an application in common: Gx, Rx or a relay's.
pub fn capabilities_need_a_common_application()
    ensures none { answers 0 empty_site (capabilities (4 ∷ []))
        ≡ OnBase no_common_application.code }
    ensures gx { answers 0 empty_site (capabilities (4 ∷ gx_application ∷ [])) ≡ OnBase success }
{}

/// At an access point that the tables have with a name alone an initial request is granted, with no rule and no quality of service.
pub fn access_point_with_a_name_alone_is_granted()
    ensures reply { (serve delta_limit operator 0 nothing_held
        (initial_to (codes "net"))).reply ≡ OnGx (Granted (delta [] []) None) }
    ensures parameters { (serve delta_limit operator 0 nothing_held without_access_point).reply
        ≡ rejected initial_parameters }
{}

/// A cursor rises to the end of a range that begins at it or before, not over a gap; a newer epoch begins anew, and an older one changes nothing.
pub fn cursors_rise_without_gaps()
    ensures first { cursor_after (range_at 0 ∷ []) ≡ cursor 1 1 }
    ensures gap { cursor_after (range_at 2 ∷ range_at 0 ∷ []) ≡ cursor 1 1 }
    ensures next { cursor_after (range_at 1 ∷ range_at 2 ∷ range_at 0 ∷ []) ≡ cursor 1 2 }
    ensures again { cursor_after (range_at 2 ∷ range_at 1 ∷ range_at 2 ∷ range_at 0 ∷ [])
        ≡ cursor 1 3 }
    ensures newer { cursor_after (newer_epoch ∷ range_at 1 ∷ range_at 0 ∷ [])
        ≡ cursor 2 0 }
    ensures older { cursor_after (range_at 0 ∷ newer_epoch ∷ range_at 1 ∷ range_at 0 ∷ [])
        ≡ cursor 2 0 }
{}

/// A peer of which nothing is known gets all that a site holds; once it said what it took it gets what is new; both hold the same in the end.
pub fn letters_carry_what_the_peer_lacks()
    ensures first { body_of (exchanged ByCursors) 0 ≡ Some (Snapshot (kept_of one.holding) 1) }
    ensures said { body_of (exchanged ByCursors) 1 ≡ Some (Acknowledgement 0 1 1) }
    ensures second { body_of (exchanged ByCursors) 2
        ≡ Some (Range 1 (drop 1 (serves 0 one (update 1 None)).log)) }
    ensures taken { count_taken (exchanged ByCursors) 1 ≡ Some 2 }
    ensures same { held_at (exchanged ByCursors) 1 ≡ held_at (exchanged ByCursors) 0 }
    ensures emptied { held_at started_again 0 ≡ Some nothing_held }
{}

/// Letters of whole logs lead to the same.
pub fn letters_of_whole_logs_lead_to_the_same()
    ensures second { body_of (exchanged WholeLogs) 2
        ≡ Some (Range 0 (serves 0 one (update 1 None)).log) }
    ensures same { held_at (exchanged WholeLogs) 1 ≡ held_at (exchanged WholeLogs) 0 }
{}

/// A call is bound to a session of its address, its access point and one of its subscribers, as far as it names them.
pub fn calls_bind_by_access_point_and_subscriber()
    ensures same { answers 0 one (call_asking (Some (codes "ims")) (Some (imsi ∷ []))) ≡ Done }
    ensures one_of_them { answers 0 one (call_asking None (Some ((0, codes "4711") ∷ e164 ∷ [])))
        ≡ Done }
    ensures other_access_point { answers 0 one (call_asking (Some (codes "net")) None)
        ≡ Refused session_not_available }
    ensures other_subscriber { answers 0 one (call_asking None (Some ((0, codes "4711") ∷ [])))
        ≡ Refused session_not_available }
    ensures other_type { answers 0 one (call_asking None (Some (number_as_imsi ∷ [])))
        ≡ Refused session_not_available }
{}

/// A signalling flow has the operator's class, its own rate and its component's, both capped; a flow of no class has no rule; rules stand by precedence.
pub fn flows_have_the_class_of_their_usage()
    ensures answer { answers 0 one (call (Some (host_address 1)) (no_media ∷ audio ∷ [])) ≡ Done }
    ensures rules { rules operator (seen with_signalling) first_session
        ≡ sip_rule ∷ signalling_rule ∷ audio_rule 2 ∷ rtcp_rule ∷ [] }
{}

/// An operator sees each session, ended, partial or live, and the clock.
pub fn operator_sees_every_session()
    ensures ended { site_overview operator ended_there.holding
        ≡ record { clock = 2; gx = (first_session.id, Ended) ∷ []; af = [] } }
    ensures partial { site_overview operator at_the_end.holding ≡ record {
      clock = last_counter;
      gx = (first_session.id, Live live_first) ∷ (second_session.id, Partial) ∷ [];
      af = [];
    } }
    ensures call { site_overview operator call_alone.holding
        ≡ record { clock = 2; gx = []; af = (call_session.id, Live live_call) ∷ [] } }
{}
