//! Worked examples of calls that are aborted, computed, against what is worked out by hand.

ghost use Rattle.std.specs.Prelude.{◌≡◌, [], ◌∷◌, Some, None, Ok, Err, codes, true, false};
ghost use Rattle.pcrf_values.specs.Facts.{Aborted, End};
ghost use Rattle.pcrf_values.specs.Held.{is_aborted};
ghost use Rattle.pcrf_model.specs.Aborting.{lacks_counter_to_abort};
ghost use Rattle.pcrf_model.specs.Bindings.{bind};
ghost use Rattle.pcrf_model.specs.Forms.{fits, is_holding};
ghost use Rattle.pcrf_model.specs.Live.{is_live};
ghost use Rattle.pcrf_model.specs.SiteOverviews.{Ended, Live, site_overview};
ghost use Rattle.pcrf_model.specs.Replies.{Done};
ghost use Rattle.pcrf_model.specs.Sessions.{Gx, Af};
ghost use Rattle.pcrf_model.specs.Worlds.{AbortedOut, ClockFull, NoSuchSite};
ghost use Rattle.pcrf_model.specs.Abandoned.{aborts, call_aborted, no_abort, abandoned, asked_to_abort, other_before, other_after, bound_again, ended_at_last, abandoned_at_the_end, world_aborts};
ghost use Rattle.pcrf_model.specs.Samples.{operator, first_session, call_session, second_session, host_address, initial, hang_up, sip_rule, audio_rule, rtcp_rule, delta};
ghost use Rattle.pcrf_model.specs.Scenes.{answers, call_pushed, granted, live_call, seen};

/// A call whose session ended is aborted once, at its host; one that is bound isn't.
pub fn abandoned_call_is_aborted_once()
    ensures bound { aborts 0 call_pushed None ≡ no_abort }
    ensures first { aborts 0 abandoned None ≡ call_aborted }
    ensures at_host { aborts 0 abandoned (Some (codes "af")) ≡ call_aborted }
    ensures elsewhere { aborts 0 abandoned (Some (codes "gw")) ≡ no_abort }
    ensures again { aborts 0 asked_to_abort None ≡ no_abort }
    ensures live { is_live (seen asked_to_abort) call_session ≡ true }
{}

/// Its home alone aborts it, and every site that took the abort knows of it.
pub fn home_alone_aborts_a_call()
    ensures other { aborts 1 other_before None ≡ no_abort }
    ensures before { (seen other_before).aborted call_session ≡ false }
    ensures after { (seen other_after).aborted call_session ≡ true }
    ensures shown { site_overview operator other_after.holding ≡ record {
      clock = 5;
      gx = (first_session.id, Ended) ∷ [];
      af = (call_session.id, Live (record live_call { aborted = true })) ∷ [];
    } }
{}

/// A call that was aborted is live still: it binds to a session that comes later, with its rules, and
/// is not aborted again.
pub fn aborted_call_may_bind_again()
    ensures installs { answers 0 asked_to_abort (initial second_session (host_address 1))
        ≡ granted (delta [] (sip_rule ∷ audio_rule 2 ∷ rtcp_rule ∷ [])) }
    ensures bound { bind (seen bound_again) call_session ≡ Some second_session }
    ensures aborted { (seen bound_again).aborted call_session ≡ true }
    ensures again { aborts 0 bound_again None ≡ no_abort }
{}

/// When the call ends nothing is left but that it ended.
pub fn aborted_call_ends()
    ensures answer { answers 0 bound_again hang_up ≡ Done }
    ensures ended { (seen ended_at_last).ended call_session ≡ true }
    ensures aborted { (seen ended_at_last).aborted call_session ≡ false }
    ensures either_way { is_aborted (End ∷ Aborted ∷ []) ≡ false }
    ensures alone { is_aborted (Aborted ∷ []) ≡ true }
{}

/// At the last counter nothing is aborted; a call is what is aborted, and no session of a gateway.
pub fn aborts_have_the_form()
    ensures counter { lacks_counter_to_abort 0 abandoned_at_the_end.holding None ≡ true }
    ensures holding { is_holding asked_to_abort.holding ≡ true }
    ensures function { fits Af Aborted ≡ true }
    ensures gateway { fits Gx Aborted ≡ false }
{}

/// What a world answers to an abort: nothing was aborted, there is no such site, or no counter is
/// left.
pub fn world_answers_to_aborts()
    ensures none { world_aborts call_pushed 0 ≡ Ok (AbortedOut None) }
    ensures site { world_aborts call_pushed 1 ≡ Err NoSuchSite }
    ensures counter { world_aborts abandoned_at_the_end 0 ≡ Err ClockFull }
{}
