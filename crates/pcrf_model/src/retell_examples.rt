//! Worked examples of what gateways may have lost, computed, against what is worked out by hand.

ghost use Rattle.std.specs.Prelude.{◌≡◌, [], ◌∷◌, Some, None, Ok, Err, codes, true, false, option_map, length};
ghost use Rattle.pcrf_values.specs.Facts.{Field};
ghost use Rattle.pcrf_values.specs.Places.{OfRuleName};
ghost use Rattle.pcrf_values.specs.Values.{Untold};
ghost use Rattle.pcrf_model.specs.Bindings.{bind};
ghost use Rattle.pcrf_model.specs.Differences.{told_rules_of};
ghost use Rattle.pcrf_model.specs.Forms.{is_holding};
ghost use Rattle.pcrf_model.specs.Live.{home, is_live};
ghost use Rattle.pcrf_model.specs.Operations.{Operation};
ghost use Rattle.pcrf_model.specs.Replies.{Retold};
ghost use Rattle.pcrf_model.specs.Retelling.{lacks_counter_to_retell};
ghost use Rattle.pcrf_model.specs.Worlds.{RetoldOut, ClockFull, NoSuchSite};
ghost use Rattle.pcrf_model.specs.Retold.{retells, retelling, call_retold, told_again, retold_elsewhere, world_retells};
ghost use Rattle.pcrf_model.specs.Samples.{first_session, second_session, call_session, host_address, initial, update, sip_rule, audio_rule, rtcp_rule, delta};
ghost use Rattle.pcrf_model.specs.Scenes.{answers, at_the_end, call_pushed, empty_site, ended_under_call, granted, no_push, one, other, push_of, pushes, seen, taking};

/// Each name that the gateway was told is told as none, under the next counter of the site.
pub fn each_name_is_told_as_none()
    ensures reply { retells 0 call_pushed first_session ≡ Retold true }
    ensures operation { retelling 0 call_pushed first_session ≡ Some (record {
      counter = 4;
      site = 0;
      number = 0;
      session = first_session;
      facts = Field (OfRuleName (codes "af/af;1/1/1"))
          (record { number = 0; counter = 4; site = 0 }) Untold
          ∷ Field (OfRuleName (codes "af/af;1/1/2"))
          (record { number = 0; counter = 4; site = 0 }) Untold
          ∷ Field (OfRuleName (codes "op/sip"))
          (record { number = 0; counter = 4; site = 0 }) Untold
          ∷ [];
    }) }
    ensures none_told { told_rules_of (seen call_retold) first_session ≡ [] }
{}

/// The next push brings all rules, and the one after it none; so does the next answer.
pub fn next_push_or_answer_brings_all_rules()
    ensures before { pushes 0 call_pushed ≡ no_push }
    ensures push { pushes 0 call_retold
        ≡ push_of (delta [] (sip_rule ∷ audio_rule 2 ∷ rtcp_rule ∷ [])) }
    ensures then { pushes 0 told_again ≡ no_push }
    ensures answer { answers 0 call_retold (update 1 None)
        ≡ granted (delta [] (sip_rule ∷ audio_rule 2 ∷ rtcp_rule ∷ [])) }
    ensures repeated { answers 0 call_retold (initial first_session (host_address 1))
        ≡ granted (delta [] (sip_rule ∷ audio_rule 2 ∷ rtcp_rule ∷ [])) }
{}

/// Nothing else changes: the session lives at its home, and its call is bound to it.
pub fn session_and_call_stay()
    ensures live { is_live (seen call_retold) first_session ≡ true }
    ensures home { home (seen call_retold) first_session ≡ Some 0 }
    ensures bound { bind (seen call_retold) call_session ≡ Some first_session }
    ensures form { is_holding call_retold.holding ≡ true }
{}

/// Where nothing was told, or the session isn't live, nothing is done.
pub fn nothing_told_is_nothing_retold()
    ensures again { retells 0 call_retold first_session ≡ Retold false }
    ensures added { retelling 0 call_retold first_session ≡ None }
    ensures unknown { retells 0 empty_site first_session ≡ Retold false }
    ensures other { retells 0 call_pushed second_session ≡ Retold false }
    ensures ended { retells 0 ended_under_call first_session ≡ Retold false }
    ensures call { retells 0 call_pushed call_session ≡ Retold false }
{}

/// A site that isn't the session's home may do it: once its operation is there the home pushes all rules.
pub fn any_site_may_retell()
    ensures reply { retells 1 other first_session ≡ Retold true }
    ensures not_home { pushes 1 retold_elsewhere ≡ no_push }
    ensures home_before { pushes 0 one ≡ no_push }
    ensures home_then { pushes 0 (taking one retold_elsewhere.log)
        ≡ push_of (delta [] (sip_rule ∷ [])) }
{}

/// At the last counter nothing is done; with nothing told none is wanted.
pub fn retelling_wants_a_counter()
    ensures counter { lacks_counter_to_retell at_the_end.holding first_session.id ≡ true }
    ensures nothing { lacks_counter_to_retell at_the_end.holding second_session.id ≡ false }
{}

/// What a world answers: nothing was done, something was, there is no such site, or no counter is left.
pub fn world_answers_to_retellings()
    ensures none { world_retells empty_site 0 ≡ Ok (RetoldOut false) }
    ensures done { world_retells one 0 ≡ Ok (RetoldOut true) }
    ensures site { world_retells one 1 ≡ Err NoSuchSite }
    ensures counter { world_retells at_the_end 0 ≡ Err ClockFull }
{}
