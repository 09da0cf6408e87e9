//! Worked examples of sessions that are reached by IPv6 prefixes, computed, against what is worked out
//! by hand.

ghost use Rattle.std.specs.Prelude.{◌≡◌, Some, None, true, false};
ghost use Rattle.pcrf_values.specs.Places.{address, prefix};
ghost use Rattle.pcrf_values.specs.Prefixes.{covers, first_bits};
ghost use Rattle.pcrf_values.specs.Values.{Address, Prefix};
ghost use Rattle.pcrf_model.specs.Bindings.{bind};
ghost use Rattle.pcrf_model.specs.Forms.{is_prefix, is_request};
ghost use Rattle.pcrf_model.specs.Laws.{NeverMeet};
ghost use Rattle.pcrf_model.specs.Live.{is_live, home};
ghost use Rattle.pcrf_model.specs.Replies.{Done, Refused};
ghost use Rattle.pcrf_model.specs.Views.{value};
ghost use Rattle.pcrf_values.specs.Results.{missing_avp, session_not_available, initial_parameters};
ghost use Rattle.pcrf_model.specs.Neighbours.{count_rules};
ghost use Rattle.pcrf_model.specs.Networks.{network, prefix_of, initial_at, call_at, by_prefix, answer_to, answer_with_address, call_by_prefix, wider_session, and_address, by_both};
ghost use Rattle.pcrf_model.specs.Samples.{call_session, first_session, second_session, host_address};
ghost use Rattle.pcrf_model.specs.Scenes.{answers, empty_site, rejected, seen};

/// The first bits of bytes, within a byte too; a prefix covers itself and each longer one that has its
/// bits, and none that is shorter.
pub fn prefixes_cover_what_has_their_bits()
    ensures half { first_bits 60 (network 31 5) ≡ network 16 0 }
    ensures none { first_bits 0 (network 31 5) ≡ first_bits 0 (network 1 1) }
    ensures all { first_bits 128 (network 31 5) ≡ network 31 5 }
    ensures itself { covers (prefix_of 64 1 0) (prefix_of 64 1 0) ≡ true }
    ensures longer { covers (prefix_of 60 16 0) (prefix_of 64 31 0) ≡ true }
    ensures other { covers (prefix_of 60 16 0) (prefix_of 64 32 0) ≡ false }
    ensures one_more_bit { covers (prefix_of 61 16 0) (prefix_of 64 24 0) ≡ false }
    ensures shorter { covers (prefix_of 64 16 0) (prefix_of 60 16 0) ≡ false }
{}

/// A prefix has up to 128 bits, and zeros past its length.
pub fn prefixes_have_zeros_past_their_length()
    ensures form { is_prefix (prefix_of 64 1 0) ≡ true }
    ensures address { is_prefix (prefix_of 128 1 5) ≡ true }
    ensures past { is_prefix (prefix_of 64 1 5) ≡ false }
    ensures within { is_prefix (prefix_of 60 1 0) ≡ false }
    ensures long { is_prefix (prefix_of 129 1 5) ≡ false }
    ensures request { is_request (initial_at first_session None (Some (prefix_of 64 1 0))) ≡ true }
    ensures malformed { is_request (call_at None (Some (prefix_of 129 1 5))) ≡ false }
{}

/// An initial request with a prefix and no address is granted, and its session is live; one with
/// neither is refused.
pub fn prefix_alone_is_enough()
    ensures live { is_live (seen by_prefix) first_session ≡ true }
    ensures prefix { value (seen by_prefix) first_session prefix
        ≡ Some (Prefix (prefix_of 64 1 0)) }
    ensures no_address { value (seen by_prefix) first_session address ≡ None }
    ensures home { home (seen by_prefix) first_session ≡ Some 0 }
    ensures neither { answers 0 empty_site (initial_at first_session None None)
        ≡ rejected initial_parameters }
{}

/// A call binds to the session whose prefix covers that of the call, not to one of another or a longer
/// prefix; where it gives an address too, the session has to show that as well.
pub fn calls_bind_to_prefixes_that_cover_theirs()
    ensures other { answer_to 128 2 5 ≡ Refused session_not_available }
    ensures shorter { answer_to 56 0 0 ≡ Refused session_not_available }
    ensures with_address { answer_with_address ≡ Refused session_not_available }
    ensures covered { answer_to 128 1 5 ≡ Done }
    ensures bound { bind (seen call_by_prefix) call_session ≡ Some first_session }
    ensures neither { answers 0 by_prefix (call_at None None) ≡ Refused missing_avp }
{}

/// Of two sessions whose prefixes cover the call's the one whose prefix came later has it, however short
/// the prefix is; an address that came later counts as well.
pub fn later_of_two_prefixes_has_the_call()
    ensures wider { bind (seen wider_session) call_session ≡ Some second_session }
    ensures address { bind (seen and_address) call_session ≡ Some first_session }
{}

/// A session that is reached by a prefix changes the rules of another with which it shares no
/// address.
pub fn prefix_changes_the_rules_of_others()
    ensures apart { NeverMeet (seen call_by_prefix) (seen wider_session) second_session
        first_session }
    ensures before { count_rules call_by_prefix first_session ≡ 3 }
    ensures after { count_rules wider_session first_session ≡ 1 }
{}

/// Address and prefix each have a tag of their own: where the one changes the other stays.
pub fn prefix_changes_beside_the_address()
    ensures prefix { value (seen by_both) first_session prefix
        ≡ Some (Prefix (prefix_of 64 2 0)) }
    ensures address { value (seen by_both) first_session address
        ≡ Some (Address (host_address 1)) }
{}
