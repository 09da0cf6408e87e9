//! The gateway's session to which an application function's session is bound: whether one matches, by the record of each, and which
//! of those that match is the one.
ghost use Rattle.std.specs.Prelude.{◌≡◌, [], ◌∷◌, map, option_map, ℕ, List, Some};
ghost use Rattle.std.specs.List.{list_any};
ghost use Rattle.std.specs.Ordering.{is_eq, is_lt};
ghost use Rattle.pcrf_values.specs.Sets.{best, greatest};
ghost use Rattle.pcrf_values.specs.Held.{entry_shown};
ghost use Rattle.pcrf_values.specs.Subscribers.{subscriber_cmp};
ghost use Rattle.pcrf_model.specs.Bindings.{last_reached, shares_one, stamp_cmp, bind, candidate_cmp};
ghost use Rattle.bind_index.specs.Matches.{agrees_by, is_covered_by, match_of, match_value, matches_beside, meets_by, stamp_in, best_from, matches_among, one};
ghost use Rattle.std.specs.Option.{option_copied};
ghost use Rattle.pcrf_model.specs.Sessions.{gx, af};
ghost use Rattle.pcrf_model.specs.Views.{view};
ghost use Rattle.bind_index.specs.Asking.{with_record};

use af_records::AfRec;
use gx_records::GxRec;
use pcrf_values::{AfSid, GxSid, Ipv6Prefix, Ranked, Subscriber, Subscribers, Tag};
use site_join::{Entries, State};
use std::cmp::Ordering;

/// A gateway's session that matches, with the tag by which it was last reached.
#[derive(Clone, Copy)]
pub struct Match<'s> {
    /// Of the tags of its address and its prefix the later one by counter and site.
    pub tag: Tag,
    /// Its Session-Id.
    pub session: &'s GxSid,
}

/// A gateway's session with this record, if it matches the application function's session with that one.
pub fn match_of<'s>(asking: &AfRec, session: &'s GxSid, gateway: &GxRec) -> Option<Match<'s>>
    ensures { option_map match_value result ≡ match_of asking.now session.now gateway.now }
{
    if !matches(asking, gateway) {
        return None;
    }
    let Some(tag) = last_reached(gateway) else {
        return None;
    };
    Some(Match { tag, session })
}

/// Of the tags of a session's address and its prefix the later one by counter and site.
fn last_reached(gateway: &GxRec) -> Option<Tag>
    ensures { option_map stamp_in result ≡ last_reached (entry_shown gateway.now) }
{
    let by_prefix = gateway.prefix();
    let Some((tag, _)) = gateway.address() else {
        return match by_prefix {
            Some((tag, _)) => Some(tag),
            None => None,
        };
    };
    match by_prefix {
        Some((other, _)) => Some(later(tag, other)),
        None => Some(tag),
    }
}

/// The later of two tags by counter and site.
fn later(one: Tag, other: Tag) -> Tag
    ensures { stamp_in result
        ≡ best (λ x y. is_lt (stamp_cmp x y)) (stamp_in one) (stamp_in other ∷ []) }
{
    if one
        .counter
        .cmp(&other.counter)
        .then(one.site.cmp(&other.site))
        .is_lt()
    {
        other
    } else {
        one
    }
}

/// Both are live, and the gateway's session has the address, a prefix that covers the prefix, one of the subscribers and the
/// access point, each as far as it is asked for.
fn matches(asking: &AfRec, gateway: &GxRec) -> bool
    ensures { result ≡ matches_beside asking.now gateway.now }
{
    asking.live()
        && gateway.live()
        && agrees(asking.address(), gateway.address())
        && is_covered(asking.prefix(), gateway.prefix())
        && meets(asking.subscribers(), gateway.subscribers())
        && agrees(asking.apn(), gateway.apn())
}

/// Nothing is asked for, or just this is there.
fn agrees<T: Ranked>(asked: Option<(Tag, &T)>, there: Option<(Tag, &T)>) -> bool
    ensures { result ≡ agrees_by T.cmp (option_map (λ e. (e.0, e.1.now)) asked.entry)
        (option_map (λ e. (e.0, e.1.now)) there.entry) }
{
    let Some((_, wanted)) = asked else {
        return true;
    };
    let Some((_, shown)) = there else {
        return false;
    };
    wanted.cmp(shown) == Ordering::Equal
}

/// Nothing is asked for, or a prefix is there that covers the one that is asked for.
fn is_covered(asked: Option<(Tag, &Ipv6Prefix)>, there: Option<(Tag, &Ipv6Prefix)>) -> bool
    ensures { result ≡ is_covered_by (option_map (λ e. (e.0, e.1.now)) asked.entry)
        (option_map (λ e. (e.0, e.1.now)) there.entry) }
{
    let Some((_, wanted)) = asked else {
        return true;
    };
    let Some((_, shown)) = there else {
        return false;
    };
    shown.covers(wanted)
}

/// Nothing is asked for, or one of the subscribers that are asked for is there.
fn meets(asked: Option<(Tag, &Subscribers)>, there: Option<(Tag, &Subscribers)>) -> bool
    ensures { result ≡ meets_by (option_map (λ e. (e.0, e.1.now)) asked.entry)
        (option_map (λ e. (e.0, e.1.now)) there.entry) }
{
    let Some((_, wanted)) = asked else {
        return true;
    };
    let Some((_, shown)) = there else {
        return false;
    };
    shares_one(wanted.as_slice(), shown.as_slice())
}

/// One of the first is among the second.
fn shares_one(wanted: &[Subscriber], shown: &[Subscriber]) -> bool
    ensures { result ≡ shares_one wanted.now shown.now }
{
    wanted.iter().any(|subscriber| is_among(subscriber, shown))
}

/// The subscriber is among them.
pub(crate) fn is_among(subscriber: &Subscriber, shown: &[Subscriber]) -> bool
    ensures { result ≡ list_any (λ x. is_eq (subscriber_cmp subscriber.now x)) shown.now }
{
    shown.iter().any(|other| subscriber == other)
}

/// The gateway's session to which an application function's session is bound, `None` where it is bound to none: of the live
/// ones with its address and with a prefix that covers its prefix, and with one of its subscribers and its access point, each as
/// far as it shows them, the one that was last reached by the counter and site of its address or its prefix, and of equal ones
/// the one with the greatest Session-Id (TS 29.213, 5.2; what decides
/// between several is this project's own). Its time grows with the number of gateways' sessions; it takes no memory.
pub fn bind<'s>(state: &'s State, session: &AfSid) -> Option<&'s GxSid>
    ensures { option_map gx (option_copied result)
        ≡ bind (view state.now.facts) (af session.now) }
{
    let Some(asking) = state.af(session) else {
        return None;
    };
    bind_by(state, asking)
}

/// The gateway's session to which an application function's session would be bound, were this its record. Its time grows with
/// the number of gateways' sessions; it takes no memory.
pub fn bind_by<'s>(state: &'s State, asking: &AfRec) -> Option<&'s GxSid>
    ensures { (a : List ℕ) → option_map gx (option_copied result)
        ≡ bind (view (with_record state.now (af a) asking.now).facts) (af a) }
{
    let Some(found) = greatest_match(asking, state.all_gx()) else {
        return None;
    };
    Some(found.session)
}

/// The greatest of the sessions that match.
fn greatest_match<'s>(asking: &AfRec, sessions: Entries<'s, GxSid, GxRec>) -> Option<Match<'s>>
    ensures { option_map match_value result
        ≡ greatest candidate_cmp (matches_among asking.now sessions.entry) }
{
    let mut best = None;
    for (session, record) in sessions {
        if let Some(found) = match_of(asking, session, record) {
            best = Some(greater(best, found));
        }
    }
    best
}

/// The greater of the best match so far and another: an application function's session is bound to the greatest.
pub fn greater<'s>(best: Option<Match<'s>>, found: Match<'s>) -> Match<'s>
    ensures { Some (match_value result)
        ≡ best_from (option_map match_value best.entry) (one (match_value found.entry)) }
{
    let Some(best) = best else {
        return found;
    };
    if order(&best, &found) == Ordering::Less {
        found
    } else {
        best
    }
}

/// By counter, then site, then Session-Id.
fn order(one: &Match<'_>, other: &Match<'_>) -> Ordering
    ensures { result ≡ candidate_cmp (match_value one.now) (match_value other.now) }
{
    let sites = one.tag.site.cmp(&other.tag.site);
    let rest = sites.then(one.session.cmp(other.session));
    one.tag.counter.cmp(&other.tag.counter).then(rest)
}
