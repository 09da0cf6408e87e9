//! The gateway's session to which an application function's session is bound, by an index.
ghost use Rattle.std.specs.Prelude.{◌≡◌, ℕ, List, option_map};
ghost use Rattle.std.specs.Option.{option_copied};
ghost use Rattle.pcrf_model.specs.Bindings.{bind};
ghost use Rattle.pcrf_model.specs.Holdings.{facts_on};
ghost use Rattle.pcrf_model.specs.Sessions.{gx, af};
ghost use Rattle.pcrf_model.specs.Views.{view};
ghost use Rattle.bind_index.specs.Asking.{with_record};
ghost use Rattle.bind_index.specs.Index.{Covers, IsFoundFor, IsFoundIn, matches_listed};
ghost use Rattle.bind_index.specs.Networks.{network_of};
ghost use Rattle.bind_index.specs.Matches.{best_from, match_of, match_value};
ghost use Rattle.bind_index.specs.Lists.{ids_or_none};

use crate::binding::{Match, greater, match_of};
use crate::index::Index;
use crate::lists::SessionIds;
use crate::networks::{all_networks, network_of, spans_networks};
use af_records::AfRec;
use pcrf_values::{AfSid, GxSid, Ipv6Prefix};
use site_join::State;

impl Index {
    /// The gateway's session to which an application function's session is bound, `None` where it is bound to none, by an
    /// index that covers the state. Its time grows with the number of gateways' sessions that are listed under the address, or
    /// where the session has a prefix and no address with that of those whose prefix is of its network or has fewer than 64
    /// bits; it takes no memory.
    pub fn bind(&self, state: &State, session: &AfSid) -> Option<&GxSid>
        ensures { Covers (view state.now.facts) self.now → option_map gx (option_copied result)
            ≡ bind (view state.now.facts) (af session.now) }
    {
        let Some(asking) = state.af(session) else {
            return None;
        };
        self.bind_by(state, asking)
    }

    /// The gateway's session to which an application function's session would be bound, were this its record, by an index
    /// that covers the state. Its time grows as that of `bind`; it takes no memory.
    pub fn bind_by(&self, state: &State, asking: &AfRec) -> Option<&GxSid>
        ensures { Covers (view state.now.facts) self.now → (a : List ℕ)
            → option_map gx (option_copied result)
            ≡ bind (view (with_record state.now (af a) asking.now).facts) (af a) }
    {
        let Some(found) = self.greatest_for(state, asking) else {
            return None;
        };
        Some(found.session)
    }

    /// The greatest match of an application function's session of this record: among the gateways' sessions under its address,
    /// or where it has a prefix alone among those that its network has and those that span networks.
    fn greatest_for(&self, state: &State, asking: &AfRec) -> Option<Match<'_>>
        ensures { IsFoundFor self.now asking.now state.now.facts
            (option_map match_value result) }
    {
        if let Some((_, address)) = asking.address() {
            return greatest_listed(asking, state, self.gateways_at(*address), None);
        }
        let Some((_, prefix)) = asking.prefix() else {
            return None;
        };
        self.greatest_by(state, asking, prefix)
    }

    /// The greatest match among the gateways' sessions that the network of this prefix has and those that span networks.
    fn greatest_by(&self, state: &State, asking: &AfRec, prefix: &Ipv6Prefix) -> Option<Match<'_>>
        ensures { IsFoundIn self.now (network_of prefix.now) asking.now state.now.facts
            (option_map match_value result) }
    {
        let all = all_networks();
        let best = greatest_listed(asking, state, self.gateways_in(&all), None);
        if spans_networks(prefix) {
            return best;
        }
        greatest_listed(asking, state, self.gateways_in(&network_of(prefix)), best)
    }
}

/// The greatest of these sessions that match, or the best so far where that is greater.
fn greatest_listed<'i>(
    asking: &AfRec,
    state: &State,
    listed: Option<&'i SessionIds<GxSid>>,
    so_far: Option<Match<'i>>,
) -> Option<Match<'i>>
    ensures { option_map match_value result ≡ best_from (option_map match_value so_far.entry)
        (matches_listed asking.now state.now.facts (ids_or_none (option_copied listed.entry))) }
{
    let Some(ids) = listed else {
        return so_far;
    };
    let mut best = so_far;
    for session in ids.iter() {
        if let Some(found) = listed_match(asking, state, session) {
            best = Some(greater(best, found));
        }
    }
    best
}

/// The gateway's session, if it matches.
fn listed_match<'i>(asking: &AfRec, state: &State, session: &'i GxSid) -> Option<Match<'i>>
    ensures { option_map match_value result
        ≡ match_of asking.now session.now (facts_on state.now.facts (gx session.now)) }
{
    let Some(gateway) = state.gx(session) else {
        return None;
    };
    match_of(asking, session, gateway)
}
