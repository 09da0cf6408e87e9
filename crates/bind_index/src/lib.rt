//! Session binding (TS 29.213, 5): which gateway's session carries the media of an application function's session, found by a pass over
//! the gateways' sessions, or by an index of sessions: among those of one address, or where it has a prefix alone among those of its
//! network; and Session-Ids listed under keys, as the index and a site's pushes want them.
#![tactic(auto)]

mod addresses;
mod binding;
mod forget;
mod index;
mod iter;
mod laws;
mod listing;
mod lists;
mod lookup;
mod networks;
mod subscribed;

pub use binding::{Match, bind, bind_by, greater, match_of};
pub use index::Index;
pub use iter::Ids;
pub use laws::{
    change_of_one_session_changes_its_neighbours_alone, covering_goes_on,
    ended_sessions_show_nothing, prefixes_cover_in_their_network,
};
pub use listing::{sessions_at, sessions_covering, sessions_of};
pub use lists::{SessionIds, SessionLists};
pub use networks::{all_networks, network_of, spans_networks};
