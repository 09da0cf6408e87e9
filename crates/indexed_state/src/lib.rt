//! What a site holds, with an index of its sessions, lists of rules that are kept, and the sessions that wait for a push: so that
//! sessions are bound, rules derived and pushes found without a pass over all sessions; and what an operator sees of it, also as text.
#![tactic(auto)]

mod aborting;
mod alike;
mod binding;
mod calls;
mod ended;
mod following;
mod forgetting;
mod gateways;
mod indexed;
mod opened;
mod reached;
mod recorded;
mod refreshed;
mod renewing;
mod seen;
mod showing;
mod unsettling;
mod whole_view;

pub use bind_index::Index;
pub use binding::{bindings, bindings_by};
pub use ended::AnySid;
pub use indexed::IndexedState;
pub use op_tables::Tables;
pub use pcc_rules::Rules;
pub use seen::{AfField, AfSeen, GxClient, GxSeen, GxUser, SessionSeen, SiteOverview};
pub use showing::{put_text, put_value};
pub use whole_view::value;
