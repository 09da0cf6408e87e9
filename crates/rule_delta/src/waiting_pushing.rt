//! The push of the first session that is due, of those that wait.
ghost use Rattle.std.specs.Prelude.{◌≡◌, Some, false, IfNone, IfOk, IfSome, map, option_map};
ghost use Rattle.pcrf_values.specs.Sets.{Distinct};
ghost use Rattle.pcrf_model.specs.Differences.{rule_name_of};
ghost use Rattle.pcrf_model.specs.Pushing.{due_session};
ghost use Rattle.pcrf_model.specs.Rules.{rules};
ghost use Rattle.pcrf_model.specs.Sessions.{gx};
ghost use Rattle.pcrf_model.specs.Views.{view};
ghost use Rattle.pcrf_model.specs.ReplyViews.{push_view};
ghost use Rattle.pcc_rules.specs.Cached.{AreCached};
ghost use Rattle.rule_delta.specs.Pushed.{push_of};
ghost use Rattle.bind_index.specs.Index.{Covers};
ghost use Rattle.rule_delta.specs.Waits.{DueWait, is_waiting};

use crate::cached_telling::push_by;
use crate::pushing::Asked;
use crate::waiting::Waiting;
use bind_index::Index;
use op_tables::Tables;
use pcc_rules::Rules;
use pcrf_model::PushOut;
use pcrf_values::DiameterIdentity;
use site_join::State;
use std::alloc::{AllocError, Global};

/// The push that is due at a site for a host, as `next_push` gives it, where not all wait and all that are due do. It looks at
/// sessions that wait under the host alone; those that it looks at and that aren't due no longer wait: where none is due,
/// nobody waits under the host any more. A refusal leaves what it found so far.
pub fn next_waiting(
    alloc: Global,
    tables: &Tables,
    state: &State,
    index: &Index,
    lists: &mut Rules,
    waiting: &mut Waiting,
    site: u8,
    host: &DiameterIdentity,
) -> Result<Option<PushOut>, AllocError>
    requires covers { Covers (view state.now.facts) index.now }
    requires kept { AreCached tables.now (view state.now.facts) lists.old }
    requires some { waiting.old.all ≡ false }
    requires due { DueWait tables.now site (view state.now.facts) waiting.old }
    ensures push { IfOk result (λ push. option_map push_view push
        ≡ option_map (push_of tables.now (view state.now.facts))
        (due_session tables.now site (view state.now.facts) (Some host.now))) }
    ensures names { IfOk result (λ push. IfSome push (λ p. Distinct (map rule_name_of
        (rules tables.now (view state.now.facts) (gx p.session))))) }
    ensures nobody { IfOk result (λ push. IfNone push (is_waiting waiting.new host.now ≡ false)) }
    ensures kept { AreCached tables.now (view state.now.facts) lists.new }
    ensures due { DueWait tables.now site (view state.now.facts) waiting.new }
{
    let asked = Asked {
        site,
        host: Some(host.as_slice()),
    };
    while let Some(id) = waiting.take_first(host) {
        let Ok(push) = push_by(alloc, tables, state, index, lists, &asked, &id) else {
            waiting.add(host, &id);
            return Err(AllocError);
        };
        if push.is_some() {
            waiting.add(host, &id);
            return Ok(push);
        }
        drop(push);
        drop(id);
    }
    Ok(None)
}
