//! The flows of a record, one after another.
ghost use Rattle.std.specs.Prelude.{◌≡◌, None};
ghost use Rattle.std.specs.Iterator.{YieldsFirst, item_count};
ghost use Rattle.std.specs.List.{filter_map};
ghost use Rattle.af_records.specs.FlowLists.{flow_said, flows_after, is_last};

use crate::fact::AfFact;
use std::marker::Model;

/// The Media-Component-Numbers and Flow-Numbers of the flows of which a field shows, ascending, which contracts see as their list.
#[derive(Drop)]
pub struct Flows<'a> {
    last: Option<(u32, u32)>,
    left: &'a [AfFact],
}

impl<'a> Model for Flows<'a> {
    ghost use Rattle.std.specs.Prelude.{ℕ, List};
    ghost use Rattle.std.specs.List.{filter_map};
    ghost use Rattle.af_records.specs.FlowLists.{flow_said, flows_after};

    ghost Value = { List (ℕ × ℕ) };

    ghost view = { λ s. flows_after s.last (filter_map flow_said s.left.now) };
}

impl<'a> Flows<'a> {
    /// The flows of which these facts are fields.
    pub(crate) fn of(facts: &'a [AfFact]) -> Flows<'a>
        ensures { result ≡ flows_after None (filter_map flow_said facts.now) }
    {
        Flows {
            last: None,
            left: facts,
        }
    }
}

impl<'a> Iterator for Flows<'a> {
    type Item = (u32, u32);

    ghost next_gives = { YieldsFirst (λ s. s) };

    ghost remaining = { item_count (λ s. s) };

    fn next(&mut self) -> Option<(u32, u32)> {
        'each: while let Some((first, rest)) = self.left.split_first() {
            self.left = rest;
            if let Some(flow) = flow_said(first) {
                if !is_last(self.last, flow) {
                    self.last = Some(flow);
                    return Some(flow);
                }
            }
        }
        None
    }
}

/// The flow of which the fact is a field.
fn flow_said(fact: &AfFact) -> Option<(u32, u32)>
    ensures { result ≡ flow_said fact.now }
{
    match fact {
        AfFact::Flow(component, flow, _, _) => Some((*component, *flow)),
        _ => None,
    }
}

/// The flow is the last one.
fn is_last(last: Option<(u32, u32)>, flow: (u32, u32)) -> bool
    ensures { result ≡ is_last last flow }
{
    match last {
        Some(last) => last.0.cmp(&flow.0).then(last.1.cmp(&flow.1)).is_eq(),
        None => false,
    }
}
