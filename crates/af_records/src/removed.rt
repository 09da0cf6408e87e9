//! What of a record is removed, one part after another.
ghost use Rattle.std.specs.Prelude.{◌≡◌};
ghost use Rattle.std.specs.List.{filter_map};
ghost use Rattle.std.specs.Iterator.{YieldsFirst, item_count};
ghost use Rattle.af_records.specs.RemovedLists.{removed_part};

use crate::fact::AfFact;
use std::marker::Model;

/// A part of a session that is removed.
#[derive(Clone, Copy, Debug, PartialEq, Eq)]
pub enum RemovedPart {
    /// A component.
    Component(u32),
    /// A flow of a component.
    Flow(u32, u32),
}

/// The removed components, and then the removed flows of components that aren't, each ascending; which contracts see as that
/// list.
#[derive(Drop)]
pub struct RemovedParts<'a> {
    left: &'a [AfFact],
}

impl<'a> Model for RemovedParts<'a> {
    ghost use Rattle.std.specs.Prelude.{List};
    ghost use Rattle.std.specs.List.{filter_map};
    ghost use Rattle.af_records.specs.declared.removed.RemovedPart.{RemovedPart};
    ghost use Rattle.af_records.specs.RemovedLists.{removed_part};

    ghost Value = { List RemovedPart };

    ghost view = { λ s. filter_map removed_part s.left.now };
}

impl<'a> RemovedParts<'a> {
    /// What these facts remove.
    pub(crate) fn of(facts: &'a [AfFact]) -> RemovedParts<'a>
        ensures { result ≡ filter_map removed_part facts.now }
    {
        RemovedParts { left: facts }
    }
}

impl<'a> Iterator for RemovedParts<'a> {
    type Item = RemovedPart;

    ghost next_gives = { YieldsFirst (λ s. s) };

    ghost remaining = { item_count (λ s. s) };

    fn next(&mut self) -> Option<RemovedPart> {
        'each: while let Some((first, rest)) = self.left.split_first() {
            self.left = rest;
            if let Some(part) = removed_part(first) {
                return Some(part);
            }
        }
        None
    }
}

/// What the fact removes.
fn removed_part(fact: &AfFact) -> Option<RemovedPart>
    ensures { result ≡ removed_part fact.now }
{
    match fact {
        AfFact::ComponentRemoved(component) => Some(RemovedPart::Component(*component)),
        AfFact::FlowRemoved(component, flow) => Some(RemovedPart::Flow(*component, *flow)),
        _ => None,
    }
}
