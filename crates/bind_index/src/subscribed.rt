//! Gateways' sessions by subscriber: those that have one, and those that no longer do.
ghost use Rattle.std.specs.Prelude.{◌≡◌, ◌&&◌, List, if◌then◌else◌, IfOk};
ghost use Rattle.std.specs.List.{list_any};
ghost use Rattle.std.specs.Option.{option_copied};
ghost use Rattle.std.specs.Ordering.{is_eq};
ghost use Rattle.pcrf_values.specs.Live.{gx_is_live};
ghost use Rattle.pcrf_values.specs.Values.{Subscriber as SubscriberValue};
ghost use Rattle.pcrf_model.specs.Holdings.{SessionFact, facts_on};
ghost use Rattle.pcrf_model.specs.Sessions.{gx};
ghost use Rattle.pcrf_model.specs.Views.{view};
ghost use Rattle.pcrf_values.specs.Subscribers.{subscriber_cmp};
ghost use Rattle.pcrf_values.specs.Ascending.{Rises};
ghost use Rattle.pcrf_values.specs.Orders.{text_cmp};
ghost use Rattle.bind_index.specs.Listings.{HasSubscriber, sessions_of};
ghost use Rattle.bind_index.specs.Lists.{ids_at, without_id};
ghost use Rattle.site_join.specs.States.{record_facts};
ghost use Rattle.bind_index.specs.Forgetting.{ForgetsUnshown, SamePrefixed, shows_subscriber};
ghost use Rattle.bind_index.specs.Index.{Covers, asked_among};

use crate::index::Index;
use crate::lists::{SessionIds, SessionLists};
use gx_records::GxRec;
use pcrf_values::{GxSid, Ranked, Subscriber};
use site_join::State;
use std::alloc::{AllocError, Global};

impl Index {
    /// The live sessions of gateways that have the subscriber, in the order of their Session-Ids, by an index that covers the
    /// state. Its time grows with the number of gateways' sessions that are listed under the subscriber.
    pub fn sessions_of(
        &self,
        alloc: Global,
        state: &State,
        subscriber: &Subscriber,
    ) -> Result<Vec<GxSid>, AllocError>
        ensures { IfOk result (λ ids. Covers (view state.now.facts) self.now
            → ids.items ≡ sessions_of (view state.now.facts) subscriber.now) }
    {
        let Some(ids) = self.gateways_of(subscriber) else {
            return Ok(Vec::new(alloc));
        };
        list_asked(alloc, state, ids, subscriber)
    }

    /// Takes a gateway's session out from under those of these subscribers that it doesn't show, by the record that is known
    /// of it; without a record it shows none. An index that covers a state with this record still covers it.
    pub fn forget_unshown(&mut self, id: &GxSid, subscribers: &[Subscriber], known: Option<&GxRec>)
        ensures subscribers { ForgetsUnshown self.old.subscribed self.new.subscribed
            id.now subscribers.now (record_facts (option_copied known.entry)) }
        ensures gateways { self.new.gateways ≡ self.old.gateways }
        ensures calls { self.new.calls ≡ self.old.calls }
        ensures prefixed { SamePrefixed self.old self.new }
        ensures covers { (facts : List SessionFact)
            → record_facts (option_copied known.entry) ≡ facts_on facts (gx id.now)
            → Covers (view facts) self.old → Covers (view facts) self.new }
    {
        unlist_unshown(&mut self.subscribed, id, subscribers, known);
    }
}

/// Those of these sessions that are live and have the subscriber.
fn list_asked(
    alloc: Global,
    state: &State,
    ids: &SessionIds<GxSid>,
    subscriber: &Subscriber,
) -> Result<Vec<GxSid>, AllocError>
    ensures asked { IfOk result (λ found. found.items
        ≡ asked_among (HasSubscriber subscriber.now) state.now.facts ids.now) }
    ensures ascending { Rises text_cmp ids.now }
{
    let mut found = Vec::new(alloc);
    for session in ids.iter() {
        if is_live_of(state, session, subscriber) {
            found.push(session.try_copy()?)?;
        }
    }
    Ok(found)
}

/// The gateway's session is live and has the subscriber.
fn is_live_of(state: &State, session: &GxSid, subscriber: &Subscriber) -> bool
    ensures { result ≡ (gx_is_live (facts_on state.now.facts (gx session.now))
        && shows_subscriber (facts_on state.now.facts (gx session.now)) subscriber.now) }
{
    let Some(known) = state.gx(session) else {
        return false;
    };
    known.live() && shows_subscriber(known, subscriber)
}

/// Takes a session out from under those of these subscribers that it doesn't show.
fn unlist_unshown(
    lists: &mut SessionLists<Subscriber, GxSid>,
    id: &GxSid,
    subscribers: &[Subscriber],
    known: Option<&GxRec>,
)
    ensures { ForgetsUnshown lists.old lists.new
        id.now subscribers.now (record_facts (option_copied known.entry)) }
{
    for subscriber in subscribers {
        unlist_unless_shown(lists, id, subscriber, known);
    }
}

/// Takes a session out from under a subscriber, unless it shows it.
fn unlist_unless_shown(
    lists: &mut SessionLists<Subscriber, GxSid>,
    id: &GxSid,
    subscriber: &Subscriber,
    known: Option<&GxRec>,
)
    ensures { (x : SubscriberValue) → ids_at subscriber_cmp lists.new x
        ≡ (if shows_subscriber (record_facts (option_copied known.entry)) subscriber.now
        then ids_at subscriber_cmp lists.old x
        else without_id subscriber_cmp text_cmp lists.old subscriber.now id.now x) }
{
    if is_shown(known, subscriber) {
        return;
    }
    lists.remove(subscriber, id);
}

/// The session of this record, if there is one, shows the subscriber.
fn is_shown(known: Option<&GxRec>, subscriber: &Subscriber) -> bool
    ensures { result ≡ shows_subscriber (record_facts (option_copied known.entry)) subscriber.now }
{
    match known {
        Some(known) => shows_subscriber(known, subscriber),
        None => false,
    }
}

/// The session of this record shows the subscriber.
fn shows_subscriber(known: &GxRec, subscriber: &Subscriber) -> bool
    ensures { result ≡ shows_subscriber known.now subscriber.now }
{
    match known.subscribers() {
        Some((_, shown)) => is_among(subscriber, shown.as_slice()),
        None => false,
    }
}

/// The subscriber is among them.
fn is_among(subscriber: &Subscriber, shown: &[Subscriber]) -> bool
    ensures { result ≡ list_any (λ x. is_eq (subscriber_cmp subscriber.now x)) shown.now }
{
    shown.iter().any(|other| subscriber == other)
}
