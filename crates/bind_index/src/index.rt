//! Sessions by what they were given, found without a pass over all; and what an index lists: the sessions of operations and of
//! states.
ghost use Rattle.std.specs.Prelude.{◌≡◌, [], None, OnOk, ◌∷◌, map};
ghost use Rattle.std.specs.Option.{option_copied};
ghost use Rattle.std.specs.declared.net.ipv4_addr.Ipv4Addr.{Ipv4Addr as Address};
ghost use Rattle.pcrf_values.specs.Values.{Subscriber as SubscriberValue};
ghost use Rattle.pcrf_values.specs.Places as places;
ghost use Rattle.pcrf_model.specs.Sessions.{Gx, Af, gx, af};
ghost use Rattle.pcrf_model.specs.Views.{View, value, view};
ghost use Rattle.pcrf_values.specs.Prefixes.{Ipv6Prefix as PrefixValue, prefix_cmp};
ghost use Rattle.pcrf_values.specs.Orders.{text_cmp};
ghost use Rattle.pcrf_values.specs.Sets.{In};
ghost use Rattle.bind_index.specs.Lists.{ids_or_none, without_id};
ghost use Rattle.bind_index.specs.Forgetting.{ForgetsEach, SameKeyed, SamePrefixed, ShowsAddress, ShowsNetwork};
ghost use Rattle.bind_index.specs.Index.{Covers, Grows, GrowsUnder, ListedUnder, address_cmp, listed_at, listed_in, listed_of, ListEach, ListsAddress, ListsCall, ListsFacts, ListsGateway, ListsPrefix, ListsSubscribers};
ghost use Rattle.bind_index.specs.Networks.{network_of};
ghost use Rattle.af_records.specs.RecordFacts as af_facts;
ghost use Rattle.gx_records.specs.GxFacts as gx_facts;
ghost use Rattle.pcrf_values.specs.declared.tag.Tag.{Tag};
ghost use Rattle.lattice_core.specs.SessionFacts.{session_fact};

use crate::addresses::AddressLists;
use crate::lists::{SessionIds, SessionLists};
use crate::networks::network_of;
use af_records::{AfFact, AfRec, AfRequestType};
use gx_records::{GxFact, GxRec, OpenRequestType};
use lattice_core::SessionValue;
use pcrf_values::{AfSid, Enumerated, GxSid, HashSeed, Ipv6Prefix, Subscriber};
use site_join::{Entries, Operation, SessionFacts, State};
use std::alloc::{AllocError, Global};
use std::collections::hash_map::Iter;
use std::marker::Model;
use std::net::Ipv4Addr;

/// Gateways' sessions by address and by subscriber, application functions' sessions by address, and both by the network of the
/// IPv6 prefix that they were given. A session may show nothing of what it is listed under.
#[derive(Drop)]
pub struct Index {
    gateways: AddressLists<GxSid>,
    calls: AddressLists<AfSid>,
    pub(crate) subscribed: SessionLists<Subscriber, GxSid>,
    gateway_networks: SessionLists<Ipv6Prefix, GxSid>,
    call_networks: SessionLists<Ipv6Prefix, AfSid>,
}

impl Model for Index {
    ghost use Rattle.bind_index.specs.Index.{IndexValue};

    ghost Value = { IndexValue };

    ghost view = { λ i. record {
      gateways = i.gateways;
      calls = i.calls;
      subscribed = i.subscribed;
      gateway_networks = i.gateway_networks;
      call_networks = i.call_networks;
    } };
}

impl Index {
    /// No session. Hashes begin with a seed that anybody knows.
    pub fn start(alloc: Global) -> Index
        ensures gateways { (a : Address) → listed_at result Gx a ≡ [] }
        ensures calls { (a : Address) → listed_at result Af a ≡ [] }
        ensures subscribers { (x : SubscriberValue) → listed_of result x ≡ [] }
        ensures gateway_networks { (n : PrefixValue) → listed_in result Gx n ≡ [] }
        ensures call_networks { (n : PrefixValue) → listed_in result Af n ≡ [] }
    {
        Index::seeded(alloc, HashSeed::of(0))
    }

    /// No session. Hashes of addresses, subscribers and networks begin with this seed.
    pub fn seeded(alloc: Global, seed: HashSeed) -> Index
        ensures gateways { (a : Address) → listed_at result Gx a ≡ [] }
        ensures calls { (a : Address) → listed_at result Af a ≡ [] }
        ensures subscribers { (x : SubscriberValue) → listed_of result x ≡ [] }
        ensures gateway_networks { (n : PrefixValue) → listed_in result Gx n ≡ [] }
        ensures call_networks { (n : PrefixValue) → listed_in result Af n ≡ [] }
    {
        Index {
            gateways: AddressLists::seeded(alloc, seed),
            calls: AddressLists::seeded(alloc, seed),
            subscribed: SessionLists::seeded(alloc, seed),
            gateway_networks: SessionLists::seeded(alloc, seed),
            call_networks: SessionLists::seeded(alloc, seed),
        }
    }

    /// The gateways' sessions that are listed under an address.
    pub fn gateways_at(&self, address: Ipv4Addr) -> Option<&SessionIds<GxSid>>
        ensures { ids_or_none (option_copied result) ≡ listed_at self.now Gx address }
    {
        self.gateways.at(&address)
    }

    /// The application functions' sessions that are listed under an address.
    pub fn calls_at(&self, address: Ipv4Addr) -> Option<&SessionIds<AfSid>>
        ensures { ids_or_none (option_copied result) ≡ listed_at self.now Af address }
    {
        self.calls.at(&address)
    }

    /// The gateways' sessions that are listed under a subscriber.
    pub fn gateways_of(&self, subscriber: &Subscriber) -> Option<&SessionIds<GxSid>>
        ensures { ids_or_none (option_copied result) ≡ listed_of self.now subscriber.now }
    {
        self.subscribed.at(subscriber)
    }

    /// The gateways' sessions that are listed under a network.
    pub fn gateways_in(&self, network: &Ipv6Prefix) -> Option<&SessionIds<GxSid>>
        ensures { ids_or_none (option_copied result) ≡ listed_in self.now Gx network.now }
    {
        self.gateway_networks.at(network)
    }

    /// The application functions' sessions that are listed under a network.
    pub fn calls_in(&self, network: &Ipv6Prefix) -> Option<&SessionIds<AfSid>>
        ensures { ids_or_none (option_copied result) ≡ listed_in self.now Af network.now }
    {
        self.call_networks.at(network)
    }

    /// The application functions' sessions that are listed under networks, by these.
    pub fn calls_by_network(&self) -> Iter<'_, Ipv6Prefix, SessionIds<AfSid>>
        ensures { result ≡ self.now.call_networks }
    {
        self.call_networks.iter()
    }

    /// Lists a gateway's session under an address.
    pub(crate) fn add_gateway(&mut self, address: &Ipv4Addr, id: &GxSid) -> Result<(), AllocError>
        ensures grows { Grows self.old self.new }
        ensures lists { OnOk result (In id.now (listed_at self.new Gx address.now)) }
    {
        self.gateways.add(address, id)
    }

    /// Lists an application function's session under an address.
    pub(crate) fn add_call(&mut self, address: &Ipv4Addr, id: &AfSid) -> Result<(), AllocError>
        ensures grows { Grows self.old self.new }
        ensures lists { OnOk result (In id.now (listed_at self.new Af address.now)) }
    {
        self.calls.add(address, id)
    }

    /// Lists a gateway's session under the network of a prefix.
    pub(crate) fn add_prefixed_gateway(
        &mut self,
        prefix: &Ipv6Prefix,
        id: &GxSid,
    ) -> Result<(), AllocError>
        ensures grows { Grows self.old self.new }
        ensures lists { OnOk result (In id.now (listed_in self.new Gx (network_of prefix.now))) }
    {
        self.gateway_networks.add(&network_of(prefix), id)
    }

    /// Lists an application function's session under the network of a prefix.
    pub(crate) fn add_prefixed_call(
        &mut self,
        prefix: &Ipv6Prefix,
        id: &AfSid,
    ) -> Result<(), AllocError>
        ensures grows { Grows self.old self.new }
        ensures lists { OnOk result (In id.now (listed_in self.new Af (network_of prefix.now))) }
    {
        self.call_networks.add(&network_of(prefix), id)
    }

    /// Lists a gateway's session under these subscribers; a refusal leaves what was listed so far.
    pub(crate) fn add_subscribed(
        &mut self,
        subscribers: &[Subscriber],
        id: &GxSid,
    ) -> Result<(), AllocError>
        ensures grows { Grows self.old self.new }
        ensures lists { OnOk result (ListedUnder self.new.subscribed id.now subscribers.now) }
    {
        list_under(&mut self.subscribed, subscribers, id)
    }

    /// Takes a gateway's session out from under an address: one that it no longer shows, since it moved to another.
    pub fn forget_gateway_at(&mut self, address: Ipv4Addr, id: &GxSid)
        ensures gateways { (a : Address) → listed_at self.new Gx a
            ≡ without_id address_cmp text_cmp self.old.gateways address id.now a }
        ensures calls { self.new.calls ≡ self.old.calls }
        ensures subscribers { self.new.subscribed ≡ self.old.subscribed }
        ensures prefixed { SamePrefixed self.old self.new }
        ensures covers { (v : View) → ¬ ShowsAddress v (gx id.now) address
            → Covers v self.old → Covers v self.new }
    {
        self.gateways.remove(&address, id);
    }

    /// Takes an application function's session out from under an address: one that it no longer shows.
    pub fn forget_call_at(&mut self, address: Ipv4Addr, id: &AfSid)
        ensures calls { (a : Address) → listed_at self.new Af a
            ≡ without_id address_cmp text_cmp self.old.calls address id.now a }
        ensures gateways { self.new.gateways ≡ self.old.gateways }
        ensures subscribers { self.new.subscribed ≡ self.old.subscribed }
        ensures prefixed { SamePrefixed self.old self.new }
        ensures covers { (v : View) → ¬ ShowsAddress v (af id.now) address
            → Covers v self.old → Covers v self.new }
    {
        self.calls.remove(&address, id);
    }

    /// Takes a gateway's session out from under these subscribers: those that it no longer shows.
    pub fn forget_gateway_of(&mut self, subscribers: &[Subscriber], id: &GxSid)
        ensures subscribers { ForgetsEach
            self.old.subscribed self.new.subscribed id.now subscribers.now }
        ensures gateways { self.new.gateways ≡ self.old.gateways }
        ensures calls { self.new.calls ≡ self.old.calls }
        ensures prefixed { SamePrefixed self.old self.new }
        ensures covers { (v : View) → (value v (gx id.now) places.subscribers ≡ None)
            → Covers v self.old → Covers v self.new }
    {
        unlist_under(&mut self.subscribed, subscribers, id);
    }

    /// Takes a gateway's session out from under a network: it no longer shows a prefix of it.
    pub fn forget_gateway_in(&mut self, network: &Ipv6Prefix, id: &GxSid)
        ensures gateways { (n : PrefixValue) → listed_in self.new Gx n
            ≡ without_id prefix_cmp text_cmp self.old.gateway_networks network.now id.now n }
        ensures calls { self.new.call_networks ≡ self.old.call_networks }
        ensures keyed { SameKeyed self.old self.new }
        ensures covers { (v : View) → ¬ ShowsNetwork v (gx id.now) network.now
            → Covers v self.old → Covers v self.new }
    {
        self.gateway_networks.remove(network, id);
    }

    /// Takes an application function's session out from under a network: it no longer shows a prefix of it.
    pub fn forget_call_in(&mut self, network: &Ipv6Prefix, id: &AfSid)
        ensures calls { (n : PrefixValue) → listed_in self.new Af n
            ≡ without_id prefix_cmp text_cmp self.old.call_networks network.now id.now n }
        ensures gateways { self.new.gateway_networks ≡ self.old.gateway_networks }
        ensures keyed { SameKeyed self.old self.new }
        ensures covers { (v : View) → ¬ ShowsNetwork v (af id.now) network.now
            → Covers v self.old → Covers v self.new }
    {
        self.call_networks.remove(network, id);
    }
}

/// Lists a session under these subscribers.
fn list_under(
    lists: &mut SessionLists<Subscriber, GxSid>,
    subscribers: &[Subscriber],
    id: &GxSid,
) -> Result<(), AllocError>
    ensures grows { GrowsUnder lists.old lists.new }
    ensures lists { OnOk result (ListedUnder lists.new id.now subscribers.now) }
{
    for subscriber in subscribers {
        lists.add(subscriber, id)?;
    }
    Ok(())
}

/// Takes a session out from under these subscribers.
fn unlist_under(lists: &mut SessionLists<Subscriber, GxSid>, subscribers: &[Subscriber], id: &GxSid)
    ensures { ForgetsEach lists.old lists.new id.now subscribers.now }
{
    for subscriber in subscribers {
        lists.remove(subscriber, id);
    }
}

impl Index {
    /// Lists the session of an operation under each address that it gives it, under the network of each prefix, and one of a
    /// gateway under each subscriber. A refusal leaves what was listed so far. An index that covers a state before then covers
    /// it with the operation.
    pub fn cover(&mut self, operation: &Operation) -> Result<(), AllocError>
        ensures grows { Grows self.old self.new }
        ensures lists { OnOk result
            (ListsFacts self.new operation.now.session operation.now.facts) }
    {
        match operation.facts() {
            SessionFacts::Gx(id, facts) => self.list_gateway(id, facts.as_slice()),
            SessionFacts::Af(id, facts) => self.list_call(id, facts.as_slice()),
        }
    }

    /// Lists each session of a state under the address that it shows, under the network of the prefix that it shows, and each
    /// of a gateway under the subscribers that it shows. A refusal leaves what was listed so far.
    pub fn cover_state(&mut self, state: &State) -> Result<(), AllocError>
        ensures grows { Grows self.old self.new }
        ensures covers { OnOk result (Covers (view state.now.facts) self.new) }
    {
        self.list_gateways(state.all_gx())?;
        self.list_calls(state.all_af())
    }

    /// Lists a gateway's session under the address, the network of the prefix, and each subscriber that a record of it shows. A
    /// refusal leaves what was listed so far.
    pub fn cover_gateway(&mut self, id: &GxSid, known: &GxRec) -> Result<(), AllocError>
        ensures grows { Grows self.old self.new }
        ensures lists { OnOk result (ListsGateway self.new id.now known.now) }
    {
        self.list_gateway_address(id, known)?;
        self.list_gateway_prefix(id, known)?;
        self.list_gateway_subscribers(id, known)
    }

    /// Lists a gateway's session by these facts.
    fn list_gateway(&mut self, id: &GxSid, facts: &[GxFact]) -> Result<(), AllocError>
        ensures grows { Grows self.old self.new }
        ensures lists { OnOk result
            (ListsFacts self.new (gx id.now) (map gx_facts.fact_of facts.now)) }
    {
        for fact in facts {
            self.list_gateway_fact(id, fact)?;
        }
        Ok(())
    }

    /// Lists a gateway's session by this fact.
    fn list_gateway_fact(&mut self, id: &GxSid, fact: &GxFact) -> Result<(), AllocError>
        ensures grows { Grows self.old self.new }
        ensures lists { OnOk result
            (ListsFacts self.new (gx id.now) (gx_facts.fact_of fact.now ∷ [])) }
    {
        match fact {
            GxFact::Field(_, value) => self.list_gateway_value(id, value),
            _ => Ok(()),
        }
    }

    /// Lists a gateway's session by the value of a field.
    fn list_gateway_value(
        &mut self,
        id: &GxSid,
        value: &SessionValue<Enumerated<OpenRequestType>>,
    ) -> Result<(), AllocError>
        ensures grows { Grows self.old self.new }
        ensures lists { OnOk result ((t : Tag) →
            ListsFacts self.new (gx id.now) (session_fact t value.now ∷ [])) }
    {
        match value {
            SessionValue::Address(address) => self.add_gateway(address, id),
            SessionValue::Prefix(prefix) => self.add_prefixed_gateway(prefix, id),
            SessionValue::Subscribers(subscribers) => {
                self.add_subscribed(subscribers.as_slice(), id)
            }
            _ => Ok(()),
        }
    }

    /// Lists an application function's session by these facts.
    fn list_call(&mut self, id: &AfSid, facts: &[AfFact]) -> Result<(), AllocError>
        ensures grows { Grows self.old self.new }
        ensures lists { OnOk result
            (ListsFacts self.new (af id.now) (map af_facts.fact_of facts.now)) }
    {
        for fact in facts {
            self.list_call_fact(id, fact)?;
        }
        Ok(())
    }

    /// Lists an application function's session by this fact.
    fn list_call_fact(&mut self, id: &AfSid, fact: &AfFact) -> Result<(), AllocError>
        ensures grows { Grows self.old self.new }
        ensures lists { OnOk result
            (ListsFacts self.new (af id.now) (af_facts.fact_of fact.now ∷ [])) }
    {
        match fact {
            AfFact::Session(_, value) => self.list_call_value(id, value),
            _ => Ok(()),
        }
    }

    /// Lists an application function's session by the value of a field.
    fn list_call_value(
        &mut self,
        id: &AfSid,
        value: &SessionValue<Enumerated<AfRequestType>>,
    ) -> Result<(), AllocError>
        ensures grows { Grows self.old self.new }
        ensures lists { OnOk result ((t : Tag) →
            ListsFacts self.new (af id.now) (session_fact t value.now ∷ [])) }
    {
        match value {
            SessionValue::Address(address) => self.add_call(address, id),
            SessionValue::Prefix(prefix) => self.add_prefixed_call(prefix, id),
            _ => Ok(()),
        }
    }

    /// Lists gateways' sessions by what their records show.
    fn list_gateways(&mut self, sessions: Entries<'_, GxSid, GxRec>) -> Result<(), AllocError>
        ensures grows { Grows self.old self.new }
        ensures lists { OnOk result (ListEach ListsGateway self.new sessions.entry) }
    {
        for (id, known) in sessions {
            self.cover_gateway(id, known)?;
        }
        Ok(())
    }

    /// Lists a gateway's session under the address that its record shows.
    fn list_gateway_address(&mut self, id: &GxSid, known: &GxRec) -> Result<(), AllocError>
        ensures grows { Grows self.old self.new }
        ensures lists { OnOk result (ListsAddress self.new (gx id.now) known.now) }
    {
        let Some((_, address)) = known.address() else {
            return Ok(());
        };
        self.add_gateway(address, id)
    }

    /// Lists a gateway's session under the network of the prefix that its record shows.
    fn list_gateway_prefix(&mut self, id: &GxSid, known: &GxRec) -> Result<(), AllocError>
        ensures grows { Grows self.old self.new }
        ensures lists { OnOk result (ListsPrefix self.new (gx id.now) known.now) }
    {
        let Some((_, prefix)) = known.prefix() else {
            return Ok(());
        };
        self.add_prefixed_gateway(prefix, id)
    }

    /// Lists a gateway's session under each subscriber that its record shows.
    fn list_gateway_subscribers(&mut self, id: &GxSid, known: &GxRec) -> Result<(), AllocError>
        ensures grows { Grows self.old self.new }
        ensures lists { OnOk result (ListsSubscribers self.new id.now known.now) }
    {
        let Some((_, subscribers)) = known.subscribers() else {
            return Ok(());
        };
        self.add_subscribed(subscribers.as_slice(), id)
    }

    /// Lists application functions' sessions by what their records show.
    fn list_calls(&mut self, sessions: Entries<'_, AfSid, AfRec>) -> Result<(), AllocError>
        ensures grows { Grows self.old self.new }
        ensures lists { OnOk result (ListEach ListsCall self.new sessions.entry) }
    {
        for (id, known) in sessions {
            self.cover_call(id, known)?;
        }
        Ok(())
    }

    /// Lists an application function's session under the address that its record shows, and under the network of the prefix.
    fn cover_call(&mut self, id: &AfSid, known: &AfRec) -> Result<(), AllocError>
        ensures grows { Grows self.old self.new }
        ensures lists { OnOk result (ListsCall self.new id.now known.now) }
    {
        self.list_call_address(id, known)?;
        self.list_call_prefix(id, known)
    }

    /// Lists an application function's session under the address that its record shows.
    fn list_call_address(&mut self, id: &AfSid, known: &AfRec) -> Result<(), AllocError>
        ensures grows { Grows self.old self.new }
        ensures lists { OnOk result (ListsAddress self.new (af id.now) known.now) }
    {
        let Some((_, address)) = known.address() else {
            return Ok(());
        };
        self.add_call(address, id)
    }

    /// Lists an application function's session under the network of the prefix that its record shows.
    fn list_call_prefix(&mut self, id: &AfSid, known: &AfRec) -> Result<(), AllocError>
        ensures grows { Grows self.old self.new }
        ensures lists { OnOk result (ListsPrefix self.new (af id.now) known.now) }
    {
        let Some((_, prefix)) = known.prefix() else {
            return Ok(());
        };
        self.add_prefixed_call(prefix, id)
    }
}
