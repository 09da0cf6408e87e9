//! What an index no longer lists of sessions that are ended.
ghost use Rattle.std.specs.Prelude.{◌≡◌};
ghost use Rattle.std.specs.declared.net.ipv4_addr.Ipv4Addr.{Ipv4Addr as Address};
ghost use Rattle.pcrf_model.specs.Sessions.{Gx, Af, gx, af};
ghost use Rattle.pcrf_model.specs.Views.{View};
ghost use Rattle.pcrf_values.specs.Prefixes.{Ipv6Prefix as PrefixValue};
ghost use Rattle.bind_index.specs.Forgetting.{ForgetsAddress, ForgetsNetwork, ForgetsSubscribers, SameKeyed, SamePrefixed, ShowsNothing};
ghost use Rattle.bind_index.specs.Index.{Covers, listed_at, listed_in};

use crate::index::Index;
use crate::networks::network_of;
use af_records::AfRec;
use gx_records::GxRec;
use pcrf_values::{AfSid, GxSid};

impl Index {
    /// Takes a gateway's session out from under the address, the network and the subscribers that a record of it shows, that
    /// which stood before the session was ended. An index that covers a state in which the session shows nothing then still
    /// covers it, and a pool of addresses that is used again and again doesn't fill it.
    pub fn forget_gateway(&mut self, id: &GxSid, known: &GxRec)
        ensures address { ForgetsAddress self.old self.new (gx id.now) known.now }
        ensures subscribers { ForgetsSubscribers
            self.old.subscribed self.new.subscribed id.now known.now }
        ensures network { ForgetsNetwork self.old self.new (gx id.now) known.now }
        ensures calls { (a : Address) → listed_at self.new Af a ≡ listed_at self.old Af a }
        ensures calls_in { (n : PrefixValue) → listed_in self.new Af n ≡ listed_in self.old Af n }
        ensures covers { (v : View) → ShowsNothing v (gx id.now)
            → Covers v self.old → Covers v self.new }
    {
        self.forget_gateway_address(id, known);
        self.forget_gateway_subscribers(id, known);
        self.forget_gateway_network(id, known);
    }

    /// Takes an application function's session out from under the address and the network that a record of it shows, as
    /// `forget_gateway` does.
    pub fn forget_call(&mut self, id: &AfSid, known: &AfRec)
        ensures address { ForgetsAddress self.old self.new (af id.now) known.now }
        ensures network { ForgetsNetwork self.old self.new (af id.now) known.now }
        ensures gateways { (a : Address) → listed_at self.new Gx a ≡ listed_at self.old Gx a }
        ensures gateways_in { (n : PrefixValue) →
            listed_in self.new Gx n ≡ listed_in self.old Gx n }
        ensures subscribers { self.new.subscribed ≡ self.old.subscribed }
        ensures covers { (v : View) → ShowsNothing v (af id.now)
            → Covers v self.old → Covers v self.new }
    {
        self.forget_call_address(id, known);
        self.forget_call_network(id, known);
    }

    /// Takes a gateway's session out from under the network of the prefix that a record of it shows.
    fn forget_gateway_network(&mut self, id: &GxSid, known: &GxRec)
        ensures network { ForgetsNetwork self.old self.new (gx id.now) known.now }
        ensures calls { self.new.call_networks ≡ self.old.call_networks }
        ensures keyed { SameKeyed self.old self.new }
        ensures covers { (v : View) → ShowsNothing v (gx id.now)
            → Covers v self.old → Covers v self.new }
    {
        let Some((_, prefix)) = known.prefix() else {
            return;
        };
        self.forget_gateway_in(&network_of(prefix), id);
    }

    /// Takes an application function's session out from under the network of the prefix that a record of it shows.
    fn forget_call_network(&mut self, id: &AfSid, known: &AfRec)
        ensures network { ForgetsNetwork self.old self.new (af id.now) known.now }
        ensures gateways { self.new.gateway_networks ≡ self.old.gateway_networks }
        ensures keyed { SameKeyed self.old self.new }
        ensures covers { (v : View) → ShowsNothing v (af id.now)
            → Covers v self.old → Covers v self.new }
    {
        let Some((_, prefix)) = known.prefix() else {
            return;
        };
        self.forget_call_in(&network_of(prefix), id);
    }

    /// Takes an application function's session out from under the address that a record of it shows.
    fn forget_call_address(&mut self, id: &AfSid, known: &AfRec)
        ensures address { ForgetsAddress self.old self.new (af id.now) known.now }
        ensures gateways { (a : Address) → listed_at self.new Gx a ≡ listed_at self.old Gx a }
        ensures prefixed { SamePrefixed self.old self.new }
        ensures subscribers { self.new.subscribed ≡ self.old.subscribed }
        ensures covers { (v : View) → ShowsNothing v (af id.now)
            → Covers v self.old → Covers v self.new }
    {
        let Some((_, address)) = known.address() else {
            return;
        };
        self.forget_call_at(*address, id);
    }

    /// Takes a gateway's session out from under the address that a record of it shows.
    fn forget_gateway_address(&mut self, id: &GxSid, known: &GxRec)
        ensures address { ForgetsAddress self.old self.new (gx id.now) known.now }
        ensures calls { (a : Address) → listed_at self.new Af a ≡ listed_at self.old Af a }
        ensures prefixed { SamePrefixed self.old self.new }
        ensures subscribers { self.new.subscribed ≡ self.old.subscribed }
        ensures covers { (v : View) → ShowsNothing v (gx id.now)
            → Covers v self.old → Covers v self.new }
    {
        let Some((_, address)) = known.address() else {
            return;
        };
        self.forget_gateway_at(*address, id);
    }

    /// Takes a gateway's session out from under the subscribers that a record of it shows.
    fn forget_gateway_subscribers(&mut self, id: &GxSid, known: &GxRec)
        ensures subscribers { ForgetsSubscribers
            self.old.subscribed self.new.subscribed id.now known.now }
        ensures gateways { self.new.gateways ≡ self.old.gateways }
        ensures calls { self.new.calls ≡ self.old.calls }
        ensures prefixed { SamePrefixed self.old self.new }
        ensures covers { (v : View) → ShowsNothing v (gx id.now)
            → Covers v self.old → Covers v self.new }
    {
        let Some((_, subscribers)) = known.subscribers() else {
            return;
        };
        self.forget_gateway_of(subscribers.as_slice(), id);
    }
}
