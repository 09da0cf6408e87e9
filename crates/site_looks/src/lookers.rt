//! Who looks at a site for an operator: each for a look-up, and no longer.
ghost use Rattle.std.specs.Prelude.{◌≡◌, false, OnOk};
ghost use Rattle.site_looks.specs.Looks.{IsCallFound, IsGatewayFound, sessions_named, shown};

use crate::found::{CallFound, GatewayFound, call, gateway_session};
use crate::listed::{calls_at, gateways_at, sessions_named};
use pcrf_values::{AfSid, GxSid, SubscriptionData};
use site_lock::{Looker, Site};
use std::alloc::{AllocError, Global};
use std::net::Ipv4Addr;

/// Looks for the sessions of one Session-Id: that of a gateway, and that of an application function.
#[derive(Drop)]
pub struct SessionLook<'a> {
    pub gateway_id: &'a GxSid,
    pub call_id: &'a AfSid,
    pub gateway: Option<GatewayFound>,
    pub call: Option<CallFound>,
    /// Memory ran out.
    pub is_refused: bool,
}

impl<'a> SessionLook<'a> {
    /// Before the look.
    pub fn of(gateway_id: &'a GxSid, call_id: &'a AfSid) -> SessionLook<'a> {
        SessionLook {
            gateway_id,
            call_id,
            gateway: None,
            call: None,
            is_refused: false,
        }
    }

    /// What is found.
    fn find(&mut self, site: &Site) -> Result<(), AllocError>
        ensures gateway { OnOk result
            (IsGatewayFound site.now self.old.gateway_id.now self.new.gateway) }
        ensures call { OnOk result (IsCallFound site.now self.old.call_id.now self.new.call) }
    {
        self.gateway = gateway_session(site, self.gateway_id)?;
        self.call = call(site, self.call_id)?;
        Ok(())
    }
}

impl Looker for SessionLook<'_> {
    ghost use Rattle.std.specs.Prelude.{◌≡◌, false};
    ghost use Rattle.site_looks.specs.Looks.{IsCallFound, IsGatewayFound};

    ghost saw = { λ before site after. after.is_refused ≡ false
        → IsGatewayFound site before.gateway_id.now after.gateway
        × IsCallFound site before.call_id.now after.call };

    fn see(&mut self, site: &Site) {
        match self.find(site) {
            Ok(()) => self.is_refused = false,
            Err(_) => self.is_refused = true,
        }
    }
}

/// Looks for the sessions of gateways that have a subscriber of some name.
#[derive(Drop)]
pub struct SubscriberLook<'a> {
    pub name: &'a SubscriptionData,
    /// Those that have it, under each type of name.
    pub sessions: Vec<GxSid>,
    /// Memory ran out.
    pub is_refused: bool,
}

impl<'a> SubscriberLook<'a> {
    /// Before the look.
    pub fn of(alloc: Global, name: &'a SubscriptionData) -> SubscriberLook<'a> {
        SubscriberLook {
            name,
            sessions: Vec::new(alloc),
            is_refused: false,
        }
    }
}

impl Looker for SubscriberLook<'_> {
    ghost use Rattle.std.specs.Prelude.{◌≡◌, false};
    ghost use Rattle.site_looks.specs.Looks.{sessions_named, shown};

    ghost saw = { λ before site after. after.is_refused ≡ false
        → after.sessions.items ≡ sessions_named (shown site) before.name.now };

    fn see(&mut self, site: &Site) {
        match sessions_named(site, self.name) {
            Ok(sessions) => {
                self.sessions = sessions;
                self.is_refused = false;
            }
            Err(_) => self.is_refused = true,
        }
    }
}

/// Looks for the live sessions at an address.
#[derive(Drop)]
pub struct AddressLook {
    pub address: Ipv4Addr,
    pub gateways: Vec<GxSid>,
    pub calls: Vec<AfSid>,
    /// Memory ran out.
    pub is_refused: bool,
    alloc: Global,
}

impl AddressLook {
    /// Before the look.
    pub fn of(alloc: Global, address: Ipv4Addr) -> AddressLook {
        AddressLook {
            address,
            gateways: Vec::new(alloc),
            calls: Vec::new(alloc),
            is_refused: false,
            alloc,
        }
    }

    /// What is found.
    fn find(&mut self, site: &Site) -> Result<(), AllocError> {
        self.gateways = gateways_at(self.alloc, site, self.address)?;
        self.calls = calls_at(self.alloc, site, self.address)?;
        Ok(())
    }
}

impl Looker for AddressLook {
    ghost saw = { λ _ _ _. Unit {0} };

    fn see(&mut self, site: &Site) {
        self.is_refused = self.find(site).is_err();
    }
}
