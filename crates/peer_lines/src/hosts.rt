//! Which hosts the sites say that they reach, each over its link to this one, and whether the home of a session is left by its host.
ghost use Rattle.std.specs.Prelude.{◌≡◌, ◌<◌, ℕ, List, false, IfOk, IfNone, IfSome, OnOk, OnErr, replicate, if◌then◌else◌};
ghost use Rattle.peer_lines.specs.Hosts.{goes_over, hosts_at_first, is_said, with_said};
ghost use Rattle.peer_lines.specs.Said.{NoLink, Silent, is_left, with_all, with_host, without_host};
ghost use Rattle.pcrf_values.specs.Limits.{site_limit};

use crate::said::Said;
use pcrf_values::DiameterIdentity;
use pcrf_values::limits::SITE_LIMIT;
use std::alloc::{AllocError, Global};
use std::collections::BTreeSet;
use std::marker::Model;

/// When a site looks, and how long it bears that another has no link: in the unit of the clock by which links came and went.
#[derive(Clone, Copy)]
pub struct Moment {
    pub now: u64,
    pub patience: u64,
}

impl Moment {
    /// That time; or where it isn't known what time it is, one at which no site has been without a link for as long as is borne.
    pub fn at(now: Option<u64>, patience: u64) -> Moment
        ensures known { IfSome now (λ time. result ≡ record { now = time; patience = patience }) }
        ensures unknown { IfNone now ((host : List ℕ) (since : ℕ) →
            is_left result host (NoLink since) ≡ false) }
    {
        match now {
            Some(now) => Moment { now, patience },
            None => Moment {
                now: 0,
                patience: u64::MAX,
            },
        }
    }
}

/// What is known of the hosts that each site reaches, this one too. It is what is so now, and is forgotten with a site's link.
#[derive(Drop)]
pub struct ReachedHosts {
    /// The number of this site.
    own: u8,
    /// What each site said, by its number.
    places: Vec<Said>,
}

impl Model for ReachedHosts {
    ghost use Rattle.std.specs.Prelude.{map};
    ghost use Rattle.peer_lines.specs.Hosts.{HostsValue};
    ghost use Rattle.peer_lines.specs.Said.{said_value};

    ghost Value = { HostsValue };

    ghost view = { λ h. record { own = h.own; said = map said_value h.places.items } };
}

impl ReachedHosts {
    /// Of a site that starts at that time: no other has a link, and it said of itself that it reaches nothing yet.
    pub fn start(alloc: Global, own: u8, now: u64) -> Result<ReachedHosts, AllocError>
        ensures { IfOk result (λ hosts. hosts ≡ hosts_at_first own now) }
    {
        let mut places = Vec::new(alloc);
        for _ in 0..SITE_LIMIT {
            places.push(Said::NoLink(now))?;
        }
        Ok(ReachedHosts { own, places })
    }

    /// A site has a link from now on, over which it said nothing yet.
    pub fn link(&mut self, site: u8)
        ensures { self.new ≡ with_said self.old site (λ said. Silent) }
    {
        let Some(said) = self.places.get_mut(site as usize) else {
            return;
        };
        said.begin();
    }

    /// A site has no link any more: what it said is forgotten.
    pub fn unlink(&mut self, site: u8, now: u64)
        ensures { self.new ≡ with_said self.old site (λ said. NoLink now) }
    {
        let Some(said) = self.places.get_mut(site as usize) else {
            return;
        };
        said.forget(now);
    }

    /// A site says over its link which hosts it reaches, and no others.
    pub fn say_all(&mut self, site: u8, hosts: BTreeSet<DiameterIdentity>)
        ensures { self.new ≡ with_said self.old site (with_all hosts.keys) }
    {
        let Some(said) = self.places.get_mut(site as usize) else {
            return;
        };
        said.say_all(hosts);
    }

    /// A site says that it reaches one more. A refusal changes nothing.
    pub fn say_reached(&mut self, site: u8, host: DiameterIdentity) -> Result<(), AllocError>
        ensures ok { OnOk result (self.new ≡ with_said self.old site (with_host host)) }
        ensures err { OnErr result (self.new ≡ self.old) }
    {
        let Some(said) = self.places.get_mut(site as usize) else {
            return Ok(());
        };
        said.say_reached(host)
    }

    /// A site says that it reaches one less.
    pub fn say_left(&mut self, site: u8, host: &DiameterIdentity)
        ensures { self.new ≡ with_said self.old site (without_host host.now) }
    {
        let Some(said) = self.places.get_mut(site as usize) else {
            return;
        };
        said.say_left(host);
    }

    /// Whether a host left a site: the site said that it doesn't reach the host, or has had no link for long enough.
    pub fn is_left(&self, host: &DiameterIdentity, site: u8, moment: Moment) -> bool
        ensures { result ≡ is_said self.now.said site (is_left moment host.now) }
    {
        match self.places.get(site as usize) {
            Some(said) => said.is_left(host, moment),
            None => false,
        }
    }

    /// Whether this site takes over the sessions of a host that have that home: it reaches the host, which left its home.
    pub fn goes_over(&self, host: &DiameterIdentity, home: u8, moment: Moment) -> bool
        ensures { result ≡ goes_over self.now moment host.now home }
    {
        if home == self.own {
            return false;
        }
        let (Some(own), Some(home)) = (
            self.places.get(self.own as usize),
            self.places.get(home as usize),
        ) else {
            return false;
        };
        own.reaches(host) && home.is_left(host, moment)
    }
}
