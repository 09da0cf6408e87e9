//! What one site said.
ghost use Rattle.std.specs.Prelude.{◌≡◌, OnOk, OnErr};
ghost use Rattle.peer_lines.specs.Said.{NoLink, Silent, is_left, reaches, said_value, with_all, with_host, without_host};

use crate::hosts::Moment;
use pcrf_values::DiameterIdentity;
use std::alloc::AllocError;
use std::collections::BTreeSet;

/// What is known of the hosts that a site reaches.
#[derive(Drop)]
pub(crate) enum Said {
    /// Nothing: it has no link here since then.
    NoLink(u64),
    /// Nothing yet: it has a link.
    Silent,
    /// These, as it said over its link.
    Reaches(BTreeSet<DiameterIdentity>),
}

impl Said {
    /// It has a link from now on.
    pub(crate) fn begin(&mut self)
        ensures { said_value self.new ≡ Silent }
    {
        *self = Said::Silent;
    }

    /// It has none any more.
    pub(crate) fn forget(&mut self, now: u64)
        ensures { said_value self.new ≡ NoLink now }
    {
        *self = Said::NoLink(now);
    }

    /// It said over its link which hosts it reaches, and no others.
    pub(crate) fn say_all(&mut self, hosts: BTreeSet<DiameterIdentity>)
        ensures { said_value self.new ≡ with_all hosts.keys (said_value self.old) }
    {
        match self {
            Said::NoLink(_) => {}
            Said::Silent | Said::Reaches(_) => *self = Said::Reaches(hosts),
        }
    }

    /// It said that it reaches one more.
    pub(crate) fn say_reached(&mut self, host: DiameterIdentity) -> Result<(), AllocError>
        ensures ok { OnOk result (said_value self.new ≡ with_host host (said_value self.old)) }
        ensures err { OnErr result (said_value self.new ≡ said_value self.old) }
    {
        if let Said::Reaches(hosts) = self {
            if let Err(_) = hosts.insert(host) {
                return Err(AllocError);
            }
        }
        Ok(())
    }

    /// It said that it reaches one less.
    pub(crate) fn say_left(&mut self, host: &DiameterIdentity)
        ensures { said_value self.new ≡ without_host host.now (said_value self.old) }
    {
        if let Said::Reaches(hosts) = self {
            hosts.remove(host);
        }
    }

    /// Whether it reaches a host, as it said.
    pub(crate) fn reaches(&self, host: &DiameterIdentity) -> bool
        ensures { result ≡ reaches host.now (said_value self.now) }
    {
        match self {
            Said::Reaches(hosts) => hosts.contains(host),
            Said::Silent | Said::NoLink(_) => false,
        }
    }

    /// Whether the host left it: it said that it doesn't reach the host, or has had no link for long enough.
    pub(crate) fn is_left(&self, host: &DiameterIdentity, moment: Moment) -> bool
        ensures { result ≡ is_left moment host.now (said_value self.now) }
    {
        match self {
            Said::Silent => false,
            Said::Reaches(hosts) => !hosts.contains(host),
            Said::NoLink(since) => moment.now.saturating_sub(*since) >= moment.patience,
        }
    }
}
