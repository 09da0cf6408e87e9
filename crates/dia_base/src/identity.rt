//! Who answers.
ghost use Rattle.std.specs.Prelude.{◌≤◌, length};
ghost use Rattle.pcrf_values.specs.Limits.{identity_limit};

use crate::form::MessageForm;
use pcrf_values::DiameterIdentity;
use std::net::Ipv4Addr;

/// The Diameter node that a site is: its Origin-Host and Origin-Realm (RFC 6733, 6.3 and 6.4), and its
/// Host-IP-Address (5.3.5); and the form in which it writes.
#[derive(Debug, Drop, PartialEq, Eq)]
pub struct Identity {
    /// Origin-Host.
    pub host: DiameterIdentity,
    /// Origin-Realm.
    pub realm: DiameterIdentity,
    /// Host-IP-Address.
    pub address: Ipv4Addr,
    /// The form in which it writes.
    pub form: MessageForm,
    /// Origin-State-Id (8.16), which messages of the standards' form have; `None` where they have none.
    pub state: Option<u32>,
}

impl Identity {
    /// Does nothing: its contract tells a proof how long the names are at most.
    pub fn note_names(&self)
        ensures host { length self.now.host ≤ identity_limit }
        ensures realm { length self.now.realm ≤ identity_limit }
    {
        let _host = self.host.as_slice();
        let _realm = self.realm.as_slice();
    }
}
