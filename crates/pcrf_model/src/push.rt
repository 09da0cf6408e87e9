//! What a site tells a gateway of its own accord.
ghost use Rattle.std.specs.Prelude.{◌≡◌, ◌↔◌, IfOk, IsTrue};

use crate::entries::FirstEntries;
use pcrf_values::{DiameterIdentity, Exact, GxSid, Ranked, same};
use std::alloc::AllocError;

/// A push: what the gateway of a session is told by a re-authorisation request (TS 29.212, 4.5.2 and 5.6.4).
#[derive(Debug, Drop, PartialEq, Eq)]
pub struct PushOut {
    /// The gateway's session.
    pub session: GxSid,
    /// The Origin-Host of the session's requests, to which the push goes.
    pub host: DiameterIdentity,
    /// Its Origin-Realm.
    pub realm: DiameterIdentity,
    /// The rules that are removed and installed.
    pub delta: FirstEntries,
}

impl PushOut {
    /// An equal push.
    pub fn try_copy(&self) -> Result<PushOut, AllocError>
        ensures { IfOk result (λ copy. copy ≡ self.now) }
    {
        let session = self.session.try_copy()?;
        let host = self.host.try_copy()?;
        let realm = self.realm.try_copy()?;
        let delta = self.delta.try_copy()?;
        Ok(PushOut {
            session,
            host,
            realm,
            delta,
        })
    }
}

impl Exact for PushOut {
    fn equal(&self, other: &PushOut) -> bool {
        same(&self.session, &other.session)
            && same(&self.host, &other.host)
            && same(&self.realm, &other.realm)
            && self.delta.equal(&other.delta)
    }
}
