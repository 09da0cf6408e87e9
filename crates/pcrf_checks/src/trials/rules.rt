//! Three sessions of one subscriber: they are found by it, their rules made at once, and those that a site keeps renewed. So few are
//! made in one thread: each allocation has the same place in every run.
use crate::makers::subscriber_of;
use crate::trials::equality::same_sites;
use crate::trials::given::Given;
use pcc_rules::derive_many;
use pcrf_values::{GxSid, Ranked, Rule, Subscriber, SubscriptionType};
use site_core::Site;
use std::io::Print;
use std::thread::Threads;

/// The ids of the sessions.
const IDS: [&[u8]; 3] = [b"gw;1;1", b"gw;1;2", b"gw;1;3"];

/// The name of the rule of the call.
const NAME: &[u8] = b"af/af;1;1/1/1";

/// The session at this place has these rules: the second that of the call, and the others none.
fn is_right(place: usize, id: &GxSid, rules: Option<&[Rule]>) -> Option<bool> {
    let has_its_own = match rules? {
        [] => place != 1,
        [rule] => place == 1 && rule.name().as_slice() == NAME,
        _ => false,
    };
    Some(has_its_own && id.as_slice() == *IDS.get(place)?)
}

impl<R: Threads + Sync + Print> Given<'_, R> {
    /// A site that took the requests of three sessions, and a call of the second.
    pub fn loaded(&self) -> Option<Site> {
        let mut site = self.site()?;
        let event = self.event("sessions")?;
        drop(site.step(&event).ok()?);
        Some(site)
    }

    /// The sessions, which their subscriber finds; none where that was refused.
    fn find(&self, site: &Site, subscriber: &Subscriber) -> Option<Vec<GxSid>> {
        self.begin("Site::sessions_of", "three sessions");
        let found = site.sessions_of(subscriber);
        self.end(found.is_err());
        found.ok()
    }

    /// Makes the rules of the sessions; whether that was done.
    fn derive(&self, site: &Site, ids: &[GxSid]) -> Option<bool> {
        self.begin("derive_many", "three sessions");
        let lists = derive_many(self.rt, self.alloc, site.tables(), site.sessions(), ids);
        self.end(lists.is_err());
        let Ok(lists) = lists else {
            return Some(false);
        };
        for (place, id) in ids.iter().enumerate() {
            self.judge(is_right(place, id, Some(lists.get(place)?.as_slice())));
        }
        Some(lists.len() == IDS.len())
    }

    /// Has a site renew what it keeps; whether that was done. It changes nothing else of the site.
    fn renew(&self, site: &mut Site, ids: &[GxSid]) -> Option<bool> {
        self.begin("Site::renew", "three sessions");
        let is_done = site.renew(self.rt).is_ok();
        self.end(!is_done);
        for (place, id) in ids.iter().enumerate() {
            if is_done {
                self.judge(is_right(place, id, site.cached_rules().get(id)));
            }
        }
        let other = self.loaded()?;
        self.judge(same_sites(site, &other, &[]));
        Some(is_done)
    }

    /// Tries to find the sessions at such a site, to make their rules, and to renew them.
    pub fn try_rules(&self, site: &mut Site) -> Option<bool> {
        let one = subscriber_of(self.alloc, SubscriptionType::EndUserE164, "1").ok()??;
        let found = match self.find(site, &one) {
            Some(found) => found,
            None => self.find(site, &one)?,
        };
        let ids = found.as_slice();
        self.judge(Some(self.derive(site, ids)? || self.derive(site, ids)?));
        Some(self.renew(site, ids)? || self.renew(site, ids)?)
    }
}
