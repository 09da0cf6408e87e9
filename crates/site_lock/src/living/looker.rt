//! Who looks at a site that threads share.
use site_machine::Site;

/// Who looks at a site under its lock: everybody else waits meanwhile, so it is to see a few sessions and no more.
pub trait Looker {
    ghost use Rattle.site_machine.specs.Sites.{SiteValue};

    /// What seeing a site may make of it.
    ghost saw: { Self → SiteValue → Self → Type 0 };

    /// Sees the site as it is. Nothing of it changes.
    fn see(&mut self, site: &Site)
        ensures { saw self.old site.now self.new };
}
