//! Lists of rules that a site keeps, and makes anew all at once.
ghost use Rattle.std.specs.Prelude.{◌≡◌, IfOk};
ghost use Rattle.indexed_state.specs.Cached.{AreCached};
ghost use Rattle.indexed_state.specs.Many.{AreFresh};
ghost use Rattle.pcrf_model.specs.Views.{view};

use crate::site::Site;
use indexed_state::Rules;
use std::alloc::AllocError;
use std::thread::Threads;

impl Site {
    ghost use Rattle.std.specs.Borrow.{sem};
    ghost use Rattle.std.specs.Io.BufRead.{Rests};
    ghost use Rattle.site_machine.specs.contracts.site.Site.{the_row};

    /// The lists of PCC rules that are kept, each that of its gateway's session, by precedence and name. Of a session of which
    /// none is kept they may have changed, or nobody asked for them yet.
    pub fn cached_rules(&self) -> &Rules
        ensures { AreCached self.now.tables (view self.now.state.holding.facts) result.now }
    {
        self.held.cached_rules()
    }

    /// Derives the rules of each live gateway's session of which none are kept, in as many threads as there are processors, and
    /// keeps them, so that who asks for them next need not wait: what is answered are the lists that are kept then, one of
    /// each live session. Nothing else changes, also where memory is refused; what was derived so far is kept then.
    pub fn renew(&mut self, rt: &(impl Threads + Sync)) -> Result<&Rules, AllocError>
        ensures* same { sem 𝓛 (Rests the_row self.entry (λ now. now ≡ self.old)) }
        ensures fresh { IfOk result (λ lists.
            AreFresh self.old.tables (view self.old.state.holding.facts) lists.now) }
        ensures kept { IfOk result (λ lists.
            AreCached self.old.tables (view self.old.state.holding.facts) lists.now) }
    {
        self.held.renew(rt)
    }
}
