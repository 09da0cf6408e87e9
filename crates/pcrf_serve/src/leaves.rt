//! Which homes are left by the hosts of their sessions.
ghost use Rattle.std.specs.Prelude.{◌≡◌, ℕ, List, Bool};

use pcrf_values::DiameterIdentity;

/// Who knows which homes are left by which hosts.
pub trait Leaves {
    /// That home is left by that host.
    ghost leaves: { Self → List ℕ → ℕ → Bool };

    /// Whether a home, which is the number of a site, is left by a host.
    fn leaves(&self, host: &DiameterIdentity, home: u8) -> bool
        ensures { result ≡ leaves self.now host.now home };
}
