//! The names of a site, copied.
ghost use Rattle.std.specs.Prelude.{◌≡◌, IfOk};

use dia_base::Identity;
use pcrf_values::Ranked;
use site_machine::Site;
use std::alloc::AllocError;

/// A copy of a site's names.
pub(crate) fn names_of(site: &Site) -> Result<Identity, AllocError>
    ensures { IfOk result (λ names. names ≡ site.now.identity) }
{
    let names = site.identity();
    let host = names.host.try_copy()?;
    let realm = names.realm.try_copy()?;
    Ok(Identity {
        host,
        realm,
        address: names.address,
        form: names.form,
        state: names.state,
    })
}
