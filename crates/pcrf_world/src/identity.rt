//! By which names a site answers.
ghost use Rattle.std.specs.Prelude.{◌≡◌, IfOk};
ghost use Rattle.pcrf_world.specs.Identities.{host_text, identity_of};

use dia_base::{Identity, MessageForm};
use pcrf_values::DiameterIdentity;
use std::alloc::{AllocError, Global};
use std::net::Ipv4Addr;

/// The Origin-Realm of each site of a world.
const REALM: &[u8] = b"r";

/// The Origin-Host of the site of a number.
fn host_of(alloc: Global, number: u8) -> Result<DiameterIdentity, AllocError>
    ensures { IfOk result (λ host. host ≡ host_text number) }
{
    let text = format!(in alloc; "s{number}")?;
    let Some(host) = DiameterIdentity::read(alloc, text.as_bytes())? else {
        unreachable!()
    };
    Ok(host)
}

/// The identity of the site of a number: host `s` and the number, realm `r`, the address of the machine itself.
pub fn identity_of(alloc: Global, number: u8) -> Result<Identity, AllocError>
    ensures { IfOk result (λ identity. identity ≡ identity_of number) }
{
    let host = host_of(alloc, number)?;
    let Some(realm) = DiameterIdentity::read(alloc, REALM)? else {
        unreachable!()
    };
    Ok(Identity {
        host,
        realm,
        address: Ipv4Addr::LOCALHOST,
        form: MessageForm::Own,
        state: None,
    })
}
