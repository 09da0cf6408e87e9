//! Session termination requests (TS 29.214, 5.6.4).
ghost use Rattle.std.specs.Prelude.{◌≡◌, ◌↔◌, OnOk, IfOk, IfErr, IsTrue};
ghost use Rattle.dia_codec.specs.Spelling.{avp_views};
ghost use Rattle.dia_base.specs.Rows.{AcceptsAll, IsFaultOf, rows_refusal};
ghost use Rattle.rx_profile.specs.Terminations.{str_of, str_rows, str_view};

use dia_base::codes::avps::SESSION_ID;
use dia_base::{Origin, ReadFault, base_key, read_origin, required_text};
use dia_codec::Message;
use pcrf_values::{AfSid, Exact, Ranked, same};
use std::alloc::{AllocError, Global};

/// A session termination request as it was read: what this profile asks of it, and nothing else.
#[derive(Debug, Drop, PartialEq, Eq)]
pub struct Str {
    /// Session-Id, which names the application function's session.
    pub session: AfSid,
    /// Origin-Host and Origin-Realm: the application function.
    pub origin: Origin,
}

impl Str {
    /// An equal request.
    pub fn try_copy(&self) -> Result<Str, AllocError>
        ensures { IfOk result (λ copy. str_view copy ≡ str_view self.now) }
    {
        let session = self.session.try_copy()?;
        let origin = self.origin.try_copy()?;
        Ok(Str { session, origin })
    }

    /// Both ask for the same.
    pub fn equal(&self, other: &Str) -> bool
        ensures { IsTrue result ↔ (str_view self.now ≡ str_view other.now) }
    {
        same(&self.session, &other.session) && self.origin.equal(&other.origin)
    }
}

/// Reads a session termination request, or gives the first refusal of what breaks its table.
pub fn read_str(alloc: Global, message: &Message<'_>) -> Result<Str, ReadFault>
    ensures accepted { OnOk result (AcceptsAll str_rows (avp_views message.now.avps.items)) }
    ensures request { IfOk result (λ termination.
        str_view termination ≡ str_of (avp_views message.now.avps.items)) }
    ensures refused { IfErr result
        (IsFaultOf (rows_refusal str_rows (avp_views message.now.avps.items))) }
{
    let avps = message.avps.as_slice();
    let session = AfSid::of(required_text(alloc, avps, base_key(SESSION_ID))?);
    let origin = read_origin(alloc, avps)?;
    Ok(Str { session, origin })
}
