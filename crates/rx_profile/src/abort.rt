//! What a site asks of an application function of its own accord.
ghost use Rattle.std.specs.Prelude.{◌≡◌, ◌≤◌, ◌+◌, [], IfOk, OnOk};
ghost use Rattle.std.specs.List.{sum_by};
ghost use Rattle.dia_codec.specs.Drafts.{Adds};
ghost use Rattle.dia_codec.specs.Limits.{longest_message};
ghost use Rattle.dia_codec.specs.Written.{padded_len, written_len, written_spelling};
ghost use Rattle.rx_profile.specs.Aborts.{abort_view, asr, asr_avps};

use crate::codes::BEARER_RELEASED;
use crate::codes::avps::ABORT_CAUSE;
use dia_base::codes::{RX, avps, commands};
use dia_base::{AvpWriter, Identity, put_origin, request_header};
use pcrf_values::{AfSid, DiameterIdentity, Exact, Ranked, same};
use std::alloc::{AllocError, Global};

/// An abort: the application function is asked to end its session, to which no gateway's session is bound any more (TS 29.214,
/// 4.4.6.1).
#[derive(Debug, Drop, PartialEq, Eq)]
pub struct AbortOut {
    /// The application function's session.
    pub session: AfSid,
    /// The Origin-Host of the session's requests, to which the abort goes.
    pub host: DiameterIdentity,
    /// Its Origin-Realm.
    pub realm: DiameterIdentity,
}

impl AbortOut {
    /// An equal abort.
    pub fn try_copy(&self) -> Result<AbortOut, AllocError>
        ensures { IfOk result (λ copy. copy ≡ self.now) }
    {
        let session = self.session.try_copy()?;
        let host = self.host.try_copy()?;
        let realm = self.realm.try_copy()?;
        Ok(AbortOut {
            session,
            host,
            realm,
        })
    }
}

impl Exact for AbortOut {
    fn equal(&self, other: &AbortOut) -> bool {
        same(&self.session, &other.session)
            && same(&self.host, &other.host)
            && same(&self.realm, &other.realm)
    }
}

/// The AVPs of the request of an abort. Every one fits a message.
#[tactic(auto, unfolding(crate::specs::Aborts::asr_avps))]
fn asr_avps(alloc: Global, identity: &Identity, abort: &AbortOut) -> Result<AvpWriter, AllocError>
    ensures added { IfOk result (λ out. Adds [] out
        (asr_avps identity.now (abort_view abort.now))) }
    ensures within { OnOk result
        (20 + sum_by padded_len (asr_avps identity.now (abort_view abort.now)) ≤ longest_message) }
{
    identity.note_names();
    let mut out = AvpWriter::start(alloc)?;
    out.text(avps::SESSION_ID, abort.session.as_slice())?;
    out.number(avps::AUTH_APPLICATION_ID, RX)?;
    put_origin(&mut out, identity)?;
    out.text(avps::DESTINATION_REALM, abort.realm.as_slice())?;
    out.text(avps::DESTINATION_HOST, abort.host.as_slice())?;
    out.tgpp_number(ABORT_CAUSE, true, BEARER_RELEASED)?;
    Ok(out)
}

/// The bytes of the abort session request of an abort. Every one fits a message.
pub fn write_asr(
    alloc: Global,
    identity: &Identity,
    hop_id: u32,
    end_id: u32,
    abort: &AbortOut,
) -> Result<Vec<u8>, AllocError>
    ensures written { IfOk result (λ bytes. bytes.items
        ≡ written_spelling (asr identity.now hop_id end_id (abort_view abort.now))) }
    ensures fits { OnOk result
        (written_len (asr identity.now hop_id end_id (abort_view abort.now)) ≤ longest_message) }
{
    let out = asr_avps(alloc, identity, abort)?;
    match out.into_bytes(&request_header(commands::ABORT_SESSION, RX, hop_id, end_id)) {
        Some(bytes) => Ok(bytes),
        None => unreachable!(),
    }
}
