//! What a site tells a gateway of its own accord.
ghost use Rattle.std.specs.Prelude.{◌≡◌, ◌≤◌, ◌+◌, [], IfOk, OnOk};
ghost use Rattle.std.specs.List.{sum_by};
ghost use Rattle.dia_codec.specs.Drafts.{Adds};
ghost use Rattle.dia_codec.specs.Limits.{longest_message};
ghost use Rattle.dia_codec.specs.Written.{padded_len, written_len, written_spelling};
ghost use Rattle.gx_profile.specs.Pushes.{rar, rar_avps};
ghost use Rattle.pcrf_model.specs.ReplyViews.{push_view};

use crate::answer::put_opening;
use crate::codes::base;
use crate::rules::put_delta;
use dia_base::codes::{GX, avps};
use dia_base::{AvpWriter, Identity, request_header};
use pcrf_model::PushOut;
use std::alloc::{AllocError, Global};

/// The AVPs of a request. Every request fits a message.
#[tactic(auto, unfolding(crate::specs::Pushes::rar_avps))]
fn rar_avps(alloc: Global, identity: &Identity, push: &PushOut) -> Result<AvpWriter, AllocError>
    ensures added { IfOk result (λ out.
        Adds [] out (rar_avps identity.now (push_view push.now))) }
    ensures within { OnOk result
        (20 + sum_by padded_len (rar_avps identity.now (push_view push.now)) ≤ longest_message) }
{
    let mut out = AvpWriter::start(alloc)?;
    put_opening(&mut out, &push.session, identity)?;
    out.text(avps::DESTINATION_REALM, push.realm.as_slice())?;
    out.text(avps::DESTINATION_HOST, push.host.as_slice())?;
    out.number(base::RE_AUTH_REQUEST_TYPE, base::AUTHORIZE_ONLY)?;
    put_delta(alloc, &mut out, identity.form, &push.delta)?;
    Ok(out)
}

/// The bytes of the re-authorisation request of a push. Every one fits a message.
pub fn write_rar(
    alloc: Global,
    identity: &Identity,
    hop_id: u32,
    end_id: u32,
    push: &PushOut,
) -> Result<Vec<u8>, AllocError>
    ensures written { IfOk result (λ bytes. bytes.items
        ≡ written_spelling (rar identity.now hop_id end_id (push_view push.now))) }
    ensures fits { OnOk result
        (written_len (rar identity.now hop_id end_id (push_view push.now)) ≤ longest_message) }
{
    let out = rar_avps(alloc, identity, push)?;
    match out.into_bytes(&request_header(base::RE_AUTH, GX, hop_id, end_id)) {
        Some(bytes) => Ok(bytes),
        None => unreachable!(),
    }
}
