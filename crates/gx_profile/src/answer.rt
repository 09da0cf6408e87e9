//! Answers to credit control requests (TS 29.212, 5.6.3), and what each message about a gateway's session begins with (5.6.3 and
//! 5.6.4).
ghost use Rattle.std.specs.Prelude.{◌≤◌, length, OnOk, ◌≡◌, ◌+◌, [], IfOk};
ghost use Rattle.std.specs.List.{sum_by};
ghost use Rattle.pcrf_values.specs.Limits.{identity_limit};
ghost use Rattle.dia_codec.specs.Drafts.{Adds};
ghost use Rattle.dia_codec.specs.Written.{padded_len, written_len, written_spelling};
ghost use Rattle.gx_profile.specs.Lengths.{opening_room, delta_room};
ghost use Rattle.gx_profile.specs.Openings.{opening_avps};
ghost use Rattle.dia_codec.specs.Limits.{longest_message};
ghost use Rattle.gx_profile.specs.Answers.{cca, cca_avps};
ghost use Rattle.gx_profile.specs.Requests.{ccr_view};
ghost use Rattle.gx_profile.specs.Rules.{delta_avps};
ghost use Rattle.pcrf_model.specs.ReplyViews.{gx_reply_view, reply_delta};

use crate::ccr::Ccr;
use crate::rules::{put_delta, put_quality};
use dia_base::codes::{GX, avps};
use dia_base::{AvpWriter, Identity, MessageForm, answer_header, put_origin, put_result};
use dia_codec::Header;
use pcrf_model::GxReply;
use pcrf_values::{DiameterIdentity, GxSid};
use std::alloc::{AllocError, Global};

/// A name of a host or a realm has 255 bytes at most. It does nothing: its contract tells a proof what the type keeps.
pub(crate) fn note_name(name: &DiameterIdentity)
    ensures { length name.now ≤ identity_limit }
{
    let _bytes = name.as_slice();
}

/// Writes Session-Id, Auth-Application-Id, Origin-Host and Origin-Realm.
pub(crate) fn put_opening(
    out: &mut AvpWriter,
    session: &GxSid,
    identity: &Identity,
) -> Result<(), AllocError>
    ensures added { OnOk result
        (Adds out.old out.new (opening_avps session.now identity.now)) }
    ensures within { OnOk result
        (sum_by padded_len (opening_avps session.now identity.now) ≤ opening_room) }
{
    note_name(&identity.host);
    note_name(&identity.realm);
    out.text(avps::SESSION_ID, session.as_slice())?;
    out.number(avps::AUTH_APPLICATION_ID, GX)?;
    put_origin(out, identity)?;
    Ok(())
}

/// Writes what a reply removes and installs.
#[tactic(auto, unfolding(crate::specs::Rules::delta_avps))]
fn put_reply_delta(
    alloc: Global,
    out: &mut AvpWriter,
    form: MessageForm,
    reply: &GxReply,
) -> Result<(), AllocError>
    ensures added { OnOk result
        (Adds out.old out.new (delta_avps form (reply_delta (gx_reply_view reply.now)))) }
    ensures within { OnOk result
        (sum_by padded_len (delta_avps form (reply_delta (gx_reply_view reply.now))) ≤ delta_room) }
{
    match reply {
        GxReply::Granted(delta, _) => put_delta(alloc, out, form, delta)?,
        GxReply::Refused(_) => (),
    }
    Ok(())
}

/// The AVPs of an answer. Every answer fits a message.
#[tactic(auto, unfolding(crate::specs::Answers::cca_avps))]
fn cca_avps(
    alloc: Global,
    identity: &Identity,
    ccr: &Ccr,
    reply: &GxReply,
) -> Result<AvpWriter, AllocError>
    ensures added { IfOk result (λ out. Adds [] out
        (cca_avps identity.now (ccr_view ccr.now) (gx_reply_view reply.now))) }
    ensures within { OnOk result (20 + sum_by padded_len
        (cca_avps identity.now (ccr_view ccr.now) (gx_reply_view reply.now)) ≤ longest_message) }
{
    let mut out = AvpWriter::start(alloc)?;
    put_opening(&mut out, &ccr.session, identity)?;
    put_result(&mut out, reply.refusal())?;
    out.number(avps::CC_REQUEST_TYPE, ccr.kind.number())?;
    out.number(avps::CC_REQUEST_NUMBER, ccr.number)?;
    put_reply_delta(alloc, &mut out, identity.form, reply)?;
    put_quality(&mut out, &reply.quality())?;
    Ok(out)
}

/// The bytes of the answer to a credit control request that was read. Every answer fits a message.
pub fn write_cca(
    alloc: Global,
    identity: &Identity,
    header: &Header,
    ccr: &Ccr,
    reply: &GxReply,
) -> Result<Vec<u8>, AllocError>
    ensures written { IfOk result (λ bytes. bytes.items ≡ written_spelling
        (cca identity.now header.now (ccr_view ccr.now) (gx_reply_view reply.now))) }
    ensures fits { OnOk result (written_len
        (cca identity.now header.now (ccr_view ccr.now) (gx_reply_view reply.now))
        ≤ longest_message) }
{
    let out = cca_avps(alloc, identity, ccr, reply)?;
    match out.into_bytes(&answer_header(header, reply.refusal())) {
        Some(bytes) => Ok(bytes),
        None => unreachable!(),
    }
}
