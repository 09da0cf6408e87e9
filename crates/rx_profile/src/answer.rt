//! Answers to AA requests and session termination requests (TS 29.214, 5.6.2 and 5.6.5).
ghost use Rattle.std.specs.Prelude.{◌≡◌, ◌≤◌, ◌+◌, [], IfOk, OnOk};
ghost use Rattle.std.specs.List.{sum_by};
ghost use Rattle.dia_codec.specs.Drafts.{Adds};
ghost use Rattle.dia_codec.specs.Limits.{longest_message};
ghost use Rattle.dia_codec.specs.Written.{padded_len, written_len, written_spelling};
ghost use Rattle.rx_profile.specs.Answers.{aaa, aaa_avps, sta, sta_avps};

use dia_base::codes::{RX, avps};
use dia_base::{AvpWriter, Identity, Refusal, answer_header, put_origin, put_result};
use dia_codec::Header;
use pcrf_values::AfSid;
use std::alloc::{AllocError, Global};

/// The AVPs of an answer to an AA request. Every answer fits a message.
#[tactic(auto, unfolding(crate::specs::Answers::aaa_avps))]
fn aaa_avps(
    alloc: Global,
    identity: &Identity,
    session: &AfSid,
    refusal: Option<Refusal>,
) -> Result<AvpWriter, AllocError>
    ensures added { IfOk result (λ out.
        Adds [] out (aaa_avps identity.now session.now refusal)) }
    ensures within { OnOk result
        (20 + sum_by padded_len (aaa_avps identity.now session.now refusal) ≤ longest_message) }
{
    identity.note_names();
    let mut out = AvpWriter::start(alloc)?;
    out.text(avps::SESSION_ID, session.as_slice())?;
    out.number(avps::AUTH_APPLICATION_ID, RX)?;
    put_origin(&mut out, identity)?;
    put_result(&mut out, refusal)?;
    Ok(out)
}

/// The bytes of the answer to an AA request that was read, of a session: what it is refused with, or success. Every answer fits a
/// message.
pub fn write_aaa(
    alloc: Global,
    identity: &Identity,
    header: &Header,
    session: &AfSid,
    refusal: Option<Refusal>,
) -> Result<Vec<u8>, AllocError>
    ensures written { IfOk result (λ bytes. bytes.items
        ≡ written_spelling (aaa identity.now header.now session.now refusal)) }
    ensures fits { OnOk result
        (written_len (aaa identity.now header.now session.now refusal) ≤ longest_message) }
{
    let out = aaa_avps(alloc, identity, session, refusal)?;
    match out.into_bytes(&answer_header(header, refusal)) {
        Some(bytes) => Ok(bytes),
        None => unreachable!(),
    }
}

/// The AVPs of an answer to a session termination request. Every answer fits a message.
#[tactic(auto, unfolding(crate::specs::Answers::sta_avps))]
fn sta_avps(
    alloc: Global,
    identity: &Identity,
    session: &AfSid,
    refusal: Option<Refusal>,
) -> Result<AvpWriter, AllocError>
    ensures added { IfOk result (λ out.
        Adds [] out (sta_avps identity.now session.now refusal)) }
    ensures within { OnOk result
        (20 + sum_by padded_len (sta_avps identity.now session.now refusal) ≤ longest_message) }
{
    identity.note_names();
    let mut out = AvpWriter::start(alloc)?;
    out.text(avps::SESSION_ID, session.as_slice())?;
    put_origin(&mut out, identity)?;
    put_result(&mut out, refusal)?;
    Ok(out)
}

/// The bytes of the answer to a session termination request that was read, of a session: what it is refused with, or success. Every
/// answer fits a message.
pub fn write_sta(
    alloc: Global,
    identity: &Identity,
    header: &Header,
    session: &AfSid,
    refusal: Option<Refusal>,
) -> Result<Vec<u8>, AllocError>
    ensures written { IfOk result (λ bytes. bytes.items
        ≡ written_spelling (sta identity.now header.now session.now refusal)) }
    ensures fits { OnOk result
        (written_len (sta identity.now header.now session.now refusal) ≤ longest_message) }
{
    let out = sta_avps(alloc, identity, session, refusal)?;
    match out.into_bytes(&answer_header(header, refusal)) {
        Some(bytes) => Ok(bytes),
        None => unreachable!(),
    }
}
