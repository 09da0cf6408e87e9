//! The Failed-AVP of an answer.
ghost use Rattle.std.specs.Prelude.{◌≡◌, ◌≤◌, length, IfOk, option_map};
ghost use Rattle.dia_codec.specs.Limits.{header_bytes};
ghost use Rattle.dia_codec.specs.Spelling.{avp_views, owned_view};
ghost use Rattle.site_core.specs.Failed.{among, at_fault, failed_avp, failed_with, first_fault, lacking, told_by};
ghost use Rattle.site_core.specs.Grammars.{grammar_of};
ghost use Rattle.site_core.specs.Faults.{fault_view};

use crate::failed_avps::codes::avps::FAILED_AVP;
use crate::failed_avps::codes::results::AVP_UNSUPPORTED;
use crate::failed_avps::fault::{Fault, example, fault_within};
use crate::failed_avps::grammar::Grammar;
use crate::failed_avps::requests::{ADDRESS, DEPTH, grammar_of};
use crate::failed_avps::session::session_fault;
use crate::failed_avps::uncut::{headed, uncut};
use crate::failed_avps::unsupported::unsupported_within;
use dia_base::codes::results::{INVALID_AVP_LENGTH, MISSING_AVP};
use dia_base::codes::{RX, commands};
use dia_codec::{
    Avp, HEADER_BYTES, Header, MsgFault, OwnedAvp, WriteFault, read_group, write_group,
};
use std::alloc::{AllocError, Global};

/// What an AA request that its grammar grants lacks, where it is refused by this code.
fn lacking(alloc: Global, header: &Header, code: u32) -> Result<Option<OwnedAvp>, AllocError>
    ensures { IfOk result (λ avp. option_map owned_view avp ≡ lacking header.now code) }
{
    let is_aar = header.command == commands::AUTHORIZATION && header.application == RX;
    if !is_aar || code != MISSING_AVP {
        return Ok(None);
    }
    Ok(Some(example(alloc, &ADDRESS)?))
}

/// What is at fault, where that is what the code tells of.
fn told_by(
    alloc: Global,
    header: &Header,
    code: u32,
    fault: Option<Fault>,
) -> Result<Option<OwnedAvp>, AllocError>
    ensures { IfOk result (λ avp. option_map owned_view avp
        ≡ told_by header.now code (option_map fault_view fault)) }
{
    match fault {
        None => lacking(alloc, header, code),
        Some(Fault { refusal, avp }) if refusal.code == code => Ok(avp),
        Some(_) => Ok(None),
    }
}

/// What breaks a grammar first: a Session-Id that isn't UTF-8 before all rows, since its own is the first.
fn first_fault(
    alloc: Global,
    grammar: Grammar,
    avps: &[Avp<'_>],
) -> Result<Option<Fault>, AllocError>
    ensures { IfOk result (λ fault. option_map fault_view fault
        ≡ first_fault grammar (avp_views avps.now)) }
{
    if let Some(fault) = session_fault(alloc, grammar, avps)? {
        return Ok(Some(fault));
    }
    fault_within(alloc, DEPTH, grammar, avps)
}

/// What is at fault among the AVPs of a request.
fn among(
    alloc: Global,
    header: &Header,
    code: u32,
    avps: &[Avp<'_>],
) -> Result<Option<OwnedAvp>, AllocError>
    ensures { IfOk result (λ avp. option_map owned_view avp
        ≡ among header.now code (avp_views avps.now) (grammar_of header.now)) }
{
    let Some(grammar) = grammar_of(header) else {
        return Ok(None);
    };
    if code == AVP_UNSUPPORTED {
        return match unsupported_within(alloc, DEPTH, grammar, avps)? {
            Some(fault) => Ok(fault.avp),
            None => Ok(None),
        };
    }
    let fault = first_fault(alloc, grammar, avps)?;
    told_by(alloc, header, code, fault)
}

/// The AVP at fault of a request with this header and frame that was refused with this Result-Code.
#[tactic(auto, unfolding(crate::specs::Failed::at_fault))]
fn at_fault(
    alloc: Global,
    header: &Header,
    code: u32,
    frame: &[u8],
) -> Result<Option<OwnedAvp>, AllocError>
    requires { header_bytes ≤ length frame.now }
    ensures { IfOk result (λ avp. option_map owned_view avp
        ≡ at_fault header.now code frame.now) }
{
    let Some((_, bytes)) = frame.split_first_chunk::<HEADER_BYTES>() else {
        unreachable!()
    };
    match read_group(alloc, bytes) {
        Ok(avps) => among(alloc, header, code, &avps),
        Err(MsgFault::NoMemory) => Err(AllocError),
        Err(_) if code == INVALID_AVP_LENGTH => {
            Ok(Some(headed(alloc, grammar_of(header), uncut(bytes))?))
        }
        Err(_) => Ok(None),
    }
}

/// The Failed-AVP with this AVP, unless that is longer than any message.
fn failed_with(alloc: Global, avp: OwnedAvp) -> Result<Option<OwnedAvp>, AllocError>
    ensures { IfOk result (λ failed. option_map owned_view failed ≡ failed_with (owned_view avp)) }
{
    match write_group(alloc, &[avp.as_avp()]) {
        Ok(value) => Ok(Some(OwnedAvp {
            code: FAILED_AVP,
            vendor: None,
            mandatory: true,
            protected: false,
            value,
        })),
        Err(WriteFault::TooLong) => Ok(None),
        Err(WriteFault::NoMemory) => Err(AllocError),
    }
}

/// The Failed-AVP of an answer that refuses the request of this header and frame with this Result-Code: the AVP at fault as it came, in
/// the group in which it stands; of one that lacks, an example; none where no AVP is at fault.
#[tactic(auto, unfolding(crate::specs::Failed::failed_avp))]
pub fn failed_avp(
    alloc: Global,
    header: &Header,
    code: u32,
    frame: &[u8],
) -> Result<Option<OwnedAvp>, AllocError>
    requires { header_bytes ≤ length frame.now }
    ensures { IfOk result (λ failed. option_map owned_view failed
        ≡ failed_avp header.now code frame.now) }
{
    match at_fault(alloc, header, code, frame)? {
        Some(avp) => failed_with(alloc, avp),
        None => Ok(None),
    }
}
