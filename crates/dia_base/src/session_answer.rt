//! Answers to the requests that a site makes of its own accord, each of one session.
ghost use Rattle.std.specs.Prelude.{◌≡◌, OnOk, IfOk, IfErr};
ghost use Rattle.dia_codec.specs.Spelling.{avp_views};
ghost use Rattle.dia_base.specs.Rows.{Accepts, AcceptsAll, FaultsWith, IsFaultOf};
ghost use Rattle.dia_base.specs.SessionAnswers.{experimental_at, experimental_row, session_answer_of, session_answer_rows, session_answer_refusal};

use crate::codes::avps::{EXPERIMENTAL_RESULT, EXPERIMENTAL_RESULT_CODE, RESULT_CODE, SESSION_ID};
use crate::read_fault::ReadFault;
use crate::rows::{FromValue, base_key, optional_number, read_avps, read_each, required_text};
use dia_codec::{Avp, Message};
use pcrf_values::SessionId;
use std::alloc::Global;
use std::marker::Model;

/// A re-authorisation answer (TS 29.212, 5.6.5) or an abort session answer (TS 29.214, 5.6.8) as it was read: what this profile asks
/// of it, and nothing else.
#[derive(Debug, Drop, PartialEq, Eq)]
pub struct SessionAnswer {
    /// Session-Id.
    pub session: SessionId,
    /// Result-Code, where it was given.
    pub result: Option<u32>,
    /// The Experimental-Result-Code, where an Experimental-Result with one was given.
    pub experimental: Option<u32>,
}

/// An Experimental-Result (RFC 6733, 7.6), which contracts see as its Experimental-Result-Code.
#[derive(Clone, Copy)]
struct ExperimentalResult {
    code: Option<u32>,
}

impl Model for ExperimentalResult {
    ghost use Rattle.std.specs.Prelude.{Option, ℕ};

    ghost Value = { Option ℕ };

    ghost view = { λ r. r.code };

    ghost inverse = { λ code. record { code = code } };
}

impl FromValue for ExperimentalResult {
    ghost use Rattle.dia_base.specs.SessionAnswers.{experimental, code_of};

    ghost kind = { experimental };

    ghost of_value = { code_of };

    fn from_value(alloc: Global, value: &[u8]) -> Result<ExperimentalResult, ReadFault> {
        let avps = read_avps(alloc, value)?;
        let code = optional_number(&avps, base_key(EXPERIMENTAL_RESULT_CODE))?;
        Ok(ExperimentalResult { code })
    }
}

/// Reads the Experimental-Result-Code, which an Experimental-Result holds that may stand once.
fn read_experimental(alloc: Global, avps: &[Avp<'_>]) -> Result<Option<u32>, ReadFault>
    ensures accepted { OnOk result (Accepts experimental_row (avp_views avps.now)) }
    ensures code { IfOk result (λ code. code ≡ experimental_at (avp_views avps.now)) }
    ensures refused { IfErr result (FaultsWith experimental_row (avp_views avps.now)) }
{
    let given = read_each::<ExperimentalResult>(
        alloc,
        avps,
        base_key(EXPERIMENTAL_RESULT),
        Some(1),
    )?;
    let Some(first) = given.first() else {
        return Ok(None);
    };
    Ok(first.code)
}

/// Reads an answer to a request on a session, or gives the first refusal of what breaks its table.
pub fn read_session_answer(alloc: Global, message: &Message<'_>) -> Result<SessionAnswer, ReadFault>
    ensures accepted { OnOk result
        (AcceptsAll session_answer_rows (avp_views message.now.avps.items)) }
    ensures answer { IfOk result (λ answer.
        answer ≡ session_answer_of (avp_views message.now.avps.items)) }
    ensures refused { IfErr result
        (IsFaultOf (session_answer_refusal (avp_views message.now.avps.items))) }
{
    let avps = message.avps.as_slice();
    let session = required_text(alloc, avps, base_key(SESSION_ID))?;
    let result = optional_number(avps, base_key(RESULT_CODE))?;
    let experimental = read_experimental(alloc, avps)?;
    Ok(SessionAnswer {
        session,
        result,
        experimental,
    })
}
