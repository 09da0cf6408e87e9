//! Abort session answers: what an application function says to an abort (TS 29.214, 5.6.8).
ghost use Rattle.std.specs.Prelude.{◌≡◌, OnOk, IfOk, IfErr};
ghost use Rattle.dia_codec.specs.Spelling.{avp_views};
ghost use Rattle.dia_base.specs.Rows.{AcceptsAll, IsFaultOf};
ghost use Rattle.dia_base.specs.SessionAnswers.{session_answer_of, session_answer_refusal, session_answer_rows};
ghost use Rattle.rx_profile.specs.Aborts.{asa_view};

use dia_base::{ReadFault, SessionAnswer, read_session_answer};
use dia_codec::Message;
use pcrf_values::AfSid;
use std::alloc::Global;

/// An abort session answer as it was read: what this profile asks of it, and nothing else.
#[derive(Debug, Drop, PartialEq, Eq)]
pub struct Asa {
    /// Session-Id, which names the application function's session.
    pub session: AfSid,
    /// Result-Code, where it was given.
    pub result: Option<u32>,
    /// The Experimental-Result-Code, where an Experimental-Result with one was given.
    pub experimental: Option<u32>,
}

/// Reads an abort session answer, or gives the first refusal of what breaks its table.
pub fn read_asa(alloc: Global, message: &Message<'_>) -> Result<Asa, ReadFault>
    ensures accepted { OnOk result
        (AcceptsAll session_answer_rows (avp_views message.now.avps.items)) }
    ensures answer { IfOk result (λ asa.
        asa_view asa ≡ session_answer_of (avp_views message.now.avps.items)) }
    ensures refused { IfErr result
        (IsFaultOf (session_answer_refusal (avp_views message.now.avps.items))) }
{
    let SessionAnswer {
        session,
        result,
        experimental,
    } = read_session_answer(alloc, message)?;
    Ok(Asa {
        session: AfSid::of(session),
        result,
        experimental,
    })
}
