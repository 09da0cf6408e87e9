//! Re-authorisation answers: what a gateway says to a push (TS 29.212, 5.6.5).
ghost use Rattle.std.specs.Prelude.{◌≡◌, OnOk, IfOk, IfErr};
ghost use Rattle.dia_codec.specs.Spelling.{avp_views};
ghost use Rattle.dia_base.specs.Rows.{AcceptsAll, IsFaultOf};
ghost use Rattle.dia_base.specs.SessionAnswers.{session_answer_of, session_answer_refusal, session_answer_rows};
ghost use Rattle.gx_profile.specs.PushAnswers.{raa_view};

use dia_base::{ReadFault, SessionAnswer, read_session_answer};
use dia_codec::Message;
use pcrf_values::GxSid;
use std::alloc::Global;

/// A re-authorisation answer as it was read: what this profile asks of it, and nothing else.
#[derive(Debug, Drop, PartialEq, Eq)]
pub struct Raa {
    /// Session-Id, which names the gateway's session.
    pub session: GxSid,
    /// Result-Code, where it was given.
    pub result: Option<u32>,
    /// The Experimental-Result-Code, where an Experimental-Result with one was given.
    pub experimental: Option<u32>,
}

/// Reads a re-authorisation answer, or gives the first refusal of what breaks its table.
pub fn read_raa(alloc: Global, message: &Message<'_>) -> Result<Raa, ReadFault>
    ensures accepted { OnOk result
        (AcceptsAll session_answer_rows (avp_views message.now.avps.items)) }
    ensures answer { IfOk result (λ raa.
        raa_view raa ≡ session_answer_of (avp_views message.now.avps.items)) }
    ensures refused { IfErr result
        (IsFaultOf (session_answer_refusal (avp_views message.now.avps.items))) }
{
    let SessionAnswer {
        session,
        result,
        experimental,
    } = read_session_answer(alloc, message)?;
    Ok(Raa {
        session: GxSid::of(session),
        result,
        experimental,
    })
}
