//! Who is shown a reply before its event happens.
ghost use Rattle.std.specs.Prelude.{◌≡◌, true, IfOk, OnOk, IsOk};
ghost use Rattle.pcrf_model.specs.Replies.{ReplyValue};
ghost use Rattle.site_machine.specs.Replies.{gx_reply_value, is_plain};
ghost use Rattle.site_machine.specs.Values.{reply_value};

use crate::event::Reply;
use pcrf_model::GxReply;
use std::alloc::AllocError;

/// Whoever is shown the reply to an event before the event happens, to keep of it what is wanted. Where memory for that is
/// refused the event doesn't happen.
pub trait Witness {
    /// What it keeps is of this reply.
    ghost saw: { Self → ReplyValue → Type 0 };

    /// Is shown a reply. One that takes no memory may be shown once its event has happened, and isn't refused.
    fn see(&mut self, reply: &Reply) -> Result<(), AllocError>
        ensures saw { OnOk result (saw self.new (reply_value reply.now)) }
        ensures plain { is_plain reply.now ≡ true → IsOk result };
}

/// Nobody, who keeps nothing.
impl Witness for () {
    ghost saw = { λ _ _. Unit {0} };

    fn see(&mut self, _reply: &Reply) -> Result<(), AllocError> {
        Ok(())
    }
}

/// The reply, which the witness saw.
pub(crate) fn shown<W: Witness>(reply: Reply, witness: &mut W) -> Result<Reply, AllocError>
    ensures reply { IfOk result (λ shown. shown ≡ reply) }
    ensures saw { OnOk result (W.saw witness.new (reply_value reply)) }
{
    witness.see(&reply)?;
    Ok(reply)
}

/// The reply to a gateway, which the witness saw.
pub(crate) fn shown_to_gateway<W: Witness>(
    reply: GxReply,
    witness: &mut W,
) -> Result<GxReply, AllocError>
    ensures reply { IfOk result (λ shown. shown ≡ reply) }
    ensures saw { OnOk result (W.saw witness.new (gx_reply_value reply)) }
{
    match shown(Reply::Gx(reply), witness) {
        Ok(Reply::Gx(reply)) => Ok(reply),
        _ => Err(AllocError),
    }
}

/// A reply that takes no memory, which the witness saw.
pub(crate) fn shown_plain<W: Witness>(reply: Reply, witness: &mut W) -> Reply
    requires { is_plain reply ≡ true }
    ensures reply { result ≡ reply }
    ensures saw { W.saw witness.new (reply_value reply) }
{
    witness.see(&reply).unwrap();
    reply
}
