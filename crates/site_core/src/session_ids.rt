//! Session-Ids in the standards' form: which are repeated, and which answers need one.
ghost use Rattle.std.specs.Prelude.{◌≡◌};
ghost use Rattle.std.specs.Option.{option_copied};
ghost use Rattle.std.specs.Str.{is_utf8};
ghost use Rattle.site_core.specs.SessionIds.{is_for_next_node, lacks_session, repeatable};

use dia_base::is_base_command;
use dia_codec::Header;
use pcrf_values::SessionId;

/// Whether bytes are UTF-8.
#[tactic(auto, using(crate::proofs::Utf8::is_text, crate::proofs::Utf8::is_no_text))]
pub(crate) fn is_utf8(bytes: &[u8]) -> bool
    ensures { result ≡ is_utf8 bytes.now }
{
    match str::from_utf8(bytes) {
        Ok(_) => true,
        Err(_) => false,
    }
}

/// Whether a request goes to the next node and no further.
pub(crate) fn is_for_next_node(header: &Header) -> bool
    ensures { result ≡ is_for_next_node header.now }
{
    header.application == 0 && is_base_command(header.command)
}

/// The Session-Id that the answer to a request of this header repeats in the standards' form: one of the base protocol has none, and
/// one that isn't UTF-8 can't be written.
pub(crate) fn repeatable(header: &Header, session: Option<SessionId>) -> Option<SessionId>
    ensures { result ≡ repeatable header.now session }
{
    if is_for_next_node(header) {
        return None;
    }
    let id = session?;
    if !is_utf8(id.as_slice()) {
        return None;
    }
    Some(id)
}

/// Whether the answer to a request of this header begins with a Session-Id, and there is none that it could have.
pub(crate) fn lacks_session(header: &Header, session: Option<&SessionId>) -> bool
    ensures { result ≡ lacks_session header.now (option_copied session.entry) }
{
    !is_for_next_node(header) && session.is_none()
}
