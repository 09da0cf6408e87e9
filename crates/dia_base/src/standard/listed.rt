//! AVPs of RFC 6733 that are listed, each with a value of its own, to be put behind a message.
ghost use Rattle.std.specs.Prelude.{◌≡◌, IfOk};
ghost use Rattle.dia_base.specs.Avps.{base_key};
ghost use Rattle.dia_codec.specs.Drafts.{keyed_avp};
ghost use Rattle.dia_codec.specs.Spelling.{owned_view};
ghost use Rattle.dia_codec.specs.Written.{word_bytes};

use dia_codec::OwnedAvp;
use std::alloc::{AllocError, Global};

/// The M bit where a receiver has to understand the AVP.
pub(crate) const NEEDED: bool = true;

/// No M bit: the AVP may be passed over.
pub(crate) const OPTIONAL: bool = false;

/// An AVP with this value, with the M bit or without it.
pub(crate) fn base_avp(code: u32, mandatory: bool, value: Vec<u8>) -> OwnedAvp
    ensures { owned_view result ≡ keyed_avp (base_key code) mandatory value.items }
{
    OwnedAvp {
        code,
        vendor: None,
        mandatory,
        protected: false,
        value,
    }
}

/// An AVP whose value is a copy of these bytes.
pub(crate) fn text_avp(
    alloc: Global,
    code: u32,
    mandatory: bool,
    bytes: &[u8],
) -> Result<OwnedAvp, AllocError>
    ensures { IfOk result (λ avp. owned_view avp
        ≡ keyed_avp (base_key code) mandatory bytes.now) }
{
    let value = Vec::from_slice(alloc, bytes)?;
    Ok(base_avp(code, mandatory, value))
}

/// An AVP whose value is a number, big-endian (Unsigned32 or Enumerated).
#[tactic(auto, unfolding(dia_codec::specs::Written::word_bytes))]
pub(crate) fn number_avp(
    alloc: Global,
    code: u32,
    mandatory: bool,
    number: u32,
) -> Result<OwnedAvp, AllocError>
    ensures { IfOk result (λ avp. owned_view avp
        ≡ keyed_avp (base_key code) mandatory (word_bytes number)) }
{
    text_avp(alloc, code, mandatory, &number.to_be_bytes())
}
