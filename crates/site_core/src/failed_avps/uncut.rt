//! AVPs whose lengths are wrong.
ghost use Rattle.std.specs.Prelude.{◌≡◌, IfOk, option_copied};
ghost use Rattle.dia_codec.specs.Spelling.{owned_view};
ghost use Rattle.site_core.specs.Uncut.{after_first, headed, least_at, uncut};

use crate::failed_avps::bytes::{byte_at, first_word, length_field, vendor_word};
use crate::failed_avps::grammar::Grammar;
use crate::failed_avps::requests::rows_of;
use dia_codec::{AvpKey, OwnedAvp};
use std::alloc::{AllocError, Global};

/// The bytes before an AVP's value where it has no Vendor-Id (RFC 6733, 4.1).
const AVP_HEADER_BYTES: usize = 8;

/// The bytes before an AVP's value where it has one.
const VENDOR_AVP_HEADER_BYTES: usize = 12;

/// The AVP flags V, M and P.
const VENDOR_BIT: u8 = 0x80;

const MANDATORY_BIT: u8 = 0x40;

const PROTECTED_BIT: u8 = 0x20;

/// What follows the first AVP and its padding, where its length field is right.
#[tactic(auto, unfolding(dia_codec::specs::Reading::cut_at))]
fn after_first(bytes: &[u8]) -> Option<&[u8]>
    ensures { option_copied result ≡ after_first bytes.now }
{
    if bytes.len() < AVP_HEADER_BYTES {
        return None;
    }
    let length = length_field(bytes) as usize;
    if bytes.len() < length || length < AVP_HEADER_BYTES {
        return None;
    }
    let head = if byte_at(bytes, 4) & VENDOR_BIT != 0 {
        VENDOR_AVP_HEADER_BYTES
    } else {
        AVP_HEADER_BYTES
    };
    if length < head {
        return None;
    }
    let padding = (4 - length % 4) % 4;
    let rest = bytes.get(length + padding..).unwrap_or(&[]);
    Some(rest)
}

/// What is left when no AVP can be cut off any more.
pub fn uncut(bytes: &[u8]) -> &[u8]
    ensures { result.now ≡ uncut bytes.now }
{
    let mut rest = bytes;
    for _turn in 0..bytes.len() {
        let Some(after) = after_first(rest) else {
            return rest;
        };
        rest = after;
    }
    rest
}

/// The least length of the values at a key.
fn least_at(grammar: Grammar, key: AvpKey) -> usize
    ensures { result ≡ least_at grammar key }
{
    for row in rows_of(grammar) {
        if row.key == key {
            return row.kind.least_length();
        }
    }
    0
}

/// The header of the AVP that begins with these bytes, with zeros for what there isn't, and zeros of its type's least length for
/// its value.
#[tactic(auto, unfolding(dia_codec::specs::Spelling::avp_value))]
pub fn headed(alloc: Global, grammar: Option<Grammar>, bytes: &[u8]) -> Result<OwnedAvp, AllocError>
    ensures { IfOk result (λ avp. owned_view avp ≡ headed grammar bytes.now) }
{
    let flags = byte_at(bytes, 4);
    let vendor = if flags & VENDOR_BIT != 0 {
        Some(vendor_word(bytes))
    } else {
        None
    };
    let mut avp = OwnedAvp {
        code: first_word(bytes),
        vendor,
        mandatory: flags & MANDATORY_BIT != 0,
        protected: flags & PROTECTED_BIT != 0,
        value: Vec::new(alloc),
    };
    if let Some(grammar) = grammar {
        avp.value = vec![in alloc; 0; least_at(grammar, avp.as_avp().key())]?;
    }
    Ok(avp)
}
