//! Messages and groups as bytes, and messages written from front to back (RFC 6733, sections 3 and 4).
ghost use Rattle.std.specs.Prelude.{◌≡◌, ◌+◌, ◌≤◌, ◌<◌, ◌++◌, ◌&&◌, ◌↔◌, false, length, IfNone, IfOk, IfSome, OnOk, IsErrOf, Ok, [], ◌∷◌, List, drop, OnErr};
ghost use Rattle.std.specs.List.{flat_map, sum_by, AllByRecursion};
ghost use Rattle.dia_codec.specs.Fields.{MessageValue, padding, AvpValue};
ghost use Rattle.dia_codec.specs.Limits.{command_bound, longest_message, unsigned32_bound, avp_header_bytes, header_bytes, vendor_avp_header_bytes};
ghost use Rattle.dia_codec.specs.Reading.{message_of};
ghost use Rattle.dia_codec.specs.Spelling.{avp_view, avp_views, message_view, SpellsMessage};
ghost use Rattle.dia_codec.specs.Written.{bit_if, flag_byte, avp_flag_byte, vendor_bytes, word_bytes, three_bytes, own_len, padded_len, written_len, written_own, written_avp, written_header, written_spelling, Fits, FitsAvp, FitsNumbers};
ghost use Rattle.std.specs.Vec.{vec_len, vec_capacity};
ghost use Rattle.dia_codec.specs.Drafts.{Adds, Closes, Opens, closed_at, head_len, keyed_avp, written_head};

use crate::fault::WriteFault;
use crate::message::{Avp, AvpKey, Flags, Header, Message};
use crate::reading::{
    AVP_HEADER_BYTES, ERROR_BIT, HEADER_BYTES, MANDATORY_BIT, MOST_BYTES, PROTECTED_BIT,
    PROXIABLE_BIT, REQUEST_BIT, RETRANSMITTED_BIT, VENDOR_AVP_HEADER_BYTES, VENDOR_BIT, VERSION,
    padding,
};
use std::alloc::{AllocError, Global};
use std::marker::Model;

/// A flag's bit, where the flag is set.
pub(crate) fn bit_if(is: bool, bit: u8) -> u8
    ensures { result ≡ bit_if is bit }
{
    if is { bit } else { 0 }
}

/// A header's fifth byte, with zeros for the reserved bits.
fn flag_byte(flags: Flags) -> u8
    ensures { result ≡ flag_byte flags }
{
    bit_if(flags.request, REQUEST_BIT)
        | bit_if(flags.proxiable, PROXIABLE_BIT)
        | bit_if(flags.error, ERROR_BIT)
        | bit_if(flags.retransmitted, RETRANSMITTED_BIT)
}

/// How many bytes an AVP has without its padding, as its length field says.
fn own_len(avp: &Avp<'_>) -> usize
    requires { length avp.now.value.now ≤ longest_message }
    ensures { result ≡ own_len (avp_view avp.now) }
{
    let head = if avp.vendor.is_some() {
        VENDOR_AVP_HEADER_BYTES
    } else {
        AVP_HEADER_BYTES
    };
    head + avp.value.len()
}

/// How many bytes the AVPs have with their padding, None above the most that a message may have.
fn avps_len(avps: &[Avp<'_>]) -> Option<usize>
    ensures length { IfSome result (λ n. n ≡ sum_by padded_len (avp_views avps.now)) }
    ensures fits { IfSome result (λ n. n ≤ longest_message) }
    ensures too_long { IfNone result (longest_message < sum_by padded_len (avp_views avps.now)) }
{
    let mut length = 0;
    for avp in avps {
        if avp.value.len() > MOST_BYTES {
            return None;
        }
        let own = own_len(avp);
        length += own + padding(own);
        if length > MOST_BYTES {
            return None;
        }
    }
    Some(length)
}

/// How many bytes the message has, None above the most.
fn written_len(message: &Message<'_>) -> Option<usize>
    ensures length { IfSome result (λ n. n ≡ written_len (message_view message.now)) }
    ensures fits { IfSome result (λ n. n ≤ longest_message) }
    ensures too_long { IfNone result (longest_message < written_len (message_view message.now)) }
{
    let length = HEADER_BYTES + avps_len(&message.avps)?;
    (length <= MOST_BYTES).then_some(length)
}

/// Adds the last three bytes of a number, big-endian.
#[tactic(auto, unfolding(crate::specs::Written::three_bytes))]
fn put_three(out: &mut Vec<u8>, number: u32) -> Result<(), AllocError>
    ensures { OnOk result (out.new.items ≡ out.old.items ++ three_bytes number) }
{
    out.extend_from_slice(&number.to_be_bytes()[1..])
}

/// Adds the four bytes of a number, big-endian.
#[tactic(auto, unfolding(crate::specs::Written::word_bytes))]
fn put_word(out: &mut Vec<u8>, number: u32) -> Result<(), AllocError>
    ensures written { OnOk result (out.new.items ≡ out.old.items ++ word_bytes number) }
    ensures fits { number < unsigned32_bound }
{
    out.extend_from_slice(&number.to_be_bytes())
}

/// Adds a header, with the length of the whole message.
fn put_header(out: &mut Vec<u8>, length: u32, header: &Header) -> Result<(), AllocError>
    requires { header.now.command < command_bound }
    ensures written { OnOk result
        (out.new.items ≡ out.old.items ++ written_header length header.now) }
    ensures fits { OnOk result (FitsNumbers header.now) }
{
    out.push(VERSION)?;
    put_three(out, length)?;
    out.push(flag_byte(header.flags))?;
    put_three(out, header.command)?;
    put_word(out, header.application)?;
    put_word(out, header.hop_id)?;
    put_word(out, header.end_id)?;
    Ok(())
}

/// The bytes of a header, with the length of the whole message.
#[tactic(auto, unfolding(crate::specs::Written::written_header, crate::specs::Written::word_bytes, crate::specs::Written::three_bytes))]
pub(crate) fn header_bytes(length: u32, header: &Header) -> [u8; HEADER_BYTES]
    ensures { result ≡ written_header length header.now }
{
    let [_, l1, l2, l3] = length.to_be_bytes();
    let [_, c1, c2, c3] = header.command.to_be_bytes();
    let [a0, a1, a2, a3] = header.application.to_be_bytes();
    let [h0, h1, h2, h3] = header.hop_id.to_be_bytes();
    let [e0, e1, e2, e3] = header.end_id.to_be_bytes();
    let flags = flag_byte(header.flags);
    [
        VERSION, l1, l2, l3, flags, c1, c2, c3, a0, a1, a2, a3, h0, h1, h2, h3, e0, e1, e2, e3,
    ]
}

/// Adds the Vendor-Id, if there is one.
fn put_vendor(out: &mut Vec<u8>, vendor: Option<u32>) -> Result<(), AllocError>
    ensures written { OnOk result (out.new.items ≡ out.old.items ++ vendor_bytes vendor) }
    ensures fits { OnOk result (IfSome vendor (λ number. number < unsigned32_bound)) }
{
    if let Some(vendor) = vendor {
        put_word(out, vendor)?;
    }
    Ok(())
}

/// An AVP's fifth byte, with zeros for the reserved bits.
fn avp_flag_byte(avp: &Avp<'_>) -> u8
    ensures { result ≡ avp_flag_byte (avp_view avp.now) }
{
    bit_if(avp.vendor.is_some(), VENDOR_BIT)
        | bit_if(avp.mandatory, MANDATORY_BIT)
        | bit_if(avp.protected, PROTECTED_BIT)
}

/// Adds an AVP and its padding.
fn put_avp(out: &mut Vec<u8>, avp: &Avp<'_>) -> Result<(), AllocError>
    requires { length avp.now.value.now ≤ longest_message }
    ensures written { OnOk result
        (out.new.items ≡ out.old.items ++ written_avp (avp_view avp.now)) }
    ensures fits { OnOk result (FitsAvp (avp_view avp.now)) }
{
    let length = own_len(avp);
    put_word(out, avp.code)?;
    out.push(avp_flag_byte(avp))?;
    put_three(out, length as u32)?;
    put_vendor(out, avp.vendor)?;
    out.extend_from_slice(avp.value)?;
    out.extend_from_slice(&[0; 4][..padding(length)])?;
    Ok(())
}

/// Adds the AVPs, each with its padding.
fn put_avps(out: &mut Vec<u8>, avps: &[Avp<'_>]) -> Result<(), AllocError>
    requires { sum_by padded_len (avp_views avps.now) ≤ longest_message }
    ensures written { OnOk result
        (out.new.items ≡ out.old.items ++ flat_map written_avp (avp_views avps.now)) }
    ensures fits { OnOk result (AllByRecursion FitsAvp (avp_views avps.now)) }
{
    for avp in avps {
        put_avp(out, avp)?;
    }
    Ok(())
}

/// The value of a group of these AVPs, each with its padding. What is longer than the longest message is refused.
pub fn write_group(alloc: Global, avps: &[Avp<'_>]) -> Result<Vec<u8>, WriteFault>
    ensures written { IfOk result (λ v. v.items ≡ flat_map written_avp (avp_views avps.now)) }
    ensures too_long { IsErrOf result WriteFault.TooLong
        ↔ (longest_message < sum_by padded_len (avp_views avps.now)) }
{
    let Some(length) = avps_len(avps) else {
        return Err(WriteFault::TooLong);
    };
    let mut value = Vec::with_capacity(alloc, length)?;
    put_avps(&mut value, avps)?;
    Ok(value)
}

/// The written spelling of a message: with all padding, and with zeros where its bits and bytes are free.
///
/// A command has three bytes, and no request has the error flag (RFC 6733, section 3).
pub fn write_message(alloc: Global, message: &Message<'_>) -> Result<Vec<u8>, WriteFault>
    requires command { message.now.header.command < command_bound }
    requires flags { (message.now.header.flags.request && message.now.header.flags.error)
        ≡ false }
    ensures written { IfOk result (λ v. v.items ≡ written_spelling (message_view message.now)) }
    ensures spelled { IfOk result (λ v. SpellsMessage v.items (message_view message.now)) }
    ensures fits { OnOk result (Fits (message_view message.now)) }

    ensures too_long { IsErrOf result WriteFault.TooLong
        ↔ (longest_message < written_len (message_view message.now)) }
{
    let Some(length) = written_len(message) else {
        return Err(WriteFault::TooLong);
    };
    let mut out = Vec::with_capacity(alloc, length)?;
    put_header(&mut out, length as u32, &message.header)?;
    put_avps(&mut out, &message.avps)?;
    Ok(out)
}

/// A law: what was written is read again, as the same message.
pub fn round_trip()
    ensures { (m : MessageValue) → Fits m → message_of (written_spelling m) ≡ Ok m }
{}

/// How many bytes there is room for at first.
const FIRST_ROOM: usize = 512;

/// Where a group begins whose AVPs are being written.
#[derive(Debug, Drop)]
pub struct Mark {
    pub at: usize,
}

/// The AVPs of a message as they are written, behind room for its header. Contracts see the bytes of the AVPs.
#[derive(Debug, Drop)]
pub struct MessageWriter {
    bytes: Vec<u8>,
}

impl Model for MessageWriter {
    ghost use Rattle.std.specs.Prelude.{ℕ, List, ◌≤◌, drop, length};
    ghost use Rattle.dia_codec.specs.Limits.{header_bytes};

    ghost Value = { List ℕ };

    ghost view = { λ w. drop header_bytes w.bytes.items };

    ghost invariant = { λ w. header_bytes ≤ length w.bytes.items };
}

/// The flags of an AVP of this name.
fn flags_of_key(key: AvpKey, mandatory: bool) -> u8
    ensures { result ≡ avp_flag_byte (keyed_avp key mandatory []) }
{
    bit_if(key.vendor.is_some(), VENDOR_BIT) | bit_if(mandatory, MANDATORY_BIT)
}

/// How many bytes stand before the value of an AVP of this name.
fn head_len(key: AvpKey) -> usize
    ensures { result ≡ head_len key }
{
    if key.vendor.is_some() {
        VENDOR_AVP_HEADER_BYTES
    } else {
        AVP_HEADER_BYTES
    }
}

/// Adds the bytes of an AVP before its value, with the last three bytes of this number as its length.
#[tactic(auto, unfolding(crate::specs::Drafts::written_head, crate::specs::Written::word_bytes, crate::specs::Written::three_bytes))]
fn put_head(out: &mut Vec<u8>, key: AvpKey, mandatory: bool, size: usize) -> Result<(), AllocError>
    ensures written { OnOk result
        (out.new.items ≡ out.old.items ++ written_head key mandatory size) }
    ensures refused { OnErr result (out.new.items ≡ out.old.items) }
    ensures capacity { vec_capacity out.old ≤ vec_capacity out.new }
    ensures len { OnOk result (vec_len out.new ≡ vec_len out.old + head_len key) }
    ensures full { OnErr result (vec_capacity out.old < vec_len out.old + head_len key) }
{
    let [c0, c1, c2, c3] = key.code.to_be_bytes();
    let [_, _, _, _, _, l1, l2, l3] = size.to_be_bytes();
    let flags = flags_of_key(key, mandatory);
    match key.vendor {
        None => {
            out.extend_from_slice(&[c0, c1, c2, c3, flags, l1, l2, l3])?;
            Ok(())
        }
        Some(vendor) => {
            let [v0, v1, v2, v3] = vendor.to_be_bytes();
            out.extend_from_slice(&[c0, c1, c2, c3, flags, l1, l2, l3, v0, v1, v2, v3])?;
            Ok(())
        }
    }
}

/// Adds an AVP and its padding.
fn put_value(
    out: &mut Vec<u8>,
    key: AvpKey,
    mandatory: bool,
    value: &[u8],
) -> Result<(), AllocError>
    ensures written { OnOk result
        (out.new.items ≡ out.old.items ++ written_avp (keyed_avp key mandatory value.now)) }
    ensures refused { OnErr result (out.new.items ≡ out.old.items) }
{
    let size = head_len(key) + value.len();
    let padding = padding(size);
    out.reserve(size + padding)?;
    put_head(out, key, mandatory, size)?;
    out.extend_from_slice(value)?;
    out.extend_from_slice(&[0; 4][..padding])?;
    Ok(())
}

/// Adds an AVP whose value is a number, big-endian.
#[tactic(auto, unfolding(crate::specs::Written::written_avp, crate::specs::Written::word_bytes, crate::specs::Written::three_bytes))]
fn put_number(
    out: &mut Vec<u8>,
    key: AvpKey,
    mandatory: bool,
    number: u32,
) -> Result<(), AllocError>
    ensures written { OnOk result (out.new.items
        ≡ out.old.items ++ written_avp (keyed_avp key mandatory (word_bytes number))) }
    ensures refused { OnErr result (out.new.items ≡ out.old.items) }
{
    let [c0, c1, c2, c3] = key.code.to_be_bytes();
    let [n0, n1, n2, n3] = number.to_be_bytes();
    let flags = flags_of_key(key, mandatory);
    match key.vendor {
        None => {
            out.extend_from_slice(&[c0, c1, c2, c3, flags, 0, 0, 12, n0, n1, n2, n3])?;
            Ok(())
        }
        Some(vendor) => {
            let [v0, v1, v2, v3] = vendor.to_be_bytes();
            out.extend_from_slice(&[
                c0, c1, c2, c3, flags, 0, 0, 16, v0, v1, v2, v3, n0, n1, n2, n3,
            ])?;
            Ok(())
        }
    }
}

/// Sets the length of the AVP that begins at this place and ends at the end.
#[tactic(auto, unfolding(crate::specs::Drafts::closed_at, crate::specs::Written::three_bytes))]
fn set_length(out: &mut Vec<u8>, at: usize)
    requires { at + avp_header_bytes ≤ length out.old.items }
    ensures closed { out.new.items ≡ closed_at at out.old.items }
    ensures len { length out.new.items ≡ length out.old.items }
{
    let [_, _, _, _, _, l1, l2, l3] = (out.len() - at).to_be_bytes();
    out[at + 5..at + 8].copy_from_slice(&[l1, l2, l3]);
}

/// Sets the header, in the room that was left for it.
fn set_header(out: &mut [u8], header: &[u8; HEADER_BYTES])
    requires { header_bytes ≤ length out.old }
    ensures { out.new ≡ header.now ++ drop header_bytes out.old }
{
    out[..HEADER_BYTES].copy_from_slice(header);
}

/// The bytes with this header in the room that was left for it, None where they are more than a message may have.
fn with_header(bytes: Vec<u8>, header: &Header) -> Option<Vec<u8>>
    requires { header_bytes ≤ length bytes.items }
    ensures written { IfSome result (λ done. done.items
        ≡ written_header (length bytes.items) header.now ++ drop header_bytes bytes.items) }
    ensures fits { IfSome result (λ _. length bytes.items ≤ longest_message) }
    ensures too_long { IfNone result (longest_message < length bytes.items) }
{
    let mut bytes = bytes;
    let length = bytes.len();
    if length > MOST_BYTES {
        return None;
    }
    let head = header_bytes(length as u32, header);
    set_header(&mut bytes, &head);
    Some(bytes)
}

impl MessageWriter {
    /// No AVP yet.
    pub fn start(alloc: Global) -> Result<MessageWriter, AllocError>
        ensures { IfOk result (λ writer. writer ≡ []) }
    {
        let mut bytes = Vec::with_capacity(alloc, FIRST_ROOM)?;
        bytes.extend_from_slice(&[0; HEADER_BYTES])?;
        Ok(MessageWriter { bytes })
    }

    /// Adds an AVP with this value. After an error all is as it was, here and below.
    pub fn value(&mut self, key: AvpKey, mandatory: bool, value: &[u8]) -> Result<(), AllocError>
        ensures added { OnOk result
            (Adds self.old self.new (keyed_avp key mandatory value.now ∷ [])) }
        ensures refused { OnErr result (self.new ≡ self.old) }
    {
        put_value(&mut self.bytes, key, mandatory, value)?;
        Ok(())
    }

    /// Adds an AVP whose value is a number, big-endian (Unsigned32 or Enumerated).
    pub fn number(&mut self, key: AvpKey, mandatory: bool, number: u32) -> Result<(), AllocError>
        ensures added { OnOk result
            (Adds self.old self.new (keyed_avp key mandatory (word_bytes number) ∷ [])) }
        ensures refused { OnErr result (self.new ≡ self.old) }
    {
        put_number(&mut self.bytes, key, mandatory, number)?;
        Ok(())
    }

    /// Begins a group, whose AVPs are added next, to its `close` (Grouped, RFC 6733, section 4.4).
    pub fn open(&mut self, key: AvpKey, mandatory: bool) -> Result<Mark, AllocError>
        ensures opened { IfOk result (λ mark. Opens key mandatory self.old self.new mark.at) }
        ensures refused { OnErr result (self.new ≡ self.old) }
    {
        let at = self.bytes.len() - HEADER_BYTES;
        put_head(&mut self.bytes, key, mandatory, 0)?;
        Ok(Mark { at })
    }

    /// Ends the group that was begun there.
    pub fn close(&mut self, mark: Mark)
        requires { mark.at + avp_header_bytes ≤ length self.old }
        ensures { Closes mark.at self.old self.new }
    {
        set_length(&mut self.bytes, HEADER_BYTES + mark.at);
    }

    /// The bytes of the message with this header, None where they are more than a message may have.
    pub fn into_bytes(self, header: &Header) -> Option<Vec<u8>>
        ensures written { IfSome result (λ bytes. (avps : List AvpValue) → Adds [] self avps
            → bytes.items ≡ written_spelling (record { header = header.now; avps = avps })) }
        ensures fits { IfSome result (λ _. (avps : List AvpValue) → Adds [] self avps
            → written_len (record { header = header.now; avps = avps }) ≤ longest_message) }
        ensures too_long { IfNone result ((avps : List AvpValue) → Adds [] self avps
            → longest_message < written_len (record { header = header.now; avps = avps })) }
    {
        let MessageWriter { bytes } = self;
        match with_header(bytes, header) {
            Some(done) => Some(done),
            None => None,
        }
    }
}
