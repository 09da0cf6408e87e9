//! Diameter messages as values (RFC 6733, sections 3 and 4).

ghost use Rattle.std.specs.Prelude.{◌≡◌, IfOk};
ghost use Rattle.std.specs.Net.Addr.{ipv4_octets};
ghost use Rattle.std.specs.Option.{option_map};

use crate::reading::word_at;
use std::alloc::{AllocError, Global};
use std::net::Ipv4Addr;

/// The command flags of a header (RFC 6733, section 3). The four reserved bits are not kept.
#[derive(Clone, Copy, Debug, PartialEq, Eq)]
pub struct Flags {
    /// The R bit, 0x80: a request, and not an answer.
    pub request: bool,
    /// The P bit, 0x40: an agent may proxy, relay or redirect the message.
    pub proxiable: bool,
    /// The E bit, 0x20: an answer that tells of a protocol error.
    pub error: bool,
    /// The T bit, 0x10: a request that may have been sent before.
    pub retransmitted: bool,
}

/// A header but for its version, which is 1, and its length, which the AVPs give (RFC 6733, section 3).
#[derive(Clone, Copy, Debug, PartialEq, Eq)]
pub struct Header {
    pub flags: Flags,
    /// The command code, three bytes on the wire.
    pub command: u32,
    /// The Application-Id.
    pub application: u32,
    /// The Hop-by-Hop Identifier, which an answer repeats.
    pub hop_id: u32,
    /// The End-to-End Identifier, which an answer repeats.
    pub end_id: u32,
}

/// What names an AVP: its code and the vendor that gave the code out (RFC 6733, section 4.1).
#[derive(Clone, Copy, Debug, PartialEq, Eq)]
pub struct AvpKey {
    pub code: u32,
    /// The vendor's enterprise number, None for the codes of the IETF.
    pub vendor: Option<u32>,
}

/// An attribute-value pair (RFC 6733, section 4). Reserved flag bits and padding are not kept. The value is borrowed from the
/// bytes that were read, or from those that are to be written, so that nothing is copied.
#[derive(Clone, Copy, Debug, PartialEq, Eq)]
pub struct Avp<'a> {
    pub code: u32,
    /// The Vendor-Id as it was read; there is one exactly where the V bit, 0x80, is set.
    pub vendor: Option<u32>,
    /// The M bit, 0x40: a receiver must understand the AVP.
    pub mandatory: bool,
    /// The P bit, 0x20, which RFC 6733 reserves for protection from end to end.
    pub protected: bool,
    /// The bytes after the AVP's header, without padding.
    pub value: &'a [u8],
}

impl<'a> Avp<'a> {
    ghost use Rattle.dia_codec.specs.Fields.{key_of, number_of, octets_of};
    ghost use Rattle.dia_codec.specs.Spelling.{avp_view, owned_view};

    /// The AVP's key. A Vendor-Id of 0 stands for no vendor (RFC 6733, section 4.1).
    pub fn key(&self) -> AvpKey
        ensures { result ≡ key_of (avp_view self.now) }
    {
        let vendor = match self.vendor {
            Some(0) => None,
            vendor => vendor,
        };
        AvpKey {
            code: self.code,
            vendor,
        }
    }

    /// The value as a number of type Unsigned32, big-endian, None unless it has four bytes (RFC 6733, section 4.2).
    pub fn number(&self) -> Option<u32>
        ensures { result ≡ number_of (avp_view self.now) }
    {
        let bytes = self.text();
        if bytes.len() != 4 {
            return None;
        }
        Some(word_at(bytes, 0))
    }

    /// The value as a text of type OctetString or UTF8String, whose bytes are not checked.
    pub fn text(&self) -> &'a [u8]
        ensures { result.now ≡ (avp_view self.now).value }
    {
        self.value
    }

    /// The value as the four bytes of an IPv4 address, None unless it has four.
    pub fn address(&self) -> Option<Ipv4Addr>
        ensures { option_map ipv4_octets result ≡ octets_of (avp_view self.now) }
    {
        let octets = <[u8; 4]>::try_from(self.text()).ok()?;
        Some(Ipv4Addr::from_octets(octets))
    }

    /// The same AVP with a copy of the value.
    pub fn owned(&self, alloc: Global) -> Result<OwnedAvp, AllocError>
        ensures { IfOk result (λ owned. owned_view owned ≡ avp_view self.now) }
    {
        Ok(OwnedAvp {
            code: self.code,
            vendor: self.vendor,
            mandatory: self.mandatory,
            protected: self.protected,
            value: Vec::from_slice(alloc, self.value)?,
        })
    }
}

/// An AVP that owns its value: one that was made, or that has to outlive the bytes that it was read from.
#[derive(Debug, Drop, PartialEq, Eq)]
pub struct OwnedAvp {
    pub code: u32,
    /// The Vendor-Id, as in `Avp`.
    pub vendor: Option<u32>,
    /// The M bit.
    pub mandatory: bool,
    /// The P bit.
    pub protected: bool,
    /// The bytes after the AVP's header, without padding.
    pub value: Vec<u8>,
}

impl OwnedAvp {
    ghost use Rattle.dia_codec.specs.Spelling.{avp_view, owned_view};

    /// The same AVP, with the value borrowed.
    pub fn as_avp(&self) -> Avp<'_>
        ensures { avp_view result ≡ owned_view self.now }
    {
        Avp {
            code: self.code,
            vendor: self.vendor,
            mandatory: self.mandatory,
            protected: self.protected,
            value: &self.value,
        }
    }
}

/// A message: its header, and its AVPs in their order, whose values stand in the bytes that were read.
#[derive(Debug, Drop, PartialEq, Eq)]
pub struct Message<'a> {
    pub header: Header,
    pub avps: Vec<Avp<'a>>,
}
