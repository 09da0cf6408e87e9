//! IPv6 prefixes.
ghost use Rattle.std.specs.Prelude.{◌≡◌, ◌≤◌, length, take, refl};
ghost use Rattle.pcrf_values.specs.Prefixes.{address_bits, address_octets, covers, first_bits, first_of_byte, octets_for, prefix_cmp, prefix_from};

use crate::order::{Ranked, compare_bytes};
use std::alloc::AllocError;
use std::cmp::Ordering;
use std::fmt::{self, Display, Formatter, Write};
use std::hash::{Hash, Hasher};
use std::marker::Model;

/// The bits of an IPv6 address.
const ADDRESS_BITS: u8 = 128;

/// Its bytes.
const ADDRESS_OCTETS: usize = 16;

/// The bits of a byte.
const OCTET_BITS: u8 = 8;

/// An IPv6 prefix (Framed-IPv6-Prefix, RFC 3162, 2.3), which contracts see as its length in bits and 16 bytes, of which the bits past
/// the length are zero. Ordered by length, and then by bytes.
#[derive(Copy, Debug)]
pub struct Ipv6Prefix {
    bits: u8,
    octets: [u8; ADDRESS_OCTETS],
}

impl Model for Ipv6Prefix {
    ghost use Rattle.std.specs.Prelude.{◌≡◌, ◌≤◌, ℕ, List};
    ghost use Rattle.pcrf_values.specs.Prefixes.{address_bits, first_bits};

    ghost Value = { ℕ × List ℕ };

    ghost view = { λ p. (p.bits, p.octets) };

    ghost inverse = { λ v. record { bits = v.0; octets = v.1 } };

    ghost invariant = { λ p. (p.bits ≤ address_bits) × (first_bits p.bits p.octets ≡ p.octets) };
}

impl Ipv6Prefix {
    /// The prefix of that many bits that begins with these bytes; `None` where they are fewer than its bits need, where they or the
    /// bits are more than those of an address. What the bytes have past the length counts as zero.
    pub fn of(bits: u8, bytes: &[u8]) -> Option<Ipv6Prefix>
        ensures { result ≡ prefix_from bits bytes.now }
    {
        let count = bytes.len();
        if bits > ADDRESS_BITS || count < octets_for(bits) || count > ADDRESS_OCTETS {
            return None;
        }
        let mut octets = [0; ADDRESS_OCTETS];
        octets[..count].copy_from_slice(bytes);
        Some(Ipv6Prefix {
            bits,
            octets: first_octets(bits, octets),
        })
    }

    /// Its length in bits.
    pub fn bits(&self) -> u8
        ensures bits { result ≡ self.now.0 }
        ensures within { result ≤ address_bits }
    {
        self.bits
    }

    /// The 16 bytes of the prefix and of zeros past it.
    pub fn octets(&self) -> &[u8]
        ensures octets { result.now ≡ self.now.1 }
        ensures count { length self.now.1 ≡ address_octets }
        ensures past { first_bits self.now.0 self.now.1 ≡ self.now.1 }
    {
        &self.octets
    }

    /// The bytes that its bits need.
    pub fn needed(&self) -> &[u8]
        ensures { result.now ≡ take (octets_for self.now.0) self.now.1 }
    {
        &self.octets[..octets_for(self.bits)]
    }

    /// The prefix is no longer than the other, which has its bits.
    pub fn covers(&self, other: &Ipv6Prefix) -> bool
        ensures { result ≡ covers self.now other.now }
    {
        self.bits <= other.bits
            && compare_bytes(&self.octets, &first_octets(self.bits, other.octets)).is_eq()
    }
}

/// How many bytes so many bits need.
fn octets_for(bits: u8) -> usize
    ensures { result ≡ octets_for bits }
{
    (bits as usize).div_ceil(OCTET_BITS as usize)
}

/// The first bits of bytes, and zeros past them.
fn first_octets(bits: u8, octets: [u8; ADDRESS_OCTETS]) -> [u8; ADDRESS_OCTETS]
    ensures { result ≡ first_bits bits octets }
{
    let mut octets = octets;
    let mut left = bits;
    'each: for place in 0..ADDRESS_OCTETS {
        octets[place] = first_of_octet(left, octets[place]);
        left = left.saturating_sub(OCTET_BITS);
    }
    octets
}

/// The first bits of a byte, and zeros past them.
fn first_of_octet(bits: u8, octet: u8) -> u8
    ensures { result ≡ first_of_byte bits octet }
{
    let scale = 1u16 << OCTET_BITS.saturating_sub(bits);
    let past = octet as u16 % scale;
    octet - past as u8
}

/// As 32 hexadecimal digits, a slash and the length.
impl Display for Ipv6Prefix {
    fn fmt<W: Write>(&self, f: &mut Formatter<W>) -> fmt::Result {
        for octet in &self.octets {
            write!(f, "{octet:02x}")?;
        }
        write!(f, "/{}", self.bits)
    }
}

impl Clone for Ipv6Prefix {
    ghost use Rattle.std.specs.Prelude.{◌≡◌};

    ghost is_clone = { λ x y. y ≡ x };

    fn clone(&self) -> Result<Ipv6Prefix, AllocError> {
        Ok(*self)
    }
}

impl PartialEq for Ipv6Prefix {
    ghost use Rattle.std.specs.Ordering.{eq_by_cmp};
    ghost use Rattle.std.specs.Cmp.{partial_equiv_from_equiv};
    ghost use Rattle.std.proofs.lemmas.Cmp.{eq_by_cmp_equiv};
    ghost use Rattle.pcrf_values.specs.laws.Values.{prefix_total};

    ghost eq = { eq_by_cmp prefix_cmp };

    ghost laws = { partial_equiv_from_equiv (eq_by_cmp_equiv prefix_total) };

    fn eq(&self, other: &Ipv6Prefix) -> bool {
        self.cmp(other) == Ordering::Equal
    }
}

impl Eq for Ipv6Prefix {
    ghost use Rattle.std.proofs.lemmas.Cmp.{eq_by_cmp_equiv};
    ghost use Rattle.pcrf_values.specs.laws.Values.{prefix_total};

    ghost laws = { eq_by_cmp_equiv prefix_total };
}

impl Hash for Ipv6Prefix {
    ghost use Rattle.std.specs.Prelude.{[], ◌∷◌};
    ghost use Rattle.pcrf_values.specs.laws.Exact.{input_alike};
    ghost use Rattle.pcrf_values.specs.laws.Values.{prefix_same};

    ghost hash_input = { λ p. p.1 ∷ [] };

    ghost respects_eq = { input_alike prefix_same (λ p. p.1 ∷ []) };

    /// By the octets alone: few prefixes have the same and other lengths.
    fn hash<H: Hasher>(&self, state: &mut H) {
        state.write(&self.octets);
    }
}

impl PartialOrd for Ipv6Prefix {
    ghost use Rattle.std.specs.Ordering.{as_partial_cmp};
    ghost use Rattle.std.specs.Cmp.{partial_order_from_total};
    ghost use Rattle.pcrf_values.specs.laws.Values.{prefix_total};

    ghost partial_cmp = { as_partial_cmp prefix_cmp };

    ghost laws = { partial_order_from_total prefix_total };

    fn partial_cmp(&self, other: &Ipv6Prefix) -> Option<Ordering> {
        Some(self.cmp(other))
    }
}

impl Ord for Ipv6Prefix {
    ghost use Rattle.std.specs.Prelude.{refl};
    ghost use Rattle.pcrf_values.specs.laws.Values.{prefix_total};

    ghost cmp = { prefix_cmp };

    ghost total = { prefix_total };

    ghost matches_partial_cmp = { λ _ _. refl };

    ghost matches_eq = { λ _ _. refl };

    fn cmp(&self, other: &Ipv6Prefix) -> Ordering {
        let lengths = self.bits.cmp(&other.bits);
        lengths.then(compare_bytes(&self.octets, &other.octets))
    }
}

impl Ranked for Ipv6Prefix {
    ghost use Rattle.pcrf_values.specs.laws.Values.{prefix_same};

    ghost same = { prefix_same };

    fn try_copy(&self) -> Result<Ipv6Prefix, AllocError> {
        Ok(*self)
    }
}
