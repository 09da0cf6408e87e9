//! Total orders whose equals are the same value, the order and the equality of bytes, and equality that tells all values apart.
ghost use Rattle.std.specs.Prelude.{◌≡◌, IfOk, refl, ◌+◌, ◌<◌, ◌≤◌, ℕ, length, nat_eq, slice_index, take, drop, ◌↔◌, IsTrue, option_map};
ghost use Rattle.std.specs.declared.cmp.Ordering.TheVariants.{Equal};
ghost use Rattle.std.specs.Cmp.Lexicographic.{slice_cmp, pointwise};
ghost use Rattle.pcrf_values.specs.laws.Exact.{nat_same, option_same, pair_same};
ghost use Rattle.std.specs.Slice.Scan.{big_endian};
ghost use Rattle.pcrf_values.specs.Orders.{text_cmp};
ghost use Rattle.std.specs.Net.Addr.{ipv4_octets};

use std::alloc::{AllocError, Global};
use std::cmp::Ordering;
use std::net::Ipv4Addr;

/// A total order whose equals are the same value.
///
/// Where two facts have one tag, the greater value counts, so every site has to find the same one the greater.
pub trait Ranked: Ord + Drop {
    /// An equal value.
    fn try_copy(&self) -> Result<Self, AllocError>
        ensures { IfOk result (λ r. r ≡ self.now) };

    /// Equal values, in their order. A type whose values are their bytes does it in one move.
    fn try_copy_slice(alloc: Global, items: &[Self]) -> Result<Vec<Self>, AllocError>
        ensures { IfOk result (λ copies. copies.items ≡ items.now) }
    {
        let mut copies = Vec::with_capacity(alloc, items.len())?;
        for item in items {
            copies.push(item.try_copy()?)?;
        }
        Ok(copies)
    }

    /// How two lists compare, member by member, a prefix first. Bytes are compared a word at a time.
    fn compare_slices(left: &[Self], right: &[Self]) -> Ordering
        ensures { result ≡ slice_cmp Self.cmp left.now right.now }
    {
        left.cmp(&right)
    }

    ghost same: { (x y : Self) → Self.cmp x y ≡ Equal → x ≡ y };
}

impl Ranked for u8 {
    ghost same = { nat_same };

    fn try_copy(&self) -> Result<u8, AllocError> {
        Ok(*self)
    }

    fn try_copy_slice(alloc: Global, items: &[u8]) -> Result<Vec<u8>, AllocError> {
        Vec::from_slice(alloc, items)
    }

    fn compare_slices(left: &[u8], right: &[u8]) -> Ordering {
        compare_bytes(left, right)
    }
}

impl Ranked for u32 {
    ghost same = { nat_same };

    fn try_copy(&self) -> Result<u32, AllocError> {
        Ok(*self)
    }

    fn try_copy_slice(alloc: Global, items: &[u32]) -> Result<Vec<u32>, AllocError> {
        Vec::from_slice(alloc, items)
    }
}

impl Ranked for u64 {
    ghost same = { nat_same };

    fn try_copy(&self) -> Result<u64, AllocError> {
        Ok(*self)
    }

    fn try_copy_slice(alloc: Global, items: &[u64]) -> Result<Vec<u64>, AllocError> {
        Vec::from_slice(alloc, items)
    }
}

impl Ranked for Ipv4Addr {
    ghost use Rattle.pcrf_values.specs.laws.Addresses.{address_same};

    ghost same = { address_same };

    fn try_copy(&self) -> Result<Ipv4Addr, AllocError> {
        Ok(*self)
    }

    fn try_copy_slice(alloc: Global, items: &[Ipv4Addr]) -> Result<Vec<Ipv4Addr>, AllocError> {
        Vec::from_slice(alloc, items)
    }
}

impl<T: Ranked> Ranked for Option<T> {
    ghost same = { option_same T.same };

    fn try_copy(&self) -> Result<Option<T>, AllocError> {
        match self {
            Some(value) => Ok(Some(value.try_copy()?)),
            None => Ok(None),
        }
    }
}

impl<A: Ranked, B: Ranked> Ranked for (A, B) {
    ghost same = { pair_same A.same B.same };

    fn try_copy(&self) -> Result<(A, B), AllocError> {
        let first = self.0.try_copy()?;
        let second = self.1.try_copy()?;
        Ok((first, second))
    }
}

/// How many bytes a word has.
const WORD: usize = 8;

/// How two texts compare: by bytes, a prefix first. Texts that begin alike, as the Session-Ids of one host, take few steps.
pub fn compare_bytes(left: &[u8], right: &[u8]) -> Ordering
    ensures { result ≡ text_cmp left.now right.now }
{
    let both = left.len().min(right.len());
    if both < WORD {
        return left.cmp(&right);
    }
    let last = both - WORD;
    let mut at = 0;
    while at < last {
        let (ours, theirs) = (word_at(left, at), word_at(right, at));
        if ours != theirs {
            return ours.cmp(&theirs);
        }
        at += WORD;
    }
    // The last words may overlap what was found the same.
    let (ours, theirs) = (word_at(left, last), word_at(right, last));
    if ours != theirs {
        return ours.cmp(&theirs);
    }
    left.len().cmp(&right.len())
}

/// Whether two texts are the same.
pub fn equal_bytes(left: &[u8], right: &[u8]) -> bool
    ensures { result ≡ pointwise nat_eq left.now right.now }
{
    left.len() == right.len() && compare_bytes(left, right).is_eq()
}

/// The number that the eight bytes from here on spell, the greatest first.
fn word_at(bytes: &[u8], at: usize) -> u64
    requires { at + 8 ≤ length bytes.now }
    ensures spelt { result ≡ big_endian 0 (take 8 (drop at bytes.now)) }
    ensures bytes { (i : ℕ) → slice_index (take 8 (drop at bytes.now)) i < 256 }
{
    u64::from_be_bytes([
        bytes[at],
        bytes[at + 1],
        bytes[at + 2],
        bytes[at + 3],
        bytes[at + 4],
        bytes[at + 5],
        bytes[at + 6],
        bytes[at + 7],
    ])
}

/// What has an equality that tells all values apart. None takes memory.
pub trait Exact {
    /// Both are the same.
    fn equal(&self, other: &Self) -> bool
        ensures { IsTrue result ↔ (self.now ≡ other.now) };
}

/// Both ranked values are the same.
pub fn same<T: Ranked>(ours: &T, theirs: &T) -> bool
    ensures { IsTrue result ↔ (ours.now ≡ theirs.now) }
{
    matches!(ours.cmp(theirs), Ordering::Equal)
}

/// Both addresses have the same octets, or neither is given.
pub fn same_address(ours: Option<Ipv4Addr>, theirs: Option<Ipv4Addr>) -> bool
    ensures { IsTrue result ↔ (option_map ipv4_octets ours ≡ option_map ipv4_octets theirs) }
{
    match (ours, theirs) {
        (Some(ours), Some(theirs)) => ours.octets() == theirs.octets(),
        (None, None) => true,
        _ => false,
    }
}

/// Both lists have the same values in the same order.
pub fn same_items<T: Exact>(ours: &[T], theirs: &[T]) -> bool
    ensures { IsTrue result ↔ (ours.now ≡ theirs.now) }
{
    let mut rest = theirs;
    for item in ours {
        let Some((first, others)) = rest.split_first() else {
            return false;
        };
        if !item.equal(first) {
            return false;
        }
        rest = others;
    }
    rest.is_empty()
}
