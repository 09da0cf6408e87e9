//! Texts of bytes: of any length, where a short one stands in the value itself and others are shared, so that a copy takes no
//! memory of its own; those with a least and a greatest length, as Session-Ids and names have them; and access point names.
ghost use Rattle.std.specs.Prelude.{◌≡◌, ◌≤◌, length, IfOk, IfSome, ◌<◌};
ghost use Rattle.pcrf_values.specs.Orders.{text_cmp};
ghost use Rattle.pcrf_values.specs.Texts.{one_to, small_letters};
ghost use Rattle.pcrf_values.specs.Limits.{apn_limit};

use crate::limits::{
    APN_LIMIT, FILTER_LIMIT, IDENTITY_LIMIT, RULE_NAME_LIMIT, SESSION_ID_LIMIT,
    SUBSCRIPTION_DATA_LIMIT,
};
use crate::order::{Ranked, compare_bytes, equal_bytes};
use std::alloc::{AllocError, Global};
use std::cmp::Ordering;
use std::fmt::{self, Debug, Formatter, Write};
use std::hash::{Hash, Hasher};
use std::marker::Model;
use std::sync::ArcSlice;

/// How many bytes stand in the value itself. With their count and the mark of the kind it takes four words.
const ROOM: usize = 30;

/// A text of bytes, of any length, which contracts see as the list of them.
pub struct Text {
    kept: Kept,
}

/// A text is let go in one step, as a `Vec` is: a proof of whoever owns many has no cases of where each one's bytes are.
impl Drop for Text {
    fn drop(self) {
        let Text { kept: _ } = self;
    }
}

/// Where the bytes of a text are.
#[derive(Drop)]
enum Kept {
    Here(Inline),
    /// In memory that the copies of the text share.
    Shared(ArcSlice<u8>),
}

/// Up to 30 bytes, which contracts see as the list of them.
#[derive(Drop)]
struct Inline {
    count: u8,
    room: [u8; ROOM],
}

impl Model for Inline {
    ghost use Rattle.std.specs.Prelude.{List, ℕ, ◌≤◌, take};

    ghost Value = { List ℕ };

    ghost view = { λ i. take i.count i.room };

    ghost invariant = { λ i. i.count ≤ 30 };
}

impl Model for Text {
    ghost use Rattle.std.specs.Prelude.{List, ℕ};

    ghost Value = { List ℕ };

    ghost use Rattle.pcrf_values.specs.Kept.{kept_bytes};

    ghost view = { λ t. kept_bytes t.kept };
}

impl Inline {
    /// A copy of these bytes; `None` where there is no room for them.
    fn read(bytes: &[u8]) -> Option<Inline>
        ensures { IfSome result (λ copy. copy ≡ bytes.now) }
    {
        let count = bytes.len();
        if count > ROOM {
            return None;
        }
        let mut room = [0; ROOM];
        room[..count].copy_from_slice(bytes);
        Some(Inline {
            count: count as u8,
            room,
        })
    }

    /// The bytes.
    fn as_slice(&self) -> &[u8]
        ensures { result.now ≡ self.now }
    {
        &self.room[..self.count as usize]
    }

    /// The same bytes.
    fn copy(&self) -> Inline
        ensures { result ≡ self.now }
    {
        Inline {
            count: self.count,
            room: self.room,
        }
    }
}

impl Text {
    /// The text of these bytes.
    pub fn of(bytes: Vec<u8>) -> Result<Text, AllocError>
        ensures { IfOk result (λ text. text ≡ bytes.items) }
    {
        let kept = match Inline::read(bytes.as_slice()) {
            Some(copy) => Kept::Here(copy),
            None => Kept::Shared(ArcSlice::from_vec(bytes)?),
        };
        Ok(Text { kept })
    }

    /// The text of a copy of these bytes. Memory is taken only for more than 30 of them.
    pub fn read(alloc: Global, bytes: &[u8]) -> Result<Text, AllocError>
        ensures { IfOk result (λ text. text ≡ bytes.now) }
    {
        let kept = match Inline::read(bytes) {
            Some(copy) => Kept::Here(copy),
            None => Kept::Shared(ArcSlice::from_slice(alloc, bytes)?),
        };
        Ok(Text { kept })
    }

    /// The bytes.
    pub fn as_slice(&self) -> &[u8]
        ensures { result.now ≡ self.now }
    {
        match &self.kept {
            Kept::Here(bytes) => bytes.as_slice(),
            Kept::Shared(bytes) => bytes.as_slice(),
        }
    }
}

impl Debug for Text {
    fn fmt<W: Write>(&self, f: &mut Formatter<W>) -> fmt::Result {
        write!(f, "{:?}", self.as_slice())
    }
}

impl PartialEq for Text {
    ghost use Rattle.std.specs.Prelude.{nat_eq};
    ghost use Rattle.std.specs.Cmp.{partial_equiv_from_equiv};
    ghost use Rattle.std.specs.Cmp.Lexicographic.{pointwise, nat_list_eq_equiv};

    ghost eq = { pointwise nat_eq };

    ghost laws = { partial_equiv_from_equiv nat_list_eq_equiv };

    fn eq(&self, other: &Text) -> bool {
        equal_bytes(self.as_slice(), other.as_slice())
    }
}

impl Eq for Text {
    ghost use Rattle.std.specs.Cmp.Lexicographic.{nat_list_eq_equiv};

    ghost laws = { nat_list_eq_equiv };
}

impl PartialOrd for Text {
    ghost use Rattle.std.specs.Cmp.Lexicographic.{texts_po};
    ghost use Rattle.std.specs.declared.option.Option.TheVariants.{Some};
    ghost use Rattle.pcrf_values.specs.Orders.{text_cmp};

    ghost partial_cmp = { λ x y. Some (text_cmp x y) };

    ghost laws = { texts_po };

    fn partial_cmp(&self, other: &Text) -> Option<Ordering> {
        Some(self.cmp(other))
    }
}

impl Ord for Text {
    ghost use Rattle.std.specs.Prelude.{refl};
    ghost use Rattle.std.specs.Cmp.Lexicographic.{nat_list_cmp_total, texts_ties};
    ghost use Rattle.pcrf_values.specs.Orders.{text_cmp};

    ghost cmp = { text_cmp };

    ghost total = { nat_list_cmp_total };

    ghost matches_partial_cmp = { λ x y. refl };

    ghost matches_eq = { texts_ties };

    fn cmp(&self, other: &Text) -> Ordering {
        compare_bytes(self.as_slice(), other.as_slice())
    }
}

impl Ranked for Text {
    ghost use Rattle.pcrf_values.specs.laws.Exact.{text_same};

    ghost same = { text_same };

    fn try_copy(&self) -> Result<Text, AllocError> {
        let kept = match &self.kept {
            Kept::Here(bytes) => Kept::Here(bytes.copy()),
            Kept::Shared(bytes) => Kept::Shared(bytes.clone()?),
        };
        Ok(Text { kept })
    }
}

/// A text of 1 to `MOST` bytes, which contracts see as the list of them.
#[derive(Drop, PartialEq, Eq, PartialOrd)]
pub struct BoundedText<const MOST: usize> {
    text: Text,
}

/// A Session-Id (RFC 6733, 8.8). Its greatest length is this project's own.
pub type SessionId = BoundedText<SESSION_ID_LIMIT>;

/// The name of a Diameter host or realm (RFC 6733, 4.3.1).
pub type DiameterIdentity = BoundedText<IDENTITY_LIMIT>;

/// The number or name of a subscriber, as Subscription-Id-Data gives it (RFC 8506, 8.48).
pub type SubscriptionData = BoundedText<SUBSCRIPTION_DATA_LIMIT>;

/// An IPFilterRule as it was given (RFC 6733, 4.3.1).
pub type FilterText = BoundedText<FILTER_LIMIT>;

/// The name of a rule, as Charging-Rule-Name gives it (TS 29.212, 5.3.6). Its greatest length is this project's own: it has
/// room for a Session-Id and two numbers.
pub type RuleName = BoundedText<RULE_NAME_LIMIT>;

impl<const MOST: usize> Model for BoundedText<MOST> {
    ghost use Rattle.std.specs.Prelude.{List, ℕ, ◌<◌, ◌≤◌, length};

    ghost Value = { List ℕ };

    ghost view = { λ b. b.text };

    ghost inverse = { λ text. record { text = text } };

    ghost invariant = { λ b. (0 < length b.text) × (length b.text ≤ MOST) };
}

impl<const MOST: usize> Debug for BoundedText<MOST> {
    fn fmt<W: Write>(&self, f: &mut Formatter<W>) -> fmt::Result {
        write!(f, "{:?}", self.text)
    }
}

impl<const MOST: usize> BoundedText<MOST> {
    /// The text of these bytes; `None` where there are none or more than `MOST` of them.
    pub fn of(bytes: Vec<u8>) -> Result<Option<BoundedText<MOST>>, AllocError>
        ensures { IfOk result (λ text. text ≡ one_to MOST bytes.items) }
    {
        Ok(BoundedText::from_text(Text::of(bytes)?))
    }

    /// The text of a copy of these bytes; `None` where there are none or more than `MOST` of them.
    pub fn read(alloc: Global, bytes: &[u8]) -> Result<Option<BoundedText<MOST>>, AllocError>
        ensures { IfOk result (λ text. text ≡ one_to MOST bytes.now) }
    {
        if bytes.is_empty() || bytes.len() > MOST {
            return Ok(None);
        }
        let text = Text::read(alloc, bytes)?;
        Ok(Some(BoundedText { text }))
    }

    /// That text; `None` where it has no bytes or more than `MOST` of them.
    pub fn from_text(text: Text) -> Option<BoundedText<MOST>>
        ensures { result ≡ one_to MOST text }
    {
        let count = text.as_slice().len();
        if count == 0 || count > MOST {
            return None;
        }
        Some(BoundedText { text })
    }

    /// The bytes.
    pub fn as_slice(&self) -> &[u8]
        ensures items { result.now ≡ self.now }
        ensures not_empty { 0 < length self.now }
        ensures within { length self.now ≤ MOST }
    {
        self.text.as_slice()
    }
}

impl<const MOST: usize> Ord for BoundedText<MOST> {
    ghost use Rattle.std.specs.Prelude.{refl};
    ghost use Rattle.std.specs.Cmp.Lexicographic.{nat_list_cmp_total, texts_ties};
    ghost use Rattle.pcrf_values.specs.Orders.{text_cmp};

    ghost cmp = { text_cmp };

    ghost total = { nat_list_cmp_total };

    ghost matches_partial_cmp = { λ x y. refl };

    ghost matches_eq = { texts_ties };

    fn cmp(&self, other: &BoundedText<MOST>) -> Ordering {
        self.text.cmp(&other.text)
    }
}

impl<const MOST: usize> Hash for BoundedText<MOST> {
    ghost use Rattle.std.specs.Prelude.{[], ◌∷◌};
    ghost use Rattle.pcrf_values.specs.laws.Exact.{same_input};

    ghost hash_input = { λ b. b ∷ [] };

    ghost respects_eq = { same_input };

    fn hash<H: Hasher>(&self, state: &mut H) {
        state.write(self.as_slice());
    }
}

impl<const MOST: usize> Ranked for BoundedText<MOST> {
    ghost use Rattle.pcrf_values.specs.laws.Exact.{text_same};

    ghost same = { text_same };

    fn try_copy(&self) -> Result<BoundedText<MOST>, AllocError> {
        Ok(BoundedText {
            text: self.text.try_copy()?,
        })
    }
}

/// An access point name in small letters, of 1 to 255 bytes (Called-Station-Id, TS 29.212; TS 23.003, 9.1).
///
/// Names that differ in the case of ASCII letters alone are one name, so the capitals are folded when a name is read.
#[derive(Drop, PartialEq, Eq, PartialOrd, Ord)]
pub struct Apn {
    text: Text,
}

impl Debug for Apn {
    fn fmt<W: Write>(&self, f: &mut Formatter<W>) -> fmt::Result {
        write!(f, "\"{}\"", self.as_slice().escape_ascii())
    }
}

impl Model for Apn {
    ghost use Rattle.std.specs.Prelude.{◌≡◌, ℕ, List, ◌<◌, ◌≤◌, length};
    ghost use Rattle.pcrf_values.specs.Limits.{apn_limit};
    ghost use Rattle.pcrf_values.specs.Texts.{small_letters};

    ghost Value = { List ℕ };

    ghost view = { λ a. a.text };

    ghost inverse = { λ bytes. record { text = bytes } };

    ghost invariant = { λ a. (0 < length a.text) × (length a.text ≤ apn_limit) × (small_letters a.text ≡ a.text) };
}

impl Apn {
    /// The name of these bytes; `None` where there are none or more than 255 of them.
    pub fn folded(alloc: Global, bytes: &[u8]) -> Result<Option<Apn>, AllocError>
        ensures { IfOk result (λ apn. apn ≡ one_to apn_limit (small_letters bytes.now)) }
    {
        if bytes.is_empty() || bytes.len() > APN_LIMIT {
            return Ok(None);
        }
        let mut letters = Vec::with_capacity(alloc, bytes.len())?;
        for byte in bytes {
            letters.push(byte.to_ascii_lowercase())?;
        }
        let text = Text::of(letters)?;
        Ok(Some(Apn { text }))
    }

    /// The bytes.
    pub fn as_slice(&self) -> &[u8]
        ensures bytes { result.now ≡ self.now }
        ensures not_empty { 0 < length self.now }
        ensures within { length self.now ≤ apn_limit }
        ensures small { small_letters self.now ≡ self.now }
    {
        self.text.as_slice()
    }
}

impl Ranked for Apn {
    ghost use Rattle.pcrf_values.specs.laws.Exact.{nat_same, list_same};

    ghost same = { list_same nat_same };

    fn try_copy(&self) -> Result<Apn, AllocError> {
        Ok(Apn {
            text: self.text.try_copy()?,
        })
    }
}
