//! The Session-Ids of both interfaces: neither is taken for the other.
ghost use Rattle.std.specs.Prelude.{◌≡◌, ◌<◌, ◌≤◌, length, refl};
ghost use Rattle.pcrf_values.specs.Limits.{session_id_limit};

use crate::order::{Ranked, compare_bytes, equal_bytes};
use crate::text::SessionId;
use std::alloc::AllocError;
use std::cmp::Ordering;
use std::fmt::{self, Debug, Formatter, Write};
use std::hash::{Hash, Hasher};
use std::marker::Model;

/// The Session-Id of a gateway's session (Gx, TS 29.212, 4a.5.1), which contracts see as its bytes.
#[derive(Drop)]
pub struct GxSid {
    id: SessionId,
}

/// The Session-Id of an application function's session (Rx, TS 29.214, 5.6), which contracts see as its bytes.
#[derive(Drop)]
pub struct AfSid {
    id: SessionId,
}

impl Debug for GxSid {
    fn fmt<W: Write>(&self, f: &mut Formatter<W>) -> fmt::Result {
        write!(f, "\"{}\"", self.as_slice().escape_ascii())
    }
}

impl Model for GxSid {
    ghost use Rattle.std.specs.Prelude.{ℕ, List};

    ghost Value = { List ℕ };

    ghost view = { λ s. s.id };

    ghost inverse = { λ id. record { id = id } };
}

impl Debug for AfSid {
    fn fmt<W: Write>(&self, f: &mut Formatter<W>) -> fmt::Result {
        write!(f, "\"{}\"", self.as_slice().escape_ascii())
    }
}

impl Model for AfSid {
    ghost use Rattle.std.specs.Prelude.{ℕ, List};

    ghost Value = { List ℕ };

    ghost view = { λ s. s.id };

    ghost inverse = { λ id. record { id = id } };
}

impl GxSid {
    /// That of the gateway's session with this Session-Id.
    pub fn of(id: SessionId) -> GxSid
        ensures { result ≡ id }
    {
        GxSid { id }
    }

    /// The Session-Id, as a message carries it.
    pub fn id(&self) -> &SessionId
        ensures { result.now ≡ self.now }
    {
        &self.id
    }

    /// Its bytes.
    pub fn as_slice(&self) -> &[u8]
        ensures items { result.now ≡ self.now }
        ensures not_empty { 0 < length self.now }
        ensures within { length self.now ≤ session_id_limit }
    {
        self.id.as_slice()
    }
}

impl AfSid {
    /// That of the application function's session with this Session-Id.
    pub fn of(id: SessionId) -> AfSid
        ensures { result ≡ id }
    {
        AfSid { id }
    }

    /// The Session-Id, as a message carries it.
    pub fn id(&self) -> &SessionId
        ensures { result.now ≡ self.now }
    {
        &self.id
    }

    /// Its bytes.
    pub fn as_slice(&self) -> &[u8]
        ensures items { result.now ≡ self.now }
        ensures not_empty { 0 < length self.now }
        ensures within { length self.now ≤ session_id_limit }
    {
        self.id.as_slice()
    }
}

impl PartialEq for GxSid {
    ghost use Rattle.std.specs.Prelude.{nat_eq};
    ghost use Rattle.std.specs.Cmp.{partial_equiv_from_equiv};
    ghost use Rattle.std.specs.Cmp.Lexicographic.{pointwise, nat_list_eq_equiv};

    ghost eq = { pointwise nat_eq };

    ghost laws = { partial_equiv_from_equiv nat_list_eq_equiv };

    fn eq(&self, other: &GxSid) -> bool {
        equal_bytes(self.as_slice(), other.as_slice())
    }
}

impl Eq for GxSid {
    ghost use Rattle.std.specs.Cmp.Lexicographic.{nat_list_eq_equiv};

    ghost laws = { nat_list_eq_equiv };
}

impl Hash for GxSid {
    ghost use Rattle.std.specs.Prelude.{[], ◌∷◌};
    ghost use Rattle.pcrf_values.specs.laws.Exact.{same_input};

    ghost hash_input = { λ s. s ∷ [] };

    ghost respects_eq = { same_input };

    fn hash<H: Hasher>(&self, state: &mut H) {
        state.write(self.as_slice());
    }
}

impl PartialOrd for GxSid {
    ghost use Rattle.std.specs.Cmp.Lexicographic.{texts_po};
    ghost use Rattle.std.specs.declared.option.Option.TheVariants.{Some};
    ghost use Rattle.pcrf_values.specs.Orders.{text_cmp};

    ghost partial_cmp = { λ x y. Some (text_cmp x y) };

    ghost laws = { texts_po };

    fn partial_cmp(&self, other: &GxSid) -> Option<Ordering> {
        Some(self.cmp(other))
    }
}

impl Ord for GxSid {
    ghost use Rattle.std.specs.Cmp.Lexicographic.{nat_list_cmp_total, texts_ties};
    ghost use Rattle.pcrf_values.specs.Orders.{text_cmp};

    ghost cmp = { text_cmp };

    ghost total = { nat_list_cmp_total };

    ghost matches_partial_cmp = { λ x y. refl };

    ghost matches_eq = { texts_ties };

    fn cmp(&self, other: &GxSid) -> Ordering {
        compare_bytes(self.as_slice(), other.as_slice())
    }
}

impl Ranked for GxSid {
    ghost use Rattle.pcrf_values.specs.laws.Exact.{text_same};

    ghost same = { text_same };

    fn try_copy(&self) -> Result<GxSid, AllocError> {
        Ok(GxSid {
            id: self.id.try_copy()?,
        })
    }
}

impl PartialEq for AfSid {
    ghost use Rattle.std.specs.Prelude.{nat_eq};
    ghost use Rattle.std.specs.Cmp.{partial_equiv_from_equiv};
    ghost use Rattle.std.specs.Cmp.Lexicographic.{pointwise, nat_list_eq_equiv};

    ghost eq = { pointwise nat_eq };

    ghost laws = { partial_equiv_from_equiv nat_list_eq_equiv };

    fn eq(&self, other: &AfSid) -> bool {
        equal_bytes(self.as_slice(), other.as_slice())
    }
}

impl Eq for AfSid {
    ghost use Rattle.std.specs.Cmp.Lexicographic.{nat_list_eq_equiv};

    ghost laws = { nat_list_eq_equiv };
}

impl Hash for AfSid {
    ghost use Rattle.std.specs.Prelude.{[], ◌∷◌};
    ghost use Rattle.pcrf_values.specs.laws.Exact.{same_input};

    ghost hash_input = { λ s. s ∷ [] };

    ghost respects_eq = { same_input };

    fn hash<H: Hasher>(&self, state: &mut H) {
        state.write(self.as_slice());
    }
}

impl PartialOrd for AfSid {
    ghost use Rattle.std.specs.Cmp.Lexicographic.{texts_po};
    ghost use Rattle.std.specs.declared.option.Option.TheVariants.{Some};
    ghost use Rattle.pcrf_values.specs.Orders.{text_cmp};

    ghost partial_cmp = { λ x y. Some (text_cmp x y) };

    ghost laws = { texts_po };

    fn partial_cmp(&self, other: &AfSid) -> Option<Ordering> {
        Some(self.cmp(other))
    }
}

impl Ord for AfSid {
    ghost use Rattle.std.specs.Cmp.Lexicographic.{nat_list_cmp_total, texts_ties};
    ghost use Rattle.pcrf_values.specs.Orders.{text_cmp};

    ghost cmp = { text_cmp };

    ghost total = { nat_list_cmp_total };

    ghost matches_partial_cmp = { λ x y. refl };

    ghost matches_eq = { texts_ties };

    fn cmp(&self, other: &AfSid) -> Ordering {
        compare_bytes(self.as_slice(), other.as_slice())
    }
}

impl Ranked for AfSid {
    ghost use Rattle.pcrf_values.specs.laws.Exact.{text_same};

    ghost same = { text_same };

    fn try_copy(&self) -> Result<AfSid, AllocError> {
        Ok(AfSid {
            id: self.id.try_copy()?,
        })
    }
}
