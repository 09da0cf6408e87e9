//! Laws of spellings.
//!
//! The functions do nothing: what they say are their contracts.
ghost use Rattle.std.specs.Prelude.{◌≡◌, ◌++◌, ◌&&◌, ◌<◌, ◌^◌, ℕ, List, length, true, Some};
ghost use Rattle.std.specs.List.{list_all};
ghost use Rattle.pcrf_values.specs.Facts.{Fact};
ghost use Rattle.pcrf_model.specs.Sessions.{Gx, Af};
ghost use Rattle.pcrf_model.specs.Forms.{fits, is_counted, is_tagged};
ghost use Rattle.fact_codec.specs.Spelling.{facts_bytes, held_facts_bytes};
ghost use Rattle.fact_codec.specs.Said.{has_fact, tag_of_stamp, gx_fact, af_fact, facts, held_gx_fact, held_af_fact};

/// The facts of an operation on a gateway's session, fewer than 2^32, where letters of a version have them, are read again where
/// they are spelled, whatever follows them: so the spelling of such facts begins no other.
pub fn spelled_gx_facts_are_read()
    ensures { (v counter site number : ℕ) (fs : List Fact) (rest : List ℕ) → length fs < 2 ^ 32
        → list_all (λ f. fits Gx f && is_tagged Gx counter site number f) fs ≡ true
        → list_all (has_fact v) fs ≡ true
        → facts (gx_fact v (tag_of_stamp number counter site) (tag_of_stamp 0 counter site))
        (facts_bytes fs ++ rest) ≡ Some (fs, rest) }
{}

/// The facts of an operation on an application function's session, fewer than 2^32, where letters of a version have them, are
/// read again where they are spelled, whatever follows them.
pub fn spelled_af_facts_are_read()
    ensures { (v counter site number : ℕ) (fs : List Fact) (rest : List ℕ) → length fs < 2 ^ 32
        → list_all (λ f. fits Af f && is_tagged Af counter site number f) fs ≡ true
        → list_all (has_fact v) fs ≡ true
        → facts (af_fact v (tag_of_stamp 0 counter site)) (facts_bytes fs ++ rest)
        ≡ Some (fs, rest) }
{}

/// The facts that a state holds of a gateway's session, fewer than 2^32, each value with its tag, where letters of a version have
/// them, are read again where they are spelled, whatever follows them.
pub fn spelled_held_gx_facts_are_read()
    ensures { (v clock : ℕ) (fs : List Fact) (rest : List ℕ) → length fs < 2 ^ 32
        → list_all (λ f. fits Gx f && is_counted Gx clock f) fs ≡ true
        → list_all (has_fact v) fs ≡ true
        → facts (held_gx_fact v) (held_facts_bytes fs ++ rest) ≡ Some (fs, rest) }
{}

/// The facts that a state holds of an application function's session, fewer than 2^32, each value with its tag, where letters of
/// a version have them, are read again where they are spelled, whatever follows them.
pub fn spelled_held_af_facts_are_read()
    ensures { (v clock : ℕ) (fs : List Fact) (rest : List ℕ) → length fs < 2 ^ 32
        → list_all (λ f. fits Af f && is_counted Af clock f) fs ≡ true
        → list_all (has_fact v) fs ≡ true
        → facts (held_af_fact v) (held_facts_bytes fs ++ rest) ≡ Some (fs, rest) }
{}
