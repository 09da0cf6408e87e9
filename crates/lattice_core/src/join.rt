//! Values that are joined with one another.
ghost use Rattle.std.specs.Prelude.{◌≡◌, IfOk, OnErr, IfErr};

use std::alloc::AllocError;

/// A join: commutative, associative and idempotent, as laws that generic code can use.
pub trait Join: Drop + Sized {
    /// The join of two values.
    ghost joined: { Self → Self → Self };

    /// What holds of each value that a program can make.
    ghost valid: { Self → Type 0 };

    /// The join of two values, which stay as they are.
    fn joined_copy(&self, other: &Self) -> Result<Self, AllocError>
        ensures { IfOk result (λ r. r ≡ joined self.now other.now) };

    /// Joins `other` into this value; a refusal changes nothing and gives `other` back.
    fn join_in(&mut self, other: Self) -> Result<(), (AllocError, Self)>
        ensures joins { IfOk result (λ _. self.new ≡ joined self.old other) }
        ensures unchanged { OnErr result (self.new ≡ self.old) }
        ensures given_back { IfErr result (λ e. e.1 ≡ other) }
    {
        match self.joined_copy(&other) {
            Ok(both) => {
                *self = both;
                Ok(())
            }
            Err(refused) => Err((refused, other)),
        }
    }

    /// The join of two values; a refusal gives both back.
    fn join(self, other: Self) -> Result<Self, (AllocError, Self, Self)>
        ensures joins { IfOk result (λ r. r ≡ joined self other) }
        ensures ours_back { IfErr result (λ e. e.1 ≡ self) }
        ensures theirs_back { IfErr result (λ e. e.2 ≡ other) }
    {
        let mut both = self;
        match both.join_in(other) {
            Ok(()) => Ok(both),
            Err((refused, other)) => Err((refused, both, other)),
        }
    }

    /// An equal value.
    fn try_copy(&self) -> Result<Self, AllocError>
        ensures { IfOk result (λ r. r ≡ self.now) };

    /// Does nothing: its contract tells a proof that the value is valid.
    fn note_valid(&self)
        ensures { valid self.now };

    ghost commutative: { (x y : Self) → joined x y ≡ joined y x };

    ghost associative: { (x y z : Self) → joined (joined x y) z ≡ joined x (joined y z) };

    ghost idempotent: { (x : Self) → valid x → joined x x ≡ x };

    ghost closed: { (x y : Self) → valid x → valid y → valid (joined x y) };
}
