//! Registers, in which the value with the greatest tag stands.
ghost use Rattle.std.specs.Prelude.{◌≡◌, Option, Some, None};
ghost use Rattle.std.specs.Option.{option_copied};
ghost use Rattle.lattice_core.specs.Registers.{reg_joined};
ghost use Rattle.lattice_core.specs.laws.Registers.{reg_comm, reg_assoc, reg_idem};

use crate::join::Join;
use pcrf_values::{Ranked, Tag};
use std::alloc::AllocError;
use std::cmp::Ordering;
use std::marker::Model;

/// The greatest pair of a tag and a value that was put, or nothing. Pairs are compared by tag, and then by value.
#[derive(Drop)]
pub struct Reg<T> {
    held: Option<(Tag, T)>,
}

impl<T> Model for Reg<T> {
    ghost use Rattle.std.specs.Prelude.{Option};
    ghost use Rattle.pcrf_values.specs.declared.tag.Tag.{Tag};

    ghost Value = { Option (Tag × T) };

    ghost view = { λ r. r.held };
}

impl<T: Ranked> Reg<T> {
    /// The register in which nothing stands.
    pub fn start() -> Reg<T>
        ensures { result ≡ None }
    {
        Reg { held: None }
    }

    /// What stands, with its tag.
    pub fn get(&self) -> Option<&(Tag, T)>
        ensures { option_copied result ≡ self.now }
    {
        self.held.as_ref()
    }

    /// Puts a value, which stands if the pair is above what stands.
    pub fn put(&mut self, tag: Tag, value: T)
        ensures { self.new ≡ reg_joined T.cmp self.old (Some (tag, value)) }
    {
        self.put_held(Some((tag, value)));
    }

    /// Joins another register into this one, without memory.
    pub fn join_reg(&mut self, other: Reg<T>)
        ensures { self.new ≡ reg_joined T.cmp self.old other }
    {
        self.put_held(other.held);
    }

    /// Puts what another register holds.
    fn put_held(&mut self, given: Option<(Tag, T)>)
        ensures { self.new ≡ reg_joined T.cmp self.old given }
    {
        if self.held.cmp(&given) == Ordering::Less {
            self.held = given;
        }
    }
}

impl<T: Ranked> Join for Reg<T> {
    ghost joined = { reg_joined T.cmp };

    ghost valid = { λ _. Unit {0} };

    ghost commutative = { reg_comm T.total T.same };

    ghost associative = { reg_assoc T.total };

    ghost idempotent = { λ x _. reg_idem T.total x };

    ghost closed = { λ _ _ _ _. tt };

    fn joined_copy(&self, other: &Reg<T>) -> Result<Reg<T>, AllocError> {
        let mut both = self.try_copy()?;
        both.put_held(other.held.try_copy()?);
        Ok(both)
    }

    fn join_in(&mut self, other: Reg<T>) -> Result<(), (AllocError, Reg<T>)> {
        self.join_reg(other);
        Ok(())
    }

    fn try_copy(&self) -> Result<Reg<T>, AllocError> {
        Ok(Reg {
            held: self.held.try_copy()?,
        })
    }

    fn note_valid(&self) {}
}
