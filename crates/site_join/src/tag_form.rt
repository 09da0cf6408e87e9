//! The forms that tags of facts may have.
ghost use Rattle.std.specs.Prelude.{◌≡◌};
ghost use Rattle.site_join.specs.TagForms.{admits, number_by};

use crate::form::is_stamp;
use lattice_core::Tag;
use pcrf_values::limits::SITE_LIMIT;

/// Which tags facts may have.
#[derive(Clone, Copy)]
pub(crate) enum TagForm {
    /// That of the operation whose fields of a gateway's session have this one.
    Made(Tag),
    /// That of some operation.
    Recorded,
    /// That of some operation whose counter is not above the clock.
    Counted(u64),
}

impl TagForm {
    /// The number that stands in the tag of a field of a gateway's session.
    pub(crate) fn number(self, tag: &Tag) -> u32
        ensures { result ≡ number_by self tag.now }
    {
        match self {
            TagForm::Made(made) => made.number,
            TagForm::Recorded | TagForm::Counted(_) => tag.number,
        }
    }

    /// The tag is of the form, with that number in it.
    pub(crate) fn admits(self, tag: &Tag, number: u32) -> bool
        ensures { result ≡ admits self number tag.now }
    {
        match self {
            TagForm::Made(made) => {
                let made = Tag {
                    number,
                    counter: made.counter,
                    site: made.site,
                };
                tag.cmp(&made).is_eq()
            }
            TagForm::Recorded => {
                1 <= tag.counter && tag.site < SITE_LIMIT && tag.number == number
            }
            TagForm::Counted(clock) => {
                is_stamp(tag.counter, tag.site) && tag.counter <= clock && tag.number == number
            }
        }
    }
}
