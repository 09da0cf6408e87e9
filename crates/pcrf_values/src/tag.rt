//! Tags, which rank one fact above another.
use crate::order::Ranked;
use std::alloc::AllocError;

/// What ranks the values of one field: a number, then the counter of the operation, then the site that made it.
#[derive(Clone, Copy, Debug, PartialEq, Eq, PartialOrd, Ord)]
pub struct Tag {
    /// The CC-Request-Number of the request that gave the value (RFC 8506, 8.2), 0 where it has none.
    pub number: u32,
    /// The counter of the operation at its site.
    pub counter: u64,
    /// The number of the site, 0 to 15.
    pub site: u8,
}

impl Ranked for Tag {
    ghost use Rattle.pcrf_values.specs.laws.Tags.{tag_same};

    ghost same = { tag_same };

    fn try_copy(&self) -> Result<Tag, AllocError> {
        Ok(*self)
    }
}
