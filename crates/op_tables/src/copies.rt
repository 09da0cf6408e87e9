//! Equal maps.
ghost use Rattle.std.specs.Prelude.{◌≡◌, IfOk};

use pcrf_values::Ranked;
use std::alloc::{AllocError, Global};
use std::collections::BTreeMap;

/// Values of which equal ones are made.
pub trait TryCopy: Drop {
    /// An equal value.
    fn try_copy(&self, alloc: Global) -> Result<Self, AllocError>
        ensures { IfOk result (λ copy. copy ≡ self.now) };
}

/// A map with equal keys and values.
pub fn copy_of<K: Ranked, V: TryCopy>(
    alloc: Global,
    map: &BTreeMap<K, V>,
) -> Result<BTreeMap<K, V>, AllocError>
    ensures { IfOk result (λ copy. copy.entries ≡ map.now.entries) }
{
    let mut copy = BTreeMap::new(alloc);
    for (key, value) in map.iter() {
        let key = key.try_copy()?;
        let value = value.try_copy(alloc)?;
        copy.insert(key, value)?;
    }
    Ok(copy)
}
