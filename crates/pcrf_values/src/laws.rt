//! The laws of values, each the contract of a function without a body.
ghost use Rattle.pcrf_values.specs.Prefixes.{PrefixesCover};

/// A prefix covers itself, and all that is covered by a prefix that it covers.
pub fn prefixes_cover_in_an_order()
    ensures { PrefixesCover }
{}
