//! The laws of filters, each the contract of a function without a body.
ghost use Rattle.gx_profile.specs.Laws.{EnforcedAsDescribed, FiltersAreOfTheDownlink, GrowsByOneByte, PartsAreThoseSpelled, TextsComeBack};

/// The parts of a text are just those that the grammar spells it by.
pub fn parts_are_those_spelled()
    ensures { PartsAreThoseSpelled }
{}

/// What a gateway is given has an inverse, and lets pass in each direction what was described.
pub fn gateways_enforce_what_was_described()
    ensures inverse { TextsComeBack }
    ensures described { EnforcedAsDescribed }
{}

/// Every filter becomes one to the terminal, and a text a byte longer at most.
pub fn filters_are_to_the_terminal()
    ensures begins { FiltersAreOfTheDownlink }
    ensures length { GrowsByOneByte }
{}
