//! What grammars say of tables.
ghost use Rattle.site_core.specs.Faults.{FaultsAreRefusals};
ghost use Rattle.site_core.specs.Unsupported.{ServedAreRecognized};

/// A law: a grammar has a fault exactly where its table refuses, and by the same code.
pub fn faults_are_refusals()
    ensures { FaultsAreRefusals }
{}

/// A law: each AVP that a grammar names is recognized, so no request is refused for one.
pub fn served_are_recognized()
    ensures { ServedAreRecognized }
{}
