//! What is known of the lines.
ghost use Rattle.cd_build.specs.Refuting.{DerivationsRefute};

/// The lines of the derivation of a peer that is refuted are a refutation of its problem.
pub fn derivations_refute()
    ensures { DerivationsRefute }
{}
