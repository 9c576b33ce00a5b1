//! A law of bases: a public function with no parameters, whose contract is the law.

ghost use Rattle.kept_base.specs.Base.{StandsForAlike};

/// The states that a base stands for are those that are alike to one of them.
pub fn stands_for_alike()
    ensures { StandsForAlike }
{}
