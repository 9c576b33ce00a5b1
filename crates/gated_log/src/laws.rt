//! Laws of an area: public functions with no parameters, whose contracts are the laws.

ghost use Rattle.gated_log.specs.Laws.{FreshHasNoHeader, FreshNeverOffends, IsOneOfThree, OffendsOnce, StandsOnce, StandsOrOffends};

/// An area stands for one list of entries at most.
pub fn stands_once()
    ensures { StandsOnce }
{}

/// An area that stands for entries doesn't offend.
pub fn stands_or_offends()
    ensures { StandsOrOffends }
{}

/// An area offends at one place at most.
pub fn offends_once()
    ensures { OffendsOnce }
{}

/// A fresh area has no header, so it stands for no list of entries.
pub fn fresh_has_no_header()
    ensures { FreshHasNoHeader }
{}

/// A fresh area doesn't offend.
pub fn fresh_never_offends()
    ensures { FreshNeverOffends }
{}

/// Every area is fresh, or stands for a list of entries, or offends.
pub fn one_of_three()
    ensures { IsOneOfThree }
{}
