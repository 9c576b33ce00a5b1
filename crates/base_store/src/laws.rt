//! Laws of areas and histories: public functions with no parameters, whose contracts are the laws.

ghost use Rattle.base_store.specs.Laws.{DamagedOnce, GateStandsAtUsed, KeepsOnce, KeepsOrIsDamaged};

/// An area keeps one history at most.
pub fn keeps_once()
    ensures { KeepsOnce }
{}

/// An area that keeps a history doesn't offend.
pub fn keeps_or_is_damaged()
    ensures { KeepsOrIsDamaged }
{}

/// An area offends at one place at most.
pub fn damaged_once()
    ensures { DamagedOnce }
{}

/// The gate behind the entries of a history stands where its used bytes end.
pub fn gate_stands_at_used()
    ensures { GateStandsAtUsed }
{}
