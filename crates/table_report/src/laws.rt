//! Laws of the definitions: public functions with no parameters, whose contracts are the laws.
ghost use Rattle.table_report.specs.Laws.{LinesBothWays, LinesOfSuccessor, TableLinesOnce};

/// The lines of a base are one list and no other.
pub fn table_lines_once()
    ensures { TableLinesOnce }
{}

/// Where whatever is in A has a successor by r, and a is in A, the lines are `witness r 1`, `concept A a` and `role r a *r`.
pub fn lines_of_successor()
    ensures { LinesOfSuccessor }
{}

/// Where whatever is in A has a successor by r and one by its inverse, the inverse's witness stands behind that of r, and what
/// leads from a witness behind what leads from an individual.
pub fn lines_both_ways()
    ensures { LinesBothWays }
{}
