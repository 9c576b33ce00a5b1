//! Laws of plans: public functions with no parameters, whose contracts are the laws.
ghost use Rattle.join_plan.specs.PlanLaws.{BeginsWithB, EachAtomOnce, EachTermKnown, FromTheName, GoesOn, MatchesByPaths, NotWithA, OnePartAtATime};

/// A plan has the place of each atom once.
pub fn each_atom_once()
    ensures { EachAtomOnce }
{}

/// Behind a whole plan each term is known.
pub fn each_term_known()
    ensures { EachTermKnown }
{}

/// A step that is no scan has an atom with a known term.
pub fn goes_on()
    ensures { GoesOn }
{}

/// Images for the terms of a shape are a match exactly where the paths of all steps hold.
pub fn matches_by_paths()
    ensures { MatchesByPaths }
{}

/// Where one element is in B and two are in A, what is in both is sought in B, and another part of the query comes last.
pub fn begins_with_b()
    ensures { BeginsWithB }
{}

/// There, what begins with A doesn't begin with the least scan.
pub fn not_with_a()
    ensures { NotWithA }
{}

/// A role is walked from a name, and not scanned.
pub fn from_the_name()
    ensures { FromTheName }
{}

/// No plan begins another part while the present one goes on.
pub fn one_part_at_a_time()
    ensures { OnePartAtATime }
{}
