//! Laws of the definitions: public functions with no parameters, whose contracts are the laws.
ghost use Rattle.dl_base.specs.Laws.{AnnIsStaff, AnswersOnce, BackIsNotShort, ClashesAlongRoles, ClashesInOrder, Collapses, DerivesMore, DerivesThrough, ExistsBefore, FirstClashOnce, FoldsToMatch, InverseWitnessLeads, LastIsLive, NamedSuccessor, NoLoopYetThreeSteps, NoWayBack, NoWitnessBeside, PointsToItself, RepliesClash, RepliesOnce, SharedWitnessIsNoJoin, TwoStepsBack, UnfoldingIsModel, WitnessServes, WitnessStands};

/// Where each member of one set is derived from another, so is whatever is derived from the first.
pub fn derives_through()
    ensures { DerivesThrough }
{}

/// From more, more is derived.
pub fn derives_more()
    ensures { DerivesMore }
{}

/// Where an element exists, so does the one that it extends.
pub fn exists_before()
    ensures { ExistsBefore }
{}

/// The answers of a base are one list and no other.
pub fn answers_once()
    ensures { AnswersOnce }
{}

/// The keys that are certain are those that are certain by a placing on short elements.
pub fn collapse()
    ensures { Collapses }
{}

/// The last role of a short element is live.
pub fn last_is_live()
    ensures { LastIsLive }
{}

/// A placing on short elements folds to a match in the completed rows.
pub fn fold()
    ensures { FoldsToMatch }
{}

/// Where there is no clash, each inclusion holds in the structure of the existing elements, and each row whose name the
/// ontology has.
pub fn model()
    ensures { UnfoldingIsModel }
{}

/// A clash is an individual, and roles that may follow there to an end where an inclusion is violated.
pub fn clashes_along_roles()
    ensures { ClashesAlongRoles }
{}

/// Where professors are staff and ann is one, she is the one certain answer to who is staff.
pub fn ann_is_staff()
    ensures { AnnIsStaff }
{}

/// A variable at no answer place may stand on an element that no row names.
pub fn witness_serves()
    ensures { WitnessServes }
{}

/// Where a successor is derived and no row gives one, the completed tables lead to the role's witness.
pub fn witness_stands()
    ensures { WitnessStands }
{}

/// A named successor keeps the witness out of the completed tables.
pub fn no_witness_beside()
    ensures { NoWitnessBeside }
{}

/// The first clash of a base is one and no other, or there is none.
pub fn first_clash_once()
    ensures { FirstClashOnce }
{}

/// A base replies one thing to a query.
pub fn replies_once()
    ensures { RepliesOnce }
{}

/// No role points back along itself.
pub fn no_way_back()
    ensures { NoWayBack }
{}

/// Where whatever a role leads to has a successor by the role again, the role points to itself.
pub fn points_to_itself()
    ensures { PointsToItself }
{}

/// Where a successor by the inverse of a role is derived, the role leads from the inverse's witness.
pub fn inverse_witness_leads()
    ensures { InverseWitnessLeads }
{}

/// Of several clashes the first is that of the least individual, of these that of the shortest list of roles, of these
/// that of the least list in role order, and of these that of the least inclusion.
pub fn clashes_in_order()
    ensures { ClashesInOrder }
{}

/// A base with a clash replies the first one, whatever is asked.
pub fn replies_clash()
    ensures { RepliesClash }
{}

/// What goes on by a role and back again isn't short, although it exists.
pub fn back_is_not_short()
    ensures { BackIsNotShort }
{}

/// That two individuals lead to one witness is a match of a query for what they have in common, and doesn't lift.
pub fn shared_witness_is_no_join()
    ensures { SharedWitnessIsNoJoin }
{}

/// A role may lead from its witness to itself, and yet no loop is certain; three steps are.
pub fn no_loop_yet_three_steps()
    ensures { NoLoopYetThreeSteps }
{}

/// Two steps on and two steps back along the same roles end where they began.
pub fn two_steps_back()
    ensures { TwoStepsBack }
{}

/// An individual whose successor has a name has no further one in an answer.
pub fn named_successor()
    ensures { NamedSuccessor }
{}
