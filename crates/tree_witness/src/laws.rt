//! Laws of tree witnesses: public functions with no parameters, whose contracts are the laws.
ghost use Rattle.tree_witness.specs.TreeLaws.{BackAtTheTop, LiftsWherePassed, LoopHasNone, OffTheWitness, OneIsBoth, PassesByTrees, SharedIsNoJoin};

/// Where names are distinct, a match of the completed tables passes the test by tree witnesses exactly where it lifts.
pub fn lifting()
    ensures { LiftsWherePassed }
{}

/// Images pass by the tree witnesses of a shape, as they are kept, exactly where they pass.
pub fn by_trees()
    ensures { PassesByTrees }
{}

/// An atom that leads from a term to itself has no tree witness.
pub fn loop_has_none()
    ensures { LoopHasNone }
{}

/// After two steps down and two steps back a term stands at the top again.
pub fn back_at_the_top()
    ensures { BackAtTheTop }
{}

/// Two individuals that share a witness of a role don't pass as the parents of one term by this role.
pub fn shared_is_no_join()
    ensures { SharedIsNoJoin }
{}

/// One individual passes as both of them.
pub fn one_is_both()
    ensures { OneIsBoth }
{}

/// Two pass where the witness is one of another role.
pub fn off_the_witness()
    ensures { OffTheWitness }
{}
