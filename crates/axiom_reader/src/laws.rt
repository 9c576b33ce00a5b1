//! Laws of blocks: public functions with no parameters, whose contracts are the laws.
ghost use Rattle.axiom_reader.specs.BlockLaws.{BlockGivesOnce};

/// A block comes to one thing.
pub fn block_gives_once()
    ensures { BlockGivesOnce }
{}
