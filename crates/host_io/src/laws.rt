//! Laws of the disk: public functions with no parameters, whose contracts are the laws.
ghost use Rattle.host_io.specs.Laws.{CutMayTear, SettledIsItself, WriteMayTear};

/// What a read gives of a settled disk is all that a stop may leave of it.
pub fn settled_is_itself()
    ensures { SettledIsItself }
{}

/// Where two bytes were written over the last of three, a stop leaves three or four bytes, the first two as they were.
pub fn write_may_tear()
    ensures { WriteMayTear }
{}

/// Where three bytes were cut to one, a stop leaves one to three bytes, the first as it was.
pub fn cut_may_tear()
    ensures { CutMayTear }
{}
