//! Laws of handle stores: public functions with no parameters, whose contracts are the laws.
ghost use Rattle.gen_arena.specs.Examples.{EndsWithGreatest, GivesInOrder, GivesLastFreedFirst, TellsDropped, TellsNeverGiven};
ghost use Rattle.gen_arena.specs.Laws.{BeginsAsStore, DropsRemoved, GivesNewOnes, GivesTheNext, GoneIsNotLive, GoneOnce, LiveWasGiven, NamesInserted, NamesOn, NamesOne, NamesWritten, StaysAStore, StaysDropped, StaysGiven, TakesRoom};

/// A store without slots is a handle store.
pub fn begins_as_store<T>()
    ensures { BeginsAsStore T }
{}

/// Whatever is done to a handle store leaves one.
pub fn stays_a_store<T>()
    ensures { StaysAStore T }
{}

/// A value that comes in takes one place.
pub fn takes_room<T>()
    ensures { TakesRoom T }
{}

/// A handle names one value.
pub fn names_one<T>()
    ensures { NamesOne T }
{}

/// A value that comes in is named by the next handle.
pub fn names_inserted<T>()
    ensures { NamesInserted T }
{}

/// A value that is written is named by the handle through which it is.
pub fn names_written<T>()
    ensures { NamesWritten T }
{}

/// A live handle names its value until something is done through it.
pub fn names_on<T>()
    ensures { NamesOn T }
{}

/// A handle is dropped where its value goes.
pub fn drops_removed<T>()
    ensures { DropsRemoved T }
{}

/// A dropped handle stays dropped, and so never names a value again.
pub fn stays_dropped<T>()
    ensures { StaysDropped T }
{}

/// The next handle was never given before.
pub fn gives_new_ones<T>()
    ensures { GivesNewOnes T }
{}

/// A live handle was given.
pub fn live_was_given<T>()
    ensures { LiveWasGiven T }
{}

/// A handle that was given stays so.
pub fn stays_given<T>()
    ensures { StaysGiven T }
{}

/// The only handle that is given by a change is the next one, where a value comes in.
pub fn gives_the_next<T>()
    ensures { GivesTheNext T }
{}

/// A handle that is gone is so for one reason.
pub fn gone_once<T>()
    ensures { GoneOnce T }
{}

/// A handle that is gone isn't live.
pub fn gone_is_not_live<T>()
    ensures { GoneIsNotLive T }
{}

/// Slots are given in order, and each value is named by its handle.
pub fn gives_in_order()
    ensures { GivesInOrder }
{}

/// The slot that was freed last is given first, with its next generation.
pub fn gives_last_freed_first()
    ensures { GivesLastFreedFirst }
{}

/// A dropped handle is told as such, also when its slot is given again.
pub fn tells_dropped()
    ensures { TellsDropped }
{}

/// A handle that was never given is told as such.
pub fn tells_never_given()
    ensures { TellsNeverGiven }
{}

/// A slot is given once more behind the last generation but one, and not behind the greatest.
pub fn ends_with_greatest()
    ensures { EndsWithGreatest }
{}
