//! Laws of the answers: public functions with no parameters, whose contracts are the laws.
ghost use Rattle.answer_core.specs.AnswerLaws.{KeysAreCertain};

/// The certain keys over the individuals are those of the matches in the completed table that lift.
pub fn keys_are_certain()
    ensures { KeysAreCertain }
{}
