//! Laws of the definitions: public functions with no parameters, whose contracts are the laws.
ghost use Rattle.script_tally.specs.TallyLaws.{RequestsAreFew, TallyOfThree};

/// A script has at most two requests more than bytes.
pub fn requests_are_few()
    ensures { RequestsAreFew }
{}

/// The tally of `ok`, `answer a`, `answer b`, `end 2`, `answer a b`, `end 1`.
pub fn tally_of_three()
    ensures { TallyOfThree }
{}
