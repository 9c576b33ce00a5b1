//! Laws of lines and of scripts: public functions with no parameters, whose contracts are the laws.
ghost use Rattle.script_reader.specs.Feeding.{KeptGivesLine};
ghost use Rattle.script_reader.specs.LineLaws.{AsksOneThing, SaysOneThing};
ghost use Rattle.script_reader.specs.RequestLaws.{HasOneList, RequestsGoOn};

/// A line of a document says one thing.
pub fn says_one_thing()
    ensures { SaysOneThing }
{}

/// A line of a script asks one thing.
pub fn asks_one_thing()
    ensures { AsksOneThing }
{}

/// What is kept of a line gives what the whole line gives.
pub fn kept_gives_line()
    ensures { KeptGivesLine }
{}

/// A script has one list of requests.
pub fn has_one_list()
    ensures { HasOneList }
{}

/// The requests of a script that goes on are those so far, and then others.
pub fn requests_go_on()
    ensures { RequestsGoOn }
{}
