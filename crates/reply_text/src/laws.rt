//! Laws of the texts of replies: public functions with no parameters, whose contracts are the laws.
ghost use Rattle.reply_text.specs.ReplyLaws.{NeverEmpty};

/// The text of a reply is never empty.
pub fn never_empty()
    ensures { NeverEmpty }
{}
