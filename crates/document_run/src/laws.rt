//! Laws of what a document is.
ghost use Rattle.document_run.specs.DocumentLaws.{HasAMeaning, IsRefusedOnce, IsRefusedOrAsks};

/// A document is refused at one line, with one code.
pub fn refused_once()
    ensures { IsRefusedOnce }
{}

/// A document that is refused asks nothing.
pub fn refused_or_asks()
    ensures { IsRefusedOrAsks }
{}

/// Each input has a meaning: it is refused, or it asks.
pub fn has_a_meaning()
    ensures { HasAMeaning }
{}
