//! Why a line of a document is refused.
ghost use Rattle.std.specs.Prelude.{◌≡◌};
ghost use Rattle.document_run.specs.Document.{code_of};

/// Why a line is refused, in the order in which the reasons are tried.
#[derive(Clone, Copy, Debug, PartialEq, Eq)]
pub enum Reason {
    /// It is longer than 4,096 bytes.
    TooLong,
    /// It is no line of a document, or stands out of order.
    Misplaced,
    /// With its axiom the ontology passes a limit.
    PassesLimit,
    /// Its query has more than 24 atoms, distinct terms or answer places.
    TooLarge,
    /// Its query has an answer variable that is in no atom.
    Unsafe,
    /// It names a concept that no axiom names.
    UnknownConcept,
    /// It names a role that no axiom names.
    UnknownRole,
    /// With its fact there are more than 1,000,000 rows or 65,536 individuals.
    TooManyFacts,
}

impl Reason {
    /// The code of the reason in a reply.
    pub fn code(self) -> u8
        ensures { result ≡ code_of self }
    {
        match self {
            Reason::TooLong => 2,
            Reason::Misplaced => 1,
            Reason::PassesLimit => 5,
            Reason::TooLarge => 16,
            Reason::Unsafe => 17,
            Reason::UnknownConcept => 6,
            Reason::UnknownRole => 7,
            Reason::TooManyFacts => 11,
        }
    }
}
