//! How a document's run ends.

/// How the run over a document ends.
#[derive(Clone, Copy, Debug, PartialEq, Eq)]
pub enum DocumentEnding {
    /// The document was read to its end and the whole reply is printed.
    Done,
    /// The document is refused at this line, counted from 1, for the reason of this code.
    Refused { code: u8, line: u64 },
    /// The source failed.
    ReadFault,
    /// The host failed to print.
    PrintFault,
    /// There is no memory left.
    NoMemory,
    /// More than 67,108,864 bytes were taken.
    InputTooLarge,
}
