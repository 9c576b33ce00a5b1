//! How a call of `serve` ends.
ghost use Rattle.std.specs.Prelude.{◌≡◌, ℕ};
ghost use Rattle.obda_run.specs.Status.{document_status, number_of, script_status};

use document_run::DocumentEnding;
use run_loop::Ending;

/// How a call of `serve` ends, in the order of the exit statuses from 0.
#[derive(Clone, Copy, Debug, PartialEq, Eq)]
pub enum Status {
    /// The input was read to its end and all replies are printed; of a sample, its line is.
    Done,
    /// The document is refused at this line, counted from 1, for the reason of this code.
    Refused { code: u8, line: u64 },
    /// The words are no command.
    Usage,
    /// The source failed.
    ReadFault,
    /// The host failed to print.
    PrintFault,
    /// The host's disk failed.
    DiskFault,
    /// An area keeps no history; the place is the first one that is wrong.
    Damaged { area: u8, at: u64 },
    /// There is no memory left.
    NoMemory,
    /// More than 67,108,864 bytes were taken.
    InputTooLarge,
}

impl Status {
    /// The exit status of the program.
    pub fn number(self) -> u8
        ensures { result ≡ number_of self }
    {
        match self {
            Status::Done => 0,
            Status::Refused { .. } => 1,
            Status::Usage => 2,
            Status::ReadFault => 3,
            Status::PrintFault => 4,
            Status::DiskFault => 5,
            Status::Damaged { .. } => 6,
            Status::NoMemory => 7,
            Status::InputTooLarge => 8,
        }
    }

    /// How a document's run ended.
    pub(crate) fn of_document(ending: DocumentEnding) -> Status
        ensures of { result ≡ document_status ending }
    {
        match ending {
            DocumentEnding::Done => Status::Done,
            DocumentEnding::Refused { code, line } => Status::Refused { code, line },
            DocumentEnding::ReadFault => Status::ReadFault,
            DocumentEnding::PrintFault => Status::PrintFault,
            DocumentEnding::NoMemory => Status::NoMemory,
            DocumentEnding::InputTooLarge => Status::InputTooLarge,
        }
    }

    /// How a script's run ended.
    pub(crate) fn of_script(ending: Ending) -> Status
        ensures of { result ≡ script_status ending }
    {
        match ending {
            Ending::Done => Status::Done,
            Ending::ReadFault => Status::ReadFault,
            Ending::PrintFault => Status::PrintFault,
            Ending::DiskFault => Status::DiskFault,
            Ending::Damaged { area, at } => Status::Damaged { area, at },
            Ending::NoMemory => Status::NoMemory,
            Ending::InputTooLarge => Status::InputTooLarge,
        }
    }
}
