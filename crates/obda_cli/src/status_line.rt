//! What standard error says of an ending.
ghost use Rattle.std.specs.Prelude.{◌≡◌, ◌≢◌, MatchOption};
ghost use Rattle.obda_run.specs.declared.status.Status.TheVariants.{Done};

use obda_run::Status;
use std::fmt;
use std::marker::Model;

/// The line of an ending that isn't `Done`. It is printed without taking memory. Contracts see it as the ending.
#[derive(Debug, Drop)]
pub struct StatusLine {
    status: Status,
}

impl Model for StatusLine {
    ghost use Rattle.std.specs.Prelude.{◌≢◌};
    ghost use Rattle.obda_run.specs.declared.status.Status.{Status as Ending};
    ghost use Rattle.obda_run.specs.declared.status.Status.TheVariants.{Done};

    ghost Value = { Ending };

    ghost view = { λ line. line.status };

    ghost invariant = { λ line. line.status ≢ Done };
}

impl StatusLine {
    /// The line of this ending, or `None` where all went well.
    pub fn of(status: Status) -> Option<StatusLine>
        ensures { MatchOption result (status ≡ Done) (λ line. (line ≡ status) × (status ≢ Done)) }
    {
        match status {
            Status::Done => None,
            _ => Some(StatusLine { status }),
        }
    }
}

impl fmt::Display for StatusLine {
    ghost use Rattle.std.specs.Prelude.{Some};
    ghost use Rattle.obda_cli.specs.StatusLine.{line_of_status};

    ghost output = { λ line. Some (line_of_status line) };

    fn fmt<W: fmt::Write>(&self, f: &mut fmt::Formatter<W>) -> fmt::Result {
        match self.status {
            Status::Done => Ok(()),
            Status::Refused { code, line } => write!(f, "refused {code} line {line}"),
            Status::Usage => f.write_str("usage: obda answer, obda run, obda sample N"),
            Status::ReadFault => f.write_str("read fault"),
            Status::PrintFault => f.write_str("print fault"),
            Status::DiskFault => f.write_str("disk fault"),
            Status::Damaged { area, at } => write!(f, "damaged area {area} at {at}"),
            Status::NoMemory => f.write_str("no memory"),
            Status::InputTooLarge => f.write_str("input too large"),
        }
    }
}
