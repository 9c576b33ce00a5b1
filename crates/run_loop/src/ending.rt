//! How a run ends.
ghost use Rattle.std.specs.Prelude.{◌≡◌, ℕ};
ghost use Rattle.run_loop.specs.Run.{IsEndingOf};

use crate::fault::Fault;

/// How a run ends.
#[derive(Clone, Copy, Debug, PartialEq, Eq)]
pub enum Ending {
    /// The input was read to its end and all replies are printed.
    Done,
    /// The source failed.
    ReadFault,
    /// The host failed to print.
    PrintFault,
    /// The host's disk failed.
    DiskFault,
    /// An area keeps no history; its number, and the place where it offends.
    Damaged { area: u8, at: u64 },
    /// There is no memory left.
    NoMemory,
    /// More than 67,108,864 bytes were taken.
    InputTooLarge,
}

impl Fault {
    /// The same as the ending of a run.
    pub fn ending(self) -> Ending
        ensures of { IsEndingOf result self }
        ensures print { result ≡ Ending.PrintFault → self ≡ Fault.Print }
        ensures disk { result ≡ Ending.DiskFault → self ≡ Fault.Disk }
        ensures memory { result ≡ Ending.NoMemory → self ≡ Fault.Memory }
        ensures damaged { (area at : ℕ) → result ≡ Ending.Damaged area at → self ≡ Fault.Damaged area at }
        ensures not_done { result ≡ Ending.Done → ⊥ }
        ensures not_read { result ≡ Ending.ReadFault → ⊥ }
        ensures not_large { result ≡ Ending.InputTooLarge → ⊥ }
    {
        match self {
            Fault::Disk => Ending::DiskFault,
            Fault::Damaged { area, at } => Ending::Damaged { area, at },
            Fault::Print => Ending::PrintFault,
            Fault::Memory => Ending::NoMemory,
        }
    }
}
