//! Why a run ends before its input does.
ghost use Rattle.std.specs.Prelude.{◌≡◌, ℕ};
ghost use Rattle.run_loop.specs.Serving.{IsFaultOfEnd};

use base_engine::EndFault;

/// Why a run ends at a request.
#[derive(Clone, Copy, Debug, PartialEq, Eq)]
pub enum Fault {
    /// The disk failed.
    Disk,
    /// An area keeps no history; its number, and the place where it offends.
    Damaged { area: u8, at: u64 },
    /// Printing failed.
    Print,
    /// Memory ran out.
    Memory,
}

/// The fault of a base that was given up.
pub fn fault_of(end: EndFault) -> Fault
    ensures of { IsFaultOfEnd end result }
    ensures disk { result ≡ Fault.Disk → end ≡ EndFault.DiskFault }
    ensures memory { result ≡ Fault.Memory → end ≡ EndFault.NoMemory }
    ensures damaged { (area at : ℕ) → result ≡ Fault.Damaged area at → end ≡ EndFault.Damaged area at }
    ensures not_print { result ≡ Fault.Print → ⊥ }
{
    match end {
        EndFault::DiskFault => Fault::Disk,
        EndFault::Damaged { area, at } => Fault::Damaged { area, at },
        EndFault::NoMemory => Fault::Memory,
    }
}
