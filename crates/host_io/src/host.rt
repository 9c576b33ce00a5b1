// Where a program prints, and the two areas that it keeps on a disk.
ghost use Rattle.std.specs.Prelude.{◌≡◌, ◌<◌, ◌≤◌, List, ℕ, Option, Some, length, IfOk, OnOk};
ghost use Rattle.std.specs.Option.{ForSome};
ghost use Rattle.host_io.specs.Causes.{HasCause};
ghost use Rattle.host_io.specs.Disk.{Cuts, Disk, IsCopy, IsImage, OnArea, Syncs, TakesStep, Writes, area_of};
ghost use Rattle.host_io.specs.Host.{Prints};
ghost use Rattle.host_io.specs.Moments.{Elapses, IsNoCall, IsShowing, IsShown, Leaves, Left, Ticks};

use crate::Failed;

/// Where a program prints, and the two areas of bytes that it keeps on a disk, area 0 and area 1. Both areas are told, or
/// none; so are the bytes printed. What is told stays told, and what isn't told stays untold.
pub trait Host {
    /// Both areas, where they are told.
    ghost disk: { Self → Option Disk };

    /// The bytes printed so far, where they are told.
    ghost printed: { Self → Option (List ℕ) };

    /// How many calls there were, of the disk and of printing. The count stands still at 2 ^ 64 - 1.
    ghost clock: { Self → ℕ };

    /// At some moment since there were so many calls, a stop could have left this.
    ghost might: { Self → ℕ → Left → Type 0 };

    /// How many calls found no memory, and so were none. The count stands still at 2 ^ 64 - 1.
    ghost lacked: { Self → ℕ };

    /// How often the disk has failed. The count stands still at 2 ^ 64 - 1.
    ghost disk_faults: { Self → ℕ };

    /// How often printing has failed. The count stands still at 2 ^ 64 - 1.
    ghost print_faults: { Self → ℕ };

    /// The length of an area, in bytes.
    fn len(&mut self, area: u8) -> Result<u64, Failed>
        requires { area < 2 }
        ensures value { IfOk result (λ len. ForSome (disk self.old) (λ d. len ≡ length (area_of d area).reads)) }
        ensures disk { disk self.new ≡ disk self.old }
        ensures printed { printed self.new ≡ printed self.old }
        ensures time { Elapses (clock self.old) (clock self.new) (might self.old) (might self.new) (Leaves (disk self.new) (IsShown (printed self.new))) }
        ensures tick { Ticks (clock self.old) (clock self.new) (IsNoCall clock lacked disk printed might self.old self.new) result }
        ensures cause { HasCause (disk_faults self.old) (disk_faults self.new) result }
        ensures other { print_faults self.new ≡ print_faults self.old };

    /// Reads the bytes of an area from a place on into the front of the buffer, and answers how many: all that it has
    /// room for, or as many as stand there. At `Failed` the buffer may hold anything.
    fn read(&mut self, area: u8, at: u64, buf: &mut [u8]) -> Result<usize, Failed>
        requires { area < 2 }
        ensures within { IfOk result (λ count. count ≤ length buf.new) }
        ensures value { IfOk result (λ count. ForSome (disk self.old) (λ d. IsCopy (area_of d area).reads at count buf.new)) }
        ensures disk { disk self.new ≡ disk self.old }
        ensures printed { printed self.new ≡ printed self.old }
        ensures time { Elapses (clock self.old) (clock self.new) (might self.old) (might self.new) (Leaves (disk self.new) (IsShown (printed self.new))) }
        ensures tick { Ticks (clock self.old) (clock self.new) (IsNoCall clock lacked disk printed might self.old self.new) result }
        ensures cause { HasCause (disk_faults self.old) (disk_faults self.new) result }
        ensures other { print_faults self.new ≡ print_faults self.old };

    /// Writes the bytes into an area, over what stands there and past its end. At `Failed` any part of them may be there.
    fn write(&mut self, area: u8, at: u64, bytes: &[u8]) -> Result<(), Failed>
        requires area { area < 2 }
        requires within { ForSome (disk self.old) (λ d. at ≤ length (area_of d area).reads) }
        ensures disk { TakesStep (OnArea area (Writes at bytes.now result)) (disk self.old) (disk self.new) }
        ensures printed { printed self.new ≡ printed self.old }
        ensures time { Elapses (clock self.old) (clock self.new) (might self.old) (might self.new) (Leaves (disk self.new) (IsShown (printed self.new))) }
        ensures tick { Ticks (clock self.old) (clock self.new) (IsNoCall clock lacked disk printed might self.old self.new) result }
        ensures cause { HasCause (disk_faults self.old) (disk_faults self.new) result }
        ensures other { print_faults self.new ≡ print_faults self.old };

    /// Cuts an area to its first bytes, so many. At `Failed` it may have any length between, and any bytes behind these.
    fn cut(&mut self, area: u8, len: u64) -> Result<(), Failed>
        requires area { area < 2 }
        requires within { ForSome (disk self.old) (λ d. len ≤ length (area_of d area).reads) }
        ensures disk { TakesStep (OnArea area (Cuts len result)) (disk self.old) (disk self.new) }
        ensures printed { printed self.new ≡ printed self.old }
        ensures time { Elapses (clock self.old) (clock self.new) (might self.old) (might self.new) (Leaves (disk self.new) (IsShown (printed self.new))) }
        ensures tick { Ticks (clock self.old) (clock self.new) (IsNoCall clock lacked disk printed might self.old self.new) result }
        ensures cause { HasCause (disk_faults self.old) (disk_faults self.new) result }
        ensures other { print_faults self.new ≡ print_faults self.old };

    /// Puts both areas on the disk: behind it a stop leaves what a read gives.
    fn sync(&mut self) -> Result<(), Failed>
        ensures disk { TakesStep (Syncs result) (disk self.old) (disk self.new) }
        ensures printed { printed self.new ≡ printed self.old }
        ensures time { Elapses (clock self.old) (clock self.new) (might self.old) (might self.new) (Leaves (disk self.new) (IsShown (printed self.new))) }
        ensures tick { Ticks (clock self.old) (clock self.new) (IsNoCall clock lacked disk printed might self.old self.new) result }
        ensures cause { HasCause (disk_faults self.old) (disk_faults self.new) result }
        ensures other { print_faults self.new ≡ print_faults self.old };

    /// Prints the bytes behind what was printed. At `Failed` some front of them, maybe none or all, was printed.
    fn print(&mut self, bytes: &[u8]) -> Result<(), Failed>
        ensures disk { disk self.new ≡ disk self.old }
        ensures printed { Prints bytes.now result (printed self.old) (printed self.new) }
        ensures time { Elapses (clock self.old) (clock self.new) (might self.old) (might self.new) (Leaves (disk self.old) (IsShowing (printed self.old) bytes.now)) }

        // Each front of the bytes is what a stop inside the call may leave of them.
        ensures fronts { OnOk result ((moment : ℕ) (left : Left) → moment ≤ clock self.old → Leaves (disk self.old) (IsShowing (printed self.old) bytes.now) left → might self.new moment left) }
        ensures tick { Ticks (clock self.old) (clock self.new) (IsNoCall clock lacked disk printed might self.old self.new) result }
        ensures cause { HasCause (print_faults self.old) (print_faults self.new) result }
        ensures other { disk_faults self.new ≡ disk_faults self.old };

    /// The present is one of the moments since any call.
    ghost counts_now: { (host : Self) (moment : ℕ) (left : Left) → moment ≤ clock host → Leaves (disk host) (IsShown (printed host)) left → might host moment left };

    /// Since the last call there is no other moment than the present.
    ghost only_now: { (host : Self) (left : Left) → might host (clock host) left → Leaves (disk host) (IsShown (printed host)) left };

    /// What a read gives of an area is an image of it.
    ghost reads_now: { (host : Self) (d : Disk) → disk host ≡ Some d → IsImage d.first d.first.reads × IsImage d.second d.second.reads };
}
