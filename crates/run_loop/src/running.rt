//! A run over a whole script.
ghost use Rattle.std.specs.Prelude.{◌≡◌, ◌<◌, ◌≤◌, ◌⊎◌, [], ℕ, List, length};
ghost use Rattle.std.specs.Option.{ForSome};
ghost use Rattle.host_io.specs.Causes.{Rose};
ghost use Rattle.base_store.specs.Area.{IsDamaged, KeepsHistory};
ghost use Rattle.base_store.specs.History.{History};
ghost use Rattle.base_engine.specs.Calls.{BothStay, HasKeptState, IsDamage};
ghost use Rattle.base_engine.specs.State.{MachineState};
ghost use Rattle.run_loop.specs.Run.{IsComplete, NotOpened, Ran, RanOpened, TakesInput};
ghost use Rattle.run_loop.specs.Serving.{Opening, Serves};

use crate::ending::Ending;
use crate::fault::fault_of;
use crate::reading::read_script;
use base_engine::Engine;
use horn_closure::Steps;
use host_io::{Host, Source};
use script_reader::{Lines, READ_BUFFER};
use std::alloc::{AllocError, Global};
use std::sync::ledger::Ledger;

/// Loads the base that the first area keeps, reads a script from the source to its end, and prints the reply to each of its
/// requests before the next one is taken. `steps` counts closures, as commits make them.
///
/// `Done` comes where the script was read to its end and all replies are printed; `InputTooLarge` where the source gave more
/// than 67,108,864 bytes; `ReadFault`, `PrintFault` and `DiskFault` where the source or the host failed; `Damaged` where the
/// area keeps no history; `NoMemory` where memory ran out. The first fault ends the run.
pub fn run<E: Engine, S: Source, H: Host, L: Ledger>(
    alloc: Global,
    source: &mut S,
    host: &mut H,
    steps: &mut Steps<L>,
) -> Ending
    // Where source and host tell their bytes, and the area keeps a history: what is printed are the machine's replies to the
    // requests that were read, what the area keeps is the history behind them, and a stop at any moment leaves both so.
    ensures run { ForSome (S.left source.old) (λ input. ForSome (H.disk host.old) (λ d. ForSome (H.printed host.old) (λ before.
        (h : History) → KeepsHistory d.first.reads h
        → RanOpened H.disk H.printed H.clock H.might d h before result input (S.left source.new) host.old host.new
        ⊎ NotOpened H.disk H.printed H.clock H.might d h before result input (S.left source.new) host.old host.new))) }

    // A script of at most 67,108,864 bytes over an area that keeps a history is read to its end and all replies are printed,
    // where no fault comes and memory is there.
    ensures completes { ForSome (S.left source.old) (λ input. ForSome (H.disk host.old) (λ d. ForSome (H.printed host.old) (λ before.
        (h : History) → KeepsHistory d.first.reads h → length input ≤ 67108864 → IsComplete result))) }

    // Damage is told exactly of an area that keeps no history, unless the disk fails or memory is wanted; then nothing is read,
    // printed or written.
    ensures damages { ForSome (H.disk host.old) (λ d. (at : ℕ) → IsDamaged d.first.reads at
        → ((result ≡ Ending.Damaged 0 at) ⊎ (result ≡ Ending.DiskFault) ⊎ (result ≡ Ending.NoMemory))
        × BothStay (H.disk host.old) (H.disk host.new) × (S.left source.new ≡ S.left source.old) × (H.printed host.new ≡ H.printed host.old)) }
    ensures damaged { (area at : ℕ) → result ≡ Ending.Damaged area at → ForSome (H.disk host.old) (λ d. IsDamage d area at) }

    // At most one byte more than the limit is taken. A fault comes only where its count rose.
    ensures takes_input { ForSome (S.left source.old) (λ input. TakesInput result input (S.left source.new)) }
    ensures counted { steps.old ≤ steps.new }
    ensures read_fault { result ≡ Ending.ReadFault → Rose (S.read_faults source.old) (S.read_faults source.new) }
    ensures read_fault_ends { S.read_faults source.old < S.read_faults source.new → result ≡ Ending.ReadFault }
    ensures print_fault { result ≡ Ending.PrintFault → Rose (H.print_faults host.old) (H.print_faults host.new) }
    ensures print_fault_ends { H.print_faults host.old < H.print_faults host.new → result ≡ Ending.PrintFault }
    ensures disk_fault { result ≡ Ending.DiskFault → Rose (H.disk_faults host.old) (H.disk_faults host.new) }
    ensures disk_fault_ends { H.disk_faults host.old < H.disk_faults host.new → result ≡ Ending.DiskFault }
    ensures read_later { S.read_faults source.old ≤ S.read_faults source.new }
    ensures print_later { H.print_faults host.old ≤ H.print_faults host.new }
    ensures disk_later { H.disk_faults host.old ≤ H.disk_faults host.new }
{
    match E::load(alloc, host) {
        Ok(engine) => run_loaded(alloc, engine, source, host, steps),
        Err(end) => fault_of(end).ending(),
    }
}

/// Runs a script over a base that is loaded.
pub(crate) fn run_loaded<E: Engine, S: Source, H: Host, L: Ledger>(
    alloc: Global,
    engine: E,
    source: &mut S,
    host: &mut H,
    steps: &mut Steps<L>,
) -> Ending
    requires ready { HasKeptState (E.stands engine) (H.disk host.old) }
    requires none { E.taken engine ≡ 0 }
    ensures run { (start : H) (a : Opening) (s : MachineState) → E.stands engine s → Serves H.disk H.printed H.clock H.might start a [] s host.old
        → ForSome (S.left source.old) (λ input. Ran H.disk H.printed H.clock H.might a result input (S.left source.new) start host.new) }
    ensures takes_input { ForSome (S.left source.old) (λ input. TakesInput result input (S.left source.new)) }
    ensures counted { steps.old ≤ steps.new }
    ensures read_fault { result ≡ Ending.ReadFault → Rose (S.read_faults source.old) (S.read_faults source.new) }
    ensures read_fault_ends { S.read_faults source.old < S.read_faults source.new → result ≡ Ending.ReadFault }
    ensures print_fault { result ≡ Ending.PrintFault → Rose (H.print_faults host.old) (H.print_faults host.new) }
    ensures print_fault_ends { H.print_faults host.old < H.print_faults host.new → result ≡ Ending.PrintFault }
    ensures disk_fault { result ≡ Ending.DiskFault → Rose (H.disk_faults host.old) (H.disk_faults host.new) }
    ensures disk_fault_ends { H.disk_faults host.old < H.disk_faults host.new → result ≡ Ending.DiskFault }
    ensures undamaged { ForSome (H.disk host.old) (λ d. (area at : ℕ) → result ≡ Ending.Damaged area at → ⊥) }
    ensures read_later { S.read_faults source.old ≤ S.read_faults source.new }
    ensures print_later { H.print_faults host.old ≤ H.print_faults host.new }
    ensures disk_later { H.disk_faults host.old ≤ H.disk_faults host.new }
{
    let Ok(lines) = Lines::new(alloc) else {
        return Ending::NoMemory;
    };
    let Ok(mut buffer) = vec![in alloc; 0u8; READ_BUFFER] else {
        return Ending::NoMemory;
    };
    read_script(
        alloc,
        engine,
        source,
        host,
        steps,
        lines,
        buffer.as_mut_slice(),
    )
}
