//! A script is read to its end.
ghost use Rattle.std.specs.Prelude.{◌≡◌, ◌≤◌, ◌<◌, ◌^◌, ◌+◌, [], false, ℕ, List, length};
ghost use Rattle.std.specs.Option.{ForSome};
ghost use Rattle.host_io.specs.Causes.{Rose};
ghost use Rattle.base_engine.specs.Calls.{HasKeptState};
ghost use Rattle.base_engine.specs.State.{MachineState};
ghost use Rattle.run_loop.specs.Run.{FinishesAs, Ran, TakesInput};
ghost use Rattle.run_loop.specs.Serving.{Opening, Serves};
ghost use Rattle.run_loop.specs.Taking.{TakesBytes};

use crate::ending::Ending;
use crate::pieces::{finish, take_piece};
use axiom_reader::Block;
use base_engine::Engine;
use horn_closure::Steps;
use host_io::{Host, Source};
use script_reader::{Lines, MAX_INPUT, room_after};
use std::alloc::Global;
use std::sync::ledger::Ledger;

/// Reads the script to its end, piece by piece, and answers its requests.
pub fn read_script<E: Engine, S: Source, H: Host, L: Ledger>(
    alloc: Global,
    mut engine: E,
    source: &mut S,
    host: &mut H,
    steps: &mut Steps<L>,
    mut lines: Lines,
    buffer: &mut [u8],
) -> Ending
    requires ready { HasKeptState (E.stands engine) (H.disk host.old) }
    requires none { E.taken engine ≡ 0 }
    requires line { lines ≡ record { bytes = []; ended = false } }
    requires buffer { length buffer.old ≡ 65536 }
    ensures run { (start : H) (a : Opening) (s : MachineState) → E.stands engine s → Serves H.disk H.printed H.clock H.might start a [] s host.old
        → ForSome (S.left source.old) (λ input. Ran H.disk H.printed H.clock H.might a result input (S.left source.new) start host.new) }
    ensures takes_input { ForSome (S.left source.old) (λ input. TakesInput result input (S.left source.new)) }
    ensures counted { steps.old ≤ steps.new }
    ensures read_fault { result ≡ Ending.ReadFault → Rose (S.read_faults source.old) (S.read_faults source.new) }
    ensures read_fault_ends { S.read_faults source.old < S.read_faults source.new → result ≡ Ending.ReadFault }
    ensures print_fault { result ≡ Ending.PrintFault → Rose (H.print_faults host.old) (H.print_faults host.new) }
    ensures print_fault_ends { H.print_faults host.old < H.print_faults host.new → result ≡ Ending.PrintFault }
    ensures disk_fault { result ≡ Ending.DiskFault → Rose (H.disk_faults host.old) (H.disk_faults host.new) }
    ensures disk_fault_ends { H.disk_faults host.old < H.disk_faults host.new → result ≡ Ending.DiskFault }
    ensures undamaged { ForSome (H.disk host.old) (λ d. (area at : ℕ) → result ≡ Ending.Damaged area at → ⊥) }
    ensures read_later { S.read_faults source.old ≤ S.read_faults source.new }
    ensures print_later { H.print_faults host.old ≤ H.print_faults host.new }
    ensures disk_later { H.disk_faults host.old ≤ H.disk_faults host.new }
{
    let mut block: Option<Block> = None;
    let mut taken = 0u64;
    'pieces: loop {
        let room = room_after(taken);
        let Ok(count) = source.read(&mut buffer[..room]) else {
            return Ending::ReadFault;
        };
        if count == 0 {
            return finish_script(alloc, engine, host, steps, block, &mut lines);
        }
        if taken == MAX_INPUT {
            return Ending::InputTooLarge;
        }
        match take_piece(
            alloc,
            engine,
            host,
            steps,
            block,
            &mut lines,
            &buffer[..count],
        ) {
            Ok((next, begun)) => {
                engine = next;
                block = begun;
            }
            Err(fault) => return fault.ending(),
        }
        taken += count as u64;
    }
}

/// Answers what the end of the script makes whole.
fn finish_script<E: Engine, H: Host, L: Ledger>(
    alloc: Global,
    engine: E,
    host: &mut H,
    steps: &mut Steps<L>,
    block: Option<Block>,
    lines: &mut Lines,
) -> Ending
    requires ready { HasKeptState (E.stands engine) (H.disk host.old) }
    requires few { E.taken engine < 99999999 }
    ensures takes { (start : H) (a : Opening) (read : List ℕ) → length read < 2 ^ 62 → TakesBytes H.disk H.printed H.clock H.might start (E.stands engine) a read lines.old block host.old
        → FinishesAs H.disk H.printed H.clock H.might start a read result host.new }
    ensures counted { steps.old ≤ steps.new }
    ensures print_fault { result ≡ Ending.PrintFault → Rose (H.print_faults host.old) (H.print_faults host.new) }
    ensures print_fault_ends { H.print_faults host.old < H.print_faults host.new → result ≡ Ending.PrintFault }
    ensures disk_fault { result ≡ Ending.DiskFault → Rose (H.disk_faults host.old) (H.disk_faults host.new) }
    ensures disk_fault_ends { H.disk_faults host.old < H.disk_faults host.new → result ≡ Ending.DiskFault }
    ensures undamaged { ForSome (H.disk host.old) (λ d. (area at : ℕ) → result ≡ Ending.Damaged area at → ⊥) }
    ensures not_large { result ≡ Ending.InputTooLarge → ⊥ }
    ensures not_read { result ≡ Ending.ReadFault → ⊥ }
    ensures print_later { H.print_faults host.old ≤ H.print_faults host.new }
    ensures disk_later { H.disk_faults host.old ≤ H.disk_faults host.new }
{
    match finish(alloc, engine, host, steps, block, lines) {
        Ok(_) => Ending::Done,
        Err(fault) => fault.ending(),
    }
}
