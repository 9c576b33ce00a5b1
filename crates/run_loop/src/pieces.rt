//! The bytes of a script, piece by piece.
ghost use Rattle.std.specs.Prelude.{◌≡◌, ◌≤◌, ◌<◌, ◌^◌, ◌++◌, ◌+◌, [], ◌∷◌, ℕ, List, true, false, IfOk, IfErr, MatchResult, length, take};
ghost use Rattle.std.specs.Option.{ForSome};
ghost use Rattle.base_engine.specs.Calls.{HasKeptState, StaysTold};
ghost use Rattle.run_loop.specs.Serving.{HasCauses, Opening, StaysUnless};
ghost use Rattle.run_loop.specs.Taking.{EndedAt, TakesAllOf, TakesBytes};

use crate::fault::Fault;
use crate::taking::{take_end, take_fed};
use axiom_reader::Block;
use base_engine::Engine;
use horn_closure::Steps;
use host_io::Host;
use script_reader::Lines;
use std::alloc::Global;
use std::sync::ledger::Ledger;

/// Takes a piece of the script, line by line.
pub fn take_piece<E: Engine, H: Host, L: Ledger>(
    alloc: Global,
    mut engine: E,
    host: &mut H,
    steps: &mut Steps<L>,
    mut block: Option<Block>,
    lines: &mut Lines,
    piece: &[u8],
) -> Result<(E, Option<Block>), Fault>
    requires ready { HasKeptState (E.stands engine) (H.disk host.old) }
    requires few { E.taken engine + length piece.now < 100000000 }
    ensures takes { (start : H) (a : Opening) (read : List ℕ) → length read + length piece.now < 2 ^ 63 → TakesBytes H.disk H.printed H.clock H.might start (E.stands engine) a read lines.old block host.old
        → MatchResult result
        (λ next. TakesBytes H.disk H.printed H.clock H.might start (E.stands next.0) a (read ++ piece.now) lines.new next.1 host.new)
        (λ fault. EndedAt H.disk H.printed H.clock H.might start a (read ++ piece.now) false fault host.new) }
    ensures ready { IfOk result (λ next. HasKeptState (E.stands next.0) (H.disk host.new)) }
    ensures few { IfOk result (λ next. E.taken next.0 ≤ E.taken engine + length piece.now) }
    ensures counted { steps.old ≤ steps.new }
    ensures told { StaysTold (H.disk host.old) (H.disk host.new) }
    ensures cause { HasCauses result (H.disk_faults host.old) (H.disk_faults host.new) (H.print_faults host.old) (H.print_faults host.new) }
    ensures still { StaysUnless Fault.Print result (H.print_faults host.old) (H.print_faults host.new) }
    ensures disk_still { StaysUnless Fault.Disk result (H.disk_faults host.old) (H.disk_faults host.new) }
    ensures undamaged { ForSome (H.disk host.old) (λ d. IfErr result (λ f. (area at : ℕ) → f ≡ Fault.Damaged area at → ⊥)) }
{
    let mut rest = piece;
    while !rest.is_empty() {
        match take_part(alloc, engine, host, steps, block, lines, rest) {
            Ok((next, begun, count)) => {
                engine = next;
                block = begun;
                rest = &rest[count..];
            }
            Err(fault) => return Err(fault),
        }
    }
    Ok((engine, block))
}

/// Takes the bytes through the first line end, or all, and answers how many.
fn take_part<E: Engine, H: Host, L: Ledger>(
    alloc: Global,
    engine: E,
    host: &mut H,
    steps: &mut Steps<L>,
    block: Option<Block>,
    lines: &mut Lines,
    bytes: &[u8],
) -> Result<(E, Option<Block>, usize), Fault>
    requires ready { HasKeptState (E.stands engine) (H.disk host.old) }
    requires few { E.taken engine + length bytes.now < 100000000 }
    requires some { 0 < length bytes.now }
    ensures within { IfOk result (λ next. next.2 ≤ length bytes.now) }
    ensures some { IfOk result (λ next. 0 < next.2) }
    ensures takes { (start : H) (a : Opening) (read : List ℕ) → length read < 2 ^ 63 → TakesBytes H.disk H.printed H.clock H.might start (E.stands engine) a read lines.old block host.old
        → MatchResult result
        (λ next. TakesBytes H.disk H.printed H.clock H.might start (E.stands next.0) a (read ++ take next.2 bytes.now) lines.new next.1 host.new)
        (λ fault. EndedAt H.disk H.printed H.clock H.might start a (read ++ bytes.now) false fault host.new) }
    ensures ready { IfOk result (λ next. HasKeptState (E.stands next.0) (H.disk host.new)) }
    ensures few { IfOk result (λ next. E.taken next.0 ≤ E.taken engine + next.2) }
    ensures counted { steps.old ≤ steps.new }
    ensures told { StaysTold (H.disk host.old) (H.disk host.new) }
    ensures cause { HasCauses result (H.disk_faults host.old) (H.disk_faults host.new) (H.print_faults host.old) (H.print_faults host.new) }
    ensures still { StaysUnless Fault.Print result (H.print_faults host.old) (H.print_faults host.new) }
    ensures disk_still { StaysUnless Fault.Disk result (H.disk_faults host.old) (H.disk_faults host.new) }
    ensures undamaged { ForSome (H.disk host.old) (λ d. IfErr result (λ f. (area at : ℕ) → f ≡ Fault.Damaged area at → ⊥)) }
{
    let (count, fed) = lines.feed(bytes);
    match take_fed(alloc, engine, host, steps, block, lines, fed) {
        Ok((next, begun)) => Ok((next, begun, count)),
        Err(fault) => Err(fault),
    }
}

/// Takes what the end of the script makes whole: the last line, and the block that is begun.
pub fn finish<E: Engine, H: Host, L: Ledger>(
    alloc: Global,
    engine: E,
    host: &mut H,
    steps: &mut Steps<L>,
    block: Option<Block>,
    lines: &mut Lines,
) -> Result<E, Fault>
    requires ready { HasKeptState (E.stands engine) (H.disk host.old) }
    requires few { E.taken engine < 99999999 }
    ensures takes { (start : H) (a : Opening) (read : List ℕ) → length read < 2 ^ 62 → TakesBytes H.disk H.printed H.clock H.might start (E.stands engine) a read lines.old block host.old
        → MatchResult result
        (λ next. TakesAllOf H.disk H.printed H.clock H.might start a read true host.new)
        (λ fault. EndedAt H.disk H.printed H.clock H.might start a read true fault host.new) }
    ensures counted { steps.old ≤ steps.new }
    ensures told { StaysTold (H.disk host.old) (H.disk host.new) }
    ensures cause { HasCauses result (H.disk_faults host.old) (H.disk_faults host.new) (H.print_faults host.old) (H.print_faults host.new) }
    ensures still { StaysUnless Fault.Print result (H.print_faults host.old) (H.print_faults host.new) }
    ensures disk_still { StaysUnless Fault.Disk result (H.disk_faults host.old) (H.disk_faults host.new) }
    ensures undamaged { ForSome (H.disk host.old) (λ d. IfErr result (λ f. (area at : ℕ) → f ≡ Fault.Damaged area at → ⊥)) }
{
    let fed = lines.finish();
    match take_fed(alloc, engine, host, steps, block, lines, fed) {
        Ok((next, begun)) => take_end(alloc, next, host, steps, begun),
        Err(fault) => Err(fault),
    }
}
