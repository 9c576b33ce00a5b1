//! The lines of a script, one after another.
ghost use Rattle.std.specs.Prelude.{◌≡◌, ◌≤◌, ◌<◌, ◌^◌, ◌+◌, ◌++◌, [], ◌∷◌, ℕ, List, Some, None, IfOk, IfErr, MatchResult, length};
ghost use Rattle.std.specs.Option.{ForSome, option_copied};
ghost use Rattle.script_reader.specs.Requests.{Finished, Is, Token};
ghost use Rattle.base_engine.specs.Calls.{HasKeptState, StaysTold};
ghost use Rattle.run_loop.specs.Serving.{HasCauses, Opening, StaysUnless};
ghost use Rattle.run_loop.specs.Taking.{EndedIn, EndedWith, IsTold, Takes, TakesAll, lines_of};

use crate::answering::answer;
use crate::fault::Fault;
use crate::line::{Said, block_request, is_end, read_line};
use axiom_reader::Block;
use base_engine::Engine;
use horn_closure::Steps;
use host_io::Host;
use script_reader::{Fed, Lines};
use std::alloc::{AllocError, Global};
use std::sync::ledger::Ledger;

/// Takes what came of the bytes that were fed: a line more, or none.
pub fn take_fed<E: Engine, H: Host, L: Ledger>(
    alloc: Global,
    engine: E,
    host: &mut H,
    steps: &mut Steps<L>,
    block: Option<Block>,
    lines: &Lines,
    fed: Fed,
) -> Result<(E, Option<Block>), Fault>
    requires ready { HasKeptState (E.stands engine) (H.disk host.old) }
    requires few { E.taken engine < 100000000 }
    requires fed { IsTold fed lines.now.bytes }
    ensures takes { (start : H) (a : Opening) (tokens : List Token) → length tokens < 2 ^ 63 → Takes H.disk H.printed H.clock H.might start (E.stands engine) a tokens block host.old
        → MatchResult result
        (λ next. Takes H.disk H.printed H.clock H.might start (E.stands next.0) a (tokens ++ lines_of fed lines.now.bytes) next.1 host.new)
        (λ fault. EndedIn H.disk H.printed H.clock H.might start a tokens (lines_of fed lines.now.bytes) fault host.new) }
    ensures ready { IfOk result (λ next. HasKeptState (E.stands next.0) (H.disk host.new)) }
    ensures one { IfOk result (λ next. E.taken next.0 ≤ E.taken engine + 1) }
    ensures counted { steps.old ≤ steps.new }
    ensures told { StaysTold (H.disk host.old) (H.disk host.new) }
    ensures cause { HasCauses result (H.disk_faults host.old) (H.disk_faults host.new) (H.print_faults host.old) (H.print_faults host.new) }
    ensures still { StaysUnless Fault.Print result (H.print_faults host.old) (H.print_faults host.new) }
    ensures disk_still { StaysUnless Fault.Disk result (H.disk_faults host.old) (H.disk_faults host.new) }
    ensures undamaged { ForSome (H.disk host.old) (λ d. IfErr result (λ f. (area at : ℕ) → f ≡ Fault.Damaged area at → ⊥)) }
{
    match fed {
        Fed::More => Ok((engine, block)),
        Fed::Line => take_line(alloc, engine, host, steps, block, Some(lines.line())),
        Fed::TooLong => take_line(alloc, engine, host, steps, block, None),
    }
}

/// Takes one line more. None stands for a line that is too long.
fn take_line<E: Engine, H: Host, L: Ledger>(
    alloc: Global,
    engine: E,
    host: &mut H,
    steps: &mut Steps<L>,
    block: Option<Block>,
    line: Option<&[u8]>,
) -> Result<(E, Option<Block>), Fault>
    requires ready { HasKeptState (E.stands engine) (H.disk host.old) }
    requires few { E.taken engine < 100000000 }
    ensures takes { (start : H) (a : Opening) (tokens : List Token) → length tokens < 2 ^ 63 → Takes H.disk H.printed H.clock H.might start (E.stands engine) a tokens block host.old
        → MatchResult result
        (λ next. Takes H.disk H.printed H.clock H.might start (E.stands next.0) a (tokens ++ Is (option_copied line.entry) ∷ []) next.1 host.new)
        (λ fault. EndedIn H.disk H.printed H.clock H.might start a tokens (Is (option_copied line.entry) ∷ []) fault host.new) }
    ensures ready { IfOk result (λ next. HasKeptState (E.stands next.0) (H.disk host.new)) }
    ensures one { IfOk result (λ next. E.taken next.0 ≤ E.taken engine + 1) }
    ensures counted { steps.old ≤ steps.new }
    ensures told { StaysTold (H.disk host.old) (H.disk host.new) }
    ensures cause { HasCauses result (H.disk_faults host.old) (H.disk_faults host.new) (H.print_faults host.old) (H.print_faults host.new) }
    ensures still { StaysUnless Fault.Print result (H.print_faults host.old) (H.print_faults host.new) }
    ensures disk_still { StaysUnless Fault.Disk result (H.disk_faults host.old) (H.disk_faults host.new) }
    ensures undamaged { ForSome (H.disk host.old) (λ d. IfErr result (λ f. (area at : ℕ) → f ≡ Fault.Damaged area at → ⊥)) }
{
    match block {
        Some(block) => take_inside(alloc, engine, host, steps, block, line),
        None => take_outside(alloc, engine, host, steps, line),
    }
}

/// Takes a line of a block.
fn take_inside<E: Engine, H: Host, L: Ledger>(
    alloc: Global,
    engine: E,
    host: &mut H,
    steps: &mut Steps<L>,
    mut block: Block,
    line: Option<&[u8]>,
) -> Result<(E, Option<Block>), Fault>
    requires ready { HasKeptState (E.stands engine) (H.disk host.old) }
    requires few { E.taken engine < 100000000 }
    ensures takes { (start : H) (a : Opening) (tokens : List Token) → length tokens < 2 ^ 63 → Takes H.disk H.printed H.clock H.might start (E.stands engine) a tokens (Some block) host.old
        → MatchResult result
        (λ next. Takes H.disk H.printed H.clock H.might start (E.stands next.0) a (tokens ++ Is (option_copied line.entry) ∷ []) next.1 host.new)
        (λ fault. EndedIn H.disk H.printed H.clock H.might start a tokens (Is (option_copied line.entry) ∷ []) fault host.new) }
    ensures ready { IfOk result (λ next. HasKeptState (E.stands next.0) (H.disk host.new)) }
    ensures one { IfOk result (λ next. E.taken next.0 ≤ E.taken engine + 1) }
    ensures counted { steps.old ≤ steps.new }
    ensures told { StaysTold (H.disk host.old) (H.disk host.new) }
    ensures cause { HasCauses result (H.disk_faults host.old) (H.disk_faults host.new) (H.print_faults host.old) (H.print_faults host.new) }
    ensures still { StaysUnless Fault.Print result (H.print_faults host.old) (H.print_faults host.new) }
    ensures disk_still { StaysUnless Fault.Disk result (H.disk_faults host.old) (H.disk_faults host.new) }
    ensures undamaged { ForSome (H.disk host.old) (λ d. IfErr result (λ f. (area at : ℕ) → f ≡ Fault.Damaged area at → ⊥)) }
{
    if is_end(line) {
        let request = block_request(block.finish(true));
        return match answer(alloc, engine, host, steps, request) {
            Ok(next) => Ok((next, None)),
            Err(fault) => Err(fault),
        };
    }
    match block.line(line) {
        Ok(()) => Ok((engine, Some(block))),
        Err(AllocError) => Err(Fault::Memory),
    }
}

/// Takes a line that is in no block.
fn take_outside<E: Engine, H: Host, L: Ledger>(
    alloc: Global,
    engine: E,
    host: &mut H,
    steps: &mut Steps<L>,
    line: Option<&[u8]>,
) -> Result<(E, Option<Block>), Fault>
    requires ready { HasKeptState (E.stands engine) (H.disk host.old) }
    requires few { E.taken engine < 100000000 }
    ensures takes { (start : H) (a : Opening) (tokens : List Token) → Takes H.disk H.printed H.clock H.might start (E.stands engine) a tokens None host.old
        → MatchResult result
        (λ next. Takes H.disk H.printed H.clock H.might start (E.stands next.0) a (tokens ++ Is (option_copied line.entry) ∷ []) next.1 host.new)
        (λ fault. EndedIn H.disk H.printed H.clock H.might start a tokens (Is (option_copied line.entry) ∷ []) fault host.new) }
    ensures ready { IfOk result (λ next. HasKeptState (E.stands next.0) (H.disk host.new)) }
    ensures one { IfOk result (λ next. E.taken next.0 ≤ E.taken engine + 1) }
    ensures counted { steps.old ≤ steps.new }
    ensures told { StaysTold (H.disk host.old) (H.disk host.new) }
    ensures cause { HasCauses result (H.disk_faults host.old) (H.disk_faults host.new) (H.print_faults host.old) (H.print_faults host.new) }
    ensures still { StaysUnless Fault.Print result (H.print_faults host.old) (H.print_faults host.new) }
    ensures disk_still { StaysUnless Fault.Disk result (H.disk_faults host.old) (H.disk_faults host.new) }
    ensures undamaged { ForSome (H.disk host.old) (λ d. IfErr result (λ f. (area at : ℕ) → f ≡ Fault.Damaged area at → ⊥)) }
{
    match read_line(alloc, line) {
        Ok(Said::Nothing) => Ok((engine, None)),
        Ok(Said::Opens) => match Block::new(alloc) {
            Ok(block) => Ok((engine, Some(block))),
            Err(AllocError) => Err(Fault::Memory),
        },
        Ok(Said::Asks(request)) => match answer(alloc, engine, host, steps, request) {
            Ok(next) => Ok((next, None)),
            Err(fault) => Err(fault),
        },
        Err(AllocError) => Err(Fault::Memory),
    }
}

/// Takes the end of the script, which cuts off the block that is begun.
pub fn take_end<E: Engine, H: Host, L: Ledger>(
    alloc: Global,
    engine: E,
    host: &mut H,
    steps: &mut Steps<L>,
    block: Option<Block>,
) -> Result<E, Fault>
    requires ready { HasKeptState (E.stands engine) (H.disk host.old) }
    requires few { E.taken engine < 100000000 }
    ensures takes { (start : H) (a : Opening) (tokens : List Token) → length tokens < 2 ^ 63 → Takes H.disk H.printed H.clock H.might start (E.stands engine) a tokens block host.old
        → MatchResult result
        (λ next. TakesAll H.disk H.printed H.clock H.might start a (tokens ++ Finished ∷ []) host.new)
        (λ fault. EndedWith H.disk H.printed H.clock H.might start a (tokens ++ Finished ∷ []) None fault host.new) }
    ensures counted { steps.old ≤ steps.new }
    ensures told { StaysTold (H.disk host.old) (H.disk host.new) }
    ensures cause { HasCauses result (H.disk_faults host.old) (H.disk_faults host.new) (H.print_faults host.old) (H.print_faults host.new) }
    ensures still { StaysUnless Fault.Print result (H.print_faults host.old) (H.print_faults host.new) }
    ensures disk_still { StaysUnless Fault.Disk result (H.disk_faults host.old) (H.disk_faults host.new) }
    ensures undamaged { ForSome (H.disk host.old) (λ d. IfErr result (λ f. (area at : ℕ) → f ≡ Fault.Damaged area at → ⊥)) }
{
    match block {
        Some(block) => answer(
            alloc,
            engine,
            host,
            steps,
            block_request(block.finish(false)),
        ),
        None => Ok(engine),
    }
}
