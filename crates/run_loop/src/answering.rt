//! One request: it is done, and its reply is printed whole.
ghost use Rattle.std.specs.Prelude.{◌≡◌, ◌≤◌, ◌<◌, ◌+◌, ◌++◌, [], ◌∷◌, ℕ, List, IfOk, IfErr, MatchResult};
ghost use Rattle.std.specs.Option.{ForSome};
ghost use Rattle.base_engine.specs.Calls.{HasKeptState, StaysTold};
ghost use Rattle.base_engine.specs.Requests.{IsGiven};
ghost use Rattle.base_engine.specs.State.{MachineState};
ghost use Rattle.script_reader.specs.declared.request.Request.{Request as Asked};
ghost use Rattle.run_loop.specs.Serving.{Ended, HasCauses, Opening, Serves, StaysUnless};

use crate::fault::{Fault, fault_of};
use crate::printing::print_reply;
use base_engine::Engine;
use horn_closure::Steps;
use host_io::Host;
use script_reader::Request;
use std::alloc::Global;
use std::sync::ledger::Ledger;

/// Does one request, and prints the reply.
pub fn answer<E: Engine, H: Host, L: Ledger>(
    alloc: Global,
    engine: E,
    host: &mut H,
    steps: &mut Steps<L>,
    request: Request,
) -> Result<E, Fault>
    requires ready { HasKeptState (E.stands engine) (H.disk host.old) }
    requires few { E.taken engine < 100000000 }
    requires given { IsGiven request }
    ensures serves { (start : H) (a : Opening) (requests : List Asked) (s : MachineState) → E.stands engine s → Serves H.disk H.printed H.clock H.might start a requests s host.old
        → MatchResult result
        (λ next. (t : MachineState) × E.stands next t × Serves H.disk H.printed H.clock H.might start a (requests ++ request ∷ []) t host.new)
        (λ fault. Ended H.disk H.printed H.clock H.might start a (requests ++ request ∷ []) fault host.new) }
    ensures ready { IfOk result (λ next. HasKeptState (E.stands next) (H.disk host.new)) }
    ensures one { IfOk result (λ next. E.taken next ≤ E.taken engine + 1) }
    ensures counted { steps.old ≤ steps.new }
    ensures told { StaysTold (H.disk host.old) (H.disk host.new) }
    ensures cause { HasCauses result (H.disk_faults host.old) (H.disk_faults host.new) (H.print_faults host.old) (H.print_faults host.new) }
    ensures still { StaysUnless Fault.Print result (H.print_faults host.old) (H.print_faults host.new) }
    ensures disk_still { StaysUnless Fault.Disk result (H.disk_faults host.old) (H.disk_faults host.new) }
    ensures undamaged { ForSome (H.disk host.old) (λ d. IfErr result (λ f. (area at : ℕ) → f ≡ Fault.Damaged area at → ⊥)) }
{
    match engine.step(alloc, host, request, steps) {
        Ok((next, reply)) => match print_reply(alloc, host, &reply) {
            Ok(()) => Ok(next),
            Err(fault) => Err(fault),
        },
        Err(end) => Err(fault_of(end)),
    }
}
