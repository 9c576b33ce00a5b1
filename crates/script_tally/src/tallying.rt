//! A script is replied to, and the replies are counted.
ghost use Rattle.std.specs.Prelude.{◌≡◌, ◌≤◌, ◌<◌, ◌+◌, ◌++◌, ◌⊎◌, [], ◌∷◌, ℕ, List, All, Err, IfOk, IsErrOf, length};
ghost use Rattle.std.specs.Option.{ForSome};
ghost use Rattle.host_io.specs.Causes.{Rose};
ghost use Rattle.base_store.specs.Area.{KeepsHistory};
ghost use Rattle.base_store.specs.History.{History};
ghost use Rattle.script_reader.specs.declared.request.Request.{Request as Asked};
ghost use Rattle.base_engine.specs.Calls.{HasKeptState, IsDamage, SecondStays, StaysTold};
ghost use Rattle.base_engine.specs.Requests.{IsGiven};
ghost use Rattle.script_tally.specs.Tallying.{Counted, CountsFit, Tallies};

use crate::counting::Tally;
use crate::gathering::requests_of;
use base_engine::{EndFault, Engine};
use horn_closure::Steps;
use host_io::Host;
use plain_list::Items;
use script_reader::Request;
use std::alloc::{AllocError, Global};
use std::sync::ledger::Ledger;

/// Loads the base that the first area keeps, does all requests of the script over it, and counts the replies. `steps` counts
/// closures, as commits make them. Nothing is printed.
///
/// `DiskFault` comes where the disk failed; `Damaged` where the area keeps no history; `NoMemory` where memory ran out. The first
/// fault ends the tally; the requests before it are done.
pub fn tally<E: Engine, H: Host, L: Ledger>(
    alloc: Global,
    script: &[u8],
    host: &mut H,
    steps: &mut Steps<L>,
) -> Result<Tally, EndFault>
    requires { length script.now ≤ 67108864 }

    // Where the host tells its disk and the first area keeps a history, the tally is that of the machine's replies to the script.
    ensures tally { ForSome (H.disk host.old) (λ d. (h : History) → KeepsHistory d.first.reads h → IfOk result (Tallies h script.now (H.disk host.new))) }

    // Damage is told only of an area that keeps no history, and a fault of the disk only where its count rose.
    ensures damaged { (area at : ℕ) → result ≡ Err (EndFault.Damaged area at) → ForSome (H.disk host.old) (λ d. IsDamage d area at) }
    ensures disk_fault { IsErrOf result EndFault.DiskFault → Rose (H.disk_faults host.old) (H.disk_faults host.new) }
    ensures stays { IsErrOf result EndFault.DiskFault ⊎ (H.disk_faults host.new ≡ H.disk_faults host.old) }
    ensures later { H.disk_faults host.old ≤ H.disk_faults host.new }

    // Nothing is printed, and the second area stays.
    ensures printed { H.printed host.new ≡ H.printed host.old }
    ensures other { H.print_faults host.new ≡ H.print_faults host.old }
    ensures second { SecondStays (H.disk host.old) (H.disk host.new) }
    ensures counted { steps.old ≤ steps.new }
{
    let Ok(requests) = requests_of(alloc, script) else {
        return Err(EndFault::NoMemory);
    };
    match E::load(alloc, host) {
        Ok(engine) => tally_requests(alloc, engine, requests, host, steps),
        Err(end) => Err(end),
    }
}

/// Does these requests, and counts the replies.
fn tally_requests<E: Engine, H: Host, L: Ledger>(
    alloc: Global,
    mut engine: E,
    requests: Items<Request>,
    host: &mut H,
    steps: &mut Steps<L>,
) -> Result<Tally, EndFault>
    requires ready { HasKeptState (E.stands engine) (H.disk host.old) }
    requires none { E.taken engine ≡ 0 }
    requires few { length requests < 100000000 }
    requires given { All IsGiven requests }
    ensures counts { (h : History) → Counted (E.stands engine) h [] (H.disk host.old) (record { replies = 0; answers = 0; bytes = 0 })
        → IfOk result (λ tally. (next : E) × Counted (E.stands next) h requests (H.disk host.new) tally) }
    ensures undamaged { ForSome (H.disk host.old) (λ d. (area at : ℕ) → result ≡ Err (EndFault.Damaged area at) → ⊥) }
    ensures disk_fault { IsErrOf result EndFault.DiskFault → Rose (H.disk_faults host.old) (H.disk_faults host.new) }
    ensures stays { IsErrOf result EndFault.DiskFault ⊎ (H.disk_faults host.new ≡ H.disk_faults host.old) }
    ensures later { H.disk_faults host.old ≤ H.disk_faults host.new }
    ensures told { StaysTold (H.disk host.old) (H.disk host.new) }
    ensures printed { H.printed host.new ≡ H.printed host.old }
    ensures other { H.print_faults host.new ≡ H.print_faults host.old }
    ensures second { SecondStays (H.disk host.old) (H.disk host.new) }
    ensures counted { steps.old ≤ steps.new }
{
    let mut tally = Tally::none();
    let mut text = Vec::new(alloc);
    for request in requests.into_vec() {
        match tally_request(alloc, engine, tally, host, steps, request, &mut text) {
            Ok((next, more)) => {
                engine = next;
                tally = more;
            }
            Err(end) => return Err(end),
        }
    }
    Ok(tally)
}

/// Does one request more, and counts the reply. Its text is written into the buffer.
fn tally_request<E: Engine, H: Host, L: Ledger>(
    alloc: Global,
    engine: E,
    tally: Tally,
    host: &mut H,
    steps: &mut Steps<L>,
    request: Request,
    text: &mut Vec<u8>,
) -> Result<(E, Tally), EndFault>
    requires ready { HasKeptState (E.stands engine) (H.disk host.old) }
    requires taken { E.taken engine < 100000000 }
    requires few { tally.replies < 100000000 }
    requires within { CountsFit tally }
    requires given { IsGiven request }
    ensures counts { (h : History) (requests : List Asked) → Counted (E.stands engine) h requests (H.disk host.old) tally
        → IfOk result (λ next. Counted (E.stands next.0) h (requests ++ request ∷ []) (H.disk host.new) next.1) }
    ensures ready { IfOk result (λ next. HasKeptState (E.stands next.0) (H.disk host.new)) }
    ensures one { IfOk result (λ next. E.taken next.0 ≤ E.taken engine + 1) }
    ensures replies { IfOk result (λ next. next.1.replies ≡ tally.replies + 1) }
    ensures within { IfOk result (λ next. CountsFit next.1) }
    ensures undamaged { ForSome (H.disk host.old) (λ d. (area at : ℕ) → result ≡ Err (EndFault.Damaged area at) → ⊥) }
    ensures disk_fault { IsErrOf result EndFault.DiskFault → Rose (H.disk_faults host.old) (H.disk_faults host.new) }
    ensures stays { IsErrOf result EndFault.DiskFault ⊎ (H.disk_faults host.new ≡ H.disk_faults host.old) }
    ensures later { H.disk_faults host.old ≤ H.disk_faults host.new }
    ensures told { StaysTold (H.disk host.old) (H.disk host.new) }
    ensures printed { H.printed host.new ≡ H.printed host.old }
    ensures other { H.print_faults host.new ≡ H.print_faults host.old }
    ensures second { SecondStays (H.disk host.old) (H.disk host.new) }
    ensures counted { steps.old ≤ steps.new }
{
    match engine.step(alloc, host, request, steps) {
        Ok((next, reply)) => match tally.with(&reply, text) {
            Ok(more) => Ok((next, more)),
            Err(AllocError) => Err(EndFault::NoMemory),
        },
        Err(end) => Err(end),
    }
}
