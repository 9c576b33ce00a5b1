//! The top call.
ghost use Rattle.std.specs.Prelude.{◌≡◌, ◌≢◌, ◌<◌, ◌≤◌, ◌⊎◌, ◌↔◌, ℕ, List, length, map, string_bytes};
ghost use Rattle.std.specs.Option.{ForSome};
ghost use Rattle.host_io.specs.Causes.{Rose};
ghost use Rattle.dl_base.specs.Ontology.{Terminology};
ghost use Rattle.dl_base.specs.Query.{Question};
ghost use Rattle.dl_base.specs.declared.row.NamedRow.{NamedRow};
ghost use Rattle.base_store.specs.Area.{IsDamaged, KeepsHistory};
ghost use Rattle.base_store.specs.History.{History};
ghost use Rattle.base_engine.specs.Calls.{BothStay, IsDamage};
ghost use Rattle.document_run.specs.Document.{IsDocument, Refused, Asks};
ghost use Rattle.document_run.specs.Run.{DocumentRan};
ghost use Rattle.document_run.specs.declared.ending.DocumentEnding.{DocumentEnding as Answered};
ghost use Rattle.run_loop.specs.Run.{IsComplete, NotOpened, RanOpened, TakesInput};
ghost use Rattle.run_loop.specs.declared.ending.Ending.{Ending as Ended};
ghost use Rattle.obda_run.specs.Sample.{SampleEnds};
ghost use Rattle.obda_run.specs.Status.{document_status, script_status};
ghost use Rattle.obda_run.specs.Words.{NamesAnswer, NamesRun, NamesSample, NamesCommand};

use crate::command::{Command, command_of};
use crate::sample::run_sample;
use crate::status::Status;
use document_run::answer;
use horn_closure::Steps;
use host_io::{Host, Source};
use kept_base::Base;
use run_loop::{Ending, run};
use std::alloc::Global;
use std::marker::Brand;
use std::sync::ledger::{Blank, Ledger};

/// Runs the command that the words name. The one word `answer` reads one document to its end and prints the reply to it.
/// The one word `run` loads the base that the first area keeps, reads a script to its end, and prints the reply to each
/// request before the next one is taken. The words `sample` and a decimal from 1 to 2,000 run the sample script of that size
/// over a host of its own, and print one line with the number of its replies, of their answers and of their bytes; no input is
/// read.
///
/// `Done` comes where the input was read to its end and all replies are printed, and of `sample` where its line is;
/// `Refused` of `answer` alone, where a line of the document offends, with the first such line and its first code; `Usage`
/// exactly where the words are others, and then nothing is read, printed or written; `ReadFault`, `PrintFault` and
/// `DiskFault` where the source or the host failed, which ends the run, of `sample` `PrintFault` alone; `Damaged` of `run`
/// alone, where the area keeps no history; `NoMemory` where memory ran out; `InputTooLarge` where the source gave more than
/// 67,108,864 bytes.
pub fn serve<S: Source, H: Host>(
    alloc: Global,
    words: &Vec<String>,
    source: &mut S,
    host: &mut H,
) -> Status
    // Other words are refused, and nothing is touched.
    ensures usage { (result ≡ Status.Usage) ↔ (NamesCommand (map string_bytes words.now.items) → ⊥) }
    ensures usage_touches_nothing { result ≡ Status.Usage → (source.new ≡ source.old) × (host.new ≡ host.old) }

    // A fault comes only where its count rose. The first fault ends the run.
    ensures read_fault { result ≡ Status.ReadFault → Rose (S.read_faults source.old) (S.read_faults source.new) }
    ensures print_fault { result ≡ Status.PrintFault → Rose (H.print_faults host.old) (H.print_faults host.new) }
    ensures disk_fault { result ≡ Status.DiskFault → Rose (H.disk_faults host.old) (H.disk_faults host.new) }
    ensures read_later { S.read_faults source.old ≤ S.read_faults source.new }
    ensures print_later { H.print_faults host.old ≤ H.print_faults host.new }
    ensures disk_later { H.disk_faults host.old ≤ H.disk_faults host.new }
    ensures read_fault_ends { S.read_faults source.old < S.read_faults source.new → result ≡ Status.ReadFault }
    ensures print_fault_ends { H.print_faults host.old < H.print_faults host.new → result ≡ Status.PrintFault }

    // Only a document is refused, and only a script meets a fault of the disk or a damaged area.
    ensures refused { (code line : ℕ) → result ≡ Status.Refused code line → NamesAnswer (map string_bytes words.now.items) }
    ensures runs { result ≡ Status.DiskFault → NamesRun (map string_bytes words.now.items) }
    ensures damaged_runs { (area at : ℕ) → result ≡ Status.Damaged area at → NamesRun (map string_bytes words.now.items) }

    // By `answer` the host is called for a reply alone: each other ending leaves it as it was. No area is touched.
    ensures answer_silent { NamesAnswer (map string_bytes words.now.items) → result ≢ Status.Done → result ≢ Status.PrintFault → host.new ≡ host.old }
    ensures answer_disk { NamesAnswer (map string_bytes words.now.items) → (H.disk host.new ≡ H.disk host.old) × (H.disk_faults host.new ≡ H.disk_faults host.old) }

    // Where the source tells its bytes: they are a document, and the reply is its certain answers; or how the run ends.
    ensures answer { NamesAnswer (map string_bytes words.now.items) → ForSome (S.left source.old) (λ input.
        (e : Answered) × (result ≡ document_status e) × DocumentRan e input (S.left source.new) (H.printed host.old) (H.printed host.new)) }

    // A document with an offending line is refused, and one without is answered, where no fault comes and memory is there.
    ensures refuses { (code line : ℕ) → NamesAnswer (map string_bytes words.now.items) → ForSome (S.left source.old) (λ input.
        length input ≤ 67108864 → IsDocument input (Refused code line)
        → (result ≡ Status.Refused code line) ⊎ (result ≡ Status.ReadFault) ⊎ (result ≡ Status.NoMemory)) }
    ensures answers { (o : Terminology) (rows : List NamedRow) (q : Question) → NamesAnswer (map string_bytes words.now.items) → ForSome (S.left source.old) (λ input.
        length input ≤ 67108864 → IsDocument input (Asks o rows q)
        → (result ≡ Status.Done) ⊎ (result ≡ Status.ReadFault) ⊎ (result ≡ Status.PrintFault) ⊎ (result ≡ Status.NoMemory)) }

    // By `run`, where source and host tell their bytes and the area keeps a history: what is printed are the machine's replies
    // to the requests that were read, what the area keeps is the history behind them, and a stop at any moment leaves both so.
    ensures run { NamesRun (map string_bytes words.now.items) → ForSome (S.left source.old) (λ input. ForSome (H.disk host.old) (λ d. ForSome (H.printed host.old) (λ before.
        (h : History) → KeepsHistory d.first.reads h → (e : Ended) × (result ≡ script_status e)
        × (RanOpened H.disk H.printed H.clock H.might d h before e input (S.left source.new) host.old host.new
        ⊎ NotOpened H.disk H.printed H.clock H.might d h before e input (S.left source.new) host.old host.new)))) }

    // A script of at most 67,108,864 bytes over an area that keeps a history is read to its end and all replies are printed,
    // where no fault comes and memory is there.
    ensures completes { NamesRun (map string_bytes words.now.items) → ForSome (S.left source.old) (λ input. ForSome (H.disk host.old) (λ d. ForSome (H.printed host.old) (λ before.
        (h : History) → KeepsHistory d.first.reads h → length input ≤ 67108864 → (e : Ended) × (result ≡ script_status e) × IsComplete e))) }

    // Damage is told exactly of an area that keeps no history, unless the disk fails or memory is wanted; then nothing is read,
    // printed or written.
    ensures damages { NamesRun (map string_bytes words.now.items) → ForSome (H.disk host.old) (λ d. (at : ℕ) → IsDamaged d.first.reads at
        → ((result ≡ Status.Damaged 0 at) ⊎ (result ≡ Status.DiskFault) ⊎ (result ≡ Status.NoMemory))
        × BothStay (H.disk host.old) (H.disk host.new) × (S.left source.new ≡ S.left source.old) × (H.printed host.new ≡ H.printed host.old)) }
    ensures damaged { (area at : ℕ) → result ≡ Status.Damaged area at → ForSome (H.disk host.old) (λ d. IsDamage d area at) }

    // By `sample` the line of the tally is printed whole, or a front of it where printing fails, or nothing where memory runs out.
    // The source isn't read, no area is touched, and but for the line the host isn't called.
    ensures sample { (size : ℕ) → NamesSample size (map string_bytes words.now.items) → SampleEnds result size (H.printed host.old) (H.printed host.new) }
    ensures sample_silent { (size : ℕ) → NamesSample size (map string_bytes words.now.items) → result ≢ Status.Done → result ≢ Status.PrintFault → host.new ≡ host.old }
    ensures sample_source { (size : ℕ) → NamesSample size (map string_bytes words.now.items) → source.new ≡ source.old }
    ensures sample_disk { (size : ℕ) → NamesSample size (map string_bytes words.now.items) → (H.disk host.new ≡ H.disk host.old) × (H.disk_faults host.new ≡ H.disk_faults host.old) }

    // Of a script at most one byte more than the limit is taken.
    ensures run_ends { NamesRun (map string_bytes words.now.items) → (e : Ended) × (result ≡ script_status e) × ForSome (S.left source.old) (λ input. TakesInput e input (S.left source.new)) }
{
    match command_of(words) {
        Some(Command::Answer) => Status::of_document(answer(alloc, source, host)),
        Some(Command::Run) => {
            Status::of_script(run_script::<S, H, Brand>(alloc, source, host, Blank::new(1)))
        }
        Some(Command::Sample(size)) => run_sample::<H, Brand>(alloc, size, host, Blank::new(1)),
        None => Status::Usage,
    }
}

/// Runs a script, with a count of closures that begins at none.
fn run_script<S: Source, H: Host, L: Ledger>(
    alloc: Global,
    source: &mut S,
    host: &mut H,
    blank: Blank,
) -> Ending
    requires name { blank.name ≡ L.name }
    requires parts { blank.parts ≡ L.parts }
    requires some { 0 < L.parts }
    ensures run { ForSome (S.left source.old) (λ input. ForSome (H.disk host.old) (λ d. ForSome (H.printed host.old) (λ before.
        (h : History) → KeepsHistory d.first.reads h
        → RanOpened H.disk H.printed H.clock H.might d h before result input (S.left source.new) host.old host.new
        ⊎ NotOpened H.disk H.printed H.clock H.might d h before result input (S.left source.new) host.old host.new))) }
    ensures completes { ForSome (S.left source.old) (λ input. ForSome (H.disk host.old) (λ d. ForSome (H.printed host.old) (λ before.
        (h : History) → KeepsHistory d.first.reads h → length input ≤ 67108864 → IsComplete result))) }
    ensures damages { ForSome (H.disk host.old) (λ d. (at : ℕ) → IsDamaged d.first.reads at
        → ((result ≡ Ending.Damaged 0 at) ⊎ (result ≡ Ending.DiskFault) ⊎ (result ≡ Ending.NoMemory))
        × BothStay (H.disk host.old) (H.disk host.new) × (S.left source.new ≡ S.left source.old) × (H.printed host.new ≡ H.printed host.old)) }
    ensures damaged { (area at : ℕ) → result ≡ Ending.Damaged area at → ForSome (H.disk host.old) (λ d. IsDamage d area at) }
    ensures takes_input { ForSome (S.left source.old) (λ input. TakesInput result input (S.left source.new)) }
    ensures read_fault { result ≡ Ending.ReadFault → Rose (S.read_faults source.old) (S.read_faults source.new) }
    ensures read_fault_ends { S.read_faults source.old < S.read_faults source.new → result ≡ Ending.ReadFault }
    ensures print_fault { result ≡ Ending.PrintFault → Rose (H.print_faults host.old) (H.print_faults host.new) }
    ensures print_fault_ends { H.print_faults host.old < H.print_faults host.new → result ≡ Ending.PrintFault }
    ensures disk_fault { result ≡ Ending.DiskFault → Rose (H.disk_faults host.old) (H.disk_faults host.new) }
    ensures read_later { S.read_faults source.old ≤ S.read_faults source.new }
    ensures print_later { H.print_faults host.old ≤ H.print_faults host.new }
    ensures disk_later { H.disk_faults host.old ≤ H.disk_faults host.new }
{
    let mut steps: Steps<L> = Steps::new(blank);
    run::<Base, S, H, L>(alloc, source, host, &mut steps)
}
