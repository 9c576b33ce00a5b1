//! The answer to one document.
ghost use Rattle.std.specs.Prelude.{◌≡◌, ◌≢◌, ◌<◌, ◌≤◌, ◌⊎◌, ℕ, List, IfOk, length};
ghost use Rattle.std.specs.Option.{ForSome};
ghost use Rattle.host_io.specs.Causes.{Rose};
ghost use Rattle.dl_base.specs.Ontology.{Terminology};
ghost use Rattle.dl_base.specs.Query.{Question};
ghost use Rattle.dl_base.specs.declared.row.NamedRow.{NamedRow};
ghost use Rattle.document_run.specs.Sound.{IsSoundDocument};
ghost use Rattle.document_run.specs.Document.{IsDocument, Refused, Asks};
ghost use Rattle.reply_text.specs.ReplyText.{text_of_reply};
ghost use Rattle.document_run.specs.Run.{IsDocumentOf, DocumentRan, Replies};

use crate::document::Document;
use crate::ending::DocumentEnding;
use crate::input::read_document;
use crate::reply::document_reply;
use host_io::{Failed, Host, Source};
use reply_text::{Reply, reply_bytes};
use std::alloc::{AllocError, Global};
use std::marker::Brand;
use std::sync::ledger::Blank;

/// Reads one document to its end and prints the reply to it.
///
/// `Done` comes where the document was read and its whole reply printed; `Refused` where a line of it offends, with the
/// first such line and its first code; `ReadFault` and `PrintFault` where the source or the host failed, which ends the
/// run; `InputTooLarge` where the source gave more than 67,108,864 bytes; `NoMemory` where memory ran out.
pub fn answer<S: Source, H: Host>(alloc: Global, source: &mut S, host: &mut H) -> DocumentEnding
    // The host is called for a reply alone: each other ending leaves it as it was. No area is touched.
    ensures silent { result ≢ DocumentEnding.Done → result ≢ DocumentEnding.PrintFault → host.new ≡ host.old }
    ensures disk { H.disk host.new ≡ H.disk host.old }
    ensures disk_faults { H.disk_faults host.new ≡ H.disk_faults host.old }

    // A fault comes only where its count rose, and ends the run.
    ensures read_fault { result ≡ DocumentEnding.ReadFault → Rose (S.read_faults source.old) (S.read_faults source.new) }
    ensures print_fault { result ≡ DocumentEnding.PrintFault → Rose (H.print_faults host.old) (H.print_faults host.new) }
    ensures read_faults { S.read_faults source.old ≤ S.read_faults source.new }
    ensures print_faults { H.print_faults host.old ≤ H.print_faults host.new }
    ensures read_fault_ends { S.read_faults source.old < S.read_faults source.new → result ≡ DocumentEnding.ReadFault }
    ensures print_fault_ends { H.print_faults host.old < H.print_faults host.new → result ≡ DocumentEnding.PrintFault }

    // Where the source tells its bytes: they are a document, and the reply is its certain answers; or how the run ends.
    ensures run { ForSome (S.left source.old) (λ input. DocumentRan result input (S.left source.new) (H.printed host.old) (H.printed host.new)) }

    // A document with an offending line is refused, and one without is answered, where no fault comes and memory is there.
    ensures refuses { (code line : ℕ) → ForSome (S.left source.old) (λ input. length input ≤ 67108864 → IsDocument input (Refused code line)
        → (result ≡ DocumentEnding.Refused code line) ⊎ (result ≡ DocumentEnding.ReadFault) ⊎ (result ≡ DocumentEnding.NoMemory)) }
    ensures answers { (o : Terminology) (rows : List NamedRow) (q : Question) → ForSome (S.left source.old) (λ input. length input ≤ 67108864 → IsDocument input (Asks o rows q)
        → (result ≡ DocumentEnding.Done) ⊎ (result ≡ DocumentEnding.ReadFault) ⊎ (result ≡ DocumentEnding.PrintFault) ⊎ (result ≡ DocumentEnding.NoMemory)) }
{
    match read_document(alloc, source) {
        Ok(document) => reply(alloc, host, document),
        Err(ending) => ending,
    }
}

/// Prints the reply to the document.
fn reply<H: Host>(alloc: Global, host: &mut H, document: Document) -> DocumentEnding
    requires { IsSoundDocument document }
    ensures only { (result ≡ DocumentEnding.Done) ⊎ (result ≡ DocumentEnding.PrintFault) ⊎ (result ≡ DocumentEnding.NoMemory) }
    ensures fault { result ≡ DocumentEnding.PrintFault → Rose (H.print_faults host.old) (H.print_faults host.new) }
    ensures later { H.print_faults host.old ≤ H.print_faults host.new }
    ensures fault_ends { H.print_faults host.old < H.print_faults host.new → result ≡ DocumentEnding.PrintFault }
    ensures silent { result ≡ DocumentEnding.NoMemory → host.new ≡ host.old }
    ensures disk { H.disk host.new ≡ H.disk host.old }
    ensures disk_faults { H.disk_faults host.new ≡ H.disk_faults host.old }
    ensures replies { (read : List ℕ) → IsDocumentOf read document → Replies result read (H.printed host.old) (H.printed host.new) }
{
    let Ok(shown) = document_reply::<Brand>(alloc, document, Blank::new(1)) else {
        return DocumentEnding::NoMemory;
    };
    let Ok(text) = text_of(alloc, &shown) else {
        return DocumentEnding::NoMemory;
    };
    match host.print(text.as_slice()) {
        Ok(()) => DocumentEnding::Done,
        Err(Failed) => DocumentEnding::PrintFault,
    }
}

/// The text of the reply.
fn text_of(alloc: Global, shown: &Reply) -> Result<Vec<u8>, AllocError>
    ensures { IfOk result (λ text. text.items ≡ text_of_reply shown.now) }
{
    let mut text = Vec::new(alloc);
    reply_bytes(shown, &mut text)?;
    Ok(text)
}
