//! Replies are printed whole.
ghost use Rattle.std.specs.Prelude.{◌≡◌, ◌↔◌, IfOk, OnOk, OnErr, IsTrue};
ghost use Rattle.host_io.specs.Causes.{HasCause};
ghost use Rattle.reply_text.specs.ReplyText.{IsAcknowledgement, text_of_reply};
ghost use Rattle.run_loop.specs.Printing.{PrintsPart, PrintsReply, PrintsWhole};
ghost use Rattle.run_loop.specs.Serving.{HasCauses, StaysUnless};

use crate::fault::Fault;
use host_io::{Failed, Host};
use reply_text::{Reply, ack_bytes, reply_bytes};
use std::alloc::{AllocError, Global};

/// Prints the text of a reply. One that tells that something was done takes no memory.
pub fn print_reply<H: Host>(alloc: Global, host: &mut H, reply: &Reply) -> Result<(), Fault>
    ensures prints { PrintsReply H.disk H.printed H.clock H.might reply.now result host.old host.new }
    ensures cause { HasCauses result (H.disk_faults host.old) (H.disk_faults host.new) (H.print_faults host.old) (H.print_faults host.new) }
    ensures still { StaysUnless Fault.Print result (H.print_faults host.old) (H.print_faults host.new) }
    ensures disk_still { StaysUnless Fault.Disk result (H.disk_faults host.old) (H.disk_faults host.new) }
{
    if is_acknowledgement(reply) {
        print_acknowledgement(host, reply)
    } else {
        print_other(alloc, host, reply)
    }
}

/// Whether the reply tells that something was done.
fn is_acknowledgement(reply: &Reply) -> bool
    ensures { IsTrue result ↔ IsAcknowledgement reply.now }
{
    match reply {
        Reply::Done | Reply::Committed { .. } | Reply::Loaded { .. } | Reply::Reopened { .. } =>
            true,
        Reply::Prepared(_)
        | Reply::Answers(_)
        | Reply::Consistent
        | Reply::Inconsistent(_)
        | Reply::Table(_)
        | Reply::Error(_) => false,
    }
}

/// Prints the text of a reply that tells that something was done. It takes no memory.
fn print_acknowledgement<H: Host>(host: &mut H, reply: &Reply) -> Result<(), Fault>
    requires { IsAcknowledgement reply.now }
    ensures prints { PrintsReply H.disk H.printed H.clock H.might reply.now result host.old host.new }
    ensures cause { HasCauses result (H.disk_faults host.old) (H.disk_faults host.new) (H.print_faults host.old) (H.print_faults host.new) }
    ensures still { StaysUnless Fault.Print result (H.print_faults host.old) (H.print_faults host.new) }
    ensures disk_still { StaysUnless Fault.Disk result (H.disk_faults host.old) (H.disk_faults host.new) }
{
    let mut buf = [0; 80];
    let len = ack_bytes(reply, &mut buf);
    match print_text(host, &buf[..len]) {
        Ok(()) => Ok(()),
        Err(Failed) => Err(Fault::Print),
    }
}

/// Prints the text of another reply.
fn print_other<H: Host>(alloc: Global, host: &mut H, reply: &Reply) -> Result<(), Fault>
    requires { IsAcknowledgement reply.now → ⊥ }
    ensures prints { PrintsReply H.disk H.printed H.clock H.might reply.now result host.old host.new }
    ensures cause { HasCauses result (H.disk_faults host.old) (H.disk_faults host.new) (H.print_faults host.old) (H.print_faults host.new) }
    ensures still { StaysUnless Fault.Print result (H.print_faults host.old) (H.print_faults host.new) }
    ensures disk_still { StaysUnless Fault.Disk result (H.disk_faults host.old) (H.disk_faults host.new) }
{
    let Ok(text) = text_of(alloc, reply) else {
        return Err(Fault::Memory);
    };
    match print_text(host, text.as_slice()) {
        Ok(()) => Ok(()),
        Err(Failed) => Err(Fault::Print),
    }
}

/// The text of a reply.
fn text_of(alloc: Global, reply: &Reply) -> Result<Vec<u8>, AllocError>
    ensures { IfOk result (λ text. text.items ≡ text_of_reply reply.now) }
{
    let mut text = Vec::new(alloc);
    reply_bytes(reply, &mut text)?;
    Ok(text)
}

/// Prints a text.
fn print_text<H: Host>(host: &mut H, text: &[u8]) -> Result<(), Failed>
    ensures whole { OnOk result (PrintsWhole H.disk H.printed H.clock H.might text.now host.old host.new) }
    ensures part { OnErr result (PrintsPart H.disk H.printed H.clock H.might text.now host.old host.new) }
    ensures cause { HasCause (H.print_faults host.old) (H.print_faults host.new) result }
    ensures other { H.disk_faults host.new ≡ H.disk_faults host.old }
{
    host.print(text)
}
