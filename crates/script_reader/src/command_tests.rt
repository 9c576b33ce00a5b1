// Lines of scripts, and what they ask.
use super::*;
use cq_reader::QueryError;
use std::alloc::{AllocError, Global};
use std::test::Fail;

// In each line of a table stands, before the first colon, what the text behind it asks and of which session, or of which generation; or why it
// is refused, and the place of its fault.

fn asking() -> &'static str {
    "blank 0:\n\
     blank 0: \t \n\
     blank 0:\t# frob\n\
     ontology 0:ontology\n\
     ontology 0: ontology\t\n\
     begin 0:begin 0\n\
     begin 15:begin\t 15 \n\
     add 3:add 3 A x\n\
     add 3: add  3  r  x  y \n\
     del 0:del 0 <A> <x>\t\n\
     commit 1:commit 1\n\
     abort 9:\tabort 9 \n\
     ask 0:ask q(?x) :- A(?x)\n\
     ask 0: ask q( ) :- A(x) , r(x,?y)\t \n\
     prepare 0:prepare q() :- A(x)\n\
     run 18446744073709551615:run 4294967295.18446744073709551615\n\
     drop 0:drop 0.0 \n\
     drop 2:drop\t 17.2\n\
     tables 0: tables\n\
     check 0: check\n\
     tidy 0:tidy \n\
     reopen 0:\treopen"
}

fn refused() -> &'static str {
    "syntax 8:begin 16\n\
     syntax 8:begin 00\n\
     syntax 6:begin\n\
     syntax 9:begin 1 6\n\
     syntax 1:frob\n\
     syntax 4:tab\n\
     syntax 6:checks\n\
     syntax 7:commit\n\
     syntax 8:commit \n\
     syntax 18:ask q(?x) :- A(?x\n\
     syntax 20:ask q(?x) :- A(?x) ;\n\
     syntax 21:ask q(?x) :- A(?x), \n\
     syntax 10:add 0 And a\n\
     syntax 13:add 0 A a b c\n\
     syntax 10:add 0 A a# \n\
     syntax 5:begi\0\n\
     syntax 14:run 4294967296.1\n\
     syntax 26:run 0.18446744073709551616\n\
     syntax 7:drop 01.1\n\
     syntax 7:drop 1\n\
     syntax 10:prepare q\n\
     unsafe 0:prepare q(?y) :- A(x)\n\
     unsafe 0:ask q(?y) :- A(x)"
}

const LARGE: &[u8] =
    b"prepare q(?y) :- A(?x),A(?x),A(?x),A(?x),A(?x),A(?x),A(?x),A(?x),A(?x),A(?x),A(?x),A(?x),A(?x),A(?x),A(?x),A(?x),A(?x),A(?x),A(?x),A(?x),A(?x),A(?x),A(?x),A(?x),A(?x)";

fn word_of(command: &Command) -> (&'static str, u64) {
    match command {
        Command::Blank => ("blank", 0),
        Command::Ontology => ("ontology", 0),
        Command::Begin(session) => ("begin", *session as u64),
        Command::Add(session, _) => ("add", *session as u64),
        Command::Del(session, _) => ("del", *session as u64),
        Command::Commit(session) => ("commit", *session as u64),
        Command::Abort(session) => ("abort", *session as u64),
        Command::Ask(_) => ("ask", 0),
        Command::Prepare(_) => ("prepare", 0),
        Command::Run(handle) => ("run", handle.generation),
        Command::Drop(handle) => ("drop", handle.generation),
        Command::Check => ("check", 0),
        Command::Tables => ("tables", 0),
        Command::Tidy => ("tidy", 0),
        Command::Reopen => ("reopen", 0),
    }
}

pub fn asked(alloc: Global, line: &[u8]) -> (&'static str, u64) {
    match read_command(alloc, line) {
        Ok(command) => word_of(&command),
        Err(QueryError::Syntax(place)) => ("syntax", place),
        Err(QueryError::TooLarge) => ("too large", 0),
        Err(QueryError::Unsafe(_)) => ("unsafe", 0),
        Err(QueryError::NoMemory) => ("no memory", 0),
    }
}

// Whether the line of a table is as it says.
fn holds(alloc: Global, entry: &str) -> Result<bool, AllocError> {
    let Some((wanted, line)) = entry.split_once(':') else {
        return Ok(false);
    };
    let (word, number) = asked(alloc, line.as_bytes());
    let found = format!(in alloc; "{word} {number}")?;
    Ok(found.as_str() == wanted)
}

// How many lines of the table are as they say, up to the first that isn't.
fn holding(alloc: Global, table: &str) -> Result<usize, AllocError> {
    let mut count = 0usize;
    for entry in table.split('\n') {
        if !holds(alloc, entry)? {
            break;
        }
        count = count.saturating_add(1);
    }
    Ok(count)
}

#[test]
fn each_line_asks_what_its_format_says(rt: HostRuntime) -> Result<(), Fail> {
    assert_eq!(rt; holding(rt.alloc(), asking())?, 22);
    assert_eq!(rt; holding(rt.alloc(), refused())?, 23);
    assert_eq!(rt; asked(rt.alloc(), LARGE), ("too large", 0));
    Ok(())
}

fn ends(line: &str) -> bool {
    ends_block(line.as_bytes())
}

#[test]
fn a_block_ends_at_its_line(rt: HostRuntime) -> Result<(), Fail> {
    for line in ["end", " end \t"] {
        assert_eq!(rt; ends(line), true);
    }
    for line in ["", "# end", "ends", "en", "end end", "end#"] {
        assert_eq!(rt; ends(line), false);
    }
    Ok(())
}
