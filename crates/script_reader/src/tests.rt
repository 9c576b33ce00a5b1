// Lines of documents, and what they say.
use super::*;
use dl_base::NamedRow;
use std::alloc::Global;
use std::test::Fail;

// A line, and what it says: its form, or why it isn't read.
const LINES: [(&[u8], &str); 20] = [
    (b"", "blank"),
    (b" \t ", "blank"),
    (b"\t# fact A x", "blank"),
    (b"axiom Class(A)", "axiom"),
    (b"  axiom\t SubClassOf(And(A B) Some(Inv(r))) \t", "axiom"),
    (b"axiom", "syntax"),
    (b"axiomClass(A)", "syntax"),
    (b"axiom Class(A) x", "syntax"),
    (b"fact A x", "concept"),
    (b" fact\tr  x y ", "role"),
    (b"fact A", "syntax"),
    (b"fact r x y z", "syntax"),
    (b"fact And x", "syntax"),
    (b"ask q() :- A(?x)", "ask"),
    (b" ask  q( ?x , ?y ):-r( ?x , ?y ) , A(?x) ", "ask"),
    (b"ask q(?x) :- A(?x),", "syntax"),
    (b"ask q(?y) :- A(?x)", "unsafe"),
    (
        b"ask q(?x) :- A(?x),A(?x),A(?x),A(?x),A(?x),A(?x),A(?x),A(?x),A(?x),A(?x),A(?x),A(?x),A(?x),A(?x),A(?x),A(?x),A(?x),A(?x),A(?x),A(?x),A(?x),A(?x),A(?x),A(?x),A(?x)",
        "too large",
    ),
    (b"asks q() :- A(?x)", "syntax"),
    (b"say q() :- A(?x)", "syntax"),
];

fn form_of(alloc: Global, line: &[u8]) -> &'static str {
    match read_doc_line(alloc, line) {
        Ok(DocLine::Blank) => "blank",
        Ok(DocLine::Axiom(_)) => "axiom",
        Ok(DocLine::Fact(NamedRow::Concept { .. })) => "concept",
        Ok(DocLine::Fact(NamedRow::Role { .. })) => "role",
        Ok(DocLine::Ask(_)) => "ask",
        Err(CommandError::Syntax) => "syntax",
        Err(CommandError::TooLarge) => "too large",
        Err(CommandError::Unsafe(_)) => "unsafe",
        Err(CommandError::NoMemory) => "no memory",
    }
}

#[test]
fn each_line_has_its_form(rt: HostRuntime) -> Result<(), Fail> {
    for (line, form) in LINES {
        assert_eq!(rt; form_of(rt.alloc(), line), form);
    }
    Ok(())
}
