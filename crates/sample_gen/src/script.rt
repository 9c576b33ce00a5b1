//! The bytes of the sample script.
ghost use Rattle.std.specs.Prelude.{◌≡◌, ◌≤◌, ◌+◌, ◌*◌, ◌++◌, codes, length, IfOk, OnOk};
ghost use Rattle.std.specs.List.{flat_map};
ghost use Rattle.std.specs.Fmt.{decimal};
ghost use Rattle.sample_gen.specs.SampleScript.{change_line, change_lines, course, ended, first_lines, last_lines, person, sample_script};

use itoa::Buffer;
use plain_list::Items;
use std::alloc::{AllocError, Global};

/// The lines before the changes.
const FIRST_LINES: &[u8] = b"ontology
SubClassOf(Prof Staff)
SubClassOf(Prof Some(teaches))
Domain(teaches Staff)
Range(teaches Course)
Disjoint(Staff Course)
end
begin 0
";

/// The lines behind them.
const LAST_LINES: &[u8] = b"commit 0
ask q(?x) :- Staff(?x)
ask q(?x) :- teaches(?x,?y), Course(?y)
ask q(?x,?y) :- teaches(?x,?z), teaches(?y,?z)
check
";

/// The most bytes of the line of a change, with its end: `add 0 teaches p2000 c2000`.
const LONGEST_CHANGE: usize = 26;

/// The bytes of the sample script of this size.
pub fn sample(alloc: Global, size: u32) -> Result<Items<u8>, AllocError>
    requires some { 1 ≤ size }
    requires limit { size ≤ 2000 }
    ensures script { IfOk result (λ script. script ≡ sample_script size) }
    ensures short { IfOk result (λ script. length script ≤ 26 * size + 267) }
{
    let room = FIRST_LINES.len() + LONGEST_CHANGE * size as usize + LAST_LINES.len();
    let mut script = Vec::with_capacity(alloc, room)?;
    append_first_lines(&mut script)?;
    append_changes(size, &mut script)?;
    append_last_lines(&mut script)?;
    Ok(Items::from_vec(script))
}

fn append_first_lines(script: &mut Vec<u8>) -> Result<(), AllocError>
    ensures { OnOk result (script.new.items ≡ script.old.items ++ flat_map ended first_lines) }
{
    script.extend_from_slice(FIRST_LINES)
}

fn append_last_lines(script: &mut Vec<u8>) -> Result<(), AllocError>
    ensures { OnOk result (script.new.items ≡ script.old.items ++ flat_map ended last_lines) }
{
    script.extend_from_slice(LAST_LINES)
}

/// The line of each change.
fn append_changes(size: u32, script: &mut Vec<u8>) -> Result<(), AllocError>
    requires some { 1 ≤ size }
    requires limit { size ≤ 2000 }
    ensures { OnOk result (script.new.items ≡ script.old.items ++ flat_map ended (change_lines size)) }
{
    let mut chosen = size;
    for number in 0..size {
        chosen = (75 * chosen + 74) % 65_537;
        append_change(size, number + 1, chosen, script)?;
    }
    Ok(())
}

/// The line of a change, with its end.
fn append_change(
    size: u32,
    number: u32,
    chosen: u32,
    script: &mut Vec<u8>,
) -> Result<(), AllocError>
    requires { 1 ≤ size }
    ensures { OnOk result (script.new.items ≡ script.old.items ++ ended (change_line size number chosen)) }
{
    match chosen % 3 {
        0 => append_member(b"add 0 Prof ", number, script),
        1 => append_teacher(number, chosen / 3 % size + 1, script),
        _ => append_member(b"add 0 Staff ", number, script),
    }
}

/// The line that adds a person to a concept, with its end.
fn append_member(words: &[u8], number: u32, script: &mut Vec<u8>) -> Result<(), AllocError>
    ensures { OnOk result (script.new.items ≡ script.old.items ++ ended (words.now ++ person number)) }
{
    append_person(words, number, script)?;
    script.push(b'\n')?;
    Ok(())
}

/// The line that adds which course a person teaches, with its end.
fn append_teacher(number: u32, taught: u32, script: &mut Vec<u8>) -> Result<(), AllocError>
    ensures { OnOk result (script.new.items ≡ script.old.items ++ ended (codes "add 0 teaches " ++ person number ++ codes " " ++ course taught)) }
{
    append_person(b"add 0 teaches ", number, script)?;
    append_course(taught, script)
}

/// Words and the person behind them.
fn append_person(words: &[u8], number: u32, script: &mut Vec<u8>) -> Result<(), AllocError>
    ensures { OnOk result (script.new.items ≡ script.old.items ++ (words.now ++ person number)) }
{
    script.extend_from_slice(words)?;
    script.push(b'p')?;
    append_number(number, script)
}

/// A space, the course and the line's end.
fn append_course(number: u32, script: &mut Vec<u8>) -> Result<(), AllocError>
    ensures { OnOk result (script.new.items ≡ script.old.items ++ ended (codes " " ++ course number)) }
{
    script.extend_from_slice(b" c")?;
    append_number(number, script)?;
    script.push(b'\n')?;
    Ok(())
}

fn append_number(number: u32, script: &mut Vec<u8>) -> Result<(), AllocError>
    ensures { OnOk result (script.new.items ≡ script.old.items ++ decimal number) }
{
    let mut buffer = Buffer::new();
    script.extend_from_slice(buffer.format(number).as_bytes())
}
