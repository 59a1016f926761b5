// Reads a program file from standard input, checks it, and prints the answer: its number, step and place. For an accepted file a line
// for each node follows, with its number and row. A read or a write that fails is told on standard error.
#![tactic(auto)]

ghost use Rattle.std.specs.Prelude.{◌≤◌, length};
ghost use Rattle.oat_check.specs.Answers.{Answers};

use answer_output::node_count;
use input_output::failure::fail;
use input_output::input::read_all;
use input_output::status::{Status, tell};
use printing::Unprinted;
use program_file::widest;
use std::io;
use std::io::{Write, writer};
use typing::check::check;

// The number of an answer, and what became of its text.
#[derive(Clone, Copy)]
pub struct Answered {
    pub number: u16,
    pub printed: Result<usize, Unprinted>,
}

// Checks a file and prints the answer to `text`, under document 01's limits.
fn answer(file: &[u8], rows: &mut [u16], work: &mut [u16], text: &mut [u8]) -> Answered
    ensures { Answers file.now rows.old work.old text.old rows.new text.new result }
{
    let limits = widest();
    let answer = check(file, limits, &mut *rows, work);
    let nodes = node_count(file, limits);
    let printed = printing::print(
        answer.number,
        answer.step,
        answer.place,
        &*rows,
        nodes,
        text,
    );
    Answered {
        number: answer.number,
        printed,
    }
}

// Writes the text of an answer to standard output, and tells how the command ended: a text that standard output did not take is told on standard
// error.
fn write(rt: &HostRuntime, number: u16, text: &[u8]) -> io::Result<()> {
    match writer(rt).write_all(text) {
        Ok(()) => {
            tell(Status::of(number));
            Ok(())
        }
        Err(error) => {
            tell(Status::Failed);
            fail(rt, "oat_check: standard output", error)
        }
    }
}

// A file has at most 45,068 bytes, so that with one more it is refused as its bytes say; it has at most 4,096 nodes, with two numbers
// each in `rows` and `work` and at most 18 bytes each in the text.
fn main(rt: HostRuntime) -> io::Result<()> {
    let mut file = [0u8; 45069];
    let mut rows = [0u16; 8192];
    let mut work = [0u16; 8192];
    let mut text = [0u8; 73746];
    let length = match read_all(&mut rt.reader(), &mut file) {
        Ok(length) => length,
        Err(error) => {
            tell(Status::Failed);
            return fail(&rt, "oat_check: standard input", error);
        }
    };
    let answered = answer(&file[..length], &mut rows, &mut work, &mut text);
    match answered.printed {
        Ok(bytes) => write(&rt, answered.number, &text[..bytes]),
        Err(_) => Ok(()),
    }
}
