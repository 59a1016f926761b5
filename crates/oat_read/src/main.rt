// Reads a program file from standard input and prints a line with 0, or the number under which it is refused. A read or a write that
// fails is told on standard error.
#![tactic(auto)]

ghost use Rattle.std.specs.Prelude.{◌≡◌};
ghost use Rattle.oat.specs.ProgramFile.{widest as Widest};
ghost use Rattle.program_file.specs.Reading.{reading_of, number_of};

use input_output::failure::fail;
use input_output::input::read_all;
use input_output::status::{Status, tell};
use program_file::widest;
use std::io::Result;

// The number of a file, under document 01's limits.
#[tactic(auto, using(program_file::proofs::LawsReading::number_told))]
fn answer(file: &[u8]) -> u16
    ensures { result ≡ number_of (reading_of Widest file.now) }
{
    program_file::number(program_file::read(file, widest()))
}

// Prints a number, and tells how the command ended: a number that standard output did not take is told on standard error.
fn print(rt: &HostRuntime, number: u16) -> Result<()> {
    match println!(rt; "{number}") {
        Ok(()) => {
            tell(Status::of(number));
            Ok(())
        }
        Err(error) => {
            tell(Status::Failed);
            fail(rt, "oat_read: standard output", error)
        }
    }
}

// A file has at most 45,068 bytes, so that with one more it is refused as its bytes say.
fn main(rt: HostRuntime) -> Result<()> {
    let mut file = [0u8; 45069];
    match read_all(&mut rt.reader(), &mut file) {
        Ok(length) => print(&rt, answer(&file[..length])),
        Err(error) => {
            tell(Status::Failed);
            fail(&rt, "oat_read: standard input", error)
        }
    }
}
