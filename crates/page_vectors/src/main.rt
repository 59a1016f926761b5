// Reads packed cases from standard input, each as four numbers of 4 bytes, low first, and then a file: the length of the file, the limits on parts
// and on depth, and the length of the page buffer. It prints for each a line with the answer and its count of bytes, all bytes of the page buffer
// after the call, a line end, and a line `--`. Before each call the page buffer is painted with `#`; rows and work are left as each case leaves
// them.
#![tactic(auto)]

use pages::page;
use program_file::Limits;
use vector_input::{next_length, next_number, read_one};

// Prints a number and the text before it.
fn print_number(before: &[u8], number: usize) {
    io::write_all(1, before);
    io::print_decimal(1, number as u64);
}

// Prints the page of a file, as this program does.
fn answer(file: &[u8], limits: Limits, rows: &mut [u16], work: &mut [u16], out: &mut [u8]) {
    let answer = page(file, limits, rows, work, &mut *out);
    print_number(b"", usize::from(answer.number));
    print_number(b" ", usize::from(answer.step));
    print_number(b" ", usize::from(answer.place));
    print_number(b" ", answer.bytes);
    io::write_all(1, b"\n");
    io::write_all(1, &*out);
    io::write_all(1, b"\n--\n");
}

// A case: the length of its file, its limits, and the length of its page buffer.
#[derive(Clone, Copy)]
struct Case {
    length: usize,
    limits: Limits,
    room: usize,
}

// The case that the next sixteen bytes of the input say; a length of 65,536 for more, and where the input has ended.
fn next_case() -> Case {
    let length = next_length();
    let parts = next_length();
    let depth = next_length();
    let room = next_number();
    Case {
        length,
        limits: Limits { parts, depth },
        room,
    }
}

// Answers a case whose file is read.
fn answer_one(case: Case, file: &[u8], rows: &mut [u16], work: &mut [u16], out: &mut [u8]) {
    let length = case.length;
    let room = case.room;
    if file.len() < length {
        return;
    }
    if out.len() < room {
        return;
    }
    answer(&file[..length], case.limits, rows, work, &mut out[..room]);
}

// Answers each case of the input, at most `most`.
fn answer_each(file: &mut [u8], rows: &mut [u16], work: &mut [u16], out: &mut [u8], most: usize) {
    for _ in 0..most {
        let case = next_case();
        if case.length == 65536 {
            return;
        }
        read_one(&mut *file, case.length);
        out.fill(b'#');
        answer_one(case, &*file, &mut *rows, &mut *work, &mut *out);
    }
}

fn main() {
    let mut file = [0u8; 45200];
    let mut rows = [7u16; 8192];
    let mut work = [9u16; 8192];
    let mut out = [0u8; 82000];
    answer_each(&mut file, &mut rows, &mut work, &mut out, 1000000);
}
