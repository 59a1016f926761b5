// Reads packed cases from standard input, each as 4 bytes for the length of a file, 4 for the limit on parts and 4 for the limit on depth, low
// first, and then the file. It prints for each a line with the number of its reading, a line with the answers to four subtype questions, each
// with its count of pairs, the check's answer, for an accepted file a line for each node with its number and row, a line `pairs N` with how many
// pairs of types the check compared, and then a line `--`. The buffers are left as each case leaves them.
#![tactic(auto)]

use answer_output::{node_count, write_answer};
use program_file::Limits;
use subtyping::question::subtype;
use typing::check::check;
use vector_input::{next_length, read_one};

// The limits that the next eight bytes of the input say; 65,536 for more, which is out of range too.
fn next_limits() -> Limits {
    let parts = next_length();
    let depth = next_length();
    Limits { parts, depth }
}

// Prints the number of a reading.
fn print_read(file: &[u8], limits: Limits) {
    let number = program_file::number(program_file::read(file, limits));
    io::write_all(1, b"read ");
    io::print_decimal(1, u64::from(number));
    io::write_all(1, b"\nsub");
}

// Prints a word and a number after it.
fn print_counted(word: &[u8], number: u16) {
    io::write_all(1, word);
    io::print_decimal(1, u64::from(number));
}

// Prints the answer to a subtype question, and its count.
fn print_below(file: &[u8], limits: Limits, a: usize, b: usize) {
    match subtype(file, limits, a, b) {
        Ok(answer) => print_counted(if answer.holds { b" yes " } else { b" no " }, answer.pairs),
        Err(refusal) => {
            print_counted(b" ", refusal.number());
            print_counted(b" ", 0);
        }
    }
}

// Asks everything about a file and prints its lines.
fn answer(file: &[u8], limits: Limits, rows: &mut [u16], work: &mut [u16], text: &mut [u8]) {
    print_read(file, limits);
    print_below(file, limits, 0, 0);
    print_below(file, limits, 4, 4);
    print_below(file, limits, 4, 5);
    print_below(file, limits, 600, 0);
    io::write_all(1, b"\n");
    let answer = check(file, limits, &mut *rows, work);
    let _ = write_answer(
        answer.number,
        answer.step,
        answer.place,
        &*rows,
        node_count(file, limits),
        text,
    );
    io::write_all(1, b"pairs ");
    io::print_decimal(1, u64::from(answer.pairs));
    io::write_all(1, b"\n--\n");
}

// Answers a file of this length.
fn answer_one(
    file: &[u8],
    length: usize,
    limits: Limits,
    rows: &mut [u16],
    work: &mut [u16],
    text: &mut [u8],
) {
    if length <= file.len() {
        answer(&file[..length], limits, rows, work, text);
    }
}

// Answers each case of the input, at most `most`.
fn answer_each(file: &mut [u8], rows: &mut [u16], work: &mut [u16], text: &mut [u8], most: usize) {
    for _ in 0..most {
        let length = next_length();
        if length == 65536 {
            return;
        }
        let limits = next_limits();
        read_one(&mut *file, length);
        answer_one(&*file, length, limits, &mut *rows, &mut *work, &mut *text);
    }
}

fn main() {
    let mut file = [0u8; 45200];
    let mut rows = [7u16; 8192];
    let mut work = [9u16; 8192];
    let mut text = [0u8; 73746];
    answer_each(&mut file, &mut rows, &mut work, &mut text, 1000000);
}
