// Reads packed cases from standard input, each as five numbers of 4 bytes, low first, and then a file: the length of the file, the limits on parts
// and on depth, and the lengths of the two tally buffers. It prints for each a line with the answer, a line `types` and a line `declarations`
// with the numbers of the tally buffers after the call, and then a line `--`. Before each call the tallies are painted with 7777 and 8888; rows
// and work are left as each case leaves them.
#![tactic(auto)]

use program_file::Limits;
use tallies::tally;
use vector_input::{next_length, read_one};

// Prints a number and the byte before it.
fn print_number(before: &[u8], number: u16) {
    io::write_all(1, before);
    io::print_decimal(1, u64::from(number));
}

// Prints a word and the numbers of a buffer, in a line.
fn print_tally(word: &[u8], tally: &[u16]) {
    io::write_all(1, word);
    for &number in tally {
        print_number(b" ", number);
    }
    io::write_all(1, b"\n");
}

// Tallies a file and prints its lines.
fn answer(
    file: &[u8],
    limits: Limits,
    rows: &mut [u16],
    work: &mut [u16],
    by_type: &mut [u16],
    by_declaration: &mut [u16],
) {
    let answer = tally(
        file,
        limits,
        rows,
        work,
        &mut *by_type,
        &mut *by_declaration,
    );
    print_number(b"", answer.number);
    print_number(b" ", answer.step);
    print_number(b" ", answer.place);
    io::write_all(1, b"\n");
    print_tally(b"types", &*by_type);
    print_tally(b"declarations", &*by_declaration);
    io::write_all(1, b"--\n");
}

// The lengths of a case: of its file and of its two tallies, with its limits.
#[derive(Clone, Copy)]
struct Case {
    length: usize,
    limits: Limits,
    types: usize,
    declarations: usize,
}

// The case that the next twenty bytes of the input say; 65,536 for more in any of its numbers, and where the input has ended.
fn next_case() -> Case {
    let length = next_length();
    let parts = next_length();
    let depth = next_length();
    let types = next_length();
    let declarations = next_length();
    Case {
        length,
        limits: Limits { parts, depth },
        types,
        declarations,
    }
}

// Answers a case whose file is read.
fn answer_one(
    case: Case,
    file: &[u8],
    rows: &mut [u16],
    work: &mut [u16],
    by_type: &mut [u16],
    by_declaration: &mut [u16],
) {
    let length = case.length;
    let types = case.types;
    let declarations = case.declarations;
    if file.len() < length {
        return;
    }
    if by_type.len() < types {
        return;
    }
    if by_declaration.len() < declarations {
        return;
    }
    answer(
        &file[..length],
        case.limits,
        rows,
        work,
        &mut by_type[..types],
        &mut by_declaration[..declarations],
    );
}

// Answers each case of the input, at most `most`.
fn answer_each(
    file: &mut [u8],
    rows: &mut [u16],
    work: &mut [u16],
    by_type: &mut [u16],
    by_declaration: &mut [u16],
    most: usize,
) {
    for _ in 0..most {
        let case = next_case();
        if case.length == 65536 {
            return;
        }
        read_one(&mut *file, case.length);
        by_type.fill(7777);
        by_declaration.fill(8888);
        answer_one(
            case,
            &*file,
            &mut *rows,
            &mut *work,
            &mut *by_type,
            &mut *by_declaration,
        );
    }
}

fn main() {
    let mut file = [0u8; 45200];
    let mut rows = [7u16; 8192];
    let mut work = [9u16; 8192];
    let mut by_type = [0u16; 520];
    let mut by_declaration = [0u16; 4100];
    answer_each(
        &mut file,
        &mut rows,
        &mut work,
        &mut by_type,
        &mut by_declaration,
        1000000,
    );
}
