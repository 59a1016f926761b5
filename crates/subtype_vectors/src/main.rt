// Reads packed files from standard input, each as 4 length bytes, low first, and then the file, and asks for every pair of its types
// whether the first is below the second. It prints for each file two lines for each type, one with 1 for yes and 0 for no and one with
// the counts of the pairs of types compared, and then a line `--`. The types end where the question is refused under 17; of any other
// refusal the number is a line.
#![tactic(auto)]

use program_file::widest;
use subtyping::question::{Refusal, subtype};
use vector_input::{next_length, read_one};

// Prints 1 or 0; false where the question is refused.
fn pair(file: &[u8], a: usize, b: usize) -> bool {
    match subtype(file, widest(), a, b) {
        Ok(answer) => {
            io::print_decimal(1, u64::from(answer.holds));
            true
        }
        Err(Refusal::NoType) => false,
        Err(refusal) => {
            io::print_decimal(1, u64::from(refusal.number()));
            io::write_all(1, b"\n");
            false
        }
    }
}

// How many pairs of types a question compared; 0 where it is refused.
fn pairs(file: &[u8], a: usize, b: usize) -> u16 {
    match subtype(file, widest(), a, b) {
        Ok(answer) => answer.pairs,
        Err(_) => 0,
    }
}

// Prints the line of counts of the type a with each of the first `types` types.
fn counts(file: &[u8], a: usize, types: usize) {
    for b in 0..types {
        if 0 < b {
            io::write_all(1, b" ");
        }
        io::print_decimal(1, u64::from(pairs(file, a, b)));
    }
    io::write_all(1, b"\n");
}

// Prints the lines of the type a; false where the file has no such type.
fn row(file: &[u8], a: usize) -> bool {
    let mut types = 0;
    for b in 0..600 {
        if !pair(file, a, b) {
            break;
        }
        types = b + 1;
    }
    if types == 0 {
        return false;
    }
    io::write_all(1, b"\n");
    counts(file, a, types);
    true
}

// Prints the lines of a file.
fn table(file: &[u8]) {
    for a in 0..600 {
        if !row(file, a) {
            break;
        }
    }
    io::write_all(1, b"--\n");
}

// Answers a file of this length.
fn answer_one(file: &[u8], length: usize) {
    if length <= file.len() {
        table(&file[..length]);
    }
}

// Answers each file of the input, at most `most`.
fn answer_each(file: &mut [u8], most: usize) {
    for _ in 0..most {
        let length = next_length();
        if length == 65536 {
            return;
        }
        read_one(&mut *file, length);
        answer_one(&*file, length);
    }
}

fn main() {
    let mut file = [0u8; 45200];
    answer_each(&mut file, 100000);
}
