// Reads packed files from standard input, each as 4 length bytes, low first, and then the file, and prints for each the answer, for an
// accepted file a line for each node with its number and row, a line `pairs N` with how many pairs of types were compared, and then a line
// `--`. The buffers are left as each file leaves them, so that every file but the first is checked over the numbers of another.
#![tactic(auto)]

use answer_output::{node_count, write_answer};
use program_file::widest;
use typing::check::check;
use vector_input::{next_length, read_one};

// Checks a file and prints its lines.
fn answer(file: &[u8], rows: &mut [u16], work: &mut [u16], text: &mut [u8]) {
    let answer = check(file, widest(), &mut *rows, work);
    let _ = write_answer(
        answer.number,
        answer.step,
        answer.place,
        &*rows,
        node_count(file, widest()),
        text,
    );
    io::write_all(1, b"pairs ");
    io::print_decimal(1, u64::from(answer.pairs));
    io::write_all(1, b"\n--\n");
}

// Answers a file of this length.
fn answer_one(file: &[u8], length: usize, rows: &mut [u16], work: &mut [u16], text: &mut [u8]) {
    if length <= file.len() {
        answer(&file[..length], rows, work, text);
    }
}

// Answers each file of the input, at most `most`.
fn answer_each(file: &mut [u8], rows: &mut [u16], work: &mut [u16], text: &mut [u8], most: usize) {
    for _ in 0..most {
        let length = next_length();
        if length == 65536 {
            return;
        }
        read_one(&mut *file, length);
        answer_one(&*file, length, &mut *rows, &mut *work, &mut *text);
    }
}

fn main() {
    let mut file = [0u8; 45200];
    let mut rows = [7u16; 8192];
    let mut work = [9u16; 8192];
    let mut text = [0u8; 73746];
    answer_each(&mut file, &mut rows, &mut work, &mut text, 100000);
}
