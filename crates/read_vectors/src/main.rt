// Reads packed files from standard input, each as 4 length bytes, low first, and then the file, and prints for each a line
// with 0, or the number under which it is refused.
#![tactic(auto)]

use vector_input::{next_length, read_one};

// Prints the line of a file of this length.
fn answer_one(file: &[u8], length: usize) {
    if length <= file.len() {
        let answer = program_file::number(program_file::read(
            &file[..length],
            program_file::widest(),
        ));
        io::print_decimal(1, u64::from(answer));
        io::write_all(1, b"\n");
    }
}

// Answers each file of the input, at most `most`.
fn answer_each(file: &mut [u8], most: usize) {
    for _ in 0..most {
        let length = next_length();
        if length == 65536 {
            return;
        }
        read_one(&mut *file, length);
        answer_one(&*file, length);
    }
}

fn main() {
    let mut file = [0u8; 45200];
    answer_each(&mut file, 100000);
}
