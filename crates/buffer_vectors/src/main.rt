// Reads packed files from standard input, each as 4 length bytes, low first, and then the file, and checks each one in several buffers.
// It prints for each file the answer and a line for each fact about the buffers, with NOT before what is not so, and then a line `--`.
// A fact is found by comparing every number with what stood there before. Files have at most 240 nodes.
#![tactic(auto)]

ghost use Rattle.std.specs.Prelude.{◌≤◌};

use answer_output::node_count;
use program_file::{Limits, widest};
use typing::check::{Answer, check};
use vector_input::{next_length, read_one};

// A file's answer, and the buffers as its check left them.
#[derive(Clone, Copy)]
struct Outcome {
    answer: Answer,
    rows: [u16; 512],
    work: [u16; 512],
}

// A buffer of numbers that no row has, another at each place: types are below 512, nodes below 4,096 and built-ins from 40,000 on.
fn painted() -> [u16; 512] {
    let mut buffer = [0u16; 512];
    for i in 0..512 {
        buffer[i] = 20000 + i as u16;
    }
    buffer
}

// Whether two buffers are the same at every place of a range, or, where `same` is false, at none.
fn compare(a: [u16; 512], b: [u16; 512], from: usize, to: usize, same: bool) -> bool
    requires { to ≤ 512 }
{
    for i in from..to {
        if (a[i] == b[i]) != same {
            return false;
        }
    }
    true
}

// Whether every number from a place on is as painted.
fn is_painted(buffer: [u16; 512], from: usize) -> bool {
    compare(buffer, painted(), from, 512, true)
}

// The least place from which on every number is as painted.
fn painted_from(buffer: [u16; 512]) -> usize {
    let mut from = 0;
    for i in 0..512 {
        if buffer[i] != 20000 + i as u16 {
            from = i + 1;
        }
    }
    from
}

// Prints what is said of a fact.
fn say(fact: bool, text: &[u8]) {
    if !fact {
        io::write_all(1, b"NOT ");
    }
    io::write_all(1, text);
}

fn print_answer(answer: Answer) {
    io::print_decimal(1, u64::from(answer.number));
    io::write_all(1, b" ");
    io::print_decimal(1, u64::from(answer.step));
    io::write_all(1, b" ");
    io::print_decimal(1, u64::from(answer.place));
    io::write_all(1, b"\n");
}

// Prints whether painted buffers are all as before.
fn say_kept(rows: [u16; 512], work: [u16; 512]) {
    say(is_painted(rows, 0), b"rows as before");
    say(is_painted(work, 0), b", work as before\n");
}

// Prints whether the first numbers of painted rows are all written, or, under another number than 0, all filled.
fn say_filled(number: u16, rows: [u16; 512], needed: usize)
    requires { needed ≤ 512 }
{
    if number == 0 {
        say(
            compare(rows, painted(), 0, needed, false),
            b"every row written",
        );
    } else {
        say(
            compare(rows, [65535; 512], 0, needed, true),
            b"every row 65535",
        );
    }
}

// Prints what an answer changed in painted buffers, of which `needed` numbers are for the nodes.
fn say_changes(number: u16, rows: [u16; 512], work: [u16; 512], needed: usize)
    requires { needed ≤ 512 }
{
    if 0 < number && number < 7 {
        say_kept(rows, work);
        return;
    }
    say_filled(number, rows, needed);
    say(is_painted(rows, needed), b", rows past them as before");
    say(is_painted(work, needed), b", work past as many as before\n");
}

// Prints from which place on painted work is as before. Under 12 this is where the names bound end: names of fields were compared, and
// none of them is kept in work.
fn say_names_bound(work: [u16; 512]) {
    io::write_all(1, b"work as before from ");
    io::print_decimal(1, painted_from(work) as u64);
    io::write_all(1, b" on\n");
}

// Checks a file under limits, in the first numbers of two buffers.
fn check_in(
    file: &[u8],
    limits: Limits,
    mut rows: [u16; 512],
    rows_length: usize,
    mut work: [u16; 512],
    work_length: usize,
) -> Outcome
    requires { (rows_length ≤ 512) × (work_length ≤ 512) }
{
    let answer = check(
        file,
        limits,
        &mut rows[..rows_length],
        &mut work[..work_length],
    );
    Outcome { answer, rows, work }
}

// In buffers with these numbers, no longer than needed; compared with the answer and the rows of another check.
fn again(
    label: &[u8],
    file: &[u8],
    needed: usize,
    rows: [u16; 512],
    work: [u16; 512],
    answer: Answer,
    first: [u16; 512],
)
    requires { needed ≤ 512 }
{
    let outcome = check_in(file, widest(), rows, needed, work, needed);
    say(outcome.answer == answer, label);
    let found = outcome.rows;
    say(compare(found, first, 0, needed, true), b", same rows\n");
}

// In zeroed buffers, in buffers of ones, and in used buffers: those that a check with this answer left.
fn in_dirty(file: &[u8], needed: usize, answer: Answer, rows: [u16; 512], work: [u16; 512])
    requires { needed ≤ 512 }
{
    let zeros = [0; 512];
    let ones = [1; 512];
    again(
        b"zeroed buffers: same answer",
        file,
        needed,
        zeros,
        zeros,
        answer,
        rows,
    );
    again(
        b"buffers of ones: same answer",
        file,
        needed,
        ones,
        ones,
        answer,
        rows,
    );
    again(
        b"used buffers: same answer",
        file,
        needed,
        rows,
        work,
        answer,
        rows,
    );
}

// In painted buffers that are longer than needed, and then in others.
fn in_longer(file: &[u8], needed: usize)
    requires { needed ≤ 500 }
{
    let outcome = check_in(file, widest(), painted(), needed + 9, painted(), needed + 9);
    let answer = outcome.answer;
    let rows = outcome.rows;
    let work = outcome.work;
    print_answer(answer);
    io::write_all(1, b"longer buffers: ");
    say_changes(answer.number, rows, work, needed);
    if answer.number == 12 {
        say_names_bound(work);
    }
    in_dirty(file, needed, answer, rows, work);
}

// In painted buffers of these lengths, where the answer is this number alone and nothing changes.
fn in_painted(
    label: &[u8],
    number: u16,
    file: &[u8],
    limits: Limits,
    rows_length: usize,
    work_length: usize,
)
    requires { (rows_length ≤ 512) × (work_length ≤ 512) }
{
    let outcome = check_in(file, limits, painted(), rows_length, painted(), work_length);
    let bare = Answer {
        number,
        step: 0,
        place: 0,
        pairs: 0,
    };
    say(outcome.answer == bare, label);
    let rows = outcome.rows;
    let work = outcome.work;
    say_kept(rows, work);
}

// Rows or work too short by one.
fn in_short(file: &[u8], needed: usize)
    requires { (1 ≤ needed) × (needed ≤ 500) }
{
    in_painted(
        b"short rows: 6 0 0, ",
        6,
        file,
        widest(),
        needed - 1,
        needed,
    );
    in_painted(
        b"short work: 6 0 0, ",
        6,
        file,
        widest(),
        needed,
        needed - 1,
    );
}

// Limits out of their range, in buffers that are longer than needed and in none.
fn out_of_range(label: &[u8], file: &[u8], parts: usize, depth: usize, needed: usize)
    requires { needed ≤ 500 }
{
    in_painted(
        label,
        25,
        file,
        Limits { parts, depth },
        needed + 9,
        needed + 9,
    );
    in_painted(label, 25, file, Limits { parts, depth }, 0, 0);
}

// Prints the lines of a file with this many numbers needed.
fn facts(file: &[u8], needed: usize)
    requires { needed ≤ 500 }
{
    in_longer(file, needed);
    if 0 < needed {
        in_short(file, needed);
    }
    out_of_range(b"0 parts: 25 0 0, ", file, 0, 100, needed);
    out_of_range(b"201 parts: 25 0 0, ", file, 201, 100, needed);
    out_of_range(b"depth 0: 25 0 0, ", file, 200, 0, needed);
    out_of_range(b"depth 101: 25 0 0, ", file, 200, 101, needed);
    io::write_all(1, b"--\n");
}

// Answers a file of this length.
fn answer_one(file: &[u8], bytes: usize) {
    if file.len() < bytes {
        return;
    }
    let part = &file[..bytes];
    let nodes = node_count(part, widest());
    if nodes <= 240 {
        facts(part, 2 * nodes);
    }
}

// Answers the next file of the input; false where there is none.
fn answer_next() -> bool {
    let bytes = next_length();
    if bytes == 65536 {
        return false;
    }
    let mut file = [0u8; 45200];
    read_one(&mut file, bytes);
    answer_one(&file, bytes);
    true
}

// Answers each file of the input, at most 100,000.
fn main() {
    for _ in 0..100000usize {
        if !answer_next() {
            return;
        }
    }
}
