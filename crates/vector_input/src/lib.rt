// Packed files from standard input: each is 4 length bytes, low first, and then the file.
#![tactic(auto)]

ghost use Rattle.std.specs.Prelude.{◌≡◌, ◌≤◌, ◌<◌, length, drop};
ghost use Rattle.vector_input.specs.Length.{number_of, length_of};

use std::cmp::min;

// The number that four bytes say, low byte first.
fn number_of(head: &[u8; 4]) -> usize
    ensures { (result ≡ number_of head.now) × (result < 4294967296) }
{
    usize::from(head[0])
        + 256 * usize::from(head[1])
        + 65536 * usize::from(head[2])
        + 16777216 * usize::from(head[3])
}

// The length that four bytes say; 65536 where it is that or more.
fn length_of(head: &[u8; 4]) -> usize
    ensures { result ≡ length_of head.now }
{
    min(65536, number_of(head))
}

// The number that the next four bytes of the input say, where a byte that is missing is 0. No contract can say what is read from standard input:
// that the bytes are the input's next stands in the code alone.
pub fn next_number() -> usize
    ensures { result < 4294967296 }
{
    let mut head = [0u8; 4];
    io::read_full(0, &mut head);
    number_of(&head)
}

// The length that the next four bytes of the input say; 65536 where fewer are left, which stands in the code alone, as what is read does.
pub fn next_length() -> usize
    ensures { result ≤ 65536 }
{
    let mut head = [0u8; 4];
    let got = io::read_full(0, &mut head);
    if got < 4 {
        return 65536;
    }
    length_of(&head)
}

// Reads a file of this many bytes from the input to the front of a buffer. What lies past them stays; where the buffer has no room for
// them, nothing is read and all of it stays. Which bytes are read, and that they are fewer where the input ends, no contract can say.
pub fn read_one(file: &mut [u8], bytes: usize)
    ensures file_unchanged { drop bytes file.new ≡ drop bytes file.old }
    ensures file_unchanged_2 { length file.old < bytes → file.new ≡ file.old }
{
    if bytes <= file.len() {
        io::read_full(0, &mut file[..bytes]);
    }
}
