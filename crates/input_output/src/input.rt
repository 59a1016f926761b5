// The bytes of a file.
ghost use Rattle.input_output.specs.Within.{Within};

use std::io::{Read, Result};

// Reads a file to the front of a buffer, to its end or until the buffer is full, and answers how many bytes it has. A read that fails is no end: its
// error is the answer. Which bytes are read no contract can say.
pub fn read_all<R: Read>(reader: &mut R, file: &mut [u8]) -> Result<usize>
    ensures { Within result file.new }
{
    let mut length = 0;
    while length < file.len() {
        let more = reader.read(&mut file[length..])?;
        if more == 0 {
            return Ok(length);
        }
        length += more;
    }
    Ok(length)
}
