// An answer and the rows of the nodes, written to a buffer as text.
#![tactic(auto)]

pub mod lines;
pub mod numbers;

ghost use Rattle.std.specs.Prelude.{◌≡◌};
ghost use Rattle.printing.specs.Text.{listed};
ghost use Rattle.printing.specs.Outcome.{leaves, print_of};

use crate::lines::{line_length, rows_length, write_line, write_rows};

// Why a text is not written: the buffer is shorter, with the text's length; or there is no text, for want of two numbers in `rows` for each node, or with
// more nodes than a u16 counts.
#[derive(Clone, Copy, PartialEq, Eq)]
pub enum Unprinted {
    Short(usize),
    NoRows,
}

// How many nodes have a line.
fn lines_wanted(number: u16, nodes: usize) -> usize
    ensures { result ≡ listed number nodes }
{
    if number == 0 {
        return nodes;
    }
    0
}

// Writes the answer and, where its number is 0, the rows of the nodes to the front of `out`, and answers the text's length. What lies past the text stays,
// and all of `out` does where nothing is written.
pub fn print(
    number: u16,
    step: u16,
    place: u16,
    rows: &[u16],
    nodes: usize,
    out: &mut [u8],
) -> Result<usize, Unprinted>
    ensures { leaves result out.new ≡ print_of number step place rows.now nodes out.old }
{
    let count = lines_wanted(number, nodes);
    if 65535 < count {
        return Err(Unprinted::NoRows);
    }
    if rows.len() < 2 * count {
        return Err(Unprinted::NoRows);
    }
    let length = line_length(number, step, place) + rows_length(rows, count);
    if out.len() < length {
        return Err(Unprinted::Short(length));
    }
    let next = write_line(out, 0, number, step, place);
    write_rows(out, next, rows, count);
    Ok(length)
}
