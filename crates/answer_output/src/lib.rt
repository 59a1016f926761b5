// An answer and the rows of a file's nodes, to standard output.
#![tactic(auto)]

ghost use Rattle.std.specs.Prelude.{◌≡◌};
ghost use Rattle.program_file.specs.Reading.{setting_of, reading_of};
ghost use Rattle.printing.specs.Outcome.{leaves, print_of};
ghost use Rattle.answer_output.specs.Nodes.{nodes_of};

use printing::Unprinted;
use program_file::Limits;

// How many nodes a readable file has; 0 where it is refused.
pub fn node_count(file: &[u8], limits: Limits) -> usize
    ensures { result ≡ nodes_of (reading_of (setting_of limits) file.now) }
{
    match program_file::read(file, limits) {
        Ok(sections) => sections.nodes,
        Err(_) => 0,
    }
}

// Prints an answer and, where its number is 0, the rows of the nodes to `text`, as `printing::print` does, and writes the text to
// standard output.
pub fn write_answer(
    number: u16,
    step: u16,
    place: u16,
    rows: &[u16],
    nodes: usize,
    text: &mut [u8],
) -> Result<usize, Unprinted>
    ensures { leaves result text.new ≡ print_of number step place rows.now nodes text.old }
{
    let printed = printing::print(number, step, place, rows, nodes, &mut *text);
    if let Ok(length) = printed {
        io::write_all(1, &text[..length]);
    }
    printed
}
