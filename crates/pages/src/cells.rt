// Numbers in columns, in a buffer.
ghost use Rattle.std.specs.Prelude.{◌≡◌, ◌+◌, ◌≤◌, ◌<◌, length};
ghost use Rattle.printing.specs.Text.{decimal};
ghost use Rattle.writing.specs.Placed.{placed};
ghost use Rattle.pages.specs.Page.{blanks, cell};

use printing::numbers::{decimal_length, write_word};

// Writes blanks from `at` on.
fn write_blanks(out: &mut [u8], at: usize, count: usize)
    requires { at + count ≤ length out.old }
    ensures { out.new ≡ placed out.old at (blanks count) }
{
    out[at..at + count].fill(b' ');
}

// Writes a number in `width` columns from `at` on, right aligned with blanks, and the byte `last` after it.
pub(crate) fn write_cell(out: &mut [u8], at: usize, width: usize, n: u16, last: u8)
    requires { (length (decimal n) ≤ width) × (at + width < length out.old) }
    ensures { out.new ≡ placed out.old at (cell width n last) }
{
    let blanks = width - decimal_length(n);
    write_blanks(&mut *out, at, blanks);
    write_word(out, at + blanks, n, last);
}
