// Lines of three numbers: their lengths, and the lines in a buffer.
ghost use Rattle.std.specs.Prelude.{◌≡◌, ◌+◌, ◌*◌, ◌≤◌, ◌<◌, length, get_or};
ghost use Rattle.printing.specs.Text.{line, rows_text};
ghost use Rattle.writing.specs.Placed.{placed};

use crate::numbers::{decimal_length, write_word};

// How many bytes the line has.
pub(crate) fn line_length(a: u16, b: u16, c: u16) -> usize
    ensures { (result ≡ length (line a b c)) × (result ≤ 18) }
{
    decimal_length(a) + decimal_length(b) + decimal_length(c) + 3
}

// Writes the line from `at` on.
pub(crate) fn write_line(out: &mut [u8], at: usize, a: u16, b: u16, c: u16) -> usize
    requires { at + length (line a b c) ≤ length out.old }
    ensures value { result ≡ at + length (line a b c) }
    ensures out_after { out.new ≡ placed out.old at (line a b c) }
{
    let second = write_word(&mut *out, at, a, 32);
    let third = write_word(&mut *out, second, b, 32);
    write_word(out, third, c, 10)
}

// The result in the row of the node i.
pub fn result_at(rows: &[u16], i: usize) -> u16
    requires { 2 * i + 1 < length rows.now }
    ensures { result ≡ get_or rows.now (2 * i) 0 }
{
    rows[2 * i]
}

// The binder in the row of the node i.
pub fn binder_at(rows: &[u16], i: usize) -> u16
    requires { 2 * i + 1 < length rows.now }
    ensures { result ≡ get_or rows.now (2 * i + 1) 0 }
{
    rows[2 * i + 1]
}

// How many bytes the lines of the nodes have.
pub(crate) fn rows_length(rows: &[u16], nodes: usize) -> usize
    requires { (nodes ≤ 65535) × (2 * nodes ≤ length rows.now) }
    ensures { (result ≡ length (rows_text rows.now nodes)) × (result ≤ 18 * nodes) }
{
    let mut sum = 0;
    for i in 0..nodes {
        sum += line_length(i as u16, result_at(rows, i), binder_at(rows, i));
    }
    sum
}

// Writes the lines of the nodes from `at` on.
pub(crate) fn write_rows(out: &mut [u8], at: usize, rows: &[u16], nodes: usize)
    requires nodes_bound { (nodes ≤ 65535) × (2 * nodes ≤ length rows.now) }
    requires nodes_in_bounds { at + length (rows_text rows.now nodes) ≤ length out.old }
    ensures { out.new ≡ placed out.old at (rows_text rows.now nodes) }
{
    let mut next = at;
    for i in 0..nodes {
        next = write_line(
            &mut *out,
            next,
            i as u16,
            result_at(rows, i),
            binder_at(rows, i),
        );
    }
}
