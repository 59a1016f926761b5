// The lines of a page.
ghost use Rattle.std.specs.Prelude.{◌≡◌, ◌++◌, ◌+◌, ◌*◌, ◌≤◌, ◌<◌, length};
ghost use Rattle.file_sections.specs.Layout.{tables_of};
ghost use Rattle.printing.specs.Text.{decimal};
ghost use Rattle.writing.specs.Placed.{placed};
ghost use Rattle.pages.specs.Page.{row_line, row_lines, last_line};
ghost use Rattle.pages.specs.Writing.{ReadyRows};

use crate::cells::write_cell;
use file_sections::Sections;
use file_sections::records::node_kind;
use printing::lines::{binder_at, result_at};
use printing::numbers::{decimal_length, write_decimal};
use writing::write_text;

// Writes a row's line, of 20 bytes, from `at` on.
fn write_row(out: &mut [u8], at: usize, node: u16, kind: u16, res: u16, binder: u16)
    requires { (node < 4096) × (kind < 100) × (at + 20 ≤ length out.old) }
    ensures { out.new ≡ placed out.old at (row_line node kind res binder) }
{
    write_cell(&mut *out, at, 4, node, 32);
    write_cell(&mut *out, at + 5, 2, kind, 32);
    write_cell(&mut *out, at + 8, 5, res, 32);
    write_cell(out, at + 14, 5, binder, 10);
}

// Writes the lines of all rows.
pub(crate) fn write_rows(file: &[u8], sections: Sections, rows: &[u16], out: &mut [u8])
    requires { ReadyRows file.now sections rows.now × (20 * sections.nodes ≤ length out.old) }
    ensures { out.new ≡ placed out.old 0 (row_lines (tables_of file.now sections) rows.now sections.nodes) }
{
    for i in 0..sections.nodes {
        let kind = node_kind(file, sections, i);
        write_row(
            &mut *out,
            20 * i,
            i as u16,
            kind as u16,
            result_at(rows, i),
            binder_at(rows, i),
        );
    }
}

// How many bytes the last line has.
pub(crate) fn last_length(pages: u16, rows: u16) -> usize
    ensures { (result ≡ length (last_line pages rows)) × (result ≤ 23) }
{
    13 + decimal_length(pages) + decimal_length(rows)
}

// Writes a text and a number after it from `at` on; answers the place after both.
fn write_labelled(out: &mut [u8], at: usize, label: &[u8], n: u16) -> usize
    requires { at + length (label.now ++ decimal n) ≤ length out.old }
    ensures value { result ≡ at + length (label.now ++ decimal n) }
    ensures out_after { out.new ≡ placed out.old at (label.now ++ decimal n) }
{
    write_text(&mut *out, at, label);
    write_decimal(out, at + label.len(), n)
}

// Writes the last line from `at` on.
pub(crate) fn write_last(out: &mut [u8], at: usize, pages: u16, rows: u16)
    requires { at + length (last_line pages rows) ≤ length out.old }
    ensures { out.new ≡ placed out.old at (last_line pages rows) }
{
    let next = write_labelled(&mut *out, at, b"pages ", pages);
    let end = write_labelled(&mut *out, next, b" rows ", rows);
    out[end] = 10;
}
