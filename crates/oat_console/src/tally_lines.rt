// The tallies of an accepted file as text.
ghost use Rattle.std.specs.Prelude.{◌≡◌, ◌≤◌, length};
ghost use Rattle.file_sections.specs.Layout.{Laid, Has};
ghost use Rattle.tallies.specs.Tallies.{total};

use crate::text::Count;
use file_sections::Sections;
use file_sections::categories::is_declaration;
use file_sections::records::{node_kind, node_x, type_a, type_c, type_kind};
use std::io::Result;

// What a tally by declaration adds up to; the numbers past its declarations are 0.
fn sum(tally: &[u16]) -> usize
    requires { length tally.now ≤ 2048 }
    ensures { result ≡ total tally.now }
{
    tally.iter().map(|&count| usize::from(count)).sum()
}

// Prints a function type in words.
fn print_function(rt: &HostRuntime, file: &[u8], sections: Sections, t: usize) -> Result<()>
    requires { Has file.now sections t sections.types }
{
    let parameters = Count(type_c(file, sections, t), "parameter");
    let to = type_a(file, sections, t);
    print!(rt; "function of {parameters} to type {to}")
}

// Prints a type in words: its kind, and the name of its struct or the types that it refers to, by their numbers.
fn print_type(rt: &HostRuntime, file: &[u8], sections: Sections, t: usize) -> Result<()>
    requires { Has file.now sections t sections.types }
{
    let a = type_a(file, sections, t);
    match type_kind(file, sections, t) {
        0 => print!(rt; "int"),
        1 => print!(rt; "bool"),
        2 => print!(rt; "string"),
        3 => print!(rt; "void"),
        4 => print!(rt; "struct {a}"),
        5 => print!(rt; "array of type {a}"),
        6 => print_function(rt, file, sections, t),
        _ => print!(rt; "nullable of type {a}"),
    }
}

// Prints a line for each type that has expressions.
fn print_types(rt: &HostRuntime, file: &[u8], sections: Sections, by_type: &[u16]) -> Result<()>
    requires { Laid file.now sections }
{
    println!(rt; "by type")?;
    for (t, &count) in by_type.iter().enumerate() {
        if t < sections.types && count != 0 {
            print!(rt; "  type {t}, ")?;
            print_type(rt, file, sections, t)?;
            println!(rt; ": {count}")?;
        }
    }
    Ok(())
}

// Prints the line of a declaration, a global or a function.
fn print_declaration(
    rt: &HostRuntime,
    file: &[u8],
    sections: Sections,
    node: usize,
    expressions: u16,
) -> Result<()>
    requires { Has file.now sections node sections.nodes }
{
    let what = if node_kind(file, sections, node) == 1 {
        "global"
    } else {
        "function"
    };
    let name = node_x(file, sections, node);
    println!(rt; "  node {node}, {what} {name}: {expressions}")
}

// Prints a line for each declaration: globals and functions, which stand nowhere else.
fn print_declarations(
    rt: &HostRuntime,
    file: &[u8],
    sections: Sections,
    by_declaration: &[u16],
) -> Result<()>
    requires { Laid file.now sections }
{
    println!(rt; "by declaration")?;
    let mut counts = by_declaration.iter();
    for node in 0..sections.nodes {
        if is_declaration(node_kind(file, sections, node)) {
            let Some(&count) = counts.next() else {
                return Ok(());
            };
            print_declaration(rt, file, sections, node, count)?;
        }
    }
    Ok(())
}

// Prints how many expressions an accepted file has, then by type and by declaration, where it has any.
pub(crate) fn print_tallies(
    rt: &HostRuntime,
    file: &[u8],
    sections: Sections,
    by_type: &[u16],
    by_declaration: &[u16],
) -> Result<()>
    requires { Laid file.now sections × (length by_declaration.now ≤ 2048) }
{
    let expressions = Count(sum(by_declaration), "expression");
    println!(rt; "accepted: {expressions}")?;
    if expressions.0 != 0 {
        print_types(rt, file, sections, by_type)?;
    }
    if sections.nodes != 0 {
        print_declarations(rt, file, sections, by_declaration)?;
    }
    Ok(())
}
