// A refusal in words.
use std::io::Result;

// What a number of document 01's table, or of document 02's requests, means.
fn meaning(number: u16) -> &'static str {
    match number {
        1 => "length wrong",
        2 => "count over its most",
        3 => "types or type list broken",
        4 => "fields, structs or built-ins broken",
        5 => "node tree broken",
        6 => "rows or work short",
        7 => "name bound twice",
        8 => "name or field unknown",
        9 => "undeclared struct in a type",
        10 => "wrong sort of type",
        11 => "not a subtype",
        12 => "arguments or fields don't match",
        13 => "void against value",
        14 => "return mark wrong",
        15 => "function assigned",
        16 => "element without default",
        17 => "type not in file",
        18 => "page buffer too short",
        19 => "tally buffer too short",
        25 => "a limit out of its range",
        _ => "number without a meaning",
    }
}

// Prints a refusal: its number and what that means, with the step and the place where a typing rule is broken.
pub(crate) fn print_refusal(rt: &HostRuntime, number: u16, step: u16, place: u16) -> Result<()> {
    let means = meaning(number);
    if (7..=16).contains(&number) {
        println!(rt; "refused: {number}, {means} (step {step}, place {place})")
    } else {
        println!(rt; "refused: {number}, {means}")
    }
}
