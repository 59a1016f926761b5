// A read or a write that failed, told on standard error.
use std::io::{Error, Result};

// Writes a line to standard error: what failed, a colon and the error's text, without the number that the system gives it, which stands there only
// where memory has run out. What standard error takes no contract can say.
pub fn fail<R: Eprint + AllocGlobal>(rt: &R, what: &str, error: Error) -> Result<()> {
    let Ok(text) = format!(in rt.alloc(); "{error}") else {
        return eprintln!(rt; "{what}: {error}");
    };
    match text.as_str().split_once(" (os error ") {
        Some((front, _)) => eprintln!(rt; "{what}: {front}"),
        None => eprintln!(rt; "{what}: {text}"),
    }
}
