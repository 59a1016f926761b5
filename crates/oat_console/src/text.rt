// Counts in words.
use std::fmt;

// A number and what is counted, which takes an s unless there is one.
#[derive(Clone, Copy)]
pub(crate) struct Count(pub(crate) usize, pub(crate) &'static str);

impl fmt::Display for Count {
    fn fmt<W: fmt::Write>(&self, f: &mut fmt::Formatter<W>) -> fmt::Result {
        let number = self.0;
        let what = self.1;
        let plural = if number == 1 { "" } else { "s" };
        write!(f, "{number} {what}{plural}")
    }
}
