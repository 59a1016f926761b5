// What is written to a lent buffer: a text, a number of 16 bits, and the first numbers of another buffer.
#![tactic(auto)]

ghost use Rattle.std.specs.Prelude.{◌≡◌, [], ◌∷◌, ◌++◌, ◌+◌, ◌≤◌, length, take, drop};
ghost use Rattle.oat.specs.Tables.{bytes_of};
ghost use Rattle.writing.specs.Placed.{placed};

// Writes a text from `at` on.
pub fn write_text(out: &mut [u8], at: usize, text: &[u8])
    requires { at + length text.now ≤ length out.old }
    ensures { out.new ≡ placed out.old at text.now }
{
    out[at..at + text.len()].copy_from_slice(text);
}

// Writes a number from `at` on, low byte first.
pub fn write_number(out: &mut [u8], at: usize, n: u16)
    requires { at + 2 ≤ length out.old }
    ensures { out.new ≡ placed out.old at (bytes_of (n ∷ [])) }
{
    out[at] = (n % 256) as u8;
    out[at + 1] = (n / 256) as u8;
}

// Copies the first `count` numbers to the front of a buffer; what lies past them stays.
pub fn copy(from: &[u16], to: &mut [u16], count: usize)
    requires { (count ≤ length from.now) × (count ≤ length to.old) }
    ensures { to.new ≡ take count from.now ++ drop count to.old }
{
    to[..count].copy_from_slice(&from[..count]);
}
