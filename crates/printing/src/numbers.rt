// A number in decimal: its length, and its digits in a buffer.
ghost use Rattle.std.specs.Prelude.{◌≡◌, ◌+◌, ◌≤◌, length};
ghost use Rattle.printing.specs.Text.{decimal, word};
ghost use Rattle.writing.specs.Placed.{placed};

// How many digits the number has.
pub fn decimal_length(n: u16) -> usize
    ensures { (result ≡ length (decimal n)) × (result ≤ 5) }
{
    let mut rest = n;
    let mut count = 1;
    while 10 <= rest {
        rest /= 10;
        count += 1;
    }
    count
}

// Writes the number's digits from `at` on, the last one first.
pub fn write_decimal(out: &mut [u8], at: usize, n: u16) -> usize
    requires { at + length (decimal n) ≤ length out.old }
    ensures value { result ≡ at + length (decimal n) }
    ensures out_after { out.new ≡ placed out.old at (decimal n) }
{
    let end = at + decimal_length(n);
    let mut rest = n;
    let mut last = end - 1;
    while 10 <= rest {
        out[last] = 48 + (rest % 10) as u8;
        rest /= 10;
        last -= 1;
    }
    out[last] = 48 + rest as u8;
    end
}

// Writes the number and the byte `last` after it.
pub fn write_word(out: &mut [u8], at: usize, n: u16, last: u8) -> usize
    requires { at + length (word n last) ≤ length out.old }
    ensures value { result ≡ at + length (word n last) }
    ensures out_after { out.new ≡ placed out.old at (word n last) }
{
    let next = write_decimal(out, at, n);
    out[next] = last;
    next + 1
}
