// The numbers of the index, and of the chains of struct records.
ghost use Rattle.std.specs.Prelude.{◌≡◌, ◌<◌, length, get_or};

// The number i.
pub fn entry(numbers: &[u16], i: usize) -> usize
    requires { i < length numbers.now }
    ensures { (result ≡ get_or numbers.now i 0) × (result < 65536) }
{
    usize::from(numbers[i])
}
