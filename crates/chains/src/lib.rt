// Chains among numbers: from each head through the positions of one bucket, the latest first. A head and a link are one higher than
// the position that they lead to, 0 for none.
#![tactic(auto)]

ghost use Rattle.std.specs.Prelude.{◌≡◌, ◌<◌, length, get_or, set};

// Puts a position first in the chain of a head: its link, at `place`, leads to where the head led, and the head to `value`.
pub fn link(numbers: &mut [u16], head: usize, place: usize, value: usize)
    requires { (head < length numbers.old) × (place < length numbers.old) × (value < 65536) }
    ensures { numbers.new ≡ set (set numbers.old place (get_or numbers.old head 0)) head value }
{
    numbers[place] = numbers[head];
    numbers[head] = value as u16;
}
