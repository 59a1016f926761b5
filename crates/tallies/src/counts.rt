// Counts in a buffer.
ghost use Rattle.std.specs.Prelude.{◌≡◌, ◌+◌, ◌<◌, length, get_or, set};

// Adds one to the count at `at`.
pub fn add_one(counts: &mut [u16], at: usize)
    requires { (at < length counts.old) × (get_or counts.old at 0 < 65535) }
    ensures { counts.new ≡ set counts.old at (get_or counts.old at 0 + 1) }
{
    counts[at] += 1;
}
