// The walk along a chain, from its head over its links. A head and a link are one higher than the position that they lead to, 0 for none.
ghost use Rattle.std.specs.Prelude.{◌≡◌, ℕ, ◌<◌, Bool, MatchOption};
ghost use Rattle.type_index.specs.Walk.{Way, Leads, NonePasses, LastPasses};

use crate::entries::entry;

// The last position at which the test passes, where it passes at none that isn't on the chain of this head.
pub fn last_where<F: Fn(usize) -> bool>(
    numbers: &[u16],
    head: usize,
    links: usize,
    test: F,
) -> Option<usize>
    ghost way: { Way }
    requires leads { Leads numbers.now head links way }
    requires callable { (k : ℕ) → k < way.count → F.pre test k }
    requires tests { (k : ℕ) (r : Bool) → k < way.count → F.post test k r → r ≡ way.passes k }
    ensures { MatchOption result (NonePasses way) (LastPasses way) }
{
    // (a `while`: the links lead on, and no index is counted)
    let mut after = entry(numbers, head);
    while 0 < after {
        let k = after - 1;
        if test(k) {
            return Some(k);
        }
        after = entry(numbers, links + k);
    }
    None
}
