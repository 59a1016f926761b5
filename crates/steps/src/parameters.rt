// The parameters of a function.
ghost use Rattle.answers.specs.Walks.{SameBuffers};
ghost use Rattle.steps.specs.Contract.{ReadyParametersAt, ToldParametersAt};

use answers::answer::{Walk, row};
use answers::file::IndexedFile;
use file_sections::records::{list_entry, node_x};

// Binds the `count` parameters of the function at `node`, from the height `base` on, with the types that stand in the type list from
// the entry `first` on, and writes their rows; not where two have one name.
pub fn parameters(
    file: &IndexedFile<'_>,
    walk: &mut Walk<'_>,
    base: usize,
    node: usize,
    first: usize,
    count: usize,
) -> bool
    requires { ReadyParametersAt file.now walk.old base node first count }
    ensures told { ToldParametersAt file.now walk.old base node first count walk.new result }
    ensures same_buffers { SameBuffers walk.old walk.new }
{
    for i in 0..count {
        let at = node + 1 + i;
        let name = node_x(file.bytes, file.sections, at);
        if !walk
            .bindings
            .is_fresh(file.bytes, file.sections, base, name)
        {
            return false;
        }
        let t = list_entry(file.bytes, file.sections, first + i);
        walk.bindings
            .bind(file.bytes, file.sections, base + i, at, t);
        row(walk.rows, at, t, 65535);
    }
    true
}
