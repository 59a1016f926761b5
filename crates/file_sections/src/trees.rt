// Where a tree of nodes ends, of a file whose sections are laid: told by the child counts.
ghost use Rattle.file_sections.specs.Trees.{Tree, Past};

use crate::Sections;
use crate::records::node_children;

// The node after the tree at `node`. The loop goes by the trees still open, which is no index.
pub fn past(file: &[u8], sections: Sections, node: usize) -> usize
    requires { Tree file.now sections node }
    ensures { Past file.now sections node result }
{
    let mut at = node;
    let mut open = 1;
    while 0 < open {
        open = open - 1 + node_children(file, sections, at);
        at += 1;
    }
    at
}
