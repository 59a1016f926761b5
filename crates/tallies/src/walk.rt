// One pass over the nodes of an accepted file, tree by tree.
ghost use Rattle.std.specs.Prelude.{◌≡◌, ◌+◌, ◌*◌, ◌≤◌, ◌<◌, length};
ghost use Rattle.oat.specs.Basics.{pick};
ghost use Rattle.oat.specs.Nodes.{is_expression};
ghost use Rattle.file_sections.specs.Layout.{Has, tables_of};
ghost use Rattle.file_sections.specs.Trees.{Tree as IsTree};
ghost use Rattle.tallies.specs.Tallies.{type_in_row};
ghost use Rattle.tallies.specs.Walk.{ReadyWalk, CountedTo, ToldTree, ReadyTally, ToldTally};

use crate::counts::add_one;
use file_sections::Sections;
use file_sections::categories::is_expression;
use file_sections::records::{node_children, node_kind};
use type_index::same::lowest;

// The type's number in the row of a node.
fn type_in_row(rows: &[u16], node: usize) -> usize
    requires { (2 * node < length rows.now) × (node < 4096) }
    ensures { result ≡ type_in_row rows.now node }
{
    usize::from(rows[2 * node])
}

// The node is an expression.
#[tactic(auto, using(crate::proofs::LawsWalk::kind_tells), unfolding(oat::specs::Nodes::is_expression_kind))]
fn is_counted(file: &[u8], sections: Sections, node: usize) -> bool
    requires { Has file.now sections node sections.nodes }
    ensures { result ≡ is_expression (tables_of file.now sections) node }
{
    is_expression(node_kind(file, sections, node))
}

// Counts a node under the lowest number of its type where it is an expression; answers how many expressions that are, 1 or 0.
fn tally_node(
    file: &[u8],
    sections: Sections,
    index: &[u16],
    rows: &[u16],
    types: &mut [u16],
    node: usize,
) -> usize
    requires ready_walk { ReadyWalk file.now sections index.now rows.now × (node < sections.nodes) }
    requires counted_to { CountedTo (tables_of file.now sections) rows.now node types.old }
    ensures value { (result ≡ pick (is_expression (tables_of file.now sections) node) 1 0) × (result ≤ 1) }
    ensures counted_to_2 { CountedTo (tables_of file.now sections) rows.now (node + 1) types.new }
{
    if !is_counted(file, sections, node) {
        return 0;
    }
    add_one(types, lowest(index, type_in_row(rows, node)));
    1
}

// The node after a tree, and how many expressions the tree has.
#[derive(Clone, Copy)]
pub struct Tree {
    pub past: usize,
    pub expressions: usize,
}

// Counts the expressions of the tree at `node`, each under its type.
fn tally_tree(
    file: &[u8],
    sections: Sections,
    index: &[u16],
    rows: &[u16],
    types: &mut [u16],
    node: usize,
) -> Tree
    requires ready_walk { ReadyWalk file.now sections index.now rows.now × IsTree file.now sections node }
    requires counted_to { CountedTo (tables_of file.now sections) rows.now node types.old }
    ensures { ToldTree file.now sections rows.now node types.new result }
{
    let mut at = node;
    let mut open = 1;
    let mut expressions = 0;
    while 0 < open {
        expressions += tally_node(file, sections, index, rows, &mut *types, at);
        open = open - 1 + node_children(file, sections, at);
        at += 1;
    }
    Tree {
        past: at,
        expressions,
    }
}

// Counts the expressions of every declaration, each under its type and all of them under their declaration; answers how many declarations there
// are.
pub fn tally_declarations(
    file: &[u8],
    sections: Sections,
    index: &[u16],
    rows: &[u16],
    types: &mut [u16],
    declarations: &mut [u16],
) -> usize
    requires { ReadyTally file.now sections index.now rows.now types.old declarations.old }
    ensures { ToldTally file.now sections rows.now types.new declarations.new result }
{
    let mut node = 0;
    let mut count = 0;
    while node < sections.nodes {
        let tree = tally_tree(file, sections, index, rows, &mut *types, node);
        declarations[count] = tree.expressions as u16;
        node = tree.past;
        count += 1;
    }
    count
}
