// The rules on the node tree (number 5). Nodes are read by their place, counted in numbers.
ghost use Rattle.std.specs.Prelude.{◌≡◌, ◌||◌, ◌+◌, ◌*◌, ◌<◌, ◌≤◌, length, eqb};
ghost use Rattle.oat.specs.Basics.{pick};
ghost use Rattle.file_sections.specs.Numbers.{number_at};
ghost use Rattle.file_sections.specs.Layout.{Laid, tables_of};
ghost use Rattle.node_tree.specs.Shape.{child_role};
ghost use Rattle.node_tree.specs.Places.{Standing, Whole, RightAt, PlainAt, Ends, kind_for};
ghost use Rattle.node_tree.specs.Tree.{trees_right};

use crate::demands::{bit_of, demand_of, plain, stands};
use crate::shape::{Role, admits, child_role, count_fits, t_fits, x_fits};
use file_sections::Sections;
use file_sections::numbers::number;

// The kind of the type t; 65,536 where the file has no such type. (An Option: tried, slower, reading takes 1.08 of the time.)
#[tactic(auto, unfolding(crate::specs::Places::kind_for))]
fn kind_of(file: &[u8], types: usize, t: usize) -> usize
    requires { types * 8 + 2 ≤ length file.now }
    ensures { (result ≡ kind_for file.now types t) × (result < 65537) }
{
    if t < types {
        number(file, 1 + t * 4)
    } else {
        65536
    }
}

// How many parameters a function of type t has; 0 for other kinds.
fn params(file: &[u8], types: usize, kind: usize, t: usize) -> usize
    requires { (types * 8 + 2 ≤ length file.now) × (kind ≡ 2 → t < types) }
    ensures { (result ≡ pick (eqb kind 2) (number_at file.now (1 + t * 4 + 3)) 0) × (result < 65536) }
{
    if kind == 2 {
        number(file, 1 + t * 4 + 3)
    } else {
        0
    }
}

// The node may stand in this role, and its operands and its child count are those of its kind.
fn node_right(file: &[u8], types: usize, constant: bool, role: Role, at: usize) -> bool
    requires { Whole file.now types at }
    ensures { RightAt file.now types at constant role result }
{
    let kind = number(file, at);
    let t = number(file, at + 2);
    admits(constant, role, kind)
        && x_fits(kind, number(file, at + 1))
        && t_fits(kind, t, kind_of(file, types, t))
        && count_fits(kind, params(file, types, kind, t), number(file, at + 3))
}

// The node meets the demand of its kind, so that nothing more is to be asked. (As one condition: tried, slower, 1.15 of the time.)
fn is_plain(file: &[u8], types: usize, bit: usize, at: usize) -> bool
    requires { Whole file.now types at }
    ensures { PlainAt file.now types at bit result }
{
    let kind = number(file, at);
    let x = number(file, at + 1);
    let t = number(file, at + 2);
    let count = number(file, at + 3);
    let demand = demand_of(kind);
    if !stands(demand, bit) {
        return false;
    }
    plain(demand, x, t, kind_of(file, types, t), count)
}

// The child i of `count` below a node of this kind, at the place `at`, is right, by the rules. (A function of its own, so that the quick way doesn't
// hold its role; as part of `child_right` reading a deep tree takes 1.02 of the instructions.)
#[inline(never)]
fn child_fits(
    file: &[u8],
    types: usize,
    kind: usize,
    constant: bool,
    count: usize,
    i: usize,
    at: usize,
) -> bool
    requires { Whole file.now types at × (i < 65536) }
    ensures { RightAt file.now types at constant (child_role kind count i) result }
{
    node_right(file, types, constant, child_role(kind, count, i), at)
}

// The child i of `count` below a node of this kind, at the place `at`, is right; most nodes are plain. (As one condition, or with the role in
// place of the kind, the count and i: tried, slower, reading takes 1.1 of the time.)
fn child_right(
    file: &[u8],
    types: usize,
    kind: usize,
    constant: bool,
    count: usize,
    i: usize,
    at: usize,
) -> bool
    requires { Whole file.now types at × (i < 65536) }
    ensures { RightAt file.now types at constant (child_role kind count i) result }
{
    if is_plain(
        file,
        types,
        bit_of(constant, child_role(kind, count, i)),
        at,
    ) {
        return true;
    }
    child_fits(file, types, kind, constant, count, i, at)
}

// Below a global everything is constant.
fn constant_below(constant: bool, kind: usize) -> bool
    ensures { result ≡ (constant || eqb kind 1) }
{
    constant || kind == 1
}

// Where the children of a node of this kind end, the first of which stands at the place `first`, at most `levels` deep; none where one of them is broken. It
// calls itself for children that have children, but for the last one: the node's children end where that one's do, so that the loop goes on with them.
// (A `for` over the children, and a call for the last one too: tried, slower, reading takes 1.12 of the time.)
fn children(
    file: &[u8],
    types: usize,
    kind: usize,
    constant: bool,
    count: usize,
    first: usize,
    levels: usize,
) -> Option<usize>
    requires { Standing file.now types first × (0 < count) × (count < 65536) }
    ensures { Ends file.now types kind constant count first levels result }
{
    let mut above = kind;
    let mut fixed = constant;
    let mut many = count;
    let mut deep = levels;
    let mut at = first;
    let mut i = 0;
    while i < many {
        if deep == 0 {
            return None;
        }
        if file.len() <= at * 2 {
            return None;
        }
        if !child_right(file, types, above, fixed, many, i, at) {
            return None;
        }
        let below = number(file, at);
        let inner = number(file, at + 3);
        if inner == 0 {
            at = at + 4;
            i += 1;
        } else if i + 1 == many {
            fixed = constant_below(fixed, below);
            above = below;
            many = inner;
            deep = deep - 1;
            at = at + 4;
            i = 0;
        } else {
            at = children(
                file,
                types,
                below,
                constant_below(fixed, below),
                inner,
                at + 4,
                deep - 1,
            )?;
            i += 1;
        }
    }
    Some(at)
}

// The declarations stand one after another from node 0 on, and use up the nodes.
pub fn trees_right(file: &[u8], sections: Sections, depth: usize) -> bool
    requires { Laid file.now sections }
    ensures { result ≡ trees_right depth (tables_of file.now sections) }
{
    let mut at = sections.nodes_at;
    while at * 2 < file.len() {
        if depth == 0 {
            return false;
        }
        if !node_right(file, sections.types, false, Role::Declaration, at) {
            return false;
        }
        let kind = number(file, at);
        let Some(next) = children(
            file,
            sections.types,
            kind,
            constant_below(false, kind),
            number(file, at + 3),
            at + 4,
            depth - 1,
        ) else {
            return false;
        };
        at = next;
    }
    true
}
