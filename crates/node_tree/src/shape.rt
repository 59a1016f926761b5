// The shape of a node by its kind: where it may stand, its operands, its children (document 01, 'The program file').
ghost use Rattle.std.specs.Prelude.{◌≡◌, ◌||◌, ◌+◌, ◌<◌, eqb};
ghost use Rattle.oat.specs.Basics.{pick};
ghost use Rattle.node_tree.specs.Shape;
ghost use Rattle.node_tree.specs.Shape.{is_expression, is_statement, x_fits, count_fits, for_role, child_role};
ghost use Rattle.node_tree.specs.Demands.{TypeFits};

use type_tables::types::reference_kind;

// What stands at a place of the tree.
#[derive(Clone, Copy)]
pub enum Role {
    Declaration,
    Parameter,
    Expression,
    Initializer,
    Target,
    Var,
    Statement,
    Block,
    Condition,
    Step,
}

// The kinds of declarations.
fn is_declaration(kind: usize) -> bool
    ensures { result ≡ (eqb kind 1 || eqb kind 2) }
{
    matches!(kind, 1..=2)
}

// The kinds of expressions; in a global's tree (`constant`) 10 to 16 and 21 alone.
#[tactic(auto, unfolding(crate::specs::Shape::is_expression))]
fn is_expression(constant: bool, kind: usize) -> bool
    ensures { result ≡ is_expression constant kind }
{
    matches!(kind, 10..=16 | 21) || !constant && matches!(kind, 17..=20 | 23..=26)
}

// The kinds of statements.
#[tactic(auto, unfolding(crate::specs::Shape::is_statement))]
fn is_statement(kind: usize) -> bool
    ensures { result ≡ is_statement kind }
{
    matches!(kind, 30..=38)
}

// The kinds of the left side of an assignment.
fn is_target(kind: usize) -> bool
    ensures { result ≡ (eqb kind 15 || eqb kind 19 || eqb kind 23) }
{
    matches!(kind, 15 | 19 | 23)
}

// A node of this kind may stand in this role.
#[tactic(auto, unfolding(crate::specs::Shape::admits))]
pub fn admits(constant: bool, role: Role, kind: usize) -> bool
    ensures { result ≡ Shape.admits constant role kind }
{
    match role {
        Role::Declaration => is_declaration(kind),
        Role::Parameter => kind == 3,
        Role::Expression => is_expression(constant, kind),
        Role::Initializer => kind == 22,
        Role::Target => is_target(kind),
        Role::Var => kind == 31,
        Role::Statement => is_statement(kind),
        Role::Block => kind == 39,
        Role::Condition => kind == 40 || is_expression(constant, kind),
        Role::Step => kind == 40 || is_statement(kind),
    }
}

// x is an operand of the kind, or 0.
#[tactic(auto, unfolding(crate::specs::Shape::x_fits))]
pub fn x_fits(kind: usize, x: usize) -> bool
    ensures { result ≡ x_fits kind x }
{
    match kind {
        1..=3 | 13..=15 | 18 | 22 | 23 | 31 | 36 => true,
        25 => x <= 2,
        26 => x <= 15,
        _ => x == 0,
    }
}

// t, a type of the kind `typed`, is an operand of the kind, or 0.
pub fn t_fits(kind: usize, t: usize, typed: usize) -> bool
    ensures { TypeFits kind t typed result }
{
    match kind {
        2 => typed == 6,
        10 => typed == 7,
        16..=18 => typed == 5,
        21 => typed == 4,
        36 => reference_kind(typed),
        _ => t == 0,
    }
}

// A node of this kind has so many children.
#[tactic(auto, unfolding(crate::specs::Shape::count_fits))]
pub fn count_fits(kind: usize, params: usize, count: usize) -> bool
    requires { params < 65536 }
    ensures { result ≡ count_fits kind params count }
{
    match kind {
        1 | 17 | 20 | 22 | 23 | 25 | 31 | 32 => count == 1,
        2 => count == params + 1,
        18 | 19 | 26 | 30 | 38 => count == 2,
        35 | 36 => count == 3,
        24 | 34 => 1 <= count,
        37 => 3 <= count,
        16 | 21 | 39 => true,
        _ => count == 0,
    }
}

// The role of the child i of `count` in a for: vars, condition, step, block.
#[tactic(auto, unfolding(crate::specs::Shape::for_role))]
fn for_role(count: usize, i: usize) -> Role
    requires { i < 65536 }
    ensures { result ≡ for_role count i }
{
    if i + 1 == count {
        Role::Block
    } else if i + 2 == count {
        Role::Step
    } else if i + 3 == count {
        Role::Condition
    } else {
        Role::Var
    }
}

// The role of the child i of `count` below a node of this kind. (Made part of its callers: the quick way turns it into a bit at once, and as a
// call reading a deep tree takes 1.09 of the instructions.)
#[inline(always)]
#[tactic(auto, unfolding(crate::specs::Shape::child_role))]
pub fn child_role(kind: usize, count: usize, i: usize) -> Role
    requires { i < 65536 }
    ensures { result ≡ child_role kind count i }
{
    match kind {
        2 => if i + 1 == count {
            Role::Block
        } else {
            Role::Parameter
        },
        21 => Role::Initializer,
        30 => if i == 0 {
            Role::Target
        } else {
            Role::Expression
        },
        35 | 36 | 38 => if i == 0 {
            Role::Expression
        } else {
            Role::Block
        },
        37 => for_role(count, i),
        39 => Role::Statement,
        _ => Role::Expression,
    }
}
