// What a node of a kind may be with no further question, in numbers: the quick way of reading, which most nodes go. `shape` has the rules.
ghost use Rattle.std.specs.Prelude.{◌≡◌, ◌||◌, eqb, ltb};
ghost use Rattle.node_tree.specs.Demands;
ghost use Rattle.node_tree.specs.Demands.{Keeps, bit_of, stands_as, plain_for};

use crate::shape::Role;

// Any x, or any number of children: numbers are of 16 bits.
const ANY: usize = 65535;
// The kind of no type, and not what is told where there is no type (65,536).
const NO_KIND: usize = 65537;
// Kinds of types.
const STRUCT: usize = 4;

const ARRAY: usize = 5;

const NULLABLE: usize = 7;
// The roles that a node may stand in, as bits, so that one test tells whether a node may stand in a role: in none,
const NOWHERE: usize = 0;
// as a declaration,
const DECLARATION: usize = 1;
// as a parameter,
const PARAMETER: usize = 2;
// as an expression or a condition (4 + 256),
const EXPRESSION: usize = 260;
// as these, and in a global's tree too (1,024 + 65,536),
const CONSTANT: usize = 66820;
// as a field initializer,
const INITIALIZER: usize = 8;
// as an expression, a condition or the left side of an assignment (4 + 256 + 16),
const PLACE: usize = 276;
// as these, and in a global's tree too,
const NAME: usize = 66836;
// as a statement or a for's step (64 + 512),
const STATEMENT: usize = 576;
// as a statement, a for's step or one of its vars (64 + 512 + 32),
const VAR: usize = 608;
// as a block,
const BLOCK: usize = 128;
// as a for's condition (256 + 65,536) or step (512).
const ABSENT: usize = 66304;

// A demand. Its node's x is at most `limit`; its t is less than `free`, or a type of the kind `typed`; it has `least` to `most` children. It stands in
// one of `roles`.
#[derive(Clone, Copy)]
pub struct Demand {
    pub limit: usize,
    // An Option of a kind in place of `free` and `typed`: tried, slower (the compiler makes no tables, and reading takes 1.27 of the time).
    pub free: usize,
    pub typed: usize,
    pub least: usize,
    pub most: usize,
    pub roles: usize,
}

// A demand whose t is 0.
fn bare(limit: usize, least: usize, most: usize, roles: usize) -> Demand
    ensures { result ≡ Demands.bare limit least most roles }
{
    Demand {
        limit,
        free: 1,
        typed: NO_KIND,
        least,
        most,
        roles,
    }
}

// A demand whose t is a type of the kind `kind`.
fn typed(kind: usize, limit: usize, least: usize, most: usize, roles: usize) -> Demand
    ensures { result ≡ Demands.typed kind limit least most roles }
{
    Demand {
        limit,
        free: 0,
        typed: kind,
        least,
        most,
        roles,
    }
}

// The demand of a kind. There is an arm for each kind, since the compiler makes tables of constants so, and of a range a chain of tests. Of a
// function (2) and an if? (36) more is asked than a demand says, so that they have the one that nothing meets.
pub fn demand_of(kind: usize) -> Demand
    ensures { Keeps kind result }
{
    match kind {
        1 => bare(ANY, 1, 1, DECLARATION),
        3 => bare(ANY, 0, 0, PARAMETER),
        10 => typed(NULLABLE, 0, 0, 0, CONSTANT),
        11 => bare(0, 0, 0, CONSTANT),
        12 => bare(0, 0, 0, CONSTANT),
        13 => bare(ANY, 0, 0, CONSTANT),
        14 => bare(ANY, 0, 0, CONSTANT),
        15 => bare(ANY, 0, 0, NAME),
        16 => typed(ARRAY, 0, 0, ANY, CONSTANT),
        17 => typed(ARRAY, 0, 1, 1, EXPRESSION),
        18 => typed(ARRAY, ANY, 2, 2, EXPRESSION),
        19 => bare(0, 2, 2, PLACE),
        20 => bare(0, 1, 1, EXPRESSION),
        21 => typed(STRUCT, 0, 0, ANY, CONSTANT),
        22 => bare(ANY, 1, 1, INITIALIZER),
        23 => bare(ANY, 1, 1, PLACE),
        24 => bare(0, 1, ANY, EXPRESSION),
        25 => bare(2, 1, 1, EXPRESSION),
        26 => bare(15, 2, 2, EXPRESSION),
        30 => bare(0, 2, 2, STATEMENT),
        31 => bare(ANY, 1, 1, VAR),
        32 => bare(0, 1, 1, STATEMENT),
        33 => bare(0, 0, 0, STATEMENT),
        34 => bare(0, 1, ANY, STATEMENT),
        35 => bare(0, 3, 3, STATEMENT),
        37 => bare(0, 3, ANY, STATEMENT),
        38 => bare(0, 2, 2, STATEMENT),
        39 => bare(0, 0, ANY, BLOCK),
        40 => bare(0, 0, 0, ABSENT),
        _ => typed(NO_KIND, 0, 1, 0, NOWHERE),
    }
}

// The bit of a role; where expressions must be constant, that of an expression and of a condition is another.
pub fn bit_of(constant: bool, role: Role) -> usize
    ensures { result ≡ bit_of constant role }
{
    match role {
        Role::Declaration => 1,
        Role::Parameter => 2,
        Role::Expression => if constant { 1024 } else { 4 },
        Role::Initializer => 8,
        Role::Target => 16,
        Role::Var => 32,
        Role::Statement => 64,
        Role::Block => 128,
        Role::Condition => if constant { 65536 } else { 256 },
        Role::Step => 512,
    }
}

// A node of this demand may stand in the role of this bit.
#[tactic(auto, unfolding(crate::specs::Demands::stands_as))]
pub fn stands(demand: Demand, bit: usize) -> bool
    ensures { result ≡ stands_as demand bit }
{
    demand.roles & bit != 0
}

// t is less than the demand's bound, or a type of the kind that it names.
fn typed_so(demand: Demand, t: usize, kind: usize) -> bool
    ensures { result ≡ (ltb t demand.free || eqb kind demand.typed) }
{
    t < demand.free || kind == demand.typed
}

// The operands and the child count are what the demand asks; `kind` is the kind of the type t.
#[tactic(auto, unfolding(crate::specs::Demands::plain_for))]
pub fn plain(demand: Demand, x: usize, t: usize, kind: usize, count: usize) -> bool
    ensures { result ≡ plain_for demand x t kind count }
{
    x <= demand.limit && typed_so(demand, t, kind) && demand.least <= count && count <= demand.most
}
