// The syntactic category of a node: a declaration, an expression or a statement, by its kind.
#![tactic(auto, unfolding(crate::specs::Categories::category_of, oat::specs::Nodes::is_declaration_kind, oat::specs::Nodes::is_expression_kind, oat::specs::Nodes::is_statement_kind))]

ghost use Rattle.std.specs.Prelude.{◌≡◌};
ghost use Rattle.oat.specs.Nodes.{is_declaration_kind, is_expression_kind, is_statement_kind};
ghost use Rattle.file_sections.specs.Categories.{category_of};

// Parameters (3), field initializers (22), blocks (39) and what is absent (40) are of no category, nor is a number that is no kind.
#[derive(Clone, Copy)]
pub enum Category {
    Declaration,
    Expression,
    Statement,
    Other,
}

// The category of a kind. Kinds are numbers, with ranges: document 01's form.
pub fn category_of(kind: usize) -> Category
    ensures { result ≡ category_of kind }
{
    match kind {
        1..=2 => Category::Declaration,
        10..=21 | 23..=26 => Category::Expression,
        30..=38 => Category::Statement,
        _ => Category::Other,
    }
}

// A node of this kind is a declaration.
pub fn is_declaration(kind: usize) -> bool
    ensures { result ≡ is_declaration_kind kind }
{
    matches!(category_of(kind), Category::Declaration)
}

// A node of this kind is an expression.
pub fn is_expression(kind: usize) -> bool
    ensures { result ≡ is_expression_kind kind }
{
    matches!(category_of(kind), Category::Expression)
}

// A node of this kind is a statement.
pub fn is_statement(kind: usize) -> bool
    ensures { result ≡ is_statement_kind kind }
{
    matches!(category_of(kind), Category::Statement)
}
