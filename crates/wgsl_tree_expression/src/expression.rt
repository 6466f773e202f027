//! Expressions: their copies, equality, prints and conversions, by their variants.

ghost use Rattle.std.specs.Prelude.{◌≡◌, IfOk, Some};
ghost use Rattle.wgsl_tree_expression.specs.View.{ident_name, expression_node_view, expression_view};
ghost use Rattle.wgsl_tree_expression.specs.Chains.{with_left, text_after};
ghost use Rattle.std.specs.Fmt.{WritesOnOk};
ghost use Rattle.wgsl_model.specs.Printed.Expressions.{print_expression, is_abstract_int, fuses};
ghost use Rattle.wgsl_tree_words.specs.View.{unary_operator_view};
ghost use Rattle.std.specs.Cmp.{on_per};
ghost use Rattle.wgsl_tree_code.specs.Same.{same};
ghost use Rattle.wgsl_tree_code.specs.Laws.{same_partial};
ghost use Rattle.wgsl_tree_code.specs.ExpressionNodes.{expression_code};
ghost use Rattle.wgsl_model.specs.Trees.Expressions.{type_expression, no_template, type_or_identifier};
ghost use Rattle.wgsl_tree_expression.specs.declared.expression.Expression.TheVariants as expression;
ghost use Rattle.wgsl_tree_expression.specs.declared.literal.LiteralExpression.TheVariants as literal;

use crate::binary::BinaryExpression;
use crate::function_call::FunctionCall;
use crate::ident::Ident;
use crate::indexing::IndexingExpression;
use crate::literal::LiteralExpression;
use crate::named_component::NamedComponentExpression;
use crate::parenthesized::ParenthesizedExpression;
use crate::type_expression::TypeExpression;
use crate::unary::UnaryExpression;
use std::alloc::{AllocError, Global};
use std::fmt;
use std::fmt::Write;
use wgsl_span::{CloneWith, Spanned};
use wgsl_tree_words::UnaryOperator;

/// An expression.
#[cycle(expression)]
#[derive(Debug, Drop)]
pub enum Expression {
    Literal(LiteralExpression),
    Parenthesized(ParenthesizedExpression),
    NamedComponent(NamedComponentExpression),
    Indexing(IndexingExpression),
    Unary(UnaryExpression),
    Binary(BinaryExpression),
    FunctionCall(FunctionCall),
    TypeOrIdentifier(TypeExpression),
}

/// An expression and where it is.
pub type ExpressionNode = Spanned<Expression>;

impl Expression {
    /// Returns a copy, unless allocation fails.
    pub fn clone(&self, alloc: Global) -> Result<Self, AllocError>
        ensures { IfOk result (λ copy. expression_view copy ≡ expression_view self.now) }
    {
        self.clone_with(alloc)
    }

    /// A copy, but with what is given on the left.
    #[cycle(clone)]
    pub(crate) fn clone_onto(&self, left: ExpressionNode, alloc: Global) -> Result<Self, AllocError>
        ensures { IfOk result (λ copy. expression_view copy
            ≡ with_left (expression_view self.now) (expression_node_view left)) }
    {
        match self {
            Expression::NamedComponent(inner) => Ok(Expression::NamedComponent(inner.clone_onto(
                left, alloc,
            )?)),
            Expression::Indexing(inner) => Ok(Expression::Indexing(inner.clone_onto(left, alloc)?)),
            Expression::Binary(inner) => Ok(Expression::Binary(inner.clone_onto(left, alloc)?)),
            Expression::Literal(_)
            | Expression::Parenthesized(_)
            | Expression::Unary(_)
            | Expression::FunctionCall(_)
            | Expression::TypeOrIdentifier(_) => self.clone_with(alloc),
        }
    }

    /// Writes what is printed after the left side.
    #[cycle(display)]
    pub(crate) fn write_after<W: fmt::Write>(&self, f: &mut fmt::Formatter<W>) -> fmt::Result
        ensures { WritesOnOk W.write_str_gives f.old result
            (text_after (expression_view self.now)) f.new }
    {
        match self {
            Expression::NamedComponent(inner) => inner.write_after(f),
            Expression::Indexing(inner) => inner.write_after(f),
            Expression::Binary(inner) => inner.write_after(f),
            Expression::Literal(_)
            | Expression::Parenthesized(_)
            | Expression::Unary(_)
            | Expression::FunctionCall(_)
            | Expression::TypeOrIdentifier(_) => Ok(()),
        }
    }

    pub(crate) fn is_abstract_int(&self) -> bool
        ensures { result ≡ is_abstract_int (expression_view self.now) }
    {
        match self {
            Expression::Literal(literal) => matches!(literal, LiteralExpression::AbstractInt(_)),
            Expression::Parenthesized(_)
            | Expression::NamedComponent(_)
            | Expression::Indexing(_)
            | Expression::Unary(_)
            | Expression::Binary(_)
            | Expression::FunctionCall(_)
            | Expression::TypeOrIdentifier(_) => false,
        }
    }

    /// Whether the operator would be read as one token with the one that this begins with.
    pub(crate) fn fuses_with(&self, operator: UnaryOperator) -> bool
        ensures { result ≡ fuses (unary_operator_view operator) (expression_view self.now) }
    {
        match self {
            Expression::Unary(inner) => match (operator, inner.operator) {
                (UnaryOperator::Negation, UnaryOperator::Negation) => true,
                (UnaryOperator::AddressOf, UnaryOperator::AddressOf) => true,
                _ => false,
            },
            Expression::Literal(_)
            | Expression::Parenthesized(_)
            | Expression::NamedComponent(_)
            | Expression::Indexing(_)
            | Expression::Binary(_)
            | Expression::FunctionCall(_)
            | Expression::TypeOrIdentifier(_) => false,
        }
    }
}

impl From<bool> for Expression {
    ghost from_gives = { λ value made. made ≡ expression.Literal (literal.Bool value) };

    fn from(value: bool) -> Self {
        Expression::Literal(LiteralExpression::Bool(value))
    }
}

impl From<i64> for Expression {
    ghost from_gives = { λ value made. made ≡ expression.Literal (literal.AbstractInt value) };

    fn from(value: i64) -> Self {
        Expression::Literal(LiteralExpression::AbstractInt(value))
    }
}

impl From<i32> for Expression {
    ghost from_gives = { λ value made. made ≡ expression.Literal (literal.I32 value) };

    fn from(value: i32) -> Self {
        Expression::Literal(LiteralExpression::I32(value))
    }
}

impl From<u32> for Expression {
    ghost from_gives = { λ value made. made ≡ expression.Literal (literal.U32 value) };

    fn from(value: u32) -> Self {
        Expression::Literal(LiteralExpression::U32(value))
    }
}

impl From<Ident> for Expression {
    ghost from_gives = { λ ident made. expression_view made ≡ type_or_identifier (type_expression (ident_name ident) no_template) };

    fn from(ident: Ident) -> Self {
        Expression::TypeOrIdentifier(TypeExpression::new(ident))
    }
}

impl CloneWith for Expression {
    ghost copies = { λ original copy. expression_view copy ≡ expression_view original };

    #[cycle(clone)]
    fn clone_with(&self, alloc: Global) -> Result<Self, AllocError> {
        match self {
            Expression::Literal(inner) => Ok(Expression::Literal(inner.clone_with(alloc)?)),
            Expression::Parenthesized(inner) => Ok(Expression::Parenthesized(inner.clone_with(
                alloc,
            )?)),
            Expression::NamedComponent(inner) => Ok(Expression::NamedComponent(inner.clone_with(
                alloc,
            )?)),
            Expression::Indexing(inner) => Ok(Expression::Indexing(inner.clone_with(alloc)?)),
            Expression::Unary(inner) => Ok(Expression::Unary(inner.clone_with(alloc)?)),
            Expression::Binary(inner) => Ok(Expression::Binary(inner.clone_with(alloc)?)),
            Expression::FunctionCall(inner) => Ok(Expression::FunctionCall(inner.clone_with(
                alloc,
            )?)),
            Expression::TypeOrIdentifier(inner) => Ok(Expression::TypeOrIdentifier(inner.clone_with(
                alloc,
            )?)),
        }
    }
}

impl PartialEq for Expression {
    ghost eq = { λ a b. same (expression_code (expression_view a)) (expression_code (expression_view b)) };

    ghost laws = { on_per (λ e. expression_code (expression_view e)) same_partial };

    #[cycle(equal)]
    fn eq(&self, other: &Expression) -> bool {
        match self {
            Expression::Literal(a) => match other {
                Expression::Literal(b) => *a == *b,
                Expression::Parenthesized(_)
                | Expression::NamedComponent(_)
                | Expression::Indexing(_)
                | Expression::Unary(_)
                | Expression::Binary(_)
                | Expression::FunctionCall(_)
                | Expression::TypeOrIdentifier(_) => false,
            },
            Expression::Parenthesized(a) => match other {
                Expression::Parenthesized(b) => *a == *b,
                Expression::Literal(_)
                | Expression::NamedComponent(_)
                | Expression::Indexing(_)
                | Expression::Unary(_)
                | Expression::Binary(_)
                | Expression::FunctionCall(_)
                | Expression::TypeOrIdentifier(_) => false,
            },
            Expression::NamedComponent(a) => match other {
                Expression::NamedComponent(b) => *a == *b,
                Expression::Literal(_)
                | Expression::Parenthesized(_)
                | Expression::Indexing(_)
                | Expression::Unary(_)
                | Expression::Binary(_)
                | Expression::FunctionCall(_)
                | Expression::TypeOrIdentifier(_) => false,
            },
            Expression::Indexing(a) => match other {
                Expression::Indexing(b) => *a == *b,
                Expression::Literal(_)
                | Expression::Parenthesized(_)
                | Expression::NamedComponent(_)
                | Expression::Unary(_)
                | Expression::Binary(_)
                | Expression::FunctionCall(_)
                | Expression::TypeOrIdentifier(_) => false,
            },
            Expression::Unary(a) => match other {
                Expression::Unary(b) => *a == *b,
                Expression::Literal(_)
                | Expression::Parenthesized(_)
                | Expression::NamedComponent(_)
                | Expression::Indexing(_)
                | Expression::Binary(_)
                | Expression::FunctionCall(_)
                | Expression::TypeOrIdentifier(_) => false,
            },
            Expression::Binary(a) => match other {
                Expression::Binary(b) => *a == *b,
                Expression::Literal(_)
                | Expression::Parenthesized(_)
                | Expression::NamedComponent(_)
                | Expression::Indexing(_)
                | Expression::Unary(_)
                | Expression::FunctionCall(_)
                | Expression::TypeOrIdentifier(_) => false,
            },
            Expression::FunctionCall(a) => match other {
                Expression::FunctionCall(b) => *a == *b,
                Expression::Literal(_)
                | Expression::Parenthesized(_)
                | Expression::NamedComponent(_)
                | Expression::Indexing(_)
                | Expression::Unary(_)
                | Expression::Binary(_)
                | Expression::TypeOrIdentifier(_) => false,
            },
            Expression::TypeOrIdentifier(a) => match other {
                Expression::TypeOrIdentifier(b) => *a == *b,
                Expression::Literal(_)
                | Expression::Parenthesized(_)
                | Expression::NamedComponent(_)
                | Expression::Indexing(_)
                | Expression::Unary(_)
                | Expression::Binary(_)
                | Expression::FunctionCall(_) => false,
            },
        }
    }
}

impl fmt::Display for Expression {
    ghost output = { λ e. Some (print_expression (expression_view e)) };

    #[cycle(display)]
    fn fmt<W: fmt::Write>(&self, f: &mut fmt::Formatter<W>) -> fmt::Result {
        match self {
            Expression::Literal(literal) => write!(f, "{literal}"),
            Expression::Parenthesized(inner) => write!(f, "{inner}"),
            Expression::NamedComponent(inner) => write!(f, "{inner}"),
            Expression::Indexing(inner) => write!(f, "{inner}"),
            Expression::Unary(inner) => write!(f, "{inner}"),
            Expression::Binary(inner) => write!(f, "{inner}"),
            Expression::FunctionCall(inner) => write!(f, "{inner}"),
            Expression::TypeOrIdentifier(inner) => write!(f, "{inner}"),
        }
    }
}
