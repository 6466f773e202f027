//! Names, literals, expressions and types.
#![tactic(auto)]

mod binary;
mod chain;
mod expression;
mod function_call;
mod ident;
mod indexing;
mod literal;
mod named_component;
mod parenthesized;
mod type_expression;
mod unary;
mod variants_nodes;

pub use binary::BinaryExpression;
pub use expression::{Expression, ExpressionNode};
pub use function_call::{FunctionCall, FunctionCallExpression};
pub use ident::Ident;
pub use indexing::IndexingExpression;
pub use literal::LiteralExpression;
pub use named_component::NamedComponentExpression;
pub use parenthesized::ParenthesizedExpression;
pub use type_expression::{TemplateArg, TemplateArgs, TypeExpression};
pub use unary::UnaryExpression;
