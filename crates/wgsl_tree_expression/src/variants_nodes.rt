//! Written by tools/tables/tree_nodes.py from crates/wgsl_model/nodes: which variant a node is,
//! what it holds, and what becomes one.

ghost use Rattle.std.specs.Prelude.{◌≡◌, IsTrue};
ghost use Rattle.wgsl_tree_expression.specs.View.{expression_view, literal_view};
ghost use Rattle.wgsl_tree_expression.specs.VariantsNodes.{is_literal, is_parenthesized};
ghost use Rattle.wgsl_tree_expression.specs.VariantsNodes.{is_named_component, is_indexing};
ghost use Rattle.wgsl_tree_expression.specs.VariantsNodes.{is_unary, is_binary, is_function_call};
ghost use Rattle.wgsl_tree_expression.specs.VariantsNodes.{is_type_or_identifier};
ghost use Rattle.wgsl_tree_expression.specs.declared.expression.Expression.TheVariants as expression;
ghost use Rattle.wgsl_tree_expression.specs.VariantsNodes.{is_bool, is_abstract_int, is_i32};
ghost use Rattle.wgsl_tree_expression.specs.VariantsNodes.{is_u32, is_abstract_float, is_f32};
ghost use Rattle.wgsl_tree_expression.specs.VariantsNodes.{is_f16};
ghost use Rattle.wgsl_tree_expression.specs.declared.literal.LiteralExpression.TheVariants as literal_expression;

use crate::binary::BinaryExpression;
use crate::expression::Expression;
use crate::function_call::FunctionCall;
use crate::indexing::IndexingExpression;
use crate::literal::LiteralExpression;
use crate::named_component::NamedComponentExpression;
use crate::parenthesized::ParenthesizedExpression;
use crate::type_expression::TypeExpression;
use crate::unary::UnaryExpression;

impl Expression {
    /// Returns whether this is `Expression::Literal`.
    pub fn is_literal(&self) -> bool
        ensures { result ≡ is_literal (expression_view self.now) }
    {
        match self {
            Expression::Literal(_) => true,
            Expression::Parenthesized(_)
            | Expression::NamedComponent(_)
            | Expression::Indexing(_)
            | Expression::Unary(_)
            | Expression::Binary(_)
            | Expression::FunctionCall(_)
            | Expression::TypeOrIdentifier(_) => false,
        }
    }

    /// Returns whether this is `Expression::Parenthesized`.
    pub fn is_parenthesized(&self) -> bool
        ensures { result ≡ is_parenthesized (expression_view self.now) }
    {
        match self {
            Expression::Parenthesized(_) => true,
            Expression::Literal(_)
            | Expression::NamedComponent(_)
            | Expression::Indexing(_)
            | Expression::Unary(_)
            | Expression::Binary(_)
            | Expression::FunctionCall(_)
            | Expression::TypeOrIdentifier(_) => false,
        }
    }

    /// Returns whether this is `Expression::NamedComponent`.
    pub fn is_named_component(&self) -> bool
        ensures { result ≡ is_named_component (expression_view self.now) }
    {
        match self {
            Expression::NamedComponent(_) => true,
            Expression::Literal(_)
            | Expression::Parenthesized(_)
            | Expression::Indexing(_)
            | Expression::Unary(_)
            | Expression::Binary(_)
            | Expression::FunctionCall(_)
            | Expression::TypeOrIdentifier(_) => false,
        }
    }

    /// Returns whether this is `Expression::Indexing`.
    pub fn is_indexing(&self) -> bool
        ensures { result ≡ is_indexing (expression_view self.now) }
    {
        match self {
            Expression::Indexing(_) => true,
            Expression::Literal(_)
            | Expression::Parenthesized(_)
            | Expression::NamedComponent(_)
            | Expression::Unary(_)
            | Expression::Binary(_)
            | Expression::FunctionCall(_)
            | Expression::TypeOrIdentifier(_) => false,
        }
    }

    /// Returns whether this is `Expression::Unary`.
    pub fn is_unary(&self) -> bool
        ensures { result ≡ is_unary (expression_view self.now) }
    {
        match self {
            Expression::Unary(_) => true,
            Expression::Literal(_)
            | Expression::Parenthesized(_)
            | Expression::NamedComponent(_)
            | Expression::Indexing(_)
            | Expression::Binary(_)
            | Expression::FunctionCall(_)
            | Expression::TypeOrIdentifier(_) => false,
        }
    }

    /// Returns whether this is `Expression::Binary`.
    pub fn is_binary(&self) -> bool
        ensures { result ≡ is_binary (expression_view self.now) }
    {
        match self {
            Expression::Binary(_) => true,
            Expression::Literal(_)
            | Expression::Parenthesized(_)
            | Expression::NamedComponent(_)
            | Expression::Indexing(_)
            | Expression::Unary(_)
            | Expression::FunctionCall(_)
            | Expression::TypeOrIdentifier(_) => false,
        }
    }

    /// Returns whether this is `Expression::FunctionCall`.
    pub fn is_function_call(&self) -> bool
        ensures { result ≡ is_function_call (expression_view self.now) }
    {
        match self {
            Expression::FunctionCall(_) => true,
            Expression::Literal(_)
            | Expression::Parenthesized(_)
            | Expression::NamedComponent(_)
            | Expression::Indexing(_)
            | Expression::Unary(_)
            | Expression::Binary(_)
            | Expression::TypeOrIdentifier(_) => false,
        }
    }

    /// Returns whether this is `Expression::TypeOrIdentifier`.
    pub fn is_type_or_identifier(&self) -> bool
        ensures { result ≡ is_type_or_identifier (expression_view self.now) }
    {
        match self {
            Expression::TypeOrIdentifier(_) => true,
            Expression::Literal(_)
            | Expression::Parenthesized(_)
            | Expression::NamedComponent(_)
            | Expression::Indexing(_)
            | Expression::Unary(_)
            | Expression::Binary(_)
            | Expression::FunctionCall(_) => false,
        }
    }

    /// Returns what this `Expression::Literal` holds.
    pub fn unwrap_literal(self) -> LiteralExpression
        requires { IsTrue (is_literal (expression_view self)) }
        ensures { self ≡ expression.Literal result }
    {
        match self {
            Expression::Literal(inner) => inner,
            Expression::Parenthesized(_)
            | Expression::NamedComponent(_)
            | Expression::Indexing(_)
            | Expression::Unary(_)
            | Expression::Binary(_)
            | Expression::FunctionCall(_)
            | Expression::TypeOrIdentifier(_) => unreachable!(),
        }
    }

    /// Returns what this `Expression::Parenthesized` holds.
    pub fn unwrap_parenthesized(self) -> ParenthesizedExpression
        requires { IsTrue (is_parenthesized (expression_view self)) }
        ensures { self ≡ expression.Parenthesized result }
    {
        match self {
            Expression::Parenthesized(inner) => inner,
            Expression::Literal(_)
            | Expression::NamedComponent(_)
            | Expression::Indexing(_)
            | Expression::Unary(_)
            | Expression::Binary(_)
            | Expression::FunctionCall(_)
            | Expression::TypeOrIdentifier(_) => unreachable!(),
        }
    }

    /// Returns what this `Expression::NamedComponent` holds.
    pub fn unwrap_named_component(self) -> NamedComponentExpression
        requires { IsTrue (is_named_component (expression_view self)) }
        ensures { self ≡ expression.NamedComponent result }
    {
        match self {
            Expression::NamedComponent(inner) => inner,
            Expression::Literal(_)
            | Expression::Parenthesized(_)
            | Expression::Indexing(_)
            | Expression::Unary(_)
            | Expression::Binary(_)
            | Expression::FunctionCall(_)
            | Expression::TypeOrIdentifier(_) => unreachable!(),
        }
    }

    /// Returns what this `Expression::Indexing` holds.
    pub fn unwrap_indexing(self) -> IndexingExpression
        requires { IsTrue (is_indexing (expression_view self)) }
        ensures { self ≡ expression.Indexing result }
    {
        match self {
            Expression::Indexing(inner) => inner,
            Expression::Literal(_)
            | Expression::Parenthesized(_)
            | Expression::NamedComponent(_)
            | Expression::Unary(_)
            | Expression::Binary(_)
            | Expression::FunctionCall(_)
            | Expression::TypeOrIdentifier(_) => unreachable!(),
        }
    }

    /// Returns what this `Expression::Unary` holds.
    pub fn unwrap_unary(self) -> UnaryExpression
        requires { IsTrue (is_unary (expression_view self)) }
        ensures { self ≡ expression.Unary result }
    {
        match self {
            Expression::Unary(inner) => inner,
            Expression::Literal(_)
            | Expression::Parenthesized(_)
            | Expression::NamedComponent(_)
            | Expression::Indexing(_)
            | Expression::Binary(_)
            | Expression::FunctionCall(_)
            | Expression::TypeOrIdentifier(_) => unreachable!(),
        }
    }

    /// Returns what this `Expression::Binary` holds.
    pub fn unwrap_binary(self) -> BinaryExpression
        requires { IsTrue (is_binary (expression_view self)) }
        ensures { self ≡ expression.Binary result }
    {
        match self {
            Expression::Binary(inner) => inner,
            Expression::Literal(_)
            | Expression::Parenthesized(_)
            | Expression::NamedComponent(_)
            | Expression::Indexing(_)
            | Expression::Unary(_)
            | Expression::FunctionCall(_)
            | Expression::TypeOrIdentifier(_) => unreachable!(),
        }
    }

    /// Returns what this `Expression::FunctionCall` holds.
    pub fn unwrap_function_call(self) -> FunctionCall
        requires { IsTrue (is_function_call (expression_view self)) }
        ensures { self ≡ expression.FunctionCall result }
    {
        match self {
            Expression::FunctionCall(inner) => inner,
            Expression::Literal(_)
            | Expression::Parenthesized(_)
            | Expression::NamedComponent(_)
            | Expression::Indexing(_)
            | Expression::Unary(_)
            | Expression::Binary(_)
            | Expression::TypeOrIdentifier(_) => unreachable!(),
        }
    }

    /// Returns what this `Expression::TypeOrIdentifier` holds.
    pub fn unwrap_type_or_identifier(self) -> TypeExpression
        requires { IsTrue (is_type_or_identifier (expression_view self)) }
        ensures { self ≡ expression.TypeOrIdentifier result }
    {
        match self {
            Expression::TypeOrIdentifier(inner) => inner,
            Expression::Literal(_)
            | Expression::Parenthesized(_)
            | Expression::NamedComponent(_)
            | Expression::Indexing(_)
            | Expression::Unary(_)
            | Expression::Binary(_)
            | Expression::FunctionCall(_) => unreachable!(),
        }
    }
}

impl From<LiteralExpression> for Expression {
    ghost from_gives = { λ inner made. made ≡ expression.Literal inner };

    fn from(inner: LiteralExpression) -> Self {
        Expression::Literal(inner)
    }
}

impl From<ParenthesizedExpression> for Expression {
    ghost from_gives = { λ inner made. made ≡ expression.Parenthesized inner };

    fn from(inner: ParenthesizedExpression) -> Self {
        Expression::Parenthesized(inner)
    }
}

impl From<NamedComponentExpression> for Expression {
    ghost from_gives = { λ inner made. made ≡ expression.NamedComponent inner };

    fn from(inner: NamedComponentExpression) -> Self {
        Expression::NamedComponent(inner)
    }
}

impl From<IndexingExpression> for Expression {
    ghost from_gives = { λ inner made. made ≡ expression.Indexing inner };

    fn from(inner: IndexingExpression) -> Self {
        Expression::Indexing(inner)
    }
}

impl From<UnaryExpression> for Expression {
    ghost from_gives = { λ inner made. made ≡ expression.Unary inner };

    fn from(inner: UnaryExpression) -> Self {
        Expression::Unary(inner)
    }
}

impl From<BinaryExpression> for Expression {
    ghost from_gives = { λ inner made. made ≡ expression.Binary inner };

    fn from(inner: BinaryExpression) -> Self {
        Expression::Binary(inner)
    }
}

impl From<FunctionCall> for Expression {
    ghost from_gives = { λ inner made. made ≡ expression.FunctionCall inner };

    fn from(inner: FunctionCall) -> Self {
        Expression::FunctionCall(inner)
    }
}

impl From<TypeExpression> for Expression {
    ghost from_gives = { λ inner made. made ≡ expression.TypeOrIdentifier inner };

    fn from(inner: TypeExpression) -> Self {
        Expression::TypeOrIdentifier(inner)
    }
}

impl LiteralExpression {
    /// Returns whether this is `LiteralExpression::Bool`.
    pub fn is_bool(&self) -> bool
        ensures { result ≡ is_bool (literal_view self.now) }
    {
        matches!(self, LiteralExpression::Bool(_))
    }

    /// Returns whether this is `LiteralExpression::AbstractInt`.
    pub fn is_abstract_int(&self) -> bool
        ensures { result ≡ is_abstract_int (literal_view self.now) }
    {
        matches!(self, LiteralExpression::AbstractInt(_))
    }

    /// Returns whether this is `LiteralExpression::I32`.
    pub fn is_i32(&self) -> bool
        ensures { result ≡ is_i32 (literal_view self.now) }
    {
        matches!(self, LiteralExpression::I32(_))
    }

    /// Returns whether this is `LiteralExpression::U32`.
    pub fn is_u32(&self) -> bool
        ensures { result ≡ is_u32 (literal_view self.now) }
    {
        matches!(self, LiteralExpression::U32(_))
    }

    /// Returns whether this is `LiteralExpression::AbstractFloat`.
    pub fn is_abstract_float(&self) -> bool
        ensures { result ≡ is_abstract_float (literal_view self.now) }
    {
        matches!(self, LiteralExpression::AbstractFloat(_))
    }

    /// Returns whether this is `LiteralExpression::F32`.
    pub fn is_f32(&self) -> bool
        ensures { result ≡ is_f32 (literal_view self.now) }
    {
        matches!(self, LiteralExpression::F32(_))
    }

    /// Returns whether this is `LiteralExpression::F16`.
    pub fn is_f16(&self) -> bool
        ensures { result ≡ is_f16 (literal_view self.now) }
    {
        matches!(self, LiteralExpression::F16(_))
    }

    /// Returns what this `LiteralExpression::Bool` holds.
    pub fn unwrap_bool(self) -> bool
        requires { IsTrue (is_bool (literal_view self)) }
        ensures { self ≡ literal_expression.Bool result }
    {
        let LiteralExpression::Bool(inner) = self else {
            unreachable!()
        };
        inner
    }

    /// Returns what this `LiteralExpression::AbstractInt` holds.
    pub fn unwrap_abstract_int(self) -> i64
        requires { IsTrue (is_abstract_int (literal_view self)) }
        ensures { self ≡ literal_expression.AbstractInt result }
    {
        let LiteralExpression::AbstractInt(inner) = self else {
            unreachable!()
        };
        inner
    }

    /// Returns what this `LiteralExpression::I32` holds.
    pub fn unwrap_i32(self) -> i32
        requires { IsTrue (is_i32 (literal_view self)) }
        ensures { self ≡ literal_expression.I32 result }
    {
        let LiteralExpression::I32(inner) = self else {
            unreachable!()
        };
        inner
    }

    /// Returns what this `LiteralExpression::U32` holds.
    pub fn unwrap_u32(self) -> u32
        requires { IsTrue (is_u32 (literal_view self)) }
        ensures { self ≡ literal_expression.U32 result }
    {
        let LiteralExpression::U32(inner) = self else {
            unreachable!()
        };
        inner
    }

    /// Returns what this `LiteralExpression::AbstractFloat` holds.
    pub fn unwrap_abstract_float(self) -> String
        requires { IsTrue (is_abstract_float (literal_view self)) }
        ensures { self ≡ literal_expression.AbstractFloat result }
    {
        let LiteralExpression::AbstractFloat(inner) = self else {
            unreachable!()
        };
        inner
    }

    /// Returns what this `LiteralExpression::F32` holds.
    pub fn unwrap_f32(self) -> String
        requires { IsTrue (is_f32 (literal_view self)) }
        ensures { self ≡ literal_expression.F32 result }
    {
        let LiteralExpression::F32(inner) = self else {
            unreachable!()
        };
        inner
    }

    /// Returns what this `LiteralExpression::F16` holds.
    pub fn unwrap_f16(self) -> String
        requires { IsTrue (is_f16 (literal_view self)) }
        ensures { self ≡ literal_expression.F16 result }
    {
        let LiteralExpression::F16(inner) = self else {
            unreachable!()
        };
        inner
    }
}

impl From<bool> for LiteralExpression {
    ghost from_gives = { λ inner made. made ≡ literal_expression.Bool inner };

    fn from(inner: bool) -> Self {
        LiteralExpression::Bool(inner)
    }
}

impl From<i64> for LiteralExpression {
    ghost from_gives = { λ inner made. made ≡ literal_expression.AbstractInt inner };

    fn from(inner: i64) -> Self {
        LiteralExpression::AbstractInt(inner)
    }
}

impl From<i32> for LiteralExpression {
    ghost from_gives = { λ inner made. made ≡ literal_expression.I32 inner };

    fn from(inner: i32) -> Self {
        LiteralExpression::I32(inner)
    }
}

impl From<u32> for LiteralExpression {
    ghost from_gives = { λ inner made. made ≡ literal_expression.U32 inner };

    fn from(inner: u32) -> Self {
        LiteralExpression::U32(inner)
    }
}
