//! Written by tools/tables/syntax_names.py from crates/wgsl_model/nodes: the names of all nodes.

pub use wgsl_span::{Span, Spanned};
pub use wgsl_tree_attribute::{
    Attribute, AttributeNode, Attributes, CustomAttribute, DiagnosticAttribute,
    InterpolateAttribute, TypeConstraint, WorkgroupSizeAttribute,
};
pub use wgsl_tree_expression::{
    BinaryExpression, Expression, ExpressionNode, FunctionCall, FunctionCallExpression, Ident,
    IndexingExpression, LiteralExpression, NamedComponentExpression, ParenthesizedExpression,
    TemplateArg, TemplateArgs, TypeExpression, UnaryExpression,
};
pub use wgsl_tree_path::{ModulePath, ModulePathParseError, PathOrigin};
pub use wgsl_tree_statement::{
    AssignmentStatement, BreakIfStatement, BreakStatement, CaseSelector, CompoundStatement,
    ConstAssert, ConstAssertStatement, ContinueStatement, ContinuingStatement, Declaration,
    DeclarationKind, DeclarationStatement, DecrementStatement, DiscardStatement, ElseClause,
    ElseIfClause, ForStatement, FunctionCallStatement, IfClause, IfStatement, IncrementStatement,
    LoopStatement, ReturnStatement, Statement, StatementNode, SwitchClause, SwitchStatement,
    WhileStatement,
};
pub use wgsl_tree_unit::{
    DiagnosticDirective, EnableDirective, FormalParameter, Function, GlobalDeclaration,
    GlobalDeclarationNode, GlobalDirective, RequiresDirective, Struct, StructMember,
    StructMemberNode, TranslationUnit, TypeAlias,
};
pub use wgsl_tree_words::{
    AccessMode, AddressSpace, AssignmentOperator, BinaryOperator, BuiltinValue, DiagnosticSeverity,
    InterpolationSampling, InterpolationType, UnaryOperator,
};
