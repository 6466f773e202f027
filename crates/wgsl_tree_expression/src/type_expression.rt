//! Types, and the arguments of templates.

ghost use Rattle.std.specs.Prelude.{◌≡◌, IfOk, Some};
ghost use Rattle.wgsl_tree_expression.specs.View.{type_expression_view, template_arg_view, ident_name};
ghost use Rattle.wgsl_model.specs.Printed.Expressions.{print_expression_node, print_type};
ghost use Rattle.std.specs.Cmp.{on_per};
ghost use Rattle.wgsl_tree_code.specs.Same.{same};
ghost use Rattle.wgsl_tree_code.specs.Laws.{same_partial};
ghost use Rattle.wgsl_tree_code.specs.ExpressionNodes.{expression_node_code, type_code};
ghost use Rattle.wgsl_model.specs.Trees.Expressions.{type_expression, no_template};

use crate::chain::clone_node;
use crate::expression::ExpressionNode;
use crate::ident::Ident;
use std::alloc::{AllocError, Global};
use std::fmt;
use std::fmt::Write;
use wgsl_span::CloneWith;

/// A name and the arguments of its template, if it has one: a type, or an identifier.
#[cycle(expression)]
#[derive(Debug, Drop)]
pub struct TypeExpression {
    pub ident: Ident,
    pub template_args: TemplateArgs,
}

impl TypeExpression {
    /// Creates the type of a name without template arguments.
    pub fn new(ident: Ident) -> Self
        ensures { type_expression_view result ≡ type_expression (ident_name ident) no_template }
    {
        TypeExpression {
            ident,
            template_args: None,
        }
    }

    /// Returns a copy, unless allocation fails.
    pub fn clone(&self, alloc: Global) -> Result<Self, AllocError>
        ensures { IfOk result (λ copy. type_expression_view copy ≡ type_expression_view self.now) }
    {
        self.clone_with(alloc)
    }
}

impl From<Ident> for TypeExpression {
    ghost from_gives = { λ ident made. type_expression_view made ≡ type_expression (ident_name ident) no_template };

    fn from(ident: Ident) -> Self {
        TypeExpression::new(ident)
    }
}

impl CloneWith for TypeExpression {
    ghost copies = { λ original copy. type_expression_view copy ≡ type_expression_view original };

    #[cycle(clone)]
    fn clone_with(&self, alloc: Global) -> Result<Self, AllocError> {
        let ident = self.ident.clone_with(alloc)?;
        match &self.template_args {
            None => Ok(TypeExpression {
                ident,
                template_args: None,
            }),
            Some(template_args) => {
                let mut copied = Vec::new(alloc);
                'arguments: for argument in template_args {
                    copied.push(argument.clone_with(alloc)?)?;
                }
                Ok(TypeExpression {
                    ident,
                    template_args: Some(copied),
                })
            }
        }
    }
}

impl PartialEq for TypeExpression {
    ghost eq = { λ a b. same (type_code (type_expression_view a)) (type_code (type_expression_view b)) };

    ghost laws = { on_per (λ e. type_code (type_expression_view e)) same_partial };

    #[cycle(equal)]
    fn eq(&self, other: &TypeExpression) -> bool {
        if self.ident.name() != other.ident.name() {
            return false;
        }
        match &self.template_args {
            None => other.template_args.is_none(),
            Some(a) => match &other.template_args {
                None => false,
                Some(b) => {
                    if a.len() != b.len() {
                        return false;
                    }
                    'arguments: for i in 0..a.len() {
                        if !(a[i] == b[i]) {
                            return false;
                        }
                    }
                    true
                }
            },
        }
    }
}

impl fmt::Display for TypeExpression {
    ghost output = { λ e. Some (print_type (type_expression_view e)) };

    #[cycle(display)]
    fn fmt<W: fmt::Write>(&self, f: &mut fmt::Formatter<W>) -> fmt::Result {
        let ident = &self.ident;
        match &self.template_args {
            None => write!(f, "{ident}"),
            Some(template_args) => {
                write!(f, "{ident}<")?;
                let mut before = "";
                'arguments: for argument in template_args {
                    write!(f, "{before}{argument}")?;
                    before = ", ";
                }
                f.write_str(">")
            }
        }
    }
}

/// The arguments of a template list, if there is one.
pub type TemplateArgs = Option<Vec<TemplateArg>>;

/// An argument of a template list.
#[cycle(expression)]
#[derive(Debug, Drop)]
pub struct TemplateArg {
    pub expression: ExpressionNode,
}

impl TemplateArg {
    /// Returns a copy, unless allocation fails.
    pub fn clone(&self, alloc: Global) -> Result<Self, AllocError>
        ensures { IfOk result (λ copy. template_arg_view copy ≡ template_arg_view self.now) }
    {
        self.clone_with(alloc)
    }
}

impl CloneWith for TemplateArg {
    ghost copies = { λ original copy. template_arg_view copy ≡ template_arg_view original };

    #[cycle(clone)]
    fn clone_with(&self, alloc: Global) -> Result<Self, AllocError> {
        Ok(TemplateArg {
            expression: clone_node(&self.expression, alloc)?,
        })
    }
}

impl PartialEq for TemplateArg {
    ghost eq = { λ a b. same (expression_node_code (template_arg_view a)) (expression_node_code (template_arg_view b)) };

    ghost laws = { on_per (λ e. expression_node_code (template_arg_view e)) same_partial };

    #[cycle(equal)]
    fn eq(&self, other: &TemplateArg) -> bool {
        *self.expression.node() == *other.expression.node()
    }
}

impl fmt::Display for TemplateArg {
    ghost output = { λ a. Some (print_expression_node (template_arg_view a)) };

    #[cycle(display)]
    fn fmt<W: fmt::Write>(&self, f: &mut fmt::Formatter<W>) -> fmt::Result {
        let expression = &self.expression;
        write!(f, "{expression}")
    }
}
