//! Functions and their parameters.

ghost use Rattle.std.specs.Prelude.{◌≡◌, None, [], Some, ◌++◌, codes};
ghost use Rattle.wgsl_tree_unit.specs.View.{parameter_view, function_view};
ghost use Rattle.wgsl_model.specs.Trees.Attributed.{without_attributes};
ghost use Rattle.wgsl_model.specs.Trees.Statements.{compound_statement, no_statements};
ghost use Rattle.wgsl_tree_expression.specs.View.{ident_name, type_expression_view};
ghost use Rattle.std.specs.Option.{option_map};
ghost use Rattle.std.specs.Fmt.{WritesOnOk};
ghost use Rattle.wgsl_model.specs.Printed.Attributes.{print_attribute_line};
ghost use Rattle.wgsl_model.specs.Printed.Declarations.{print_attributed};
ghost use Rattle.wgsl_model.specs.Printed.Units.{print_parameter, print_result, print_function};
ghost use Rattle.wgsl_tree_attribute.specs.View.{attributes_view};

use std::alloc::Global;
use std::fmt;
use std::fmt::Write;
use wgsl_tree_attribute::{Attributes, AttributesBefore};
use wgsl_tree_expression::{Ident, TypeExpression};
use wgsl_tree_statement::CompoundStatement;
use wgsl_writer::write_joined;

/// A declaration of a function.
#[derive(PartialEq, Debug, Drop)]
pub struct Function {
    pub attributes: Attributes,
    pub ident: Ident,
    pub parameters: Vec<FormalParameter>,
    pub return_attributes: Attributes,
    pub return_type: Option<TypeExpression>,
    pub body: CompoundStatement,
}

impl Function {
    /// Creates the function without attributes and parameters, which returns nothing and has an
    /// empty body.
    pub fn new(alloc: Global, ident: Ident) -> Self
        ensures { function_view result ≡ without_attributes (record {
          ident = ident_name ident;
          parameters = [];
          return_attributes = [];
          return_type = None;
          body = compound_statement [] no_statements;
        }) }
    {
        Function {
            attributes: Vec::new(alloc),
            ident,
            parameters: Vec::new(alloc),
            return_attributes: Vec::new(alloc),
            return_type: None,
            body: CompoundStatement::new(alloc),
        }
    }
}

impl fmt::Display for Function {
    ghost output = { λ function. Some (print_attributed print_function (function_view function)) };

    fn fmt<W: fmt::Write>(&self, f: &mut fmt::Formatter<W>) -> fmt::Result {
        let body = &self.body;
        write_head(&self.attributes, &self.ident, f)?;
        write_joined(&self.parameters, ", ", f)?;
        f.write_str(") ")?;
        write_result(&self.return_attributes, &self.return_type, f)?;
        write!(f, "{body}")
    }
}

/// A parameter of a function.
#[derive(PartialEq, Debug, Drop)]
pub struct FormalParameter {
    pub attributes: Attributes,
    pub ident: Ident,
    pub ty: TypeExpression,
}

impl FormalParameter {
    /// Creates the parameter without attributes.
    pub fn new(alloc: Global, ident: Ident, ty: TypeExpression) -> Self
        ensures { parameter_view result
            ≡ record { attributes = []; ident = ident_name ident; ty = type_expression_view ty } }
    {
        FormalParameter {
            attributes: Vec::new(alloc),
            ident,
            ty,
        }
    }
}

impl fmt::Display for FormalParameter {
    ghost output = { λ parameter. Some (print_parameter (parameter_view parameter)) };

    fn fmt<W: fmt::Write>(&self, f: &mut fmt::Formatter<W>) -> fmt::Result {
        let attributes = AttributesBefore {
            attributes: &self.attributes,
            end: " ",
        };
        let ident = &self.ident;
        let ty = &self.ty;
        write!(f, "{attributes}{ident}: {ty}")
    }
}

/// Writes the attributes of a function, and the function up to its parameters.
fn write_head<W: fmt::Write>(
    attributes: &Attributes,
    ident: &Ident,
    f: &mut fmt::Formatter<W>,
) -> fmt::Result
    ensures { WritesOnOk W.write_str_gives f.old result
        (print_attribute_line (attributes_view attributes.now.items)
        ++ codes "fn " ++ ident_name ident.now ++ codes "(") f.new }
{
    let attributes = AttributesBefore {
        attributes,
        end: "\n",
    };
    write!(f, "{attributes}fn {ident}(")
}

/// Writes what a function returns after an arrow, if it is there.
fn write_result<W: fmt::Write>(
    attributes: &Attributes,
    ty: &Option<TypeExpression>,
    f: &mut fmt::Formatter<W>,
) -> fmt::Result
    ensures { WritesOnOk W.write_str_gives f.old result (print_result
        (attributes_view attributes.now.items) (option_map type_expression_view ty.now)) f.new }
{
    match ty {
        None => Ok(()),
        Some(ty) => {
            let attributes = AttributesBefore {
                attributes,
                end: " ",
            };
            write!(f, "-> {attributes}{ty} ")
        }
    }
}
