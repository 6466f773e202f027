//! The kinds of trees that a text is read as by itself.

use std::alloc::{AllocError, Global};
use std::fmt;
use wgsl_error::{Error, ErrorKind};
use wgsl_parser::{FromSource, parse_str};
use wgsl_print_packed::{Notation, print_packed};
use wgsl_span::Span;
use wgsl_tree_attribute::{Attribute, AttributeNode};
use wgsl_tree_expression::Expression;
use wgsl_tree_packed::{packed_form, packed_module};
use wgsl_tree_statement::Statement;
use wgsl_tree_unit::{GlobalDeclaration, GlobalDirective, TranslationUnit};

/// How many bytes a span has, which is before an attribute in its packed form.
const SPAN: usize = 16;

/// What makes a module of a tree's text, and what the module's print has around the tree's print
/// and before each of its lines.
#[derive(Clone, Copy)]
pub struct Around {
    pub before: &'static str,
    pub after: &'static str,
    pub printed_before: &'static str,
    pub printed_after: &'static str,
    pub indent: &'static str,
}

/// A tree that is read by itself.
pub trait Tree: fmt::Display + PartialEq + Drop {
    /// Reads the tree that a text is.
    fn read(alloc: Global, text: &str) -> Result<Self, Error>;

    /// Returns what is around its text in a module, unless it is a module.
    fn around() -> Option<Around>;

    /// Returns the tree in a module of its text.
    fn in_module(unit: &TranslationUnit) -> Option<&Self>;

    /// Returns its packed form.
    fn packed(&self, alloc: Global) -> Result<Vec<u8>, AllocError>;

    /// Removes the empty items of its lists.
    fn clear(&mut self) {}
}

/// Returns the JSON of a tree.
pub fn json_of<T: Tree>(alloc: Global, tree: &T) -> Result<String, AllocError> {
    match print_packed(alloc, Notation::Json, &tree.packed(alloc)?) {
        Ok(json) => String::from_utf8(json).map_err(|_| AllocError),
        Err(_) => Err(AllocError),
    }
}

/// The first declaration of a module.
fn declaration_of(unit: &TranslationUnit) -> Option<&GlobalDeclaration> {
    Some(unit.global_declarations.first()?.node())
}

impl Tree for TranslationUnit {
    fn read(alloc: Global, text: &str) -> Result<Self, Error> {
        TranslationUnit::from_str(alloc, text)
    }

    fn around() -> Option<Around> {
        None
    }

    fn in_module(unit: &TranslationUnit) -> Option<&Self> {
        Some(unit)
    }

    fn packed(&self, alloc: Global) -> Result<Vec<u8>, AllocError> {
        packed_module(alloc, self.clone(alloc)?, 0)
    }

    fn clear(&mut self) {
        self.remove_voids();
    }
}

impl Tree for GlobalDirective {
    fn read(alloc: Global, text: &str) -> Result<Self, Error> {
        GlobalDirective::from_str(alloc, text)
    }

    fn around() -> Option<Around> {
        Some(Around {
            before: "",
            after: "",
            printed_before: "",
            printed_after: "\n\n\n",
            indent: "",
        })
    }

    fn in_module(unit: &TranslationUnit) -> Option<&Self> {
        unit.global_directives.first()
    }

    fn packed(&self, alloc: Global) -> Result<Vec<u8>, AllocError> {
        packed_form(alloc, self, 0)
    }
}

impl Tree for GlobalDeclaration {
    fn read(alloc: Global, text: &str) -> Result<Self, Error> {
        GlobalDeclaration::from_str(alloc, text)
    }

    fn around() -> Option<Around> {
        Some(Around {
            before: "",
            after: "",
            printed_before: "",
            printed_after: "\n",
            indent: "",
        })
    }

    fn in_module(unit: &TranslationUnit) -> Option<&Self> {
        declaration_of(unit)
    }

    fn packed(&self, alloc: Global) -> Result<Vec<u8>, AllocError> {
        packed_form(alloc, self, 0)
    }

    fn clear(&mut self) {
        self.remove_voids();
    }
}

impl Tree for Statement {
    fn read(alloc: Global, text: &str) -> Result<Self, Error> {
        Statement::from_str(alloc, text)
    }

    fn around() -> Option<Around> {
        Some(Around {
            before: "fn f() {\n",
            after: "\n}",
            printed_before: "fn f() {\n",
            printed_after: "\n}\n",
            indent: "    ",
        })
    }

    fn in_module(unit: &TranslationUnit) -> Option<&Self> {
        match declaration_of(unit)? {
            GlobalDeclaration::Function(function) => {
                Some(function.body.statements.first()?.node())
            }
            _ => None,
        }
    }

    fn packed(&self, alloc: Global) -> Result<Vec<u8>, AllocError> {
        packed_form(alloc, self, 0)
    }

    fn clear(&mut self) {
        self.remove_voids();
    }
}

impl Tree for Expression {
    fn read(alloc: Global, text: &str) -> Result<Self, Error> {
        Expression::from_str(alloc, text)
    }

    fn around() -> Option<Around> {
        Some(Around {
            before: "const_assert\n",
            after: "\n;",
            printed_before: "const_assert ",
            printed_after: ";\n",
            indent: "",
        })
    }

    fn in_module(unit: &TranslationUnit) -> Option<&Self> {
        match declaration_of(unit)? {
            GlobalDeclaration::ConstAssert(assertion) => Some(assertion.expression.node()),
            _ => None,
        }
    }

    fn packed(&self, alloc: Global) -> Result<Vec<u8>, AllocError> {
        packed_form(alloc, self, 0)
    }
}

impl Tree for Attribute {
    fn read(alloc: Global, text: &str) -> Result<Self, Error> {
        let whole = format!(in alloc; "{text}\nfn f() {{}}")?;
        let unit = parse_str(alloc, &whole)?;
        match Attribute::in_module(&unit) {
            Some(attribute) => Ok(attribute.clone(alloc)?),
            None => Err(Error {
                error: ErrorKind::InvalidToken,
                span: Span::new(0..text.len()),
            }),
        }
    }

    fn around() -> Option<Around> {
        Some(Around {
            before: "",
            after: "\nfn f() {}",
            printed_before: "",
            printed_after: "\nfn f() {\n\n}\n",
            indent: "",
        })
    }

    fn in_module(unit: &TranslationUnit) -> Option<&Self> {
        match declaration_of(unit)? {
            GlobalDeclaration::Function(function) => Some(function.attributes.first()?.node()),
            _ => None,
        }
    }

    fn packed(&self, alloc: Global) -> Result<Vec<u8>, AllocError> {
        let node = AttributeNode::new(alloc, self.clone(alloc)?, Span::new(0..0))?;
        let form = packed_form(alloc, &node, 0)?;
        Vec::from_slice(alloc, form.get(SPAN..).unwrap_or(&form))
    }
}
