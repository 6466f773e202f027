//! Nodes of trees, by the paths that rows name them by.

use crate::facts::Facts;
use crate::kinds::{Tree, json_of};
use crate::trees::{moved_text, see_printed};
use serde_json::Value;
use std::alloc::{AllocError, Global};
use wgsl_span::Span;
use wgsl_tree_attribute::Attribute;
use wgsl_tree_expression::Expression;
use wgsl_tree_statement::Statement;
use wgsl_tree_unit::GlobalDeclaration;

/// How deep the print of a node may be in that of the whole.
const LEVELS: usize = 4;

/// A node: its JSON, its span if it has one, and the last name of its path.
#[derive(Clone, Copy)]
struct Part<'v> {
    form: &'v Value,
    /// How many links of a chain are of the node, after what is leftmost.
    links: usize,
    span: Option<Span>,
    name: &'v str,
}

/// The text of a row with its tree: the JSON and the print.
#[derive(Clone, Copy)]
struct Whole<'w> {
    alloc: Global,
    text: &'w str,
    form: &'w Value,
    printed: &'w str,
}

/// Sees the nodes of a tree that its row asks for.
pub fn see_parts<T: Tree>(
    tree: &T,
    text: &str,
    printed: &str,
    facts: &mut Facts<'_>,
) -> Result<(), AllocError> {
    let (alloc, row) = (facts.alloc, facts.row);
    let mut asked = row.fields.iter().skip(1);
    if !asked.any(|field| is_of_node(field.words)) {
        return Ok(());
    }
    let Ok(form) = Value::from_str(alloc, &json_of(alloc, tree)?) else {
        return facts.expect(false, "the JSON of a tree is JSON");
    };
    let whole = Whole {
        alloc,
        text,
        form: &form,
        printed,
    };
    for field in row.fields.iter().skip(1) {
        whole.see(field.words, &field.value, facts)?;
    }
    Ok(())
}

/// Whether the words of a row ask for something of a node.
fn is_of_node(words: &str) -> bool {
    let word = words.split(' ').next().unwrap_or("");
    ["part", "span", "variant", "count"].contains(&word)
}

impl Whole<'_> {
    /// Sees what the words of a row ask for, if that is something of a node which is there.
    fn see(self, words: &str, wanted: &[u8], facts: &mut Facts<'_>) -> Result<(), AllocError> {
        let Some((word, path)) = words.split_once(' ') else {
            return Ok(());
        };
        let Some(part) = part_at(self.form, path) else {
            return Ok(());
        };
        match (word, part.span) {
            ("part", _) if path == "." => facts.tell(words, &self.printed),
            ("part", _) => {
                let text = self.text_of(part, wanted, facts)?;
                facts.tell(words, &text)
            }
            ("span", Some(Span { start, end })) => {
                facts.tell(words, &format!(in self.alloc; "{start}..{end}")?)
            }
            ("variant", _) => facts.tell(words, &part.variant().unwrap_or("none")),
            ("count", _) => facts.tell(words, &count_of(part.form)),
            _ => Ok(()),
        }
    }

    /// The print of a node. One without a span, or that is read as nothing by itself, is looked for
    /// in the whole print; a name is the text that the JSON has.
    fn text_of(
        self,
        part: Part<'_>,
        wanted: &[u8],
        facts: &mut Facts<'_>,
    ) -> Result<String, AllocError> {
        match part.name {
            "ident" | "operator" | "component" => {
                String::from_str(self.alloc, part.form.as_str().unwrap_or(""))
            }
            "expression"
            | "left"
            | "right"
            | "base"
            | "index"
            | "operand"
            | "argument"
            | "arguments"
            | "condition"
            | "rhs"
            | "x"
            | "y"
            | "z"
            | "template_args"
            | "initializer" => self.read::<Expression>(part, wanted, facts),
            "statements" => self.read::<Statement>(part, wanted, facts),
            "global_declarations" => self.read::<GlobalDeclaration>(part, wanted, facts),
            "attributes" | "return_attributes" | "body_attributes" => {
                self.read::<Attribute>(part, wanted, facts)
            }
            _ => self.found(wanted),
        }
    }

    /// The print of a node with a span: its text is read by itself, as the node with its spans.
    fn read<T: Tree>(
        self,
        part: Part<'_>,
        wanted: &[u8],
        facts: &mut Facts<'_>,
    ) -> Result<String, AllocError> {
        let Some(Span { start, end }) = part.span else {
            return self.found(wanted);
        };
        let text = self.text.get(start..end).unwrap_or("");
        let text = moved_text(self.alloc, text, start)?;
        let Ok(tree) = T::read(self.alloc, &text) else {
            facts.expect(false, "the text of a node is read by itself")?;
            return Ok(String::new(self.alloc));
        };
        let form = Value::from_str(self.alloc, &json_of(self.alloc, &tree)?);
        let is_same = form.is_ok_and(|form| part.is(&form));
        facts.expect(is_same, "the text of a node is read as the node")?;
        see_printed(&tree, &text, facts)
    }

    /// What is wanted, if the whole print has it at some indentation, else the whole print.
    fn found(self, wanted: &[u8]) -> Result<String, AllocError> {
        let wanted = std::str::from_utf8(wanted).unwrap_or("");
        for level in 0..=LEVELS {
            let mut indent = String::from_str(self.alloc, "\n")?;
            indent.push_str(&"    ".repeat(self.alloc, level)?)?;
            let indented = wanted.replace(self.alloc, "\n", &indent)?;
            if self.printed.contains(indented.as_str()) {
                return String::from_str(self.alloc, wanted);
            }
        }
        String::from_str(self.alloc, self.printed)
    }
}

/// The node at a path of a tree.
fn part_at<'v>(form: &'v Value, path: &'v str) -> Option<Part<'v>> {
    let mut part = Part::of(form, "")?;
    if path == "." {
        return Some(part);
    }
    for step in path.split('.') {
        part = part.step(step)?;
    }
    Some(part)
}

impl<'v> Part<'v> {
    /// The item of this number, or the field of this name.
    fn step(self, step: &'v str) -> Option<Part<'v>> {
        if let Some(link) = self.last_link() {
            let field = fields_of(link).get(step)?;
            return match step {
                "left" | "base" => self.before(span_of(field)?, step),
                _ => Part::of(field, step),
            };
        }
        match (self.form, step.parse::<usize>()) {
            (Value::String(_), _) if step == "ident" => Part::of(self.form, step),
            (form, Ok(index)) => Part::of(fields_of(form).get(index)?, self.name),
            (form, Err(_)) => Part::of(fields_of(form).get(step)?, step),
        }
    }

    /// A node with this JSON and name.
    fn of(form: &'v Value, name: &'v str) -> Option<Part<'v>> {
        let (form, span) = match (form.get("span"), form.get("node")) {
            (Some(span), Some(node)) => (node, Some(span_of(span)?)),
            _ => (form, None),
        };
        let links = chain_in(form).map_or(0, |items| items.len().saturating_sub(1));
        Some(Part {
            form,
            links,
            span,
            name,
        })
    }

    /// The last link of a chain.
    fn last_link(self) -> Option<&'v Value> {
        match self.links {
            0 => None,
            links => chain_in(self.form)?.get(links),
        }
    }

    /// What is before the last link of a chain.
    fn before(self, span: Span, name: &'v str) -> Option<Part<'v>> {
        let (form, links) = match self.links {
            0 | 1 => (chain_in(self.form)?.first()?, 0),
            links => (self.form, links - 1),
        };
        Some(Part {
            form,
            links,
            span: Some(span),
            name,
        })
    }

    /// The name of a node's variant; of a literal, that of its kind.
    fn variant(self) -> Option<&'v str> {
        variant_of(self.last_link().unwrap_or(self.form))
    }

    /// Whether this is the JSON of the node.
    fn is(self, form: &Value) -> bool {
        match (chain_in(self.form), chain_in(form)) {
            (Some(items), Some(others)) => {
                let mut pairs = items.iter().zip(others.iter());
                others.len() == self.links + 1 && pairs.all(|(item, other)| *item == *other)
            }
            _ => *form == *self.form,
        }
    }
}

/// The span of a form `[START,END]`.
fn span_of(form: &Value) -> Option<Span> {
    let start = usize::try_from(form.get(0usize)?.as_u64()?).ok()?;
    let end = usize::try_from(form.get(1usize)?.as_u64()?).ok()?;
    Some(Span { start, end })
}

/// The name of a variant with a field, and the field.
fn variant_in(form: &Value) -> Option<(&str, &Value)> {
    let object = form.as_object()?;
    let (name, field) = object.first_key_value()?;
    let is_variant = object.len() == 1 && name.starts_with(char::is_uppercase);
    is_variant.then_some((name.as_str(), field))
}

/// What a node has, inside its variants.
fn fields_of(mut form: &Value) -> &Value {
    while let Some((_, field)) = variant_in(form) {
        form = field;
    }
    form
}

/// What is leftmost in a chain, and its links.
fn chain_in(form: &Value) -> Option<&Vec<Value>> {
    match variant_in(form) {
        Some(("Chain", Value::Array(items))) => Some(items),
        _ => None,
    }
}

/// The name of the variant that JSON is of: a name is a type or an identifier.
fn variant_of(form: &Value) -> Option<&str> {
    match variant_in(form) {
        Some(("Literal", literal)) => variant_of(literal),
        Some(("Template", _)) => Some("TypeOrIdentifier"),
        Some((name, _)) => Some(name),
        None => form.as_str().map(|_| "TypeOrIdentifier"),
    }
}

/// How many items a list has; 1 or 0 for an optional part.
fn count_of(form: &Value) -> usize {
    match form {
        Value::Array(items) => items.len(),
        Value::Null => 0,
        _ => 1,
    }
}
