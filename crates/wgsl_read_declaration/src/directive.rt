//! Reading directives.
#![tactic(auto, unfolding(crate::proofs::Hints::definitions), using(crate::proofs::Hints::lemmas))]

ghost use Rattle.std.specs.Prelude.{◌≡◌, ◌<◌, ◌≤◌, length, map, OnOk, IfOk, option_map, string_bytes};
ghost use Rattle.wgsl_model.specs.Grammar.TokenValues.{text_of};
ghost use Rattle.wgsl_model.specs.Grammar.Checks.{severity_of};
ghost use Rattle.wgsl_model.specs.Trees.Attributed.{with_attributes};
ghost use Rattle.wgsl_model.specs.Grammar.Symbols.{Symbol.global_directive, Symbol.diagnostic_severity};
ghost use Rattle.wgsl_tree_words.specs.View.{severity_view};
ghost use Rattle.wgsl_tree_attribute.specs.View.{attributes_view};
ghost use Rattle.wgsl_tree_unit.specs.View.{global_directive_view};
ghost use Rattle.wgsl_theory_grammar.specs.Factored.{FactoredSymbol.of, FactoredSymbol.further, Further.directive_part, Further.enable_part, Further.requires_part, Further.diagnostic_part};
ghost use Rattle.wgsl_theory_grammar.specs.Reader.{reader};
ghost use Rattle.wgsl_read_cursor.specs.Reading.{state, Gives, Parses};
ghost use Rattle.wgsl_read_attribute.specs.After.{after_attributes};
ghost use Rattle.wgsl_read_declaration.specs.Parts.{names_at, second_name_at};
ghost use Rattle.wgsl_read_declaration.specs.Names.{third_of, second_name_of, dotted};

use std::alloc::{AllocError, Global};
use wgsl_error::{Error, ErrorKind};
use wgsl_lex_token::kind::TokenKind;
use wgsl_read_attribute::parse_attributes;
use wgsl_read_cursor::{Cursor, Expected, Fault};
use wgsl_tree_attribute::Attributes;
use wgsl_tree_unit::{DiagnosticDirective, EnableDirective, GlobalDirective, RequiresDirective};
use wgsl_tree_words::DiagnosticSeverity;

/// What begins a directive, or can be after its attributes.
const DIRECTIVE: Expected = Expected::OneOf(&[
    TokenKind::SymAttr,
    TokenKind::KwDiagnostic,
    TokenKind::KwEnable,
    TokenKind::KwRequires,
]);

/// Reads a directive with its attributes and its `;` (WGSL, "Directives"). A name in the place of a
/// severity that is not one is a checked fault where that name is.
pub fn parse_global_directive(alloc: Global, tokens: &mut Cursor) -> Result<GlobalDirective, Fault>
    ensures { Parses global_directive_view result tokens.old tokens.new
        (reader (of global_directive)) }
{
    let attributes = parse_attributes(alloc, tokens)?;
    parse_directive_part(alloc, tokens, attributes)
}

/// Reads a directive after its attributes.
pub fn parse_directive_part(
    alloc: Global,
    tokens: &mut Cursor,
    attributes: Attributes,
) -> Result<GlobalDirective, Fault>
    ensures { Parses global_directive_view result tokens.old tokens.new
        (after_attributes with_attributes
        (attributes_view attributes.items) (reader (further directive_part))) }
{
    if tokens.is_at(TokenKind::KwEnable) {
        return parse_enable_part(alloc, tokens, attributes);
    }
    if tokens.is_at(TokenKind::KwRequires) {
        return parse_requires_part(alloc, tokens, attributes);
    }
    if tokens.is_at(TokenKind::KwDiagnostic) {
        return parse_diagnostic_part(alloc, tokens, attributes);
    }
    Err(tokens.refuse(DIRECTIVE))
}

/// An `enable` after its attributes.
fn parse_enable_part(
    alloc: Global,
    tokens: &mut Cursor,
    attributes: Attributes,
) -> Result<GlobalDirective, Fault>
    ensures { Parses global_directive_view result tokens.old tokens.new
        (after_attributes with_attributes
        (attributes_view attributes.items) (reader (further enable_part))) }
{
    tokens.expect(TokenKind::KwEnable)?;
    let extensions = parse_names(alloc, tokens)?;
    Ok(GlobalDirective::Enable(EnableDirective {
        attributes,
        extensions,
    }))
}

/// A `requires` after its attributes.
fn parse_requires_part(
    alloc: Global,
    tokens: &mut Cursor,
    attributes: Attributes,
) -> Result<GlobalDirective, Fault>
    ensures { Parses global_directive_view result tokens.old tokens.new
        (after_attributes with_attributes
        (attributes_view attributes.items) (reader (further requires_part))) }
{
    tokens.expect(TokenKind::KwRequires)?;
    let extensions = parse_names(alloc, tokens)?;
    Ok(GlobalDirective::Requires(RequiresDirective {
        attributes,
        extensions,
    }))
}

/// Names, one at least, with a comma after each, or after each but the last, and the `;` after
/// them.
fn parse_names(alloc: Global, tokens: &mut Cursor) -> Result<Vec<String>, Fault>
    ensures { Parses (λ v. map string_bytes v.items) result tokens.old tokens.new names_at }
{
    let mut names = Vec::new(alloc);
    names.push(tokens.name()?)?;
    'names: while tokens.eat(TokenKind::SymComma) {
        if tokens.eat(TokenKind::SymSemicolon) {
            return Ok(names);
        }
        names.push(tokens.name()?)?;
    }
    tokens.expect(TokenKind::SymSemicolon)?;
    Ok(names)
}

/// A `diagnostic` after its attributes, with its severity and the name of its rule (WGSL,
/// "Diagnostics").
fn parse_diagnostic_part(
    alloc: Global,
    tokens: &mut Cursor,
    attributes: Attributes,
) -> Result<GlobalDirective, Fault>
    ensures { Parses global_directive_view result tokens.old tokens.new
        (after_attributes with_attributes
        (attributes_view attributes.items) (reader (further diagnostic_part))) }
{
    let severity = parse_severity(alloc, tokens)?;
    tokens.expect(TokenKind::SymComma)?;
    let first = tokens.name()?;
    let second = parse_second_name(tokens)?;
    tokens.eat(TokenKind::SymComma);
    tokens.expect(TokenKind::SymParenRight)?;
    tokens.expect(TokenKind::SymSemicolon)?;
    Ok(GlobalDirective::Diagnostic(DiagnosticDirective {
        attributes,
        severity,
        rule_name: join(first, second)?,
    }))
}

/// `diagnostic (` and a name, which has to be a severity's.
fn parse_severity(alloc: Global, tokens: &mut Cursor) -> Result<DiagnosticSeverity, Fault>
    ensures value { Gives (λ _. third_of (state tokens.old)) result
        (state tokens.new) (reader (of diagnostic_severity) (state tokens.old)) }
    ensures severity { IfOk result (λ severity.
        severity_view severity ≡ severity_of (third_of (state tokens.old))) }
    ensures shorter { OnOk result
        (length (state tokens.new).rest < length (state tokens.old).rest) }
{
    tokens.expect(TokenKind::KwDiagnostic)?;
    tokens.expect(TokenKind::SymParenLeft)?;
    let start = tokens.start();
    let name = tokens.name()?;
    let span = tokens.span_from(start);
    match DiagnosticSeverity::from_str(name.as_str()) {
        Ok(severity) => Ok(severity),
        Err(()) => Err(Fault::checked(
            alloc,
            Error {
                error: ErrorKind::DiagnosticSeverity,
                span,
            },
        )),
    }
}

/// A `.` with a name, or none.
fn parse_second_name(tokens: &mut Cursor) -> Result<Option<String>, Fault>
    ensures value { Gives (λ _. second_name_of (state tokens.old)) result
        (state tokens.new) (second_name_at (state tokens.old)) }
    ensures text { IfOk result (λ name.
        option_map string_bytes name ≡ option_map text_of (second_name_of (state tokens.old))) }
    ensures shorter { OnOk result
        (length (state tokens.new).rest ≤ length (state tokens.old).rest) }
{
    if !tokens.eat(TokenKind::SymPeriod) {
        return Ok(None);
    }
    Ok(Some(tokens.name()?))
}

/// The name of a rule: a name, or two with a `.` between.
fn join(first: String, second: Option<String>) -> Result<String, AllocError>
    ensures { IfOk result (λ name.
        string_bytes name ≡ dotted (string_bytes first) (option_map string_bytes second)) }
{
    let mut name = first;
    if let Some(second) = second {
        name.push('.')?;
        name.push_str(second.as_str())?;
    }
    Ok(name)
}
