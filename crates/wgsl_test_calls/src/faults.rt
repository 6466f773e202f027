//! Whether a text is a module, and what is wrong with it.

ghost use Rattle.std.specs.Prelude.{◌≡◌, ⊤, IfOk, MatchOption, true, false, chars, length, string_bytes};
ghost use Rattle.wgsl_parse.specs.Tokens.{Fault};
ghost use Rattle.wgsl_parse.specs.Program.{IsUnit, IsFaultOf};
ghost use Rattle.wgsl_parse.specs.Units.{TranslationUnit};
ghost use Rattle.wgsl_parse.specs.Snippets.{snippet};
ghost use Rattle.wgsl_parse.specs.SpanView.{span_view};
ghost use Rattle.wgsl_parse.specs.ErrorView.{fault_view};
ghost use Rattle.wgsl_parse.specs.ErrorPlaces.{StandsWithin};
ghost use Rattle.wgsl_parse.specs.MarkedLines.{message_in_file};
ghost use Rattle.wgsl_parse.specs.PrintedErrors.{print_error_kind, print_message};

use std::alloc::{AllocError, Global};
use std::borrow::CowStr;
use wgsl_parse::error::{Error, ErrorKind};
use wgsl_parse::parse_str;

/// Returns the fault that is named of a text; none where it is a module. The error is that an
/// allocation failed.
pub fn first_fault(alloc: Global, source: &str) -> Result<Option<Error>, AllocError>
    ensures named { IfOk result (λ found. MatchOption found
        ((unit : TranslationUnit) × IsUnit (chars source.now) unit)
        (λ e. IsFaultOf (chars source.now) (fault_view e))) }
    ensures placed { IfOk result (λ found. MatchOption found ⊤
        (λ e. StandsWithin e.span (length source.now))) }
{
    let Err(error) = parse_str(alloc, source) else {
        return Ok(None);
    };
    if matches!(error.error, ErrorKind::OutOfMemory) {
        return Err(AllocError);
    }
    Ok(Some(error))
}

/// Returns whether a text is a module.
pub fn is_module(alloc: Global, source: &str) -> Result<bool, AllocError>
    ensures yes { IfOk result (λ is. is ≡ true
        → (unit : TranslationUnit) × IsUnit (chars source.now) unit) }
    ensures no { IfOk result (λ is. is ≡ false
        → (fault : Fault) × IsFaultOf (chars source.now) fault) }
{
    Ok(first_fault(alloc, source)?.is_none())
}

/// Returns a message with its line and column, the line of the source, and carets below the span.
pub fn snippet_of(alloc: Global, source: &str, error: Error) -> Result<String, AllocError>
    ensures { IfOk result (λ text. string_bytes text
        ≡ snippet (print_error_kind error.error) (chars source.now) (span_view error.span)) }
{
    let error = error.with_source(CowStr::Borrowed(source));
    error.to_string(alloc)
}

/// Returns a message with the name of a file, as compilers print it, the line of the source, and
/// carets below the span.
pub fn lines_of(
    alloc: Global,
    name: &str,
    source: &str,
    error: &Error,
) -> Result<String, AllocError>
    ensures { let message = print_message error.now.error in
        IfOk result (λ text. string_bytes text
        ≡ message_in_file name.now message (chars source.now) (span_view error.now.span)) }
{
    error.in_file(name, source).to_string(alloc)
}
