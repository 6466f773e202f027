//! Faults that no text has, and what becomes a fault.

use crate::making::{assert_text, text};
use std::alloc::AllocError;
use std::test::Fail;
use wgsl_error::{Error, ErrorKind, ParseError};
use wgsl_parse::syntax::ModulePathParseError;
use wgsl_span::Span;

#[test]
fn an_extra_token_is_told(rt: HostRuntime) -> Result<(), Fail> {
    let extra = ErrorKind::ExtraToken(text(rt.alloc(), "}")?);
    let told = "extra token `}` at the end of the file";
    assert_text(&rt, rt.alloc(), extra, ErrorKind::clone, told)
}

#[test]
fn a_want_of_memory_is_told(rt: HostRuntime) -> Result<(), Fail> {
    let error = Error::from(AllocError);
    assert_text(
        &rt,
        rt.alloc(),
        error,
        Error::clone,
        "chars 0..0: out of memory",
    )
}

#[test]
fn wants_of_memory(rt: HostRuntime) {
    assert!(rt; ParseError::default() == ParseError::LexerError);
    assert!(rt; ParseError::from(AllocError) == ParseError::OutOfMemory);
    assert!(rt; ErrorKind::from(AllocError) == ErrorKind::OutOfMemory);
    let told = ModulePathParseError::from(AllocError).to_string(rt.alloc());
    assert!(rt; told.is_ok_and(|text| text.as_str() == "out of memory"));
}

#[test]
fn a_fault_of_a_token_stands_at_its_place(rt: HostRuntime) {
    let fault = Error::from((6, ParseError::DiagnosticSeverity, 10));
    assert_eq!(rt; fault.span, Span::new(6..10));
    assert!(rt; fault.error == ErrorKind::DiagnosticSeverity);
    assert!(rt; fault != Error::from((6, ParseError::DiagnosticSeverity, 11)));
}
