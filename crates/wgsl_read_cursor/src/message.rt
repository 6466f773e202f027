//! The errors of tokens that could not be read.

ghost use Rattle.std.specs.Prelude.{◌≡◌, IfOk};
ghost use Rattle.wgsl_model.specs.Faults.Kinds.{unexpected_token, unexpected_end};
ghost use Rattle.wgsl_lex_token.specs.Placed.{placed_view};
ghost use Rattle.wgsl_error.specs.View.{fault_view};

use crate::Expected;
use std::alloc::{AllocError, Global};
use wgsl_error::{Error, ErrorKind};
use wgsl_lex_token::placed::PlacedToken;
use wgsl_span::Span;

/// The error of a token that can't be where it is.
pub(crate) fn unexpected_token(
    alloc: Global,
    token: PlacedToken,
    expected: Expected,
) -> Result<Error, AllocError>
    ensures { IfOk result (λ e. fault_view e ≡ unexpected_token (placed_view token)) }
{
    let refused = token.token.kind();
    Ok(Error {
        error: ErrorKind::UnexpectedToken {
            token: format!(in alloc; "{}", token.token)?,
            expected: expected.texts(alloc, Some(refused))?,
        },
        span: token.span,
    })
}

/// The error of an end after which a token is missing.
pub(crate) fn unexpected_end(
    alloc: Global,
    place: usize,
    expected: Expected,
) -> Result<Error, AllocError>
    ensures { IfOk result (λ e. fault_view e ≡ unexpected_end place) }
{
    Ok(Error {
        error: ErrorKind::UnexpectedEof {
            expected: expected.texts(alloc, None)?,
        },
        span: Span {
            start: place,
            end: place.saturating_add(1),
        },
    })
}
