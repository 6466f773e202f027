//! What is reported of bytes that are not UTF-8.

ghost use Rattle.std.specs.Prelude.{◌≡◌, string_bytes, take, IfNone, IfOk, IfSome};
ghost use Rattle.std.specs.Str.{IsUtf8, IsValidUpTo};
ghost use Rattle.wgsl_report.specs.Undecoded.{undecoded_message};

use crate::message::message_in_file;
use std::alloc::{AllocError, Global};
use wgsl_span::Span;

/// The text of the bytes before the first that is not UTF-8.
fn text_before(bytes: &[u8], valid: usize) -> &str
    requires { IsValidUpTo bytes.now valid }
    ensures { result.now ≡ take valid bytes.now }
{
    match std::str::from_utf8(&bytes[..valid]) {
        Ok(text) => text,
        Err(_) => "",
    }
}

/// Returns what is reported of the bytes of the file of this name, unless they are UTF-8: the place
/// of the first byte that is not, and the line up to there.
pub fn undecoded_in_file(
    alloc: Global,
    name: &str,
    bytes: &[u8],
) -> Result<Option<String>, AllocError>
    ensures told { IfOk result (λ told. IfSome told (λ message.
        string_bytes message ≡ undecoded_message name.now bytes.now)) }
    ensures some { IfOk result (λ told. IfNone told (IsUtf8 bytes.now)) }
{
    let Err(error) = std::str::from_utf8(bytes) else {
        return Ok(None);
    };
    let valid = error.valid_up_to();
    let span = Span {
        start: valid,
        end: valid,
    };
    let source = text_before(bytes, valid);
    let message = message_in_file(alloc, name, "not UTF-8", source, span)?;
    Ok(Some(message))
}
