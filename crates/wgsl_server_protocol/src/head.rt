//! The fields before a message.

ghost use Rattle.std.specs.Prelude.{◌≡◌, ◌≤◌, ◌+◌, true, IfSome, length, drop, nat_eq};
ghost use Rattle.std.specs.List.{starts_with};
ghost use Rattle.std.specs.Option.{option_or};
ghost use Rattle.wgsl_server_protocol.specs.Heads as plain;

/// Returns where the fields of a message end: after the first empty line.
#[tactic(auto, using(crate::proofs::Ends::found, crate::proofs::Ends::gone_on, crate::proofs::Ends::at_end))]
pub(crate) fn head_end(bytes: &[u8]) -> Option<usize>
    ensures end { result ≡ plain.head_end bytes.now }
    ensures within { IfSome result (λ end. end ≤ length bytes.now) }
{
    for at in 0..bytes.len() {
        if is_end(bytes, at) {
            return Some(at + 4);
        }
    }
    None
}

/// Returns whether the fields end with the line breaks from a place on.
fn is_end(bytes: &[u8], at: usize) -> bool
    requires { at ≤ length bytes.now }
    ensures end { result ≡ starts_with nat_eq (drop at bytes.now) plain.empty_line }
    ensures within { result ≡ true → at + 4 ≤ length bytes.now }
{
    let (_, rest) = bytes.split_at(at);
    rest.starts_with(b"\r\n\r\n")
}

/// Returns the length that the first field gives which does.
pub(crate) fn length_in(head: &str) -> Option<usize>
    ensures { result ≡ plain.length_in head.now }
{
    head.split('\n')
        .fold(None, |so_far, field| first_of(so_far, field))
}

/// Returns the length that is known, or the one of a field.
fn first_of(known: Option<usize>, field: &str) -> Option<usize>
    ensures { result ≡ option_or known (plain.length_of field.now) }
{
    match known {
        Some(length) => Some(length),
        None => length_of(field),
    }
}

/// Returns the length that a field gives.
fn length_of(field: &str) -> Option<usize>
    ensures { result ≡ plain.length_of field.now }
{
    match field.split_once(':') {
        Some((name, value)) => number_in(name.trim(), value.trim()),
        None => None,
    }
}

/// Returns the number after the colon of a field, if that is the one with the length.
fn number_in(name: &str, value: &str) -> Option<usize>
    ensures { result ≡ plain.number_in name.now value.now }
{
    if name.eq_ignore_ascii_case("Content-Length") {
        number_of(value)
    } else {
        None
    }
}

/// Returns the number that a text writes in decimal digits, if it is below 2 to the power of 32.
fn number_of(text: &str) -> Option<usize>
    ensures { result ≡ plain.number_of text.now }
{
    if text.starts_with('+') {
        return None;
    }
    match text.parse::<u32>() {
        Ok(number) => Some(number as usize),
        Err(_) => None,
    }
}
