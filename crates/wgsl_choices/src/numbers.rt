//! Numbers that a user writes.

ghost use Rattle.std.specs.Prelude.{◌≡◌, ◌<◌, ◌≤◌, IfSome};
ghost use Rattle.wgsl_choices.specs.Numbers.{number_in, width_of, size_of};

/// Returns the width that a text writes in decimal digits, from 0 to 9999.
pub fn read_width(text: &str) -> Option<usize>
    ensures { result ≡ width_of text.now }
{
    Some(usize::from(number_in(text, 0, 9999)?))
}

/// Returns the size that a text writes in decimal digits, from 1 to 16.
pub fn read_size(text: &str) -> Option<u8>
    ensures { result ≡ size_of text.now }
{
    match number_in(text, 1, 16) {
        Some(number) => Some(number as u8),
        None => None,
    }
}

/// The number that a text writes in decimal digits, where it is in this range.
fn number_in(text: &str, least: u16, most: u16) -> Option<u16>
    ensures number { result ≡ number_in least most text.now }
    ensures bound { IfSome result (λ number. number ≤ most) }
{
    if text.starts_with('+') {
        return None;
    }
    match text.parse::<u16>() {
        Ok(number) if least <= number && number <= most => Some(number),
        _ => None,
    }
}
