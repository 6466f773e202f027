//! What is written of what comes of a text.

ghost use Rattle.std.specs.Prelude.{◌++◌};
ghost use Rattle.wgsl_format_files.specs.Events.{shown_by, told_of};
ghost use Rattle.wgsl_program.specs.Written.{Wrote};

use crate::event::Event;
use std::io::Write;
use wgsl_program::put;

/// Writes what comes of the file of this name: what is shown of it to the output, the message to
/// the errors. Returns whether all of it was written.
pub fn tell_event<W: Write, E: Write>(
    name: &str,
    event: &Event,
    output: &mut W,
    errors: &mut E,
) -> bool
    ensures shown { Wrote result (shown_by event.now)
        (W.contents output.old) (W.contents output.new) }
    ensures told { Wrote result (told_of name.now event.now)
        (E.contents errors.old) (E.contents errors.new) }
{
    let is_shown = put(output, event.shown());
    let is_told = tell_message(name, event, errors);
    is_shown && is_told
}

/// Writes the message with the name of the file, if there is one.
fn tell_message<E: Write>(name: &str, event: &Event, errors: &mut E) -> bool
    ensures { Wrote result (told_of name.now event.now)
        (E.contents errors.old) (E.contents errors.new) }
{
    let Some((lead, text)) = event.message() else {
        return true;
    };
    if !put_both(errors, name.as_bytes(), lead.as_bytes()) {
        return false;
    }
    put_both(errors, text.as_bytes(), b"\n")
}

/// Writes two texts, and returns whether all of them was written.
fn put_both<W: Write>(writer: &mut W, first: &[u8], second: &[u8]) -> bool
    ensures { Wrote result (first.now ++ second.now)
        (W.contents writer.old) (W.contents writer.new) }
{
    if !put(writer, first) {
        return false;
    }
    put(writer, second)
}
