//! A run over inputs.

ghost use Rattle.std.specs.Prelude.{◌≡◌, ◌≢◌, ◌<◌, ◌+◌, ◌^◌, Bool, max, map, string_bytes, IfOk};
ghost use Rattle.wgsl_format_options.specs.declared.options.Mode.TheVariants.{Write};
ghost use Rattle.wgsl_files.specs.Files.{Same};
ghost use Rattle.wgsl_files.specs.Rewriting.{ChangesOnly};
ghost use Rattle.wgsl_files.specs.Statuses.{code_of};
ghost use Rattle.std.specs.Option.{option_copied};
ghost use Rattle.wgsl_format_files.specs.Configs.{AreChosenAt, BecomesBy, place_of};
ghost use Rattle.wgsl_format_files.specs.Tidy.{Refuses};
ghost use Rattle.wgsl_format_files.specs.Events.{shown_by, told_of};
ghost use Rattle.wgsl_format_files.specs.Events.{status_of, is_changed, is_failed, one_if};
ghost use Rattle.wgsl_format_files.specs.Inputs.{input_view, paths_of};
ghost use Rattle.wgsl_format_files.specs.Runs.{ComesOf, Runs, state, WroteMore, IsStatus};
ghost use Rattle.wgsl_format_files.specs.Runs.{summary, has_summary, counts_of, changed_words};

use crate::config::choices_for;
use crate::event::Event;
use crate::file::format_file;
use crate::formatter::Tidy;
use crate::input::format_input;
use crate::inputs::Input;
use crate::layout::layout_of;
use crate::printing::tell_event;
use std::alloc::{AllocError, Global};
use std::io::{Read, Write};
use wgsl_choices::Choices;
use wgsl_files::{Status, Store};
use wgsl_format_options::Mode;
use wgsl_program::put;

/// The way in which files are formatted.
#[derive(Clone, Copy, Debug)]
pub struct How<'n> {
    pub mode: Mode,
    /// No summary is written.
    pub quiet: bool,
    /// The path that the standard input is from, if it is given.
    pub stdin_path: Option<&'n str>,
    /// The name of the standard input in messages.
    pub stdin_name: &'n str,
    /// What is chosen of the layout, whatever `.editorconfig` files say.
    pub choices: Choices,
}

/// What a run has come to so far.
#[derive(Clone, Copy)]
struct Tally {
    changed: usize,
    failed: usize,
    status: Status,
    /// All that is to be written was written.
    whole: bool,
}

impl Tally {
    /// After what came of one more input.
    fn after(self, event: &Event, whole: bool) -> Tally
        requires changed { self.changed + 1 < 2 ^ 64 }
        requires failed { self.failed + 1 < 2 ^ 64 }
        ensures changed { result.changed ≡ self.changed + one_if (is_changed event.now) }
        ensures failed { result.failed ≡ self.failed + one_if (is_failed event.now) }
        ensures status { code_of result.status
            ≡ max (code_of self.status) (code_of (status_of event.now)) }
        ensures whole { result.whole ≡ whole }
    {
        Tally {
            changed: self.changed + usize::from(event.is_changed()),
            failed: self.failed + usize::from(event.is_failed()),
            status: self.status.or(event.status()),
            whole,
        }
    }
}

/// What is chosen for an input.
fn chosen_for<S: Store>(
    alloc: Global,
    store: &S,
    how: How<'_>,
    source: &Input,
) -> Result<Choices, AllocError>
    ensures { IfOk result (AreChosenAt (S.files store.now) how.entry.choices
        (place_of (option_copied how.entry.stdin_path) (input_view source.now))) }
{
    match source {
        Input::File(path) => choices_for(alloc, store, how.choices, path.as_str()),
        Input::StandardInput => match how.stdin_path {
            Some(path) => choices_for(alloc, store, how.choices, path),
            None => Ok(how.choices),
        },
    }
}

/// What comes of one input, which is formatted by the layout that is chosen for it.
fn event_of<S: Store, R: Read>(
    alloc: Global,
    store: &mut S,
    how: How<'_>,
    source: &Input,
    input: &mut R,
) -> Event
    ensures { ComesOf (BecomesBy how.entry.choices (option_copied how.entry.stdin_path)) Refuses
        how.entry.mode how.entry.stdin_name.now
        (state (S.files store.old) (R.remaining input.old))
        (state (S.files store.new) (R.remaining input.new)) (input_view source.now) result }
{
    let Ok(chosen) = chosen_for(alloc, store, how, source) else {
        return Event::OutOfMemory;
    };
    let tidy = Tidy {
        layout: layout_of(chosen),
    };
    match source {
        Input::StandardInput => format_input(alloc, &tidy, how.stdin_name, how.mode, input),
        Input::File(path) => format_file(alloc, store, &tidy, path.as_str(), how.mode),
    }
}

/// Writes what comes of the input of this name, unless something could not be written before.
fn tell_more<W: Write, E: Write>(
    whole: bool,
    name: &str,
    event: &Event,
    output: &mut W,
    errors: &mut E,
) -> bool
    ensures shown { WroteMore whole result (shown_by event.now)
        (W.contents output.old) (W.contents output.new) }
    ensures told { WroteMore whole result (told_of name.now event.now)
        (E.contents errors.old) (E.contents errors.new) }
{
    if !whole {
        return false;
    }
    tell_event(name, event, output, errors)
}

/// Writes the summary of a run over a number of inputs, and returns the status of the run.
fn finish<E: Write>(
    alloc: Global,
    how: How<'_>,
    count: usize,
    tally: Tally,
    errors: &mut E,
) -> Status
    ensures { let text = summary how.entry.mode how.entry.quiet count tally.changed tally.failed in
        (whole : Bool) × WroteMore tally.whole whole text
        (E.contents errors.old) (E.contents errors.new)
        × IsStatus whole (code_of tally.status) (code_of result) }
{
    if !tally.whole {
        return tally.status.or(Status::Failed);
    }
    if !has_summary(how.quiet, count) {
        return tally.status;
    }
    let Ok(text) = summary_of(alloc, how.mode, count, tally) else {
        return Status::OutOfMemory;
    };
    if !put(errors, text.as_bytes()) {
        return tally.status.or(Status::Failed);
    }
    tally.status
}

/// Whether a run over a number of inputs has a summary.
fn has_summary(quiet: bool, count: usize) -> bool
    ensures { result ≡ has_summary quiet count }
{
    !quiet && 1 < count
}

/// How many files there are, how many of them change, and how many have errors.
fn summary_of(alloc: Global, mode: Mode, count: usize, tally: Tally) -> Result<String, AllocError>
    ensures { IfOk result (λ text. string_bytes text
        ≡ counts_of mode count tally.changed tally.failed) }
{
    let words = changed_words(mode);
    let (changed, failed) = (tally.changed, tally.failed);
    format!(in alloc; "{count} files, {changed}{words}{failed} with errors\n")
}

/// What is said of the files that change.
fn changed_words(mode: Mode) -> &'static str
    ensures { result.now ≡ changed_words mode }
{
    match mode {
        Mode::Write => " formatted, ",
        Mode::Check | Mode::Diff => " would change, ",
    }
}

/// Formats each input in turn, in its place. Writes what is shown to the output, and to the errors
/// the messages and, of more than one input, a summary. An error of one input stops none of the
/// others, nor does a write that fails, after which no more is written. Returns the highest status
/// that was called for.
pub fn format_all<S: Store, R: Read, W: Write, E: Write>(
    alloc: Global,
    store: &mut S,
    how: How<'_>,
    inputs: &[Input],
    input: &mut R,
    output: &mut W,
    errors: &mut E,
) -> Status
    ensures runs { Runs (BecomesBy how.entry.choices (option_copied how.entry.stdin_path)) Refuses
        how.entry.mode how.entry.quiet how.entry.stdin_name.now (map input_view inputs.now)
        (state (S.files store.old) (R.remaining input.old))
        (state (S.files store.new) (R.remaining input.new))
        (W.contents output.old) (W.contents output.new)
        (E.contents errors.old) (E.contents errors.new) (code_of result) }

    // No other file changes, and none where files are not written.
    ensures named { ChangesOnly (paths_of (map input_view inputs.now))
        (S.files store.old) (S.files store.new) }
    ensures checked { how.entry.mode ≢ Write → Same (S.files store.old) (S.files store.new) }
{
    let mut tally = Tally {
        changed: 0,
        failed: 0,
        status: Status::Success,
        whole: true,
    };
    for source in inputs {
        let event = event_of(alloc, store, how, source, input);
        let name = source.name(how.stdin_name);
        let whole = tell_more(tally.whole, name, &event, output, errors);
        tally = tally.after(&event, whole);
    }
    finish(alloc, how, inputs.len(), tally, errors)
}
