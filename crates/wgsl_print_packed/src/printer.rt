//! What of a packed form is printed, and what is left.

ghost use Rattle.std.specs.Prelude.{ℕ, List, [], ◌∷◌, ◌≡◌, ◌≢◌, ◌+◌, ◌<◌, ◌≤◌, ◌++◌, true, length, slice_index, codes, MatchResult, OnOk, IfOk};
ghost use Rattle.wgsl_model_packed.specs.Printing.{PrintsBy, is_plain, is_rule};
ghost use Rattle.wgsl_print_packed.specs.Printing.{Begins, Continues, HasPrinted, IsLeft, joined, places_left, size};
ghost use Rattle.wgsl_print_packed.specs.Notations.{notation_of};
ghost use Rattle.wgsl_print_packed.specs.declared.error.PackedError.TheVariants as errors;

use crate::error::PackedError;
use crate::notation::Notation;
use crate::reading::{split_span, split_text};
use crate::writing;
use std::alloc::{AllocError, Global};

/// A print of a packed form, up to a place in the text of a rule.
#[derive(Drop)]
pub(crate) struct Printer<'f> {
    /// What the form is printed as.
    notation: Notation,
    /// What is left of the form.
    form: &'f [u8],
    /// What is left of the text of a rule.
    places: &'static [u8],
    /// What is left of the texts that this one is in, the outermost first.
    outer: Vec<&'static [u8]>,
    /// Levels of four spaces.
    depth: usize,
    /// What is printed.
    text: Vec<u8>,
}

impl<'f> Printer<'f> {
    /// Creates a print that has yet to begin.
    pub(crate) fn new(
        alloc: Global,
        notation: Notation,
        form: &'f [u8],
    ) -> Result<Self, PackedError>
        ensures printed { IfOk result (λ printer. (end : List ℕ) →
            PrintsBy (notation_of printer.notation) printer.depth (places_left printer)
            printer.form.now end [] →
            PrintsBy (notation_of notation) 0 (codes "$") form.now (printer.text.items ++ end) []) }
        ensures taken { (text : List ℕ) →
            PrintsBy (notation_of notation) 0 (codes "$") form.now text [] → MatchResult result
            (λ printer. IsLeft printer text) (λ error. error ≡ errors.OutOfMemory) }
    {
        let text = Vec::with_capacity(alloc, form.len())?;
        Ok(Printer {
            notation,
            form,
            places: b"$",
            outer: Vec::new(alloc),
            depth: 0,
            text,
        })
    }

    /// Prints all that is left.
    pub(crate) fn print(&mut self) -> Result<(), PackedError>
        ensures printed { OnOk result (HasPrinted self.old self.new × (places_left self.new ≡ [])) }
        ensures taken { (text : List ℕ) → IsLeft self.old text → MatchResult result
            (λ _. (self.new.text.items ≡ text) × (self.new.form.now ≡ []))
            (λ error. error ≡ errors.OutOfMemory) }
    {
        'places: loop {
            if let Some((place, rest)) = self.places.split_first() {
                self.print_place(*place, rest)?;
            } else if let Some(places) = self.outer.pop() {
                self.places = places;
            } else {
                return Ok(());
            }
        }
    }

    /// Returns the text, if nothing is left of the form.
    pub(crate) fn finish(self) -> Result<Vec<u8>, PackedError>
        ensures { MatchResult result
            (λ bytes. (self.entry.form.now ≡ []) × (bytes.items ≡ self.entry.text.items))
            (λ _. self.entry.form.now ≢ []) }
    {
        if self.form.is_empty() {
            Ok(self.text)
        } else {
            Err(PackedError::NotPacked)
        }
    }

    /// Prints what fills a place, or the bytes before the next place.
    fn print_place(&mut self, place: u8, rest: &'static [u8]) -> Result<(), PackedError>
        requires { self.old.places.now ≡ place ∷ rest.now }
        ensures printed { OnOk result (HasPrinted self.old self.new) }
        ensures taken { Continues self.old result self.new }
        ensures smaller { OnOk result (size self.new < size self.old) }
    {
        match place {
            b'$' | b'&' | b'?' => self.enter_rule(place, rest),
            b'#' => self.print_text(rest),
            b'%' => self.print_span(rest),
            b'\n' => self.break_line(rest),
            b'^' => self.indent(rest),
            b'~' => self.unindent(rest),
            _ => self.write_plain(),
        }
    }

    /// Continues with the text of the rule whose number is next.
    fn enter_rule(&mut self, place: u8, rest: &'static [u8]) -> Result<(), PackedError>
        requires rule { is_rule place ≡ true }
        requires at { self.old.places.now ≡ place ∷ rest.now }
        ensures printed { OnOk result (HasPrinted self.old self.new) }
        ensures taken { Continues self.old result self.new }
        ensures smaller { OnOk result (size self.new < size self.old) }
    {
        let Some((number, form)) = self.form.split_first() else {
            return Err(PackedError::NotPacked);
        };
        let Some(text) = self.notation.rule(*number) else {
            return Err(PackedError::NotPacked);
        };
        keep_rest(rest, &mut self.outer)?;
        self.form = form;
        self.places = begin(place, text.as_bytes(), &mut self.text)?;
        Ok(())
    }

    /// Prints the text that is next.
    fn print_text(&mut self, rest: &'static [u8]) -> Result<(), PackedError>
        requires { self.old.places.now ≡ 35 ∷ rest.now }
        ensures printed { OnOk result (HasPrinted self.old self.new) }
        ensures taken { Continues self.old result self.new }
        ensures smaller { OnOk result (size self.new < size self.old) }
    {
        let (text, form) = split_text(self.form)?;
        self.notation.write_text(text, self.depth, &mut self.text)?;
        self.form = form;
        self.places = rest;
        Ok(())
    }

    /// Prints the span that is next.
    fn print_span(&mut self, rest: &'static [u8]) -> Result<(), PackedError>
        requires { self.old.places.now ≡ 37 ∷ rest.now }
        ensures printed { OnOk result (HasPrinted self.old self.new) }
        ensures taken { Continues self.old result self.new }
        ensures smaller { OnOk result (size self.new < size self.old) }
    {
        let (start, end, form) = split_span(self.form)?;
        self.notation.write_span(start, end, &mut self.text)?;
        self.form = form;
        self.places = rest;
        Ok(())
    }

    /// Ends a line, and writes the spaces before the next one.
    fn break_line(&mut self, rest: &'static [u8]) -> Result<(), PackedError>
        requires { self.old.places.now ≡ 10 ∷ rest.now }
        ensures printed { OnOk result (HasPrinted self.old self.new) }
        ensures taken { Continues self.old result self.new }
        ensures smaller { OnOk result (size self.new < size self.old) }
    {
        writing::break_line(self.depth, &mut self.text)?;
        self.places = rest;
        Ok(())
    }

    /// Indents what follows by one level more.
    fn indent(&mut self, rest: &'static [u8]) -> Result<(), PackedError>
        requires { self.old.places.now ≡ 94 ∷ rest.now }
        ensures printed { OnOk result (HasPrinted self.old self.new) }
        ensures taken { Continues self.old result self.new }
        ensures smaller { OnOk result (size self.new < size self.old) }
    {
        let Some(depth) = self.depth.checked_add(1) else {
            return Err(PackedError::OutOfMemory);
        };
        self.depth = depth;
        self.places = rest;
        Ok(())
    }

    /// Indents what follows by one level less.
    fn unindent(&mut self, rest: &'static [u8]) -> Result<(), PackedError>
        requires { self.old.places.now ≡ 126 ∷ rest.now }
        ensures printed { OnOk result (HasPrinted self.old self.new) }
        ensures taken { Continues self.old result self.new }
        ensures smaller { OnOk result (size self.new < size self.old) }
    {
        let Some(depth) = self.depth.checked_sub(1) else {
            return Err(PackedError::NotPacked);
        };
        self.depth = depth;
        self.places = rest;
        Ok(())
    }

    /// Writes the bytes before the next place.
    fn write_plain(&mut self) -> Result<(), PackedError>
        requires some { 0 < length self.old.places.now }
        requires first { is_plain (slice_index self.old.places.now 0) ≡ true }
        ensures printed { OnOk result (HasPrinted self.old self.new) }
        ensures taken { Continues self.old result self.new }
        ensures smaller { OnOk result (size self.new < size self.old) }
    {
        let (plain, rest) = self.places.split_at(plain_length(self.places));
        self.text.extend_from_slice(plain)?;
        self.places = rest;
        Ok(())
    }
}

/// Returns the text of a rule in a place, once a comma before it is printed.
fn begin(place: u8, text: &'static [u8], out: &mut Vec<u8>) -> Result<&'static [u8], AllocError>
    ensures { IfOk result (λ places.
        Begins place text.now out.old.items out.new.items places.now) }
{
    match place {
        b'&' if !text.is_empty() => {
            out.push(b',')?;
            Ok(text)
        }
        b'?' if text.is_empty() => Ok(b"null"),
        _ => Ok(text),
    }
}

/// Keeps what is left of a text, unless that is nothing.
fn keep_rest(rest: &'static [u8], outer: &mut Vec<&'static [u8]>) -> Result<(), PackedError>
    ensures kept { MatchResult result
        (λ _. joined outer.new.items ≡ rest.now ++ joined outer.old.items)
        (λ error. error ≡ errors.OutOfMemory) }
    ensures length { OnOk result (length outer.new.items ≤ length outer.old.items + 1) }
{
    if rest.is_empty() {
        return Ok(());
    }
    outer.push(rest)?;
    Ok(())
}

/// Returns how many bytes at the front are printed as they are.
fn plain_length(places: &[u8]) -> usize
    ensures bound { result ≤ length places.now }
    ensures plain { (k : ℕ) → k < result → is_plain (slice_index places.now k) ≡ true }
    ensures some { 0 < length places.now → is_plain (slice_index places.now 0) ≡ true →
        0 < result }
{
    'bytes: for i in 0..places.len() {
        if !is_plain(places[i]) {
            return i;
        }
    }
    places.len()
}

/// Returns whether a byte is printed as it is.
fn is_plain(byte: u8) -> bool
    ensures { result ≡ is_plain byte }
{
    !matches!(byte, b'\n' | b'#' | b'$' | b'%' | b'&' | b'?' | b'^' | b'~')
}
