//! What the lines so far say.

ghost use Rattle.std.specs.Prelude.{◌≡◌};
ghost use Rattle.wgsl_editorconfig.specs.Reading as plain;
ghost use Rattle.wgsl_editorconfig.specs.View.{line_view};

use crate::glob::matches_wgsl;
use crate::key::Key;
use crate::line::Line;
use crate::value::{
    indent_size_of, line_length_of, newlines_of, root_of, said, style_of, tab_width_of,
};
use wgsl_choices::{Choices, IndentSize, IndentStyle, Newlines};

/// The properties of WGSL files that a file gives.
#[derive(Clone, Copy, Debug, PartialEq, Eq)]
pub struct Properties {
    /// Files in the folders above are not read.
    pub root: bool,
    /// What is chosen of the layout.
    pub choices: Choices,
}

/// The part of the file that a line is in.
#[derive(Clone, Copy)]
pub enum Place {
    /// Before the first section.
    Preamble,
    /// In a section that is for WGSL files.
    Applies,
    /// In another section.
    Skipped,
}

/// The values of the lines so far, and the place of the next one.
#[derive(Clone, Copy)]
pub struct Reading {
    pub place: Place,
    pub root: Option<bool>,
    pub style: Option<IndentStyle>,
    pub size: Option<IndentSize>,
    pub tab_width: Option<u8>,
    pub width: Option<usize>,
    pub newlines: Option<Newlines>,
}

impl Reading {
    /// Returns what is known before the first line.
    pub fn nothing() -> Self
        ensures { result ≡ plain.nothing }
    {
        Reading {
            place: Place::Preamble,
            root: None,
            style: None,
            size: None,
            tab_width: None,
            width: None,
            newlines: None,
        }
    }

    /// Returns what is known after one more line.
    pub fn after(self, line: Line<'_>) -> Self
        ensures { result ≡ plain.after self (line_view line.entry) }
    {
        match line {
            Line::Section(glob) => Reading {
                place: place_of(glob),
                ..self
            },
            Line::Property(key, value) => self.with_property(key, value),
            Line::Other => self,
        }
    }

    /// After a property, which counts where the next line is.
    fn with_property(self, key: Key, value: &str) -> Self
        ensures { result ≡ plain.with_property self key value.now }
    {
        match self.place {
            Place::Preamble => self.with_root(key, value),
            Place::Applies => self.with_choice(key, value),
            Place::Skipped => self,
        }
    }

    /// After a property before the first section.
    fn with_root(self, key: Key, value: &str) -> Self
        ensures { result ≡ plain.with_root self key value.now }
    {
        match key {
            Key::Root => Reading {
                root: said(value, root_of(value)).unwrap_or(self.root),
                ..self
            },
            _ => self,
        }
    }

    /// After a property of a section that is for WGSL files.
    fn with_choice(self, key: Key, value: &str) -> Self
        ensures { result ≡ plain.with_choice self key value.now }
    {
        match key {
            Key::Root => self,
            Key::IndentStyle => Reading {
                style: said(value, style_of(value)).unwrap_or(self.style),
                ..self
            },
            Key::IndentSize => Reading {
                size: said(value, indent_size_of(value)).unwrap_or(self.size),
                ..self
            },
            Key::TabWidth => Reading {
                tab_width: said(value, tab_width_of(value)).unwrap_or(self.tab_width),
                ..self
            },
            Key::MaxLineLength => Reading {
                width: said(value, line_length_of(value)).unwrap_or(self.width),
                ..self
            },
            Key::EndOfLine => Reading {
                newlines: said(value, newlines_of(value)).unwrap_or(self.newlines),
                ..self
            },
        }
    }

    /// Returns what all lines say, where these are all.
    pub fn properties(self) -> Properties
        ensures { result ≡ plain.properties self }
    {
        Properties {
            root: self.root.unwrap_or(false),
            choices: Choices {
                width: self.width,
                style: self.style,
                size: self.size,
                tab_width: self.tab_width,
                newlines: self.newlines,
            },
        }
    }
}

/// Where the lines of a section are.
fn place_of(glob: &str) -> Place
    ensures { result ≡ plain.place_of glob.now }
{
    if matches_wgsl(glob) {
        Place::Applies
    } else {
        Place::Skipped
    }
}
