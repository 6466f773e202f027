//! What a user chooses of the layout.
#![tactic(auto)]

mod numbers;

ghost use Rattle.std.specs.Prelude.{◌≡◌};
ghost use Rattle.wgsl_choices.specs.Choices.{nothing, or};

pub use numbers::{read_size, read_width};

/// The choices of a user for the layout. Each part may be left open.
#[derive(Clone, Copy, Debug, PartialEq, Eq)]
pub struct Choices {
    /// How many columns a line has at most. With 0 no line is broken.
    pub width: Option<usize>,
    /// What a line is indented with.
    pub style: Option<IndentStyle>,
    /// How many columns one level of indentation has.
    pub size: Option<IndentSize>,
    /// How many columns a tab has, from 1 to 16.
    pub tab_width: Option<u8>,
    /// What ends a line.
    pub newlines: Option<Newlines>,
}

/// The characters that a line is indented with.
#[derive(Clone, Copy, Debug, PartialEq, Eq)]
pub enum IndentStyle {
    Spaces,
    Tab,
}

/// The number of columns of one level of indentation.
#[derive(Clone, Copy, Debug, PartialEq, Eq)]
pub enum IndentSize {
    /// As many as a tab has.
    Tab,
    /// From 1 to 16.
    Columns(u8),
}

/// The line break at the end of each line.
#[derive(Clone, Copy, Debug, PartialEq, Eq)]
pub enum Newlines {
    /// What ends the first line of the text.
    Auto,
    Lf,
    CrLf,
}

impl Choices {
    /// Returns choices of which each part is left open.
    pub fn none() -> Choices
        ensures { result ≡ nothing }
    {
        Choices {
            width: None,
            style: None,
            size: None,
            tab_width: None,
            newlines: None,
        }
    }

    /// Returns these choices, and the other's where a part is left open.
    pub fn or(self, other: Choices) -> Choices
        ensures { result ≡ or self other }
    {
        Choices {
            width: self.width.or(other.width),
            style: self.style.or(other.style),
            size: self.size.or(other.size),
            tab_width: self.tab_width.or(other.tab_width),
            newlines: self.newlines.or(other.newlines),
        }
    }
}
