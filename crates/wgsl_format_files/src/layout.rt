//! The layout that a user chooses.

ghost use Rattle.std.specs.Prelude.{◌≡◌};
ghost use Rattle.std.specs.Option.{unwrap_or};
ghost use Rattle.wgsl_model_tidy.specs.Layout.{standard};
ghost use Rattle.wgsl_format_layout.specs.Layouts.{layout_view, newlines_view};
ghost use Rattle.wgsl_format_layout.specs.Layouts as view;
ghost use Rattle.wgsl_format_files.specs.Layouts.{has_tabs, columns_of};
ghost use Rattle.wgsl_format_files.specs.Layouts.{columns_chosen, newlines_of, layout_of};

use wgsl_choices::{Choices, IndentSize, IndentStyle};
use wgsl_format::{Indent, Layout, Newlines};

/// How many columns a line has at most where that is left open.
const WIDTH: usize = 100;

/// How many columns a level has where that is left open.
const COLUMNS: u8 = 4;

/// Returns the layout of what is chosen, and what is standard where a part is left open.
pub fn layout_of(choices: Choices) -> Layout
    ensures { layout_view result ≡ layout_of choices }
{
    Layout {
        width: choices.width.unwrap_or(WIDTH),
        indent: indent_of(choices),
        newlines: newlines_of(choices.newlines),
    }
}

/// What one level of indentation is.
fn indent_of(choices: Choices) -> Indent
    ensures tabs { view.has_tabs result ≡ has_tabs choices.style }
    ensures columns { view.level_columns result
        ≡ unwrap_or (columns_chosen (has_tabs choices.style) choices) standard.indent }
{
    let columns = columns_of(choices.size, choices.tab_width);
    match choices.style {
        Some(IndentStyle::Tab) => Indent::Tab(choices.tab_width.or(columns).unwrap_or(COLUMNS)),
        Some(IndentStyle::Spaces) | None => Indent::Spaces(columns.unwrap_or(COLUMNS)),
    }
}

/// How many columns a size is, where a tab has so many.
fn columns_of(size: Option<IndentSize>, tab_width: Option<u8>) -> Option<u8>
    ensures { result ≡ columns_of size tab_width }
{
    match size {
        Some(IndentSize::Tab) => tab_width,
        Some(IndentSize::Columns(count)) => Some(count),
        None => None,
    }
}

/// With what lines end.
fn newlines_of(newlines: Option<wgsl_choices::Newlines>) -> Newlines
    ensures { newlines_view result ≡ newlines_of newlines }
{
    match newlines {
        Some(wgsl_choices::Newlines::Auto) | None => Newlines::Auto,
        Some(wgsl_choices::Newlines::Lf) => Newlines::Lf,
        Some(wgsl_choices::Newlines::CrLf) => Newlines::CrLf,
    }
}
