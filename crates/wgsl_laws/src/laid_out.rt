//! What a formatted text keeps of its source.

ghost use Rattle.std.specs.Prelude.{◌≡◌, ℕ, true, false, List};
ghost use Rattle.grammar.specs.Tokens.{Token};
ghost use Rattle.grammar.specs.Grammar.{IsSentence};
ghost use Rattle.grammar.specs.Endings.{Ending.finished};
ghost use Rattle.wgsl_model.specs.Grammar.Symbols.{Symbol.unit};
ghost use Rattle.wgsl_model.specs.Grammar.Written.{written};
ghost use Rattle.wgsl_model.specs.Tokens.TokenList.{IsTokenList};
ghost use Rattle.wgsl_model_tidy.specs.Pieces.{pieces};
ghost use Rattle.wgsl_model_tidy.specs.Layout.{Layout};
ghost use Rattle.wgsl_model_tidy.specs.LaidOut.{laid_out};
ghost use Rattle.wgsl_model_tidy.specs.Formatted.{unmarked, ends_crlf, formatted};
ghost use Rattle.wgsl_model_tidy.specs.NonBlank.{non_blank};
ghost use Rattle.wgsl_model_tidy.specs.Lines.{BreaksLinesByLF, HasNoTrailingWhiteSpace};
ghost use Rattle.wgsl_model_tidy.specs.Lines.{HasNoTwoEmptyLines, BeginsWithNoLineBreak};
ghost use Rattle.wgsl_model_tidy.specs.Lines.{EndsWithOneLineEnd, EndsLinesWithCRLF, HasNoCRLF};
ghost use Rattle.wgsl_model_tidy.specs.Kept.{Keeps};
ghost use Rattle.wgsl_laws.specs.Indents.{IndentsLines};

/// A text without an invalid token, formatted by any layout, has the same byte order mark or none,
/// and the same tokens and comments, but for CR before LF in block comments and spaces and tabs
/// before `*` at the front of their lines. It derives the same unit if it is a module, and is
/// formatted already by that layout.
pub fn laid_out_keeps()
    ensures { (layout : Layout) (source : List ℕ) (ts : List Token)
        (read : IsTokenList (unmarked source) ts finished) →
        Keeps layout source (formatted layout source ts) }
{}

/// A text without an invalid token, formatted by any layout, has the same characters in the same
/// order, but for blank space.
pub fn formatted_characters()
    ensures { (layout : Layout) (source : List ℕ) (ts : List Token)
        (read : IsTokenList (unmarked source) ts finished) →
        non_blank (formatted layout source ts) ≡ non_blank source }
{}

/// In a text formatted by any layout either every LF is after CR, in block comments too, or none
/// is.
pub fn formatted_line_ends()
    ensures crlf { (layout : Layout) (source : List ℕ) (ts : List Token)
        (read : IsTokenList (unmarked source) ts finished)
        (chosen : ends_crlf layout.newlines (unmarked source) ≡ true) →
        EndsLinesWithCRLF (formatted layout source ts) }
    ensures lf { (layout : Layout) (source : List ℕ) (ts : List Token)
        (read : IsTokenList (unmarked source) ts finished)
        (chosen : ends_crlf layout.newlines (unmarked source) ≡ false) →
        HasNoCRLF (formatted layout source ts) }
{}

/// Outside block comments, the lines of a text formatted by any layout end with LF alone and with
/// no white space before it, and no two empty ones follow one another. The text does not begin with
/// a line break. Unless it is empty or ends in a block comment that is not closed, it ends with one
/// line break. All this is said of the text after a byte order mark, before LF becomes CR LF.
pub fn formatted_lines()
    ensures line_breaks { (layout : Layout) (source : List ℕ) (ts : List Token)
        (read : IsTokenList source ts finished) →
        BreaksLinesByLF (laid_out layout (pieces source ts)) }
    ensures no_trailing_white_space { (layout : Layout) (source : List ℕ) (ts : List Token)
        (read : IsTokenList source ts finished) →
        HasNoTrailingWhiteSpace (laid_out layout (pieces source ts)) }
    ensures no_two_empty_lines { (layout : Layout) (source : List ℕ) (ts : List Token)
        (read : IsTokenList source ts finished) →
        HasNoTwoEmptyLines (laid_out layout (pieces source ts)) }
    ensures no_first_break { (layout : Layout) (source : List ℕ) (ts : List Token)
        (read : IsTokenList source ts finished) →
        BeginsWithNoLineBreak (laid_out layout (pieces source ts)) }
    ensures one_line_end { (layout : Layout) (source : List ℕ) (ts : List Token)
        (read : IsTokenList source ts finished) →
        EndsWithOneLineEnd (laid_out layout (pieces source ts)) }
{}

/// In a module formatted by any layout, a line that begins with `)`, `]`, `}` or the `>` of a
/// template list is as deep as what it closes: a bracket or a template list as the line where it
/// opens, a block as the lines around it. A line that begins with any other token is one level deeper
/// than what it is in, or in a block and outside of all maybe two, where no `;`, `{` or `}` is before
/// it, or in operands maybe more, where no bracket that opens, `,`, `;`, `{` or `}` is before it.
/// Nothing is said in a bracket or a template list whose line begins inside a block comment. Names and
/// attributes are not checked: a module by its syntax is enough.
pub fn formatted_indents()
    ensures { (layout : Layout) (source : List ℕ) (ts : List Token)
        (read : IsTokenList source ts finished) (derived : IsSentence written unit ts) →
        IndentsLines layout (laid_out layout (pieces source ts)) }
{}
