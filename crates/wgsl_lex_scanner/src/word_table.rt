//! Keywords and reserved words, and the place of each: tables written by
//! tools/tables/word_table.py.

ghost use Rattle.std.specs.Prelude.{◌≡◌, ◌<◌, length, Some, None, false, bytes_eq};
ghost use Rattle.wgsl_lex_scanner.specs.WordTable.{kind_of_name, meant, moved, slot_by, EntriesHold, HoldsAllWords};

use wgsl_lex_token::kind::TokenKind;

/// What a word of the table is.
#[derive(Clone, Copy)]
pub(crate) enum Meaning {
    Keyword(TokenKind),
    Reserved,
}

/// How many keywords and reserved words there are.
const WORD_COUNT: usize = 173;

/// The keywords and the reserved words, in the order of their letters.
static WORDS: [(&str, Meaning); 173] = [
    ("NULL", Meaning::Reserved),
    ("Self", Meaning::Reserved),
    ("abstract", Meaning::Reserved),
    ("active", Meaning::Reserved),
    ("alias", Meaning::Keyword(TokenKind::KwAlias)),
    ("alignas", Meaning::Reserved),
    ("alignof", Meaning::Reserved),
    ("as", Meaning::Reserved),
    ("asm", Meaning::Reserved),
    ("asm_fragment", Meaning::Reserved),
    ("async", Meaning::Reserved),
    ("attribute", Meaning::Reserved),
    ("auto", Meaning::Reserved),
    ("await", Meaning::Reserved),
    ("become", Meaning::Reserved),
    ("binding_array", Meaning::Reserved),
    ("break", Meaning::Keyword(TokenKind::KwBreak)),
    ("case", Meaning::Keyword(TokenKind::KwCase)),
    ("cast", Meaning::Reserved),
    ("catch", Meaning::Reserved),
    ("class", Meaning::Reserved),
    ("co_await", Meaning::Reserved),
    ("co_return", Meaning::Reserved),
    ("co_yield", Meaning::Reserved),
    ("coherent", Meaning::Reserved),
    ("column_major", Meaning::Reserved),
    ("common", Meaning::Reserved),
    ("compile", Meaning::Reserved),
    ("compile_fragment", Meaning::Reserved),
    ("concept", Meaning::Reserved),
    ("const", Meaning::Keyword(TokenKind::KwConst)),
    ("const_assert", Meaning::Keyword(TokenKind::KwConstAssert)),
    ("const_cast", Meaning::Reserved),
    ("consteval", Meaning::Reserved),
    ("constexpr", Meaning::Reserved),
    ("constinit", Meaning::Reserved),
    ("continue", Meaning::Keyword(TokenKind::KwContinue)),
    ("continuing", Meaning::Keyword(TokenKind::KwContinuing)),
    ("crate", Meaning::Reserved),
    ("debugger", Meaning::Reserved),
    ("decltype", Meaning::Reserved),
    ("default", Meaning::Keyword(TokenKind::KwDefault)),
    ("delete", Meaning::Reserved),
    ("demote", Meaning::Reserved),
    ("demote_to_helper", Meaning::Reserved),
    ("diagnostic", Meaning::Keyword(TokenKind::KwDiagnostic)),
    ("discard", Meaning::Keyword(TokenKind::KwDiscard)),
    ("do", Meaning::Reserved),
    ("dynamic_cast", Meaning::Reserved),
    ("else", Meaning::Keyword(TokenKind::KwElse)),
    ("enable", Meaning::Keyword(TokenKind::KwEnable)),
    ("enum", Meaning::Reserved),
    ("explicit", Meaning::Reserved),
    ("export", Meaning::Reserved),
    ("extends", Meaning::Reserved),
    ("extern", Meaning::Reserved),
    ("external", Meaning::Reserved),
    ("fallthrough", Meaning::Reserved),
    ("false", Meaning::Keyword(TokenKind::KwFalse)),
    ("filter", Meaning::Reserved),
    ("final", Meaning::Reserved),
    ("finally", Meaning::Reserved),
    ("fn", Meaning::Keyword(TokenKind::KwFn)),
    ("for", Meaning::Keyword(TokenKind::KwFor)),
    ("friend", Meaning::Reserved),
    ("from", Meaning::Reserved),
    ("fxgroup", Meaning::Reserved),
    ("get", Meaning::Reserved),
    ("goto", Meaning::Reserved),
    ("groupshared", Meaning::Reserved),
    ("highp", Meaning::Reserved),
    ("if", Meaning::Keyword(TokenKind::KwIf)),
    ("impl", Meaning::Reserved),
    ("implements", Meaning::Reserved),
    ("import", Meaning::Reserved),
    ("inline", Meaning::Reserved),
    ("instanceof", Meaning::Reserved),
    ("interface", Meaning::Reserved),
    ("layout", Meaning::Reserved),
    ("let", Meaning::Keyword(TokenKind::KwLet)),
    ("loop", Meaning::Keyword(TokenKind::KwLoop)),
    ("lowp", Meaning::Reserved),
    ("macro", Meaning::Reserved),
    ("macro_rules", Meaning::Reserved),
    ("match", Meaning::Reserved),
    ("mediump", Meaning::Reserved),
    ("meta", Meaning::Reserved),
    ("mod", Meaning::Reserved),
    ("module", Meaning::Reserved),
    ("move", Meaning::Reserved),
    ("mut", Meaning::Reserved),
    ("mutable", Meaning::Reserved),
    ("namespace", Meaning::Reserved),
    ("new", Meaning::Reserved),
    ("nil", Meaning::Reserved),
    ("noexcept", Meaning::Reserved),
    ("noinline", Meaning::Reserved),
    ("nointerpolation", Meaning::Reserved),
    ("non_coherent", Meaning::Reserved),
    ("noncoherent", Meaning::Reserved),
    ("noperspective", Meaning::Reserved),
    ("null", Meaning::Reserved),
    ("nullptr", Meaning::Reserved),
    ("of", Meaning::Reserved),
    ("operator", Meaning::Reserved),
    ("override", Meaning::Keyword(TokenKind::KwOverride)),
    ("package", Meaning::Reserved),
    ("packoffset", Meaning::Reserved),
    ("partial", Meaning::Reserved),
    ("pass", Meaning::Reserved),
    ("patch", Meaning::Reserved),
    ("pixelfragment", Meaning::Reserved),
    ("precise", Meaning::Reserved),
    ("precision", Meaning::Reserved),
    ("premerge", Meaning::Reserved),
    ("priv", Meaning::Reserved),
    ("protected", Meaning::Reserved),
    ("pub", Meaning::Reserved),
    ("public", Meaning::Reserved),
    ("readonly", Meaning::Reserved),
    ("ref", Meaning::Reserved),
    ("regardless", Meaning::Reserved),
    ("register", Meaning::Reserved),
    ("reinterpret_cast", Meaning::Reserved),
    ("require", Meaning::Reserved),
    ("requires", Meaning::Keyword(TokenKind::KwRequires)),
    ("resource", Meaning::Reserved),
    ("restrict", Meaning::Reserved),
    ("return", Meaning::Keyword(TokenKind::KwReturn)),
    ("self", Meaning::Reserved),
    ("set", Meaning::Reserved),
    ("shared", Meaning::Reserved),
    ("sizeof", Meaning::Reserved),
    ("smooth", Meaning::Reserved),
    ("snorm", Meaning::Reserved),
    ("static", Meaning::Reserved),
    ("static_assert", Meaning::Reserved),
    ("static_cast", Meaning::Reserved),
    ("std", Meaning::Reserved),
    ("struct", Meaning::Keyword(TokenKind::KwStruct)),
    ("subroutine", Meaning::Reserved),
    ("super", Meaning::Reserved),
    ("switch", Meaning::Keyword(TokenKind::KwSwitch)),
    ("target", Meaning::Reserved),
    ("template", Meaning::Reserved),
    ("this", Meaning::Reserved),
    ("thread_local", Meaning::Reserved),
    ("throw", Meaning::Reserved),
    ("trait", Meaning::Reserved),
    ("true", Meaning::Keyword(TokenKind::KwTrue)),
    ("try", Meaning::Reserved),
    ("type", Meaning::Reserved),
    ("typedef", Meaning::Reserved),
    ("typeid", Meaning::Reserved),
    ("typename", Meaning::Reserved),
    ("typeof", Meaning::Reserved),
    ("union", Meaning::Reserved),
    ("unless", Meaning::Reserved),
    ("unorm", Meaning::Reserved),
    ("unsafe", Meaning::Reserved),
    ("unsized", Meaning::Reserved),
    ("use", Meaning::Reserved),
    ("using", Meaning::Reserved),
    ("var", Meaning::Keyword(TokenKind::KwVar)),
    ("varying", Meaning::Reserved),
    ("virtual", Meaning::Reserved),
    ("volatile", Meaning::Reserved),
    ("wgsl", Meaning::Reserved),
    ("where", Meaning::Reserved),
    ("while", Meaning::Keyword(TokenKind::KwWhile)),
    ("with", Meaning::Reserved),
    ("writeonly", Meaning::Reserved),
    ("yield", Meaning::Reserved),
];

// By the length and the first character of a word: how far the sum of its length and its other
// characters is moved. This table and the next are written by tools/tables/word_table.py.
static MOVES: [u8; 64] = [
    69, 18, 29, 38, 40, 0, 18, 0, 5, 16, 7, 0, 23, 2, 0, 0, 0, 0, 6, 0, 0, 0, 0, 0, 0, 0, 0, 21, 0,
    0, 0, 0, 0, 0, 0, 0, 0, 3, 0, 5, 7, 2, 0, 42, 25, 5, 7, 40, 91, 73, 2, 10, 3, 1, 1, 17, 38, 69,
    6, 37, 2, 171, 29, 0,
];

// For each sum, where the only word that has it is among the words; 0 where none has it.
static PLACES: [u8; 256] = [
    132, 75, 159, 71, 23, 3, 135, 0, 103, 168, 131, 87, 36, 11, 151, 162, 116, 169, 112, 14, 105,
    172, 91, 49, 149, 89, 100, 40, 140, 57, 152, 160, 141, 1, 106, 120, 133, 96, 45, 73, 0, 0, 166,
    0, 170, 6, 142, 37, 144, 129, 19, 110, 154, 153, 161, 126, 94, 10, 77, 50, 17, 101, 84, 114,
    16, 146, 0, 0, 22, 155, 0, 156, 0, 0, 167, 158, 0, 56, 62, 0, 138, 65, 33, 42, 82, 70, 8, 163,
    27, 164, 104, 51, 92, 88, 124, 47, 58, 0, 0, 0, 20, 80, 12, 43, 113, 39, 0, 41, 108, 136, 66,
    79, 145, 102, 67, 54, 48, 81, 97, 165, 26, 32, 157, 52, 121, 128, 85, 25, 59, 137, 34, 7, 148,
    74, 30, 83, 93, 55, 63, 95, 68, 72, 98, 125, 139, 13, 35, 31, 61, 5, 24, 90, 111, 4, 123, 122,
    60, 0, 107, 0, 21, 0, 28, 99, 0, 15, 44, 0, 109, 127, 78, 171, 115, 0, 0, 0, 0, 0, 130, 9, 18,
    150, 29, 0, 0, 143, 0, 0, 69, 0, 147, 0, 0, 76, 0, 0, 0, 0, 0, 0, 0, 0, 0, 119, 0, 53, 0, 0, 0,
    0, 0, 0, 0, 2, 0, 0, 0, 0, 0, 0, 0, 0, 0, 0, 0, 0, 0, 0, 0, 0, 0, 0, 0, 0, 0, 0, 0, 0, 0, 46,
    0, 0, 64, 0, 38, 86, 134, 0, 118, 0, 0, 0, 0, 0, 117, 0,
];

/// How far the sum is moved.
fn moved(first: u8, size: usize) -> u8
    requires { size < 64 }
    ensures { result ≡ moved first size }
{
    MOVES[(first as usize + 2 * size) % 64]
}

/// Where a word is among the words, by its length and three of its characters, if it is one of
/// them.
fn place(size: usize, first: u8, middle: u8, last: u8) -> usize
    requires { size < 64 }
    ensures value { result ≡ slot_by size first middle last }
    ensures bound { result < WORD_COUNT }
{
    let moved = moved(first, size) as usize;
    PLACES[(moved + size + 2 * middle as usize + 8 * last as usize) % 256] as usize
}

/// The only entry of a table that can be that of a word.
fn candidate(table: &'static [(&'static str, Meaning)], word: &str) -> (&'static str, Meaning)
    requires size { length table.now ≡ WORD_COUNT }
    requires right { EntriesHold table.now }
    requires whole { HoldsAllWords table.now }
    requires some { 0 < length word.now }
    ensures right { meant (Some result.1) result.0.now ≡ kind_of_name result.0.now }
    ensures only { bytes_eq result.0.now word.now ≡ false →
        meant None word.now ≡ kind_of_name word.now }
{
    let bytes = word.as_bytes();
    let size = bytes.len();
    table[place(size % 64, bytes[0], bytes[size / 2], bytes[size - 1])]
}

/// What a word is, none where it is neither a keyword nor reserved.
pub(crate) fn listed(word: &str) -> Option<Meaning>
    ensures { meant result word.now ≡ kind_of_name word.now }
{
    if word.is_empty() {
        return None;
    }
    let (text, meaning) = candidate(&WORDS, word);
    if text == word {
        return Some(meaning);
    }
    None
}
