//! Which token it is, without what it holds.

ghost use Rattle.std.specs.Prelude.{◌≡◌};
ghost use Rattle.wgsl_model.specs.Tokens.ClassTable.{is_keyword};
ghost use Rattle.wgsl_lex_token.specs.View.{class_of_kind};

pub use crate::kind_table::TokenKind;

impl TokenKind {
    /// Returns whether it is a keyword.
    pub fn is_keyword(self) -> bool
        ensures { result ≡ is_keyword (class_of_kind self) }
    {
        let class = self as u8;
        TokenKind::KwAlias as u8 <= class && class < TokenKind::Ident as u8
    }
}
