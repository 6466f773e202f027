//! Reading modules, and the parts of modules that are read by themselves, from texts and from lists
//! of tokens.
#![tactic(auto)]

mod from_source;
mod parse;
mod parsed;
mod parsers;
mod read;
mod template_list;

pub use from_source::FromSource;
pub use parse::{parse_str, parse_within};
pub use parsers::{
    ExpressionParser, GlobalDeclParser, GlobalDirectiveParser, LiteralParser, StatementParser,
    TranslationUnitParser,
};
pub use template_list::{TryTemplateListParser, recognize_template_list};
