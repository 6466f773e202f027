//! WGSL, the shading language of WebGPU: tokens, trees, faults and printed text, under the names of
//! the Rust crate `wgsl-parse`.
#![tactic(auto)]

/// The syntax trees, each with its text, its copy, its equality and what it is made of.
pub mod syntax;

pub use wgsl_error::Error;
pub use wgsl_parser::{FromSource, parse_str};
pub use wgsl_read_dialect::recognize_str;
pub use wgsl_tree_node::SyntaxNode;

/// Places in a text, and nodes that carry them.
pub mod span {
    pub use wgsl_span::{CloneWith, Id, Span, Spanned};
}

/// What is wrong with a text, and its messages.
pub mod error {
    pub use wgsl_error::{
        Error, ErrorInFile, ErrorKind, ErrorWithSource, ParseError, WithoutExpected,
    };
}

/// Tokens, and what gives them.
pub mod lexer {
    pub use wgsl_lex_token::kind::TokenKind;
    pub use wgsl_lex_token::token::Token;
    pub use wgsl_lexer::{
        FiniteTokens, Lexer, Templates, TokenItem, TokenIterator, discover, recognize_template_list,
    };
}

/// What a node of a tree can do, and what makes a type of one's own a node: `NodeName` and
/// `NodeAttributes`, in whose place `UnnamedNode` and `UnattributedNode` are for a node without
/// the one or the other, and `BareNode` for one without both. A node that has a span writes
/// `SyntaxNode` itself, whose calls on a list of attributes are
/// `has_attribute` and `retain_nodes`.
pub mod syntax_node {
    pub use wgsl_span::retain_nodes;
    pub use wgsl_tree_node::{
        BareNode, NodeAttributes, NodeName, SyntaxNode, UnattributedNode, UnnamedNode,
        has_attribute, no_attributes,
    };
}

/// Reading modules, and the parts of modules that are read by themselves, from texts and from lists
/// of tokens.
pub mod parser {
    pub use wgsl_parser::{
        ExpressionParser, FromSource, GlobalDeclParser, GlobalDirectiveParser, LiteralParser,
        StatementParser, TranslationUnitParser, TryTemplateListParser, parse_str, parse_within,
        recognize_template_list,
    };
    pub use wgsl_read_dialect::recognize_str;
    pub use wgsl_read_nesting::{first_deeper, nesting};
}

/// The names of modules with their places, what each is, and what uses refer to.
pub mod names {
    pub use wgsl_read_names::{
        Branch, Declared, Entry, Event, Name, Named, Names, Referent, Role, events, events_within,
        names, names_within,
    };
    pub use wgsl_read_rename::{Refusal, RenameError, rename, rename_within};
    pub use wgsl_references::references;
}

/// Laying modules out for people: comments and the author's line breaks stay.
pub mod tidy {
    pub use wgsl_format::{Indent, Layout, Newlines, tidy, tidy_with, tidy_within};
}

/// The shortest texts of modules, also with shorter names.
pub mod minify {
    pub use wgsl_format_short::{shorten, shorten_within};
    pub use wgsl_minify::{Minified, MinifyOptions, NewNames, Which, minify, minify_within};
}

/// What holds of all texts and trees, as contracts of functions that do nothing.
pub mod laws {
    pub use wgsl_laws::attributes_nodes::statement_attributes;
    pub use wgsl_laws::grammar_laws::{
        checked_is_full, no_less_derived, one_fault, one_name, one_tree, syntax_fault,
    };
    pub use wgsl_laws::laid_out::{
        formatted_characters, formatted_indents, formatted_line_ends, formatted_lines,
        laid_out_keeps,
    };
    pub use wgsl_laws::paths::{join_laws, path_text, starts_with_laws};
    pub use wgsl_laws::printed::{
        canonical_parse, print_twice, printed_parse, printed_tokens, unit_or_fault,
    };
    pub use wgsl_laws::spelling::longest_spelling;
    pub use wgsl_laws::tokens::{
        lists_within_lists, nothing_after_the_end, one_list_left, one_token_list, tokens_in_order,
    };
    pub use wgsl_laws::trees::{spans_unprinted, voids_twice};

    /// That `==` of trees is an equivalence, and where two trees are equal: where they are one with
    /// their spans set aside. The laws that are here speak of plain trees; those of the nodes
    /// themselves are in the modules below.
    pub mod equality {
        pub use wgsl_laws::equality_nodes::{
            branches, calls, declarations, directives, equivalence, expressions,
            global_declarations, literals, loops, nodes, simple_statements, statements, types,
            units,
        };

        /// Of identifiers, whose hashes agree with it, and of literals.
        pub mod expression {
            pub use wgsl_laws::expression_equality::{idents, literals};
            pub use wgsl_laws::name_equality::ident_equality;
        }

        /// Of attributes and what they hold.
        pub mod attribute {
            pub use wgsl_laws::attribute_equality_nodes::{
                attributes, customs, diagnostics, equivalence, interpolations, type_constraints,
                workgroup_sizes,
            };
        }

        /// Of the statements that hold no others.
        pub mod statement {
            pub use wgsl_laws::simple_equality_nodes::{declarations, simple_statements};
        }

        /// Of modules, directives and declarations.
        pub mod unit {
            pub use wgsl_laws::unit_equality_nodes::{
                directives, equivalence, global_declarations, units,
            };
        }

        /// Of module paths, whose hashes agree with it.
        pub mod path {
            pub use wgsl_laws::paths::{origin_equality, path_equality};
        }
    }
}
