//! Laws of packed forms, and of the call that prints them.

ghost use Rattle.std.specs.Prelude.{◌≡◌, ◌⊎◌, ℕ, List, [], chars, codes};
ghost use Rattle.std.specs.Str.{IsUtf8};
ghost use Rattle.wgsl_model.specs.Grammar.Symbols as symbols;
ghost use Rattle.wgsl_model_packed.specs.Expressions.{packed_expression_node};
ghost use Rattle.wgsl_model_packed.specs.Printing.{IsJsonOf, Prints};
ghost use Rattle.wgsl_model_packed.specs.Statements.{packed_statement};
ghost use Rattle.wgsl_model_packed.specs.Units.{packed_directive, packed_global_declaration};
ghost use Rattle.wgsl_model_packed.specs.Units.{packed_unit};
ghost use Rattle.wgsl_theory_packed.specs.Fits.{HaveOwnFormsInTexts, statement_in};
ghost use Rattle.wgsl_buffers.specs.declared.answer.Answer.{Answer};
ghost use Rattle.wgsl_buffers.specs.Kinds.{Kind, printing_of};
ghost use Rattle.wgsl_buffers.specs.Trees.{module_tree, IsPackedOf};
ghost use Rattle.wgsl_buffers.specs.Calls.{Formats, PrintsPacked};

/// What the rules print of the packed form of a node is the printed text of the node.
pub fn packed_nodes()
    ensures { (kind : Kind) (node : (printing_of kind).Node)
        → Prints 0 (codes "$") ((printing_of kind).packed node) ((printing_of kind).print node) [] }
{}

/// The packed form of a node has JSON.
pub fn packed_json()
    ensures { (kind : Kind) (node : (printing_of kind).Node)
        → (text : List ℕ) × IsJsonOf ((printing_of kind).packed node) text }
{}

/// Printing the packed form of the module that a text is returns what formatting the text returns,
/// if it returns a text or its length.
pub fn printed_packed()
    ensures { (depth : ℕ) (text form before buffer : List ℕ) (answer : Answer) (result : ℕ)
        → IsUtf8 text → IsPackedOf module_tree (chars text) form → (result ≡ 0) ⊎ (result ≡ 4)
        → PrintsPacked form before buffer answer result → Formats depth text before buffer answer result }
{}

/// No two trees that texts derive have one packed form, spans included. The span of a declaration
/// or a statement itself is not in its form.
pub fn packed_forms_differ()
    ensures unit { HaveOwnFormsInTexts symbols.unit (λ u. u) packed_unit }
    ensures directive { HaveOwnFormsInTexts symbols.global_directive (λ d. d) packed_directive }
    ensures declaration { HaveOwnFormsInTexts symbols.global_declaration (λ d. d.node)
        packed_global_declaration }
    ensures statement { HaveOwnFormsInTexts symbols.statement statement_in packed_statement }
    ensures expression { HaveOwnFormsInTexts symbols.expression (λ e. e) packed_expression_node }
{}
