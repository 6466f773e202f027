//! Token lists whose trees and faults are computed from the definitions: each is a contract of a
//! function that takes nothing and does nothing.

ghost use Rattle.grammar.specs.Grammar.{Mode.checking, Derives};
ghost use Rattle.grammar.specs.Endings.{Ending.finished, Ending.carried};
ghost use Rattle.wgsl_model.specs.Grammar.Symbols.{Symbol.expression, Symbol.global_declaration, Symbol.global_directive, Symbol.literal, Symbol.statement, Symbol.template_list, Symbol.unit};
ghost use Rattle.wgsl_model.specs.Grammar.Written.{written};
ghost use Rattle.wgsl_model.specs.Faults.NamedFault.{IsNamed, IsNamedSmall};
ghost use Rattle.wgsl_model.specs.Grammar.Small.{small};
ghost use Rattle.wgsl_laws.specs.RowParts.{want_of_memory};
ghost use Rattle.wgsl_laws.specs.ExpressionsRows.{sum_to_the_left_tokens, sum_to_the_left_tree, product_of_a_negation_tokens, product_of_a_negation_tree, two_negations_tokens, two_negations_tree, base_before_its_component_tokens, base_before_its_component_tree, chain_of_comparisons_tokens, chain_of_comparisons_tree, template_and_call_tokens, template_and_call_tree, last_comma_of_arguments_tokens, last_comma_of_arguments_tree, comparison_of_a_shift_tokens, comparison_of_a_shift_tree, shift_of_a_sum_tokens, shift_of_a_sum_fault, and_beside_or_tokens, and_beside_or_fault, doubled_comma_tokens, doubled_comma_fault, fault_after_an_unexpected_token_tokens, fault_after_an_unexpected_token_fault, fault_at_an_unexpected_token_tokens, fault_at_an_unexpected_token_fault, no_expression_tokens, no_expression_fault, boolean_literal_tokens, boolean_literal_tree, no_literal_tokens, no_literal_fault, template_of_one_tokens, template_of_one_tree};
ghost use Rattle.wgsl_laws.specs.StatementsRows.{for_header_tokens, for_header_tree, loop_and_continuing_tokens, loop_and_continuing_tree, break_in_continuing_tokens, break_in_continuing_tree, else_ifs_tokens, else_ifs_tree, phony_assignment_tokens, phony_assignment_tree, left_side_in_parentheses_tokens, left_side_in_parentheses_tree, attribute_of_a_block_tokens, attribute_of_a_block_tree, clause_of_a_default_tokens, clause_of_a_default_tree, last_comma_of_selectors_tokens, last_comma_of_selectors_tree, empty_return_tokens, empty_return_tree, product_as_a_statement_tokens, product_as_a_statement_fault, assignment_to_a_call_tokens, assignment_to_a_call_fault, assignment_to_a_template_tokens, assignment_to_a_template_fault, attribute_before_an_assignment_tokens, attribute_before_an_assignment_tree, attributes_in_a_for_header_tokens, attributes_in_a_for_header_tree, attribute_before_a_clause_tokens, attribute_before_a_clause_tree, attributes_in_a_loop_tokens, attributes_in_a_loop_tree, arguments_before_an_assignment_tokens, arguments_before_an_assignment_fault, attribute_before_parentheses_tokens, attribute_before_parentheses_fault, attribute_before_a_semicolon_tokens, attribute_before_a_semicolon_fault, attribute_before_else_tokens, attribute_before_else_fault, attribute_before_a_wrong_template_tokens, attribute_before_a_wrong_template_fault};
ghost use Rattle.wgsl_laws.specs.DeclarationsRows.{struct_with_a_last_comma_tokens, struct_with_a_last_comma_tree, entry_point_tokens, entry_point_tree, keyword_as_an_attribute_tokens, keyword_as_an_attribute_tree, reserved_word_as_an_attribute_tokens, reserved_word_as_an_attribute_tree, variable_in_storage_tokens, variable_in_storage_tree, struct_without_members_tokens, struct_without_members_fault, attribute_before_a_struct_tokens, attribute_before_a_struct_tree, unknown_builtin_tokens, unknown_builtin_fault, too_many_arguments_tokens, too_many_arguments_fault, needless_parentheses_tokens, needless_parentheses_fault, wrong_constraint_tokens, wrong_constraint_fault, bare_attribute_at_the_end_tokens, bare_attribute_at_the_end_fault, bare_attribute_in_want_of_memory_tokens, open_arguments_tokens, open_arguments_fault, access_mode_without_storage_tokens, access_mode_without_storage_fault, three_template_arguments_tokens, three_template_arguments_fault, reserved_word_as_a_name_tokens, reserved_word_as_a_name_fault, function_without_an_end_tokens, function_without_an_end_fault};
ghost use Rattle.wgsl_laws.specs.DirectivesRows.{last_comma_of_names_tokens, last_comma_of_names_tree, rule_of_two_names_tokens, rule_of_two_names_tree, unknown_severity_tokens, unknown_severity_fault, reserved_word_as_a_severity_tokens, reserved_word_as_a_severity_fault};
ghost use Rattle.wgsl_laws.specs.UnitsRows.{empty_unit_tokens, empty_unit_tree, three_declarations_tokens, three_declarations_tree, directive_after_a_declaration_tokens, directive_after_a_declaration_fault, attribute_before_a_directive_tokens, attribute_before_a_directive_tree, attribute_before_the_first_declaration_tokens, attribute_before_the_first_declaration_tree, directive_with_an_attribute_after_a_declaration_tokens, directive_with_an_attribute_after_a_declaration_fault, bare_attribute_before_a_function_tokens, bare_attribute_before_a_function_fault, attribute_before_no_statement_tokens, attribute_before_no_statement_fault};
ghost use Rattle.wgsl_laws.specs.DialectRows.{minus_minus_dialect_tokens, minus_minus_dialect_fault, reserved_word_dialect_tokens, reserved_word_dialect_fault, severity_dialect_tokens, severity_dialect_tree, template_dialect_tokens, template_dialect_tree, keyword_dialect_tokens, keyword_dialect_fault, attribute_dialect_tokens, attribute_dialect_fault};

/// Each of these token lists of an expression, a literal or a template list derives the tree or has
/// the fault that is given with it.
pub fn expressions()
    ensures sum_to_the_left { Derives checking written expression
        sum_to_the_left_tree sum_to_the_left_tokens }
    ensures product_of_a_negation { Derives checking written expression
        product_of_a_negation_tree product_of_a_negation_tokens }
    ensures two_negations { Derives checking written expression
        two_negations_tree two_negations_tokens }
    ensures base_before_its_component { Derives checking written expression
        base_before_its_component_tree base_before_its_component_tokens }
    ensures chain_of_comparisons { Derives checking written expression
        chain_of_comparisons_tree chain_of_comparisons_tokens }
    ensures template_and_call { Derives checking written expression
        template_and_call_tree template_and_call_tokens }
    ensures last_comma_of_arguments { Derives checking written expression
        last_comma_of_arguments_tree last_comma_of_arguments_tokens }
    ensures comparison_of_a_shift { Derives checking written expression
        comparison_of_a_shift_tree comparison_of_a_shift_tokens }
    ensures shift_of_a_sum { IsNamed expression
        shift_of_a_sum_tokens finished shift_of_a_sum_fault }
    ensures and_beside_or { IsNamed expression and_beside_or_tokens finished and_beside_or_fault }
    ensures doubled_comma { IsNamed expression doubled_comma_tokens finished doubled_comma_fault }
    ensures fault_after_an_unexpected_token { IsNamed expression
        fault_after_an_unexpected_token_tokens finished fault_after_an_unexpected_token_fault }
    ensures fault_at_an_unexpected_token { IsNamed expression
        fault_at_an_unexpected_token_tokens finished fault_at_an_unexpected_token_fault }
    ensures no_expression { IsNamed expression no_expression_tokens finished no_expression_fault }
    ensures boolean_literal { Derives checking written literal
        boolean_literal_tree boolean_literal_tokens }
    ensures no_literal { IsNamed literal no_literal_tokens finished no_literal_fault }
    ensures template_of_one { Derives checking written template_list
        template_of_one_tree template_of_one_tokens }
{}

/// Each of these token lists of a statement derives the tree or has the fault that is given with
/// it.
pub fn statements()
    ensures for_header { Derives checking written statement for_header_tree for_header_tokens }
    ensures loop_and_continuing { Derives checking written statement
        loop_and_continuing_tree loop_and_continuing_tokens }
    ensures break_in_continuing { Derives checking written statement
        break_in_continuing_tree break_in_continuing_tokens }
    ensures else_ifs { Derives checking written statement else_ifs_tree else_ifs_tokens }
    ensures phony_assignment { Derives checking written statement
        phony_assignment_tree phony_assignment_tokens }
    ensures left_side_in_parentheses { Derives checking written statement
        left_side_in_parentheses_tree left_side_in_parentheses_tokens }
    ensures attribute_of_a_block { Derives checking written statement
        attribute_of_a_block_tree attribute_of_a_block_tokens }
    ensures clause_of_a_default { Derives checking written statement
        clause_of_a_default_tree clause_of_a_default_tokens }
    ensures last_comma_of_selectors { Derives checking written statement
        last_comma_of_selectors_tree last_comma_of_selectors_tokens }
    ensures empty_return { Derives checking written statement
        empty_return_tree empty_return_tokens }
    ensures product_as_a_statement { IsNamed statement
        product_as_a_statement_tokens finished product_as_a_statement_fault }
    ensures assignment_to_a_call { IsNamed statement
        assignment_to_a_call_tokens finished assignment_to_a_call_fault }
    ensures assignment_to_a_template { IsNamed statement
        assignment_to_a_template_tokens finished assignment_to_a_template_fault }
    ensures attribute_before_an_assignment { Derives checking written statement
        attribute_before_an_assignment_tree attribute_before_an_assignment_tokens }
    ensures attributes_in_a_for_header { Derives checking written statement
        attributes_in_a_for_header_tree attributes_in_a_for_header_tokens }
    ensures attribute_before_a_clause { Derives checking written statement
        attribute_before_a_clause_tree attribute_before_a_clause_tokens }
    ensures attributes_in_a_loop { Derives checking written statement
        attributes_in_a_loop_tree attributes_in_a_loop_tokens }
    ensures arguments_before_an_assignment { IsNamed statement
        arguments_before_an_assignment_tokens finished arguments_before_an_assignment_fault }
    ensures attribute_before_parentheses { IsNamed statement
        attribute_before_parentheses_tokens finished attribute_before_parentheses_fault }
    ensures attribute_before_a_semicolon { IsNamed statement
        attribute_before_a_semicolon_tokens finished attribute_before_a_semicolon_fault }
    ensures attribute_before_else { IsNamed statement
        attribute_before_else_tokens finished attribute_before_else_fault }
    ensures attribute_before_a_wrong_template { IsNamed statement
        attribute_before_a_wrong_template_tokens finished attribute_before_a_wrong_template_fault }
{}

/// Each of these token lists of a declaration derives the tree or has the fault that is given with
/// it.
pub fn declarations()
    ensures struct_with_a_last_comma { Derives checking written global_declaration
        struct_with_a_last_comma_tree struct_with_a_last_comma_tokens }
    ensures entry_point { Derives checking written global_declaration
        entry_point_tree entry_point_tokens }
    ensures keyword_as_an_attribute { Derives checking written global_declaration
        keyword_as_an_attribute_tree keyword_as_an_attribute_tokens }
    ensures reserved_word_as_an_attribute { Derives checking written global_declaration
        reserved_word_as_an_attribute_tree reserved_word_as_an_attribute_tokens }
    ensures variable_in_storage { Derives checking written global_declaration
        variable_in_storage_tree variable_in_storage_tokens }
    ensures struct_without_members { IsNamed global_declaration
        struct_without_members_tokens finished struct_without_members_fault }
    ensures attribute_before_a_struct { Derives checking written global_declaration
        attribute_before_a_struct_tree attribute_before_a_struct_tokens }
    ensures unknown_builtin { IsNamed global_declaration
        unknown_builtin_tokens finished unknown_builtin_fault }
    ensures too_many_arguments { IsNamed global_declaration
        too_many_arguments_tokens finished too_many_arguments_fault }
    ensures needless_parentheses { IsNamed global_declaration
        needless_parentheses_tokens finished needless_parentheses_fault }
    ensures wrong_constraint { IsNamed global_declaration
        wrong_constraint_tokens finished wrong_constraint_fault }
    ensures bare_attribute_at_the_end { IsNamed global_declaration
        bare_attribute_at_the_end_tokens finished bare_attribute_at_the_end_fault }
    ensures bare_attribute_in_want_of_memory { IsNamed global_declaration
        bare_attribute_in_want_of_memory_tokens (carried want_of_memory) want_of_memory }
    ensures open_arguments { IsNamed global_declaration
        open_arguments_tokens finished open_arguments_fault }
    ensures access_mode_without_storage { IsNamed global_declaration
        access_mode_without_storage_tokens finished access_mode_without_storage_fault }
    ensures three_template_arguments { IsNamed global_declaration
        three_template_arguments_tokens finished three_template_arguments_fault }
    ensures reserved_word_as_a_name { IsNamed global_declaration
        reserved_word_as_a_name_tokens finished reserved_word_as_a_name_fault }
    ensures function_without_an_end { IsNamed global_declaration
        function_without_an_end_tokens finished function_without_an_end_fault }
{}

/// Each of these token lists of a directive derives the tree or has the fault that is given with
/// it.
pub fn directives()
    ensures last_comma_of_names { Derives checking written global_directive
        last_comma_of_names_tree last_comma_of_names_tokens }
    ensures rule_of_two_names { Derives checking written global_directive
        rule_of_two_names_tree rule_of_two_names_tokens }
    ensures unknown_severity { IsNamed global_directive
        unknown_severity_tokens finished unknown_severity_fault }
    ensures reserved_word_as_a_severity { IsNamed global_directive
        reserved_word_as_a_severity_tokens finished reserved_word_as_a_severity_fault }
{}

/// Each of these token lists of a module derives the tree or has the fault that is given with it.
pub fn units()
    ensures empty_unit { Derives checking written unit empty_unit_tree empty_unit_tokens }
    ensures three_declarations { Derives checking written unit
        three_declarations_tree three_declarations_tokens }
    ensures directive_after_a_declaration { IsNamed unit
        directive_after_a_declaration_tokens finished directive_after_a_declaration_fault }
    ensures attribute_before_a_directive { Derives checking written unit
        attribute_before_a_directive_tree attribute_before_a_directive_tokens }
    ensures attribute_before_the_first_declaration { Derives checking written unit
        attribute_before_the_first_declaration_tree attribute_before_the_first_declaration_tokens }
    ensures directive_with_an_attribute_after_a_declaration { IsNamed unit
        directive_with_an_attribute_after_a_declaration_tokens finished
        directive_with_an_attribute_after_a_declaration_fault }
    ensures bare_attribute_before_a_function { IsNamed unit
        bare_attribute_before_a_function_tokens finished bare_attribute_before_a_function_fault }
    ensures attribute_before_no_statement { IsNamed unit
        attribute_before_no_statement_tokens finished attribute_before_no_statement_fault }
{}

/// Each of these token lists derives, by the rules of the dialect, the tree or has the fault that
/// is given with it.
pub fn dialect()
    ensures minus_minus_dialect { IsNamedSmall expression
        minus_minus_dialect_tokens finished minus_minus_dialect_fault }
    ensures reserved_word_dialect { IsNamedSmall global_declaration
        reserved_word_dialect_tokens finished reserved_word_dialect_fault }
    ensures severity_dialect { Derives checking small global_directive
        severity_dialect_tree severity_dialect_tokens }
    ensures template_dialect { Derives checking small global_declaration
        template_dialect_tree template_dialect_tokens }
    ensures keyword_dialect { IsNamedSmall global_declaration
        keyword_dialect_tokens finished keyword_dialect_fault }
    ensures attribute_dialect { IsNamedSmall unit
        attribute_dialect_tokens finished attribute_dialect_fault }
{}
