//! Modules, what their uses refer to, and what renaming makes of them, computed from the
//! definitions.

ghost use Rattle.std.specs.Prelude.{◌≡◌, ◌++◌, codes};
ghost use Rattle.wgsl_model_names.specs.Names.{unit_referents};
ghost use Rattle.wgsl_model_names.specs.Renamed.{renamed_unit};
ghost use Rattle.wgsl_laws_names.specs.RowParts.{each_alone};
ghost use Rattle.wgsl_laws_names.specs.ScopeRows as row;
ghost use Rattle.wgsl_laws_names.specs.AlternativeRows as alternative;
ghost use Rattle.wgsl_laws_names.specs.UseRows as use_row;

/// Each use of these modules refers to what is given with it: to the declaration that is in scope,
/// or to the last of two.
pub fn scopes()
    ensures used_before_declared { unit_referents row.used_before_declared ≡
        each_alone row.used_before_declared_referents }
    ensures shadowed_in_a_block { unit_referents row.shadowed_in_a_block ≡
        each_alone row.shadowed_in_a_block_referents }
    ensures own_value { unit_referents row.own_value ≡ each_alone row.own_value_referents }
    ensures parameters { unit_referents row.parameters ≡ each_alone row.parameters_referents }
    ensures ends_with_its_function { unit_referents row.ends_with_its_function ≡
        each_alone row.ends_with_its_function_referents }
    ensures for_header { unit_referents row.for_header ≡ each_alone row.for_header_referents }
    ensures switch_clauses { unit_referents row.switch_clauses ≡
        each_alone row.switch_clauses_referents }
    ensures continuing_block { unit_referents row.continuing_block ≡
        each_alone row.continuing_block_referents }
    ensures if_and_else { unit_referents row.if_and_else ≡ each_alone row.if_and_else_referents }
    ensures while_body { unit_referents row.while_body ≡ each_alone row.while_body_referents }
    ensures functions { unit_referents row.functions ≡ each_alone row.functions_referents }
{}

/// Each use in these modules may refer to the declarations that are given with it, and to what is
/// outside where none of them may be there.
pub fn alternatives()
    ensures function_under_if { unit_referents alternative.function_under_if ≡
        alternative.function_under_if_referents }
    ensures local_under_if { unit_referents alternative.local_under_if ≡
        alternative.local_under_if_referents }
    ensures parameter_under_if { unit_referents alternative.parameter_under_if ≡
        alternative.parameter_under_if_referents }
    ensures alias_under_if { unit_referents alternative.alias_under_if ≡
        alternative.alias_under_if_referents }
    ensures always_one { unit_referents alternative.always_one ≡
        alternative.always_one_referents }
    ensures always_one_of_three { unit_referents alternative.always_one_of_three ≡
        alternative.always_one_of_three_referents }
    ensures elif_declares_another { unit_referents alternative.elif_declares_another ≡
        alternative.elif_declares_another_referents }
    ensures elif_declares_nothing { unit_referents alternative.elif_declares_nothing ≡
        alternative.elif_declares_nothing_referents }
    ensures several_conditions { unit_referents alternative.several_conditions ≡
        alternative.several_conditions_referents }
    ensures else_uses_its_name { unit_referents alternative.else_uses_its_name ≡
        alternative.else_uses_its_name_referents }
    ensures shadowed_under_if { unit_referents alternative.shadowed_under_if ≡
        alternative.shadowed_under_if_referents }
{}

/// The uses of these modules are those that are given with them.
pub fn uses()
    ensures built_in_names { unit_referents use_row.built_in_names ≡
        each_alone use_row.built_in_names_referents }
    ensures attribute_arguments { unit_referents use_row.attribute_arguments ≡
        each_alone use_row.attribute_arguments_referents }
    ensures unknown_in_attributes { unit_referents use_row.unknown_in_attributes ≡
        each_alone use_row.unknown_in_attributes_referents }
    ensures condition { unit_referents use_row.condition ≡
        each_alone use_row.condition_referents }
    ensures unknown_attribute { unit_referents use_row.unknown_attribute ≡
        each_alone use_row.unknown_attribute_referents }
    ensures assertions { unit_referents use_row.assertions ≡
        each_alone use_row.assertions_referents }
    ensures template_arguments { unit_referents use_row.template_arguments ≡
        each_alone use_row.template_arguments_referents }
    ensures members { unit_referents use_row.members ≡ each_alone use_row.members_referents }
    ensures members_and_results { unit_referents use_row.members_and_results ≡
        each_alone use_row.members_and_results_referents }
    ensures declared_address_space { unit_referents use_row.declared_address_space ≡
        each_alone use_row.declared_address_space_referents }
    ensures simple_statements { unit_referents use_row.simple_statements ≡
        each_alone use_row.simple_statements_referents }
{}

/// Each of these modules, renamed, is the one that is given with it.
pub fn renamed()
    ensures members { renamed_unit (λ x. x ++ codes "1") use_row.members ≡
        use_row.renamed_members }
    ensures attributes { renamed_unit (λ x. x ++ codes "1") use_row.unknown_in_attributes ≡
        use_row.renamed_constants }
{}
