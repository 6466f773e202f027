//! Written by tools/tables/tree_words.py from crates/wgsl_model/nodes: words, texts of operators.

ghost use Rattle.std.specs.Prelude.{◌≡◌};
ghost use Rattle.wgsl_model.specs.Printed.Operators.{assignment_operator_text, binary_operator_text, unary_operator_text};
ghost use Rattle.wgsl_model.specs.Trees.NamedValues.{access_mode_text, address_space_text, builtin_value_text, interpolation_sampling_text, interpolation_type_text, severity_text};
ghost use Rattle.wgsl_tree_words.specs.View.{access_mode_view, address_space_view, assignment_operator_view, binary_operator_view, builtin_value_view, interpolation_sampling_view, interpolation_type_view, severity_view, unary_operator_view};

use wgsl_tree_words::{
    AccessMode, AddressSpace, AssignmentOperator, BinaryOperator, BuiltinValue, DiagnosticSeverity,
    InterpolationSampling, InterpolationType, UnaryOperator,
};

/// Returns the word of a severity.
pub fn severity_word(value: DiagnosticSeverity) -> &'static str
    ensures { result.now ≡ severity_text (severity_view value) }
{
    match value {
        DiagnosticSeverity::Error => "error",
        DiagnosticSeverity::Warning => "warning",
        DiagnosticSeverity::Info => "info",
        DiagnosticSeverity::Off => "off",
    }
}

/// Returns the word of an address space.
pub fn address_space_word(value: AddressSpace) -> &'static str
    ensures { result.now ≡ address_space_text (address_space_view value) }
{
    match value {
        AddressSpace::Function => "function",
        AddressSpace::Private => "private",
        AddressSpace::Workgroup => "workgroup",
        AddressSpace::Uniform => "uniform",
        AddressSpace::Storage => "storage",
    }
}

/// Returns the word of an access mode.
pub fn access_mode_word(value: AccessMode) -> &'static str
    ensures { result.now ≡ access_mode_text (access_mode_view value) }
{
    match value {
        AccessMode::Read => "read",
        AccessMode::Write => "write",
        AccessMode::ReadWrite => "read_write",
    }
}

/// Returns the word of a built-in value.
pub fn builtin_value_word(value: BuiltinValue) -> &'static str
    ensures { result.now ≡ builtin_value_text (builtin_value_view value) }
{
    match value {
        BuiltinValue::VertexIndex => "vertex_index",
        BuiltinValue::InstanceIndex => "instance_index",
        BuiltinValue::ClipDistances => "clip_distances",
        BuiltinValue::Position => "position",
        BuiltinValue::FrontFacing => "front_facing",
        BuiltinValue::FragDepth => "frag_depth",
        BuiltinValue::SampleIndex => "sample_index",
        BuiltinValue::SampleMask => "sample_mask",
        BuiltinValue::LocalInvocationId => "local_invocation_id",
        BuiltinValue::LocalInvocationIndex => "local_invocation_index",
        BuiltinValue::GlobalInvocationId => "global_invocation_id",
        BuiltinValue::WorkgroupId => "workgroup_id",
        BuiltinValue::NumWorkgroups => "num_workgroups",
        BuiltinValue::SubgroupInvocationId => "subgroup_invocation_id",
        BuiltinValue::SubgroupSize => "subgroup_size",
    }
}

/// Returns the word of an interpolation type.
pub fn interpolation_type_word(value: InterpolationType) -> &'static str
    ensures { result.now ≡ interpolation_type_text (interpolation_type_view value) }
{
    match value {
        InterpolationType::Perspective => "perspective",
        InterpolationType::Linear => "linear",
        InterpolationType::Flat => "flat",
    }
}

/// Returns the word of an interpolation sampling.
pub fn interpolation_sampling_word(value: InterpolationSampling) -> &'static str
    ensures { result.now ≡ interpolation_sampling_text (interpolation_sampling_view value) }
{
    match value {
        InterpolationSampling::Center => "center",
        InterpolationSampling::Centroid => "centroid",
        InterpolationSampling::Sample => "sample",
        InterpolationSampling::First => "first",
        InterpolationSampling::Either => "either",
    }
}

/// Returns the text of an operator before its operand.
pub fn unary_operator_word(value: UnaryOperator) -> &'static str
    ensures { result.now ≡ unary_operator_text (unary_operator_view value) }
{
    match value {
        UnaryOperator::LogicalNegation => "!",
        UnaryOperator::Negation => "-",
        UnaryOperator::BitwiseComplement => "~",
        UnaryOperator::AddressOf => "&",
        UnaryOperator::Indirection => "*",
    }
}

/// Returns the text of an operator between two operands.
pub fn binary_operator_word(value: BinaryOperator) -> &'static str
    ensures { result.now ≡ binary_operator_text (binary_operator_view value) }
{
    match value {
        BinaryOperator::ShortCircuitOr => "||",
        BinaryOperator::ShortCircuitAnd => "&&",
        BinaryOperator::Addition => "+",
        BinaryOperator::Subtraction => "-",
        BinaryOperator::Multiplication => "*",
        BinaryOperator::Division => "/",
        BinaryOperator::Remainder => "%",
        BinaryOperator::Equality => "==",
        BinaryOperator::Inequality => "!=",
        BinaryOperator::LessThan => "<",
        BinaryOperator::LessThanEqual => "<=",
        BinaryOperator::GreaterThan => ">",
        BinaryOperator::GreaterThanEqual => ">=",
        BinaryOperator::BitwiseOr => "|",
        BinaryOperator::BitwiseAnd => "&",
        BinaryOperator::BitwiseXor => "^",
        BinaryOperator::ShiftLeft => "<<",
        BinaryOperator::ShiftRight => ">>",
    }
}

/// Returns the text of an operator that assigns.
pub fn assignment_operator_word(value: AssignmentOperator) -> &'static str
    ensures { result.now ≡ assignment_operator_text (assignment_operator_view value) }
{
    match value {
        AssignmentOperator::Equal => "=",
        AssignmentOperator::PlusEqual => "+=",
        AssignmentOperator::MinusEqual => "-=",
        AssignmentOperator::TimesEqual => "*=",
        AssignmentOperator::DivisionEqual => "/=",
        AssignmentOperator::ModuloEqual => "%=",
        AssignmentOperator::AndEqual => "&=",
        AssignmentOperator::OrEqual => "|=",
        AssignmentOperator::XorEqual => "^=",
        AssignmentOperator::ShiftRightAssign => ">>=",
        AssignmentOperator::ShiftLeftAssign => "<<=",
    }
}
