//! Written by tools/tables/tree_words.py from crates/wgsl_model/nodes: operators, and words.

ghost use Rattle.std.specs.Prelude.{◌≡◌, Some, MatchResult};
ghost use Rattle.wgsl_model.specs.Trees.NamedValues as plain;
ghost use Rattle.wgsl_model.specs.Trees.NamedValues.{severity_text};
ghost use Rattle.wgsl_tree_words.specs.ViewNodes.{severity_view};
ghost use Rattle.wgsl_model.specs.Trees.NamedValues.{address_space_text};
ghost use Rattle.wgsl_tree_words.specs.ViewNodes.{address_space_view};
ghost use Rattle.wgsl_model.specs.Trees.NamedValues.{access_mode_text};
ghost use Rattle.wgsl_tree_words.specs.ViewNodes.{access_mode_view};
ghost use Rattle.wgsl_model.specs.Printed.Operators.{unary_operator_text};
ghost use Rattle.wgsl_tree_words.specs.ViewNodes.{unary_operator_view};
ghost use Rattle.wgsl_model.specs.Printed.Operators.{binary_operator_text};
ghost use Rattle.wgsl_tree_words.specs.ViewNodes.{binary_operator_view};
ghost use Rattle.wgsl_model.specs.Printed.Operators.{assignment_operator_text};
ghost use Rattle.wgsl_tree_words.specs.ViewNodes.{assignment_operator_view};
ghost use Rattle.wgsl_model.specs.Trees.NamedValues.{builtin_value_text};
ghost use Rattle.wgsl_tree_words.specs.ViewNodes.{builtin_value_view};
ghost use Rattle.wgsl_model.specs.Trees.NamedValues.{interpolation_type_text};
ghost use Rattle.wgsl_tree_words.specs.ViewNodes.{interpolation_type_view};
ghost use Rattle.wgsl_model.specs.Trees.NamedValues.{interpolation_sampling_text};
ghost use Rattle.wgsl_tree_words.specs.ViewNodes.{interpolation_sampling_view};

use std::fmt;

/// A severity: how a diagnostic is reported.
#[derive(Clone, Copy, PartialEq, Eq, Debug)]
pub enum DiagnosticSeverity {
    Error,
    Warning,
    Info,
    Off,
}

impl DiagnosticSeverity {
    /// Returns the value whose word the text is, or an error where there is none.
    pub fn from_str(text: &str) -> Result<Self, ()>
        ensures { MatchResult result
            (λ value. text.now ≡ severity_text (severity_view value))
            (λ _. (value : plain.DiagnosticSeverity) → ¬ (text.now ≡ severity_text value)) }
    {
        match text {
            "error" => Ok(DiagnosticSeverity::Error),
            "warning" => Ok(DiagnosticSeverity::Warning),
            "info" => Ok(DiagnosticSeverity::Info),
            "off" => Ok(DiagnosticSeverity::Off),
            _ => Err(()),
        }
    }
}

impl fmt::Display for DiagnosticSeverity {
    ghost output = { λ value. Some (severity_text (severity_view value)) };

    fn fmt<W: fmt::Write>(&self, f: &mut fmt::Formatter<W>) -> fmt::Result {
        f.write_str(match self {
            DiagnosticSeverity::Error => "error",
            DiagnosticSeverity::Warning => "warning",
            DiagnosticSeverity::Info => "info",
            DiagnosticSeverity::Off => "off",
        })
    }
}

/// An address space: where a variable is stored.
#[derive(Clone, Copy, PartialEq, Eq, Debug)]
pub enum AddressSpace {
    Function,
    Private,
    Workgroup,
    Uniform,
    Storage,
}

impl AddressSpace {
    /// Returns the value whose word the text is, or an error where there is none.
    pub fn from_str(text: &str) -> Result<Self, ()>
        ensures { MatchResult result
            (λ value. text.now ≡ address_space_text (address_space_view value))
            (λ _. (value : plain.AddressSpace) → ¬ (text.now ≡ address_space_text value)) }
    {
        match text {
            "function" => Ok(AddressSpace::Function),
            "private" => Ok(AddressSpace::Private),
            "workgroup" => Ok(AddressSpace::Workgroup),
            "uniform" => Ok(AddressSpace::Uniform),
            "storage" => Ok(AddressSpace::Storage),
            _ => Err(()),
        }
    }
}

impl fmt::Display for AddressSpace {
    ghost output = { λ value. Some (address_space_text (address_space_view value)) };

    fn fmt<W: fmt::Write>(&self, f: &mut fmt::Formatter<W>) -> fmt::Result {
        f.write_str(match self {
            AddressSpace::Function => "function",
            AddressSpace::Private => "private",
            AddressSpace::Workgroup => "workgroup",
            AddressSpace::Uniform => "uniform",
            AddressSpace::Storage => "storage",
        })
    }
}

/// An access mode: how memory is used.
#[derive(Clone, Copy, PartialEq, Eq, Debug)]
pub enum AccessMode {
    Read,
    Write,
    ReadWrite,
}

impl AccessMode {
    /// Returns the value whose word the text is, or an error where there is none.
    pub fn from_str(text: &str) -> Result<Self, ()>
        ensures { MatchResult result
            (λ value. text.now ≡ access_mode_text (access_mode_view value))
            (λ _. (value : plain.AccessMode) → ¬ (text.now ≡ access_mode_text value)) }
    {
        match text {
            "read" => Ok(AccessMode::Read),
            "write" => Ok(AccessMode::Write),
            "read_write" => Ok(AccessMode::ReadWrite),
            _ => Err(()),
        }
    }
}

impl fmt::Display for AccessMode {
    ghost output = { λ value. Some (access_mode_text (access_mode_view value)) };

    fn fmt<W: fmt::Write>(&self, f: &mut fmt::Formatter<W>) -> fmt::Result {
        f.write_str(match self {
            AccessMode::Read => "read",
            AccessMode::Write => "write",
            AccessMode::ReadWrite => "read_write",
        })
    }
}

/// An operator before an operand.
#[derive(Clone, Copy, PartialEq, Eq, Debug)]
pub enum UnaryOperator {
    LogicalNegation,
    Negation,
    BitwiseComplement,
    AddressOf,
    Indirection,
}

impl fmt::Display for UnaryOperator {
    ghost output = { λ value. Some (unary_operator_text (unary_operator_view value)) };

    fn fmt<W: fmt::Write>(&self, f: &mut fmt::Formatter<W>) -> fmt::Result {
        f.write_str(match self {
            UnaryOperator::LogicalNegation => "!",
            UnaryOperator::Negation => "-",
            UnaryOperator::BitwiseComplement => "~",
            UnaryOperator::AddressOf => "&",
            UnaryOperator::Indirection => "*",
        })
    }
}

/// An operator between operands.
#[derive(Clone, Copy, PartialEq, Eq, Debug)]
pub enum BinaryOperator {
    ShortCircuitOr,
    ShortCircuitAnd,
    Addition,
    Subtraction,
    Multiplication,
    Division,
    Remainder,
    Equality,
    Inequality,
    LessThan,
    LessThanEqual,
    GreaterThan,
    GreaterThanEqual,
    BitwiseOr,
    BitwiseAnd,
    BitwiseXor,
    ShiftLeft,
    ShiftRight,
}

impl fmt::Display for BinaryOperator {
    ghost output = { λ value. Some (binary_operator_text (binary_operator_view value)) };

    fn fmt<W: fmt::Write>(&self, f: &mut fmt::Formatter<W>) -> fmt::Result {
        f.write_str(match self {
            BinaryOperator::ShortCircuitOr => "||",
            BinaryOperator::ShortCircuitAnd => "&&",
            BinaryOperator::Addition => "+",
            BinaryOperator::Subtraction => "-",
            BinaryOperator::Multiplication => "*",
            BinaryOperator::Division => "/",
            BinaryOperator::Remainder => "%",
            BinaryOperator::Equality => "==",
            BinaryOperator::Inequality => "!=",
            BinaryOperator::LessThan => "<",
            BinaryOperator::LessThanEqual => "<=",
            BinaryOperator::GreaterThan => ">",
            BinaryOperator::GreaterThanEqual => ">=",
            BinaryOperator::BitwiseOr => "|",
            BinaryOperator::BitwiseAnd => "&",
            BinaryOperator::BitwiseXor => "^",
            BinaryOperator::ShiftLeft => "<<",
            BinaryOperator::ShiftRight => ">>",
        })
    }
}

/// The operator of an assignment.
#[derive(Clone, Copy, PartialEq, Eq, Debug)]
pub enum AssignmentOperator {
    Equal,
    PlusEqual,
    MinusEqual,
    TimesEqual,
    DivisionEqual,
    ModuloEqual,
    AndEqual,
    OrEqual,
    XorEqual,
    ShiftRightAssign,
    ShiftLeftAssign,
}

impl fmt::Display for AssignmentOperator {
    ghost output = { λ value. Some (assignment_operator_text (assignment_operator_view value)) };

    fn fmt<W: fmt::Write>(&self, f: &mut fmt::Formatter<W>) -> fmt::Result {
        f.write_str(match self {
            AssignmentOperator::Equal => "=",
            AssignmentOperator::PlusEqual => "+=",
            AssignmentOperator::MinusEqual => "-=",
            AssignmentOperator::TimesEqual => "*=",
            AssignmentOperator::DivisionEqual => "/=",
            AssignmentOperator::ModuloEqual => "%=",
            AssignmentOperator::AndEqual => "&=",
            AssignmentOperator::OrEqual => "|=",
            AssignmentOperator::XorEqual => "^=",
            AssignmentOperator::ShiftRightAssign => ">>=",
            AssignmentOperator::ShiftLeftAssign => "<<=",
        })
    }
}

/// A built-in value, which a stage is given or gives.
#[derive(Clone, Copy, PartialEq, Eq, Debug)]
pub enum BuiltinValue {
    VertexIndex,
    InstanceIndex,
    ClipDistances,
    Position,
    FrontFacing,
    FragDepth,
    SampleIndex,
    SampleMask,
    LocalInvocationId,
    LocalInvocationIndex,
    GlobalInvocationId,
    WorkgroupId,
    NumWorkgroups,
    SubgroupInvocationId,
    SubgroupSize,
}

impl BuiltinValue {
    /// Returns the value whose word the text is, or an error where there is none.
    pub fn from_str(text: &str) -> Result<Self, ()>
        ensures { MatchResult result
            (λ value. text.now ≡ builtin_value_text (builtin_value_view value))
            (λ _. (value : plain.BuiltinValue) → ¬ (text.now ≡ builtin_value_text value)) }
    {
        match text {
            "vertex_index" => Ok(BuiltinValue::VertexIndex),
            "instance_index" => Ok(BuiltinValue::InstanceIndex),
            "clip_distances" => Ok(BuiltinValue::ClipDistances),
            "position" => Ok(BuiltinValue::Position),
            "front_facing" => Ok(BuiltinValue::FrontFacing),
            "frag_depth" => Ok(BuiltinValue::FragDepth),
            "sample_index" => Ok(BuiltinValue::SampleIndex),
            "sample_mask" => Ok(BuiltinValue::SampleMask),
            "local_invocation_id" => Ok(BuiltinValue::LocalInvocationId),
            "local_invocation_index" => Ok(BuiltinValue::LocalInvocationIndex),
            "global_invocation_id" => Ok(BuiltinValue::GlobalInvocationId),
            "workgroup_id" => Ok(BuiltinValue::WorkgroupId),
            "num_workgroups" => Ok(BuiltinValue::NumWorkgroups),
            "subgroup_invocation_id" => Ok(BuiltinValue::SubgroupInvocationId),
            "subgroup_size" => Ok(BuiltinValue::SubgroupSize),
            _ => Err(()),
        }
    }
}

impl fmt::Display for BuiltinValue {
    ghost output = { λ value. Some (builtin_value_text (builtin_value_view value)) };

    fn fmt<W: fmt::Write>(&self, f: &mut fmt::Formatter<W>) -> fmt::Result {
        f.write_str(match self {
            BuiltinValue::VertexIndex => "vertex_index",
            BuiltinValue::InstanceIndex => "instance_index",
            BuiltinValue::ClipDistances => "clip_distances",
            BuiltinValue::Position => "position",
            BuiltinValue::FrontFacing => "front_facing",
            BuiltinValue::FragDepth => "frag_depth",
            BuiltinValue::SampleIndex => "sample_index",
            BuiltinValue::SampleMask => "sample_mask",
            BuiltinValue::LocalInvocationId => "local_invocation_id",
            BuiltinValue::LocalInvocationIndex => "local_invocation_index",
            BuiltinValue::GlobalInvocationId => "global_invocation_id",
            BuiltinValue::WorkgroupId => "workgroup_id",
            BuiltinValue::NumWorkgroups => "num_workgroups",
            BuiltinValue::SubgroupInvocationId => "subgroup_invocation_id",
            BuiltinValue::SubgroupSize => "subgroup_size",
        })
    }
}

/// An interpolation type: how a value is interpolated.
#[derive(Clone, Copy, PartialEq, Eq, Debug)]
pub enum InterpolationType {
    Perspective,
    Linear,
    Flat,
}

impl InterpolationType {
    /// Returns the value whose word the text is, or an error where there is none.
    pub fn from_str(text: &str) -> Result<Self, ()>
        ensures { MatchResult result
            (λ value. text.now ≡ interpolation_type_text (interpolation_type_view value))
            (λ _. (value : plain.InterpolationType) → ¬ (text.now ≡ interpolation_type_text value)) }
    {
        match text {
            "perspective" => Ok(InterpolationType::Perspective),
            "linear" => Ok(InterpolationType::Linear),
            "flat" => Ok(InterpolationType::Flat),
            _ => Err(()),
        }
    }
}

impl fmt::Display for InterpolationType {
    ghost output = { λ value. Some (interpolation_type_text (interpolation_type_view value)) };

    fn fmt<W: fmt::Write>(&self, f: &mut fmt::Formatter<W>) -> fmt::Result {
        f.write_str(match self {
            InterpolationType::Perspective => "perspective",
            InterpolationType::Linear => "linear",
            InterpolationType::Flat => "flat",
        })
    }
}

/// An interpolation sampling: where a value is sampled.
#[derive(Clone, Copy, PartialEq, Eq, Debug)]
pub enum InterpolationSampling {
    Center,
    Centroid,
    Sample,
    First,
    Either,
}

impl InterpolationSampling {
    /// Returns the value whose word the text is, or an error where there is none.
    pub fn from_str(text: &str) -> Result<Self, ()>
        ensures { MatchResult result
            (λ value. text.now ≡ interpolation_sampling_text (interpolation_sampling_view value))
            (λ _. (value : plain.InterpolationSampling) → ¬ (text.now ≡ interpolation_sampling_text value)) }
    {
        match text {
            "center" => Ok(InterpolationSampling::Center),
            "centroid" => Ok(InterpolationSampling::Centroid),
            "sample" => Ok(InterpolationSampling::Sample),
            "first" => Ok(InterpolationSampling::First),
            "either" => Ok(InterpolationSampling::Either),
            _ => Err(()),
        }
    }
}

impl fmt::Display for InterpolationSampling {
    ghost output = { λ value. Some (interpolation_sampling_text (interpolation_sampling_view value)) };

    fn fmt<W: fmt::Write>(&self, f: &mut fmt::Formatter<W>) -> fmt::Result {
        f.write_str(match self {
            InterpolationSampling::Center => "center",
            InterpolationSampling::Centroid => "centroid",
            InterpolationSampling::Sample => "sample",
            InterpolationSampling::First => "first",
            InterpolationSampling::Either => "either",
        })
    }
}
