//! Arguments by their number, and why they make no value.
#![tactic(auto, unfolding(crate::proofs::Hints::definitions), using(crate::proofs::Hints::lemmas))]

ghost use Rattle.std.specs.Prelude.{◌≡◌, option_map};
ghost use Rattle.wgsl_tree_expression.specs.View.{expression_node_view};
ghost use Rattle.wgsl_tree_attribute.specs.View.{attribute_view, expressions_view};
ghost use Rattle.wgsl_model.specs.Grammar.Checks.{with_none};
ghost use Rattle.wgsl_read_attribute.specs.Counted.{one_to_three, seen_by, arguments_of, only_argument, two_arguments};
ghost use Rattle.wgsl_read_attribute.specs.Makes.{Makes};
ghost use Rattle.wgsl_read_attribute.specs.declared.arguments.Refusal.TheVariants.{OutOfMemory};

use std::alloc::AllocError;
use wgsl_tree_attribute::Attribute;
use wgsl_tree_expression::ExpressionNode;

/// Why arguments make no value: the name that they are after and what is wrong with them, or that
/// memory ran out.
#[derive(Drop)]
pub(crate) enum Refusal {
    Arguments(&'static str, &'static str),
    OutOfMemory,
}

impl From<AllocError> for Refusal {
    ghost from_gives = { λ _ refusal. refusal ≡ OutOfMemory };

    fn from(_error: AllocError) -> Refusal {
        Refusal::OutOfMemory
    }
}

/// Returns the items of a list that has one to three, else `None`.
pub fn one_to_three<T: Drop>(items: Vec<T>) -> Option<(T, Option<T>, Option<T>)>
    ensures { result ≡ one_to_three items.items }
{
    let mut items = items.into_iter();
    let first = items.next()?;
    let Some(second) = items.next() else {
        return Some((first, None, None));
    };
    let Some(third) = items.next() else {
        return Some((first, Some(second), None));
    };
    match items.next() {
        None => Some((first, Some(second), Some(third))),
        Some(_) => None,
    }
}

/// One argument to three.
pub(crate) fn up_to_three(
    arguments: Option<Vec<ExpressionNode>>,
) -> Option<
    (
        ExpressionNode,
        Option<ExpressionNode>,
        Option<ExpressionNode>,
    ),
>
    ensures { option_map (seen_by expression_node_view) result
        ≡ arguments_of (option_map expressions_view arguments) }
{
    one_to_three(arguments?)
}

/// The only argument.
pub(crate) fn only_argument(
    name: &'static str,
    arguments: Option<Vec<ExpressionNode>>,
) -> Result<ExpressionNode, Refusal>
    ensures { Makes name.now expression_node_view result
        (only_argument (option_map expressions_view arguments)) }
{
    match up_to_three(arguments) {
        Some((argument, None, None)) => Ok(argument),
        _ => Err(Refusal::Arguments(name, "expected 1 argument")),
    }
}

/// Two arguments.
pub(crate) fn two_arguments(
    name: &'static str,
    arguments: Option<Vec<ExpressionNode>>,
) -> Result<(ExpressionNode, ExpressionNode), Refusal>
    ensures { Makes name.now
        (λ two. (expression_node_view two.0, expression_node_view two.1)) result
        (two_arguments (option_map expressions_view arguments)) }
{
    if let Some((first, second, None)) = up_to_three(arguments) {
        if let Some(second) = second {
            return Ok((first, second));
        }
    }
    Err(Refusal::Arguments(name, "expected 2 arguments"))
}

/// An attribute without arguments.
pub(crate) fn no_arguments(
    name: &'static str,
    arguments: Option<Vec<ExpressionNode>>,
    attribute: Attribute,
) -> Result<Attribute, Refusal>
    ensures { Makes name.now attribute_view result
        (with_none (attribute_view attribute) (option_map expressions_view arguments)) }
{
    match arguments {
        None => Ok(attribute),
        Some(_) => Err(Refusal::Arguments(name, "expected 0 arguments")),
    }
}
