//! What is asked of a sum.

ghost use Rattle.std.specs.Prelude.{◌≡◌};
ghost use Rattle.enc_linear.specs.Bounds.{is_lower, is_upper, needs_no_greater, needs_no_less};

use ep_base::CompareOp;

/// How a sum is to compare with a number.
#[derive(Clone, Copy, Debug)]
pub struct Comparison {
    /// The variable that says whether it does; without one it does.
    pub truth: Option<u64>,
    /// How it compares.
    pub op: CompareOp,
    /// The number.
    pub number: i64,
}

/// Whether a comparison that holds of a number holds of each greater one.
fn is_upper(op: CompareOp) -> bool
    ensures { result ≡ is_upper op }
{
    match op {
        CompareOp::Equal => false,
        CompareOp::NotEqual => false,
        CompareOp::Less => false,
        CompareOp::AtMost => false,
        CompareOp::Greater => true,
        CompareOp::AtLeast => true,
    }
}

/// Whether a comparison that holds of a number holds of each lesser one.
fn is_lower(op: CompareOp) -> bool
    ensures { result ≡ is_lower op }
{
    match op {
        CompareOp::Equal => false,
        CompareOp::NotEqual => false,
        CompareOp::Less => true,
        CompareOp::AtMost => true,
        CompareOp::Greater => false,
        CompareOp::AtLeast => false,
    }
}

/// Whether what stands for a part of the sum may be no less than the part.
#[tactic(auto, unfolding(crate::specs::Bounds::needs_no_less))]
pub(crate) fn needs_no_less(c: Comparison) -> bool
    ensures { result ≡ needs_no_less c }
{
    c.truth.is_some() || !is_upper(c.op)
}

/// Whether what stands for a part of the sum may be no greater than the part.
#[tactic(auto, unfolding(crate::specs::Bounds::needs_no_greater))]
pub(crate) fn needs_no_greater(c: Comparison) -> bool
    ensures { result ≡ needs_no_greater c }
{
    c.truth.is_some() || !is_lower(c.op)
}
