//! Laws of what is known of expressions with decision variables, each the contract of a function
//! that does nothing.
#![tactic(auto)]

ghost use Rattle.ep_tree.specs.Agreement.{ValueLiesWithin};
ghost use Rattle.ep_reach_laws.specs.Reaches.{FittingPassesNoLimit, LimitsAreKept, NumbersLieInReaches};

/// Whether a decision variable has cells or a value that fits them: a value that is defined lies in
/// what is known of its expression.
pub fn values_lie_within()
    ensures within { ValueLiesWithin }
{}

/// Each number at a node that is met with values lies in a reach at the same node, met with cells.
pub fn numbers_lie_in_reaches()
    ensures numbers { NumbersLieInReaches }
{}

/// Where what is met with cells passes no limit, neither does what is met with values. So no values
/// that fit an instance within the limits of size and of reach pass one.
pub fn limits_hold_for_values()
    ensures kept { LimitsAreKept }
    ensures fitting { FittingPassesNoLimit }
{}
