//! Laws of the definitions of `ep_tree` that binding and judging stand on, each the contract of a
//! function that does nothing.
#![tactic(auto)]

ghost use Rattle.ep_tree_laws.specs.DecidedValues.{NamesDecideNumbers, NamesDecideValue};
ghost use Rattle.ep_tree_laws.specs.Deciding.{DecisionsAreNotNeeded, NamesDecideDomainFaults, NamesDecideDomainType, NamesDecideFaults, NamesDecideType};
ghost use Rattle.ep_tree_laws.specs.FixedLimits.{LimitsOfFixed, MetDomainIsFixed, MetIsFixed};
ghost use Rattle.ep_tree_laws.specs.Intervals.{AbsoluteLies, GreatestLies, LeastLies, NegatedLies, PowerLies, ProductLies, ProductsLie, QuotientLies, RemainderLies, SumLies};
ghost use Rattle.ep_tree_laws.specs.Shapes.{ElementsAreOfScalar, FitIsTyped, ShapeBoundIsTyped, ShapeIsOfType, ShapeListAscends, ShapeListsItsScalar, ShapePassesItsScalar};
ghost use Rattle.ep_tree_laws.specs.Typing.{EnvironmentHasTypes, FaultlessDomainHasType, FaultlessHasType};
ghost use Rattle.ep_tree_laws.specs.Undecided.{FaultlessHoldsNone, FixedLiesWithin};
ghost use Rattle.ep_tree.specs.Agreement.{DomainIsKept, FixedValueIsKept, MeetsAsMany, TypeIsKept};

/// A domain that is bound has the type that the rules give it. The numbers that it passes, and
/// those that it lists, are of its scalar: 0 or 1 where it is Boolean. This holds of open ranges
/// and of the names of matrix domains too.
pub fn bound_domains_are_of_their_types()
    ensures types { ShapeIsOfType }
    ensures elements { ElementsAreOfScalar }
    ensures passed { ShapePassesItsScalar }
    ensures listed { ShapeListsItsScalar }
{}

/// What the rules say of an expression or a domain without a fault depends only on the names that
/// may stand in it. Where no decision variable may stand, none has to be known.
pub fn names_decide_types()
    ensures types { NamesDecideType }
    ensures faults { NamesDecideFaults }
    ensures domain_types { NamesDecideDomainType }
    ensures domain_faults { NamesDecideDomainFaults }
    ensures not_needed { DecisionsAreNotNeeded }
{}

/// Where no decision variable stands, the limits that values pass are those that the reaches pass.
/// In an environment without cells none stands in what an expression or a domain meets.
pub fn limits_are_of_values()
    ensures limits { LimitsOfFixed }
    ensures expressions { MetIsFixed }
    ensures domains { MetDomainIsFixed }
{}

/// What has no fault has a type, in a context in which each name has one; and those of an
/// environment have.
pub fn faultless_has_a_type()
    ensures expressions { FaultlessHasType }
    ensures domains { FaultlessDomainHasType }
    ensures names { EnvironmentHasTypes }
{}

/// The value of an expression without a fault, in which no decision variable may stand, depends
/// only on the values and the domains that its names stand for; so do the numbers of a domain.
pub fn names_decide_values()
    ensures values { NamesDecideValue }
    ensures numbers { NamesDecideNumbers }
{}

/// Whether a decision variable has cells or a value that fits them: an expression has one type, and
/// meets as many nodes; what holds no decision variable has one value, and a domain one list of
/// numbers.
pub fn agreement_keeps()
    ensures types { TypeIsKept }
    ensures values { FixedValueIsKept }
    ensures domains { DomainIsKept }
    ensures met { MeetsAsMany }
{}

/// The results of operations lie in the intervals of the operations, where the parts lie in theirs.
pub fn results_lie_in_intervals()
    ensures negated { NegatedLies }
    ensures absolute { AbsoluteLies }
    ensures sums { SumLies }
    ensures least { LeastLies }
    ensures greatest { GreatestLies }
    ensures products { ProductLies }
    ensures quotients { QuotientLies }
    ensures remainders { RemainderLies }
    ensures many { ProductsLie }
    ensures powers { PowerLies }
{}

/// Where no decision variable may stand, an expression without a fault holds none; and the value of
/// what holds none lies in what is known of it.
pub fn undecided_is_known()
    ensures none { FaultlessHoldsNone }
    ensures within { FixedLiesWithin }
{}

/// What binding puts into an environment of typed names is typed again: a value that was fitted
/// into a domain, and a domain. The numbers of a domain ascend.
pub fn what_is_bound_is_typed()
    ensures fitted { FitIsTyped }
    ensures domains { ShapeBoundIsTyped }
    ensures sorted { ShapeListAscends }
{}
