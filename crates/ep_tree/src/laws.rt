//! Laws that hold of the definitions, each the contract of a function that does nothing.

ghost use Rattle.std.specs.Prelude.{ℕ};
ghost use Rattle.ep_tree.specs.Heights.{domain_height, height};
ghost use Rattle.ep_tree.specs.Laws.{ClosedDomainPassesItsNumbers, DomainAscends, DomainHidesLexically, DomainIsOfScalar, FitIsOfDimensions, NegativeQuotientIsHigh, NegativeQuotientIsLow, NoQuotientByZero, OperationIsOfSets, PositiveQuotientIsHigh, PositiveQuotientIsLow, RangeIsInterval, ReadIsNotTooHigh, StopsOnce, TypeHidesLexically, ValueHidesLexically, ValueIsOfType};
ghost use Rattle.ep_tree.specs.Reading.{Begins, Low};
ghost use Rattle.ep_tree.specs.Spelling.{DomainLevel, Level, Spells, SpellsDomain};
ghost use Rattle.ep_tree.specs.StatementSpelling.{SpellsModel, SpellsParams};
ghost use Rattle.ep_tree.specs.Statements.{text_height};

/// Hiding is lexical: what an expression or a domain is worth doesn't depend on what a name stood for that
/// is hidden around it, nor does its type.
pub fn hiding_is_lexical()
    ensures value { ValueHidesLexically }
    ensures values { DomainHidesLexically }
    ensures types { TypeHidesLexically }
{}

/// A quotient is the floor of the exact one: what is left of the dividend lies between 0 and the divisor, and
/// isn't the divisor. There is none for the divisor 0.
pub fn quotient_is_the_floor()
    ensures positive_low { PositiveQuotientIsLow }
    ensures positive_high { PositiveQuotientIsHigh }
    ensures negative_low { NegativeQuotientIsLow }
    ensures negative_high { NegativeQuotientIsHigh }
    ensures by_zero { NoQuotientByZero }
{}

/// A range has the numbers from its first to its last, and an operation on domains is that of sets. A domain that
/// isn't open passes exactly the numbers that it lists, so that fitting and listing speak of the same domain. The
/// numbers are listed in ascending order, each once.
pub fn domains_are_sets()
    ensures ranges { RangeIsInterval }
    ensures operations { OperationIsOfSets }
    ensures closed { ClosedDomainPassesItsNumbers }
    ensures sorted { DomainAscends }
{}

/// Where a value is defined it is of its expression's type, in an environment whose names are of their types; and the
/// numbers of a domain are of its scalar. A value that fits a domain has its dimensions and its scalar.
pub fn values_are_of_their_types()
    ensures values { ValueIsOfType }
    ensures numbers { DomainIsOfScalar }
    ensures fitted { FitIsOfDimensions }
{}

/// At most one token is the first with which nothing goes on, be it in an expression, a domain, a model or a parameter
/// text, with trees of a height or of any.
pub fn first_faults_are_unique()
    ensures expressions { (level : Level) → StopsOnce (Begins (Spells level)) }
    ensures domains { (level : DomainLevel) → StopsOnce (Begins (SpellsDomain level)) }
    ensures models { StopsOnce (Begins SpellsModel) }
    ensures params { StopsOnce (Begins SpellsParams) }

    ensures low_expressions { (level : Level) (most : ℕ) → StopsOnce (Begins (Low height most (Spells level))) }
    ensures low_domains { (level : DomainLevel) (most : ℕ) → StopsOnce (Begins (Low domain_height most (SpellsDomain level))) }
    ensures low_models { (most : ℕ) → StopsOnce (Begins (Low text_height most SpellsModel)) }
    ensures low_params { (most : ℕ) → StopsOnce (Begins (Low text_height most SpellsParams)) }
{}

/// What is read isn't also too high, in an expression and in a domain.
pub fn readings_exclude_heights()
    ensures expressions { (level : Level) → ReadIsNotTooHigh (Spells level) height }
    ensures domains { (level : DomainLevel) → ReadIsNotTooHigh (SpellsDomain level) domain_height }
{}
