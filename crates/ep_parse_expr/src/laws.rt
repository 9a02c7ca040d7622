//! Laws that hold of the definitions, each the contract of a function that does nothing.

ghost use Rattle.std.specs.Prelude.{◌≡◌, ◌≤◌, ◌<◌, ◌++◌, ◌⊎◌, List, take, ℕ};
ghost use Rattle.ep_parse_expr.specs.Outcomes.{DomainGoesTooHigh, DomainIsFaulty, DomainIsRead, DomainStopsAt, DomainStopsLowAt, GoesTooHigh, IsFaulty, IsRead, StopsAt, StopsLowAt};
ghost use Rattle.ep_tree.specs.Heights.{domain_height, height};
ghost use Rattle.ep_tree.specs.Phrases.{Lexeme};
ghost use Rattle.ep_tree.specs.Reading.{DomainFault, DomainTooHigh, ExprFault, ExprTooHigh, IsSyntaxFault, IsTooHigh, Reads, ReadsDomain, ReadsExpr};
ghost use Rattle.ep_tree.specs.Spelling.{DomainLevel, Level, Spells, SpellsDomain, domains, implications};
ghost use Rattle.ep_tree.specs.Trees.{DomainTree, ExprTree};

/// Some tokens spell one expression at most where a level is asked for, and one domain at most: the grammar is
/// unambiguous.
pub fn tokens_spell_one_tree()
    ensures expressions { (level : Level) (one other : ExprTree) (tokens : List Lexeme) →
        Spells level one tokens → Spells level other tokens → one ≡ other }
    ensures domains { (level : DomainLevel) (one other : DomainTree) (tokens : List Lexeme) →
        SpellsDomain level one tokens → SpellsDomain level other tokens → one ≡ other }
{}

/// A tree that the first of some tokens spell is no higher than one that all of them spell.
pub fn a_front_is_no_higher()
    ensures expressions { (level : Level) (one other : ExprTree) (front more : List Lexeme) →
        Spells level one front → Spells level other (front ++ more) → height one ≤ height other }
    ensures domains { (level : DomainLevel) (one other : DomainTree) (front more : List Lexeme) →
        SpellsDomain level one front → SpellsDomain level other (front ++ more) → domain_height one ≤ domain_height other }
{}

/// From each token on an expression is read, or there is a fault of syntax, or one of height, and never two of
/// these; the tree and the token are the only ones.
pub fn an_expression_has_one_outcome()
    ensures some { (most from : ℕ) (tokens : List Lexeme) →
        IsRead most from tokens ⊎ (IsFaulty most from tokens ⊎ GoesTooHigh most from tokens) }
    ensures read_not_faulty { (most from : ℕ) (tokens : List Lexeme) →
        IsRead most from tokens → IsFaulty most from tokens → ⊥ }
    ensures read_not_high { (most from : ℕ) (tokens : List Lexeme) →
        IsRead most from tokens → GoesTooHigh most from tokens → ⊥ }
    ensures faulty_not_high { (most from : ℕ) (tokens : List Lexeme) →
        IsFaulty most from tokens → GoesTooHigh most from tokens → ⊥ }
    ensures read_once { (most from : ℕ) (tokens : List Lexeme) (one other : ExprTree) (m n : ℕ) →
        ReadsExpr most from tokens one m → ReadsExpr most from tokens other n → (one ≡ other) × (m ≡ n) }
    ensures faulty_once { (most from : ℕ) (tokens : List Lexeme) (m n : ℕ) →
        ExprFault most from tokens m → ExprFault most from tokens n → m ≡ n }
    ensures high_once { (most from : ℕ) (tokens : List Lexeme) (m n : ℕ) →
        ExprTooHigh most from tokens m → ExprTooHigh most from tokens n → m ≡ n }
{}

/// The same of domains.
pub fn a_domain_has_one_outcome()
    ensures some { (most from : ℕ) (tokens : List Lexeme) →
        DomainIsRead most from tokens ⊎ (DomainIsFaulty most from tokens ⊎ DomainGoesTooHigh most from tokens) }
    ensures read_not_faulty { (most from : ℕ) (tokens : List Lexeme) →
        DomainIsRead most from tokens → DomainIsFaulty most from tokens → ⊥ }
    ensures read_not_high { (most from : ℕ) (tokens : List Lexeme) →
        DomainIsRead most from tokens → DomainGoesTooHigh most from tokens → ⊥ }
    ensures faulty_not_high { (most from : ℕ) (tokens : List Lexeme) →
        DomainIsFaulty most from tokens → DomainGoesTooHigh most from tokens → ⊥ }
    ensures read_once { (most from : ℕ) (tokens : List Lexeme) (one other : DomainTree) (m n : ℕ) →
        ReadsDomain most from tokens one m → ReadsDomain most from tokens other n → (one ≡ other) × (m ≡ n) }
    ensures faulty_once { (most from : ℕ) (tokens : List Lexeme) (m n : ℕ) →
        DomainFault most from tokens m → DomainFault most from tokens n → m ≡ n }
    ensures high_once { (most from : ℕ) (tokens : List Lexeme) (m n : ℕ) →
        DomainTooHigh most from tokens m → DomainTooHigh most from tokens n → m ≡ n }
{}

/// Of two tokens, the first with which no expression of at most a height goes on, and the first with which none goes
/// on: where the one comes before the other it is a fault of height. Else an expression is read exactly where the
/// tokens before are one, and otherwise there is a fault of syntax.
pub fn an_outcome_goes_by_two_tokens()
    ensures too_high { (most : ℕ) (tokens : List Lexeme) (p q : ℕ) → StopsLowAt most tokens p → StopsAt tokens q →
        p < q → IsTooHigh (Spells implications) height most tokens p }
    ensures read { (most : ℕ) (tokens : List Lexeme) (p q : ℕ) (e : ExprTree) →
        StopsLowAt most tokens p → StopsAt tokens q → q ≤ p →
        Spells implications e (take q tokens) → Reads (Spells implications) height most tokens q e }
    ensures faulty { (most : ℕ) (tokens : List Lexeme) (p q : ℕ) → StopsLowAt most tokens p → StopsAt tokens q →
        q ≤ p → ((e : ExprTree) → Spells implications e (take q tokens) → ⊥) →
        IsSyntaxFault (Spells implications) height most tokens q }
    ensures domain_too_high { (most : ℕ) (tokens : List Lexeme) (p q : ℕ) →
        DomainStopsLowAt most tokens p → DomainStopsAt tokens q →
        p < q → IsTooHigh (SpellsDomain domains) domain_height most tokens p }
    ensures domain_read { (most : ℕ) (tokens : List Lexeme) (p q : ℕ) (d : DomainTree) →
        DomainStopsLowAt most tokens p → DomainStopsAt tokens q → q ≤ p →
        SpellsDomain domains d (take q tokens) → Reads (SpellsDomain domains) domain_height most tokens q d }
    ensures domain_faulty { (most : ℕ) (tokens : List Lexeme) (p q : ℕ) →
        DomainStopsLowAt most tokens p → DomainStopsAt tokens q →
        q ≤ p → ((d : DomainTree) → SpellsDomain domains d (take q tokens) → ⊥) →
        IsSyntaxFault (SpellsDomain domains) domain_height most tokens q }
{}
