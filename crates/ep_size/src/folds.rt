//! Numbers folded into one, one after another: their sum, their product, whether all or any of them hold, the least and the
//! greatest of them.

ghost use Rattle.std.specs.Prelude.{◌≡◌, ◌+◌, ◌<◌, ◌≤◌, ◌^◌, ◌∷◌, ◌++◌, [], List, length, map, true, IfErr, IfOk};
ghost use Rattle.ep_base.specs.Intervals as defined_intervals;
ghost use Rattle.ep_base.specs.Intervals.{Interval};
ghost use Rattle.ep_tree.specs.Measures as measures;
ghost use Rattle.ep_tree.specs.Reach as defined;
ghost use Rattle.ep_tree.specs.declared.syntax.FoldOp.{FoldOp as EachOp};
ghost use Rattle.ep_tree.specs.declared.syntax.FoldOp.TheVariants as op_named;
ghost use Rattle.ep_size.specs.Extents.{plain_span};
ghost use Rattle.ep_size.specs.Folds.{Chooses, Folds, GivesFold, Multiplies, RefusesFold, greater, lesser};
ghost use Rattle.ep_numbers.specs.Spans.{interval_of};
ghost use Rattle.ep_size.specs.Totals.{MOST_TOLD, capped};

use super::errors::SizeError;
use super::extents::{Span, truth_span};
use super::intervals::{near, told_count};
use super::nodes::wide;
use super::sums::Summed;
use super::totals::{product as told_product, told};
use ep_numbers::{Span as Ends, greatest, least, product, widened, width};
use ep_tree::FoldOp;

/// What is known of some numbers that are folded from the first of them on, and what that weighs.
#[derive(Clone, Copy, Debug, PartialEq, Eq)]
pub struct Chosen {
    ends: Ends,
    started: bool,
    weight: u64,
}

/// What is known of a product so far.
#[derive(Clone, Copy, Debug, PartialEq, Eq)]
pub struct Multiplied {
    whole: Ends,
    chosen: Chosen,
}

/// What is known of folded numbers so far.
#[derive(Clone, Copy, Debug, PartialEq, Eq)]
pub enum Folding {
    /// Of their sum.
    Sum(Summed),
    /// Of their product.
    Product(Multiplied),
    /// Of whether all or any of so many hold.
    Truth(u64),
    /// Of the least of them.
    Least(Chosen),
    /// Of the greatest of them.
    Greatest(Chosen),
}

impl Chosen {
    /// No number.
    fn new() -> Chosen
        ensures { (step : Interval → Interval → Interval) → Chooses step result [] }
    {
        Chosen {
            ends: Ends { low: 0, high: 0 },
            started: false,
            weight: 0,
        }
    }

    /// The same with one number more, where this is what it makes with those before it.
    fn with(self, span: Span, folded: Ends) -> Chosen
        ensures { (step : Interval → Interval → Interval) → (spans : List defined.Span) → Chooses step self spans
            → (self.started ≡ true → interval_of folded ≡ step (interval_of self.ends) (interval_of span.reach))
            → Chooses step result (spans ++ plain_span span ∷ []) }
    {
        if !self.started {
            return Chosen {
                ends: span.reach,
                started: true,
                weight: 0,
            };
        }
        let own = told_product(told_count(width(self.ends)), told_count(span.spread));
        Chosen {
            ends: folded,
            started: true,
            weight: told(told(self.weight) + own),
        }
    }

    /// The same for the least of some numbers.
    fn with_least(self, span: Span) -> Chosen
        ensures { (spans : List defined.Span) → Chooses lesser self spans → Chooses lesser result (spans ++ plain_span span ∷ []) }
    {
        self.with(span, least(self.ends, span.reach))
    }

    /// The same for the greatest of some numbers.
    fn with_greatest(self, span: Span) -> Chosen
        ensures { (spans : List defined.Span) → Chooses greater self spans → Chooses greater result (spans ++ plain_span span ∷ []) }
    {
        self.with(span, greatest(self.ends, span.reach))
    }
}

impl Multiplied {
    /// A product of no number.
    fn new() -> Multiplied
        ensures { Multiplies result [] }
    {
        Multiplied {
            whole: Ends { low: 1, high: 1 },
            chosen: Chosen::new(),
        }
    }

    /// The same with one number more.
    fn with(self, span: Span) -> Result<Multiplied, SizeError>
        ensures added { IfOk result (λ t. (spans : List defined.Span) → Multiplies self spans
            → Multiplies t (spans ++ plain_span span ∷ [])) }
        ensures refused { IfErr result (λ e. (spans : List defined.Span) → (rest : List defined.Span) → Multiplies self spans
            → RefusesFold e op_named.Product (spans ++ plain_span span ∷ rest)) }
    {
        let whole = near(product(self.whole, span.reach))?;
        Ok(Multiplied {
            whole,
            chosen: self.chosen.with(span, whole),
        })
    }
}

impl Folding {
    /// No number, to be folded by an operation.
    pub fn new(op: FoldOp) -> Folding
        ensures { Folds result op [] }
    {
        match op {
            FoldOp::Sum => Folding::Sum(Summed::new()),
            FoldOp::Product => Folding::Product(Multiplied::new()),
            FoldOp::And => Folding::Truth(0),
            FoldOp::Or => Folding::Truth(0),
            FoldOp::Min => Folding::Least(Chosen::new()),
            FoldOp::Max => Folding::Greatest(Chosen::new()),
        }
    }

    /// The same with one number more. Only a product is refused here, since what its first parts make may reach too far.
    pub fn with(self, span: Span) -> Result<Folding, SizeError>
        ensures added { IfOk result (λ t. (op : EachOp) → (spans : List defined.Span) → length spans + 1 < 2 ^ 64 → Folds self op spans
            → Folds t op (spans ++ plain_span span ∷ [])) }
        ensures refused { IfErr result (λ e. (op : EachOp) → (spans : List defined.Span) → (rest : List defined.Span)
            → Folds self op spans → RefusesFold e op (spans ++ plain_span span ∷ rest)) }
    {
        match self {
            Folding::Sum(sum) => {
                let mut more = sum;
                more.add(span);
                Ok(Folding::Sum(more))
            }
            Folding::Product(parts) => match parts.with(span) {
                Ok(more) => Ok(Folding::Product(more)),
                Err(refused) => Err(refused),
            },
            Folding::Truth(parts) => Ok(Folding::Truth(told(told(parts) + 1))),
            Folding::Least(parts) => Ok(Folding::Least(parts.with_least(span))),
            Folding::Greatest(parts) => Ok(Folding::Greatest(parts.with_greatest(span))),
        }
    }

    /// What is known of all of them together.
    pub fn span(self) -> Result<Span, SizeError>
        ensures { (op : EachOp) → (spans : List defined.Span) → Folds self op spans → GivesFold result op spans }
    {
        match self {
            Folding::Sum(sum) => sum.span(),
            Folding::Product(parts) => wide(widened(parts.whole)),
            Folding::Truth(_) => Ok(truth_span()),
            Folding::Least(parts) => wide(widened(parts.ends)),
            Folding::Greatest(parts) => wide(widened(parts.ends)),
        }
    }

    /// What folding them weighs, as far as it is told.
    pub fn weight(self) -> u64
        ensures told { result ≤ MOST_TOLD }
        ensures weight { (op : EachOp) → (spans : List defined.Span) → Folds self op spans
            → result ≡ capped (measures.folded_weight op spans) }
    {
        match self {
            Folding::Sum(sum) => sum.weight(),
            Folding::Product(parts) => told(parts.chosen.weight),
            Folding::Truth(parts) => told(told(parts) + 1),
            Folding::Least(parts) => told(parts.weight),
            Folding::Greatest(parts) => told(parts.weight),
        }
    }
}

/// Some numbers, folded by an operation.
pub fn fold_all(op: FoldOp, spans: &[Span]) -> Result<Folding, SizeError>
    ensures folded { IfOk result (λ t. Folds t op (map plain_span spans.now)) }
    ensures refused { IfErr result (λ e. RefusesFold e op (map plain_span spans.now)) }
{
    let mut folding = Folding::new(op);
    for span in spans {
        folding = folding.with(*span)?;
    }
    Ok(folding)
}
