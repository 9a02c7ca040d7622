//! Parts that were read one after another, with what decides what may follow the last.

ghost use Rattle.std.specs.Prelude.{◌≡◌, [], ◌∷◌, ◌++◌, None, OnOk, Some, map};
ghost use Rattle.ep_parse_parts.specs.Founds.{Measured, MeasuredDomain};
ghost use Rattle.ep_parse_parts.specs.Gathered.{DomainsCount, GeneratorsCount, EndCount, IndexCount, IndicesCount, MakesIndex, OrMemory, PartsCount, RangesCount, TermsCount, as_read, end_tree, index_tree, range_read};
ghost use Rattle.ep_tree.specs.Views.{domain_tree, expr_tree};
ghost use Rattle.ep_tree.specs.Trees.{end_at, over, unstated};
ghost use Rattle.ep_parse_parts.specs.DomainReaders.{of_number, of_span};

use crate::cursor::Stop;
use crate::found::{Found, FoundDomain, higher};
use ep_base::Name;
use ep_tree::{Domain, Expr, Generator, Range};
use std::alloc::Global;

/// Expressions that were read one after another.
#[derive(Drop)]
pub struct Parts {
    /// The expressions.
    pub items: Vec<Expr>,
    /// The height of the highest, 0 for none.
    pub highest: u64,
    /// Whether the last ends in a quantifier without brackets around it.
    pub ends_open: bool,
}

impl Parts {
    /// No parts yet.
    pub fn new(alloc: Global) -> Parts
        ensures none { result.items.items ≡ [] }
        ensures counted { PartsCount result }
    {
        Parts {
            items: Vec::new(alloc),
            highest: 0,
            ends_open: false,
        }
    }

    /// One more part.
    pub fn push(&mut self, part: Found) -> Result<(), Stop>
        requires counted { PartsCount self.old }
        requires part { Measured part }
        ensures pushed { OrMemory result (self.new.items.items ≡ self.old.items.items ++ part.expr ∷ []) }
        ensures counted { OnOk result (PartsCount self.new) }
    {
        let highest = higher(self.highest, part.height);
        self.items.push(part.expr)?;
        self.highest = highest;
        self.ends_open = part.ends_open;
        Ok(())
    }
}

/// Parts of a chain of sums, each with whether it is added.
#[derive(Drop)]
pub struct Terms {
    /// The terms.
    pub items: Vec<(bool, Expr)>,
    /// The height of the highest.
    pub highest: u64,
    /// Whether the last ends in a quantifier without brackets around it.
    pub ends_open: bool,
}

impl Terms {
    /// No terms yet.
    pub fn new(alloc: Global) -> Terms
        ensures none { result.items.items ≡ [] }
        ensures counted { TermsCount result }
    {
        Terms {
            items: Vec::new(alloc),
            highest: 0,
            ends_open: false,
        }
    }

    /// One more term.
    pub fn push(&mut self, plus: bool, part: Found) -> Result<(), Stop>
        requires counted { TermsCount self.old }
        requires part { Measured part }
        ensures pushed { OrMemory result (self.new.items.items ≡ self.old.items.items ++ (plus, part.expr) ∷ []) }
        ensures counted { OnOk result (TermsCount self.new) }
    {
        let highest = higher(self.highest, part.height);
        self.items.push((plus, part.expr))?;
        self.highest = highest;
        self.ends_open = part.ends_open;
        Ok(())
    }
}

/// Indices of a read, where none stands for `..`.
#[derive(Drop)]
pub struct Indices {
    /// The indices.
    pub items: Vec<Option<Expr>>,
    /// The height of the highest, 0 for none.
    pub highest: u64,
    /// Whether a `..` is among them.
    pub has_every: bool,
}

impl Indices {
    /// No indices yet.
    pub fn new(alloc: Global) -> Indices
        ensures none { result.items.items ≡ [] }
        ensures counted { IndicesCount result }
    {
        Indices {
            items: Vec::new(alloc),
            highest: 0,
            has_every: false,
        }
    }

    /// One more `..`.
    pub fn push_every(&mut self) -> Result<(), Stop>
        requires counted { IndicesCount self.old }
        ensures pushed { OrMemory result (self.new.items.items ≡ self.old.items.items ++ None ∷ []) }
        ensures counted { OnOk result (IndicesCount self.new) }
    {
        self.items.push(None)?;
        self.has_every = true;
        Ok(())
    }

    /// One more index.
    pub fn push(&mut self, index: Found) -> Result<(), Stop>
        requires counted { IndicesCount self.old }
        requires index { Measured index }
        ensures pushed { OrMemory result (self.new.items.items ≡ self.old.items.items ++ Some index.expr ∷ []) }
        ensures counted { OnOk result (IndicesCount self.new) }
    {
        let highest = higher(self.highest, index.height);
        self.items.push(Some(index.expr))?;
        self.highest = highest;
        Ok(())
    }
}

/// Domains that were read one after another.
#[derive(Drop)]
pub struct Domains {
    /// The domains.
    pub items: Vec<Domain>,
    /// The height of the highest, 0 for none.
    pub highest: u64,
}

impl Domains {
    /// No domains yet.
    pub fn new(alloc: Global) -> Domains
        ensures none { result.items.items ≡ [] }
        ensures counted { DomainsCount result }
    {
        Domains {
            items: Vec::new(alloc),
            highest: 0,
        }
    }

    /// One more domain.
    pub fn push(&mut self, part: FoundDomain) -> Result<(), Stop>
        requires counted { DomainsCount self.old }
        requires part { MeasuredDomain part }
        ensures pushed { OrMemory result (self.new.items.items ≡ self.old.items.items ++ part.domain ∷ []) }
        ensures counted { OnOk result (DomainsCount self.new) }
    {
        let highest = higher(self.highest, part.height);
        self.items.push(part.domain)?;
        self.highest = highest;
        Ok(())
    }
}

/// Ranges that were read one after another.
#[derive(Drop)]
pub struct Ranges {
    /// The ranges.
    pub items: Vec<Range>,
    /// The height of the highest end, 0 for none.
    pub highest: u64,
}

impl Ranges {
    /// No ranges yet.
    pub fn new(alloc: Global) -> Ranges
        ensures none { result.items.items ≡ [] }
        ensures counted { RangesCount result }
    {
        Ranges {
            items: Vec::new(alloc),
            highest: 0,
        }
    }

    /// One more range of one number.
    pub fn push_one(&mut self, number: Found) -> Result<(), Stop>
        requires counted { RangesCount self.old }
        requires number { Measured number }
        ensures pushed { OrMemory result (map range_read self.new.items.items ≡ map range_read self.old.items.items ++ of_number (expr_tree number.expr) ∷ []) }
        ensures counted { OnOk result (RangesCount self.new) }
    {
        let highest = higher(self.highest, number.height);
        self.items.push(Range::One(number.expr))?;
        self.highest = highest;
        Ok(())
    }

    /// One more range between two ends.
    pub fn push_span(&mut self, first: End, last: End) -> Result<(), Stop>
        requires counted { RangesCount self.old }
        requires first { EndCount first }
        requires last { EndCount last }
        ensures pushed { OrMemory result (map range_read self.new.items.items ≡ map range_read self.old.items.items ++ of_span (end_tree first.end) (end_tree last.end) ∷ []) }
        ensures counted { OnOk result (RangesCount self.new) }
    {
        let ends = higher(first.height, last.height);
        let highest = higher(self.highest, ends);
        self.items.push(Range::Span(first.end, last.end))?;
        self.highest = highest;
        Ok(())
    }
}

/// An end of a range, which may be left out.
#[derive(Drop)]
pub struct End {
    /// The end.
    pub end: Option<Expr>,
    /// Its height, 0 for none.
    pub height: u64,
}

impl End {
    /// No end.
    pub fn none() -> End
        ensures counted { EndCount result }
        ensures end { result.end ≡ None }
    {
        End {
            end: None,
            height: 0,
        }
    }

    /// An end that was read.
    pub fn found(found: Found) -> End
        requires found { Measured found }
        ensures counted { EndCount result }
        ensures end { end_tree result.end ≡ end_at (expr_tree found.expr) }
    {
        End {
            end: Some(found.expr),
            height: found.height,
        }
    }
}

/// The domain of a list's indices, where one is written.
#[derive(Drop)]
pub struct Index {
    /// The domain.
    pub domain: Option<Box<Domain>>,
    /// Its height, 0 for none.
    pub height: u64,
}

impl Index {
    /// No domain.
    #[tactic(auto, unfolding(crate::specs::Gathered::index_tree))]
    pub fn none() -> Index
        ensures domain { index_tree result.domain ≡ unstated }
        ensures counted { IndexCount result }
    {
        Index {
            domain: None,
            height: 0,
        }
    }

    /// A domain that was read.
    pub fn over(alloc: Global, found: FoundDomain) -> Result<Index, Stop>
        requires found { MeasuredDomain found }
        ensures made { MakesIndex result (over (domain_tree found.domain)) }
    {
        let height = found.height;
        let domain = Box::new(alloc, found.domain)?;
        Ok(Index {
            domain: Some(domain),
            height,
        })
    }
}

/// Generators that were read one after another.
#[derive(Drop)]
pub struct Generators {
    /// The generators.
    pub items: Vec<Generator>,
    /// The height of the highest domain, 0 for none.
    pub highest: u64,
}

impl Generators {
    /// No generators yet.
    pub fn new(alloc: Global) -> Generators
        ensures none { result.items.items ≡ [] }
        ensures counted { GeneratorsCount result }
    {
        Generators {
            items: Vec::new(alloc),
            highest: 0,
        }
    }

    /// One more generator.
    pub fn push(&mut self, names: Vec<Name>, domain: FoundDomain) -> Result<(), Stop>
        requires counted { GeneratorsCount self.old }
        requires domain { MeasuredDomain domain }
        ensures pushed { OrMemory result (map as_read self.new.items.items ≡ map as_read self.old.items.items ++ (names.items, domain_tree domain.domain) ∷ []) }
        ensures counted { OnOk result (GeneratorsCount self.new) }
    {
        let highest = higher(self.highest, domain.height);
        self.items.push(Generator {
            names,
            domain: domain.domain,
        })?;
        self.highest = highest;
        Ok(())
    }
}
