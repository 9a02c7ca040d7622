//! Trees that were read, with what decides what may follow them.

ghost use Rattle.std.specs.Prelude.{◌≡◌, ◌≤◌, ◌+◌, ◌-◌, ◌^◌, ℕ, max, nat_lt};
ghost use Rattle.ep_parse_parts.specs.Founds.{Measured, MeasuredDomain, told};
ghost use Rattle.ep_tree.specs.Heights.{domain_height, height};
ghost use Rattle.ep_tree.specs.Views.{domain_tree, expr_tree};

use ep_tree::{Domain, Expr};

/// An expression that was read, with what decides what may follow it.
#[derive(Drop)]
pub struct Found {
    /// The expression.
    pub expr: Expr,
    /// Its height. None is counted above the greatest number.
    pub height: u64,
    /// Whether its last part is a quantifier without brackets around it.
    pub ends_open: bool,
    /// Whether indices may stand behind it.
    pub takes_group: bool,
}

/// A domain that was read.
#[derive(Drop)]
pub struct FoundDomain {
    /// The domain.
    pub domain: Domain,
    /// Its height. None is counted above the greatest number.
    pub height: u64,
}

impl Found {
    /// Whether it is lower than this.
    pub fn is_below(&self, most: u64) -> bool
        requires measured { Measured self.now }
        ensures low { result ≡ nat_lt (height (expr_tree self.now.expr)) most }
    {
        self.height < most
    }
}

impl FoundDomain {
    /// Whether it is lower than this.
    pub fn is_below(&self, most: u64) -> bool
        requires measured { MeasuredDomain self.now }
        ensures low { result ≡ nat_lt (domain_height (domain_tree self.now.domain)) most }
    {
        self.height < most
    }
}

/// One more than a height.
pub fn above(height: u64) -> u64
    ensures more { (h : ℕ) → height ≡ told h → result ≡ told (1 + h) }
{
    height.saturating_add(1)
}

/// The greater of two heights.
pub(crate) fn higher(one: u64, other: u64) -> u64
    ensures greater { (h k : ℕ) → one ≡ told h → other ≡ told k → result ≡ told (max h k) }
{
    one.max(other)
}
