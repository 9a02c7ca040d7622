//! Makes trees of lists that were read.

ghost use Rattle.ep_parse_parts.specs.Founds.{Makes, MakesDomain, Measured, MeasuredDomain, Shows, ShowsDomain};
ghost use Rattle.ep_parse_parts.specs.Gathered.{DomainsCount, GeneratorsCount, IndexCount, IndicesCount, PartsCount, RangesCount, index_tree};
ghost use Rattle.ep_tree.specs.Trees as trees;
ghost use Rattle.ep_tree.specs.Views.{domain_tree, domains_of, expr_tree, expr_trees, generators_of, indices_of, ranges_of};

use crate::cursor::Stop;
use crate::found::{Found, FoundDomain, above, higher};
use crate::parts::{Domains, Generators, Index, Indices, Parts, Ranges};
use ep_base::Place;
use ep_tree::{Domain, DomainKind, Expr, Kind};
use std::alloc::Global;

/// A list in square brackets.
pub fn literal(place: Place, parts: Parts, index: Index) -> Found
    requires parts { PartsCount parts }
    requires index { IndexCount index }
    ensures made { Shows result (trees.literal place (expr_trees parts.items.items) (index_tree index.domain)) }
{
    let height = above(higher(parts.highest, index.height));
    Found {
        expr: Expr {
            place,
            kind: Kind::Literal(parts.items, index.domain),
        },
        height,
        ends_open: false,
        takes_group: true,
    }
}

/// A comprehension.
pub fn comprehension(
    alloc: Global,
    place: Place,
    part: Found,
    generators: Generators,
    conditions: Parts,
    index: Index,
) -> Result<Found, Stop>
    requires part { Measured part }
    requires generators { GeneratorsCount generators }
    requires conditions { PartsCount conditions }
    requires index { IndexCount index }
    ensures made { Makes result (trees.comprehension place (expr_tree part.expr) (generators_of generators.items.items) (expr_trees conditions.items.items) (index_tree index.domain)) }
{
    let first = higher(part.height, generators.highest);
    let last = higher(conditions.highest, index.height);
    let highest = higher(first, last);
    let height = above(highest);
    let boxed = Box::new(alloc, part.expr)?;
    Ok(Found {
        expr: Expr {
            place,
            kind: Kind::Comprehension(boxed, generators.items, conditions.items, index.domain),
        },
        height,
        ends_open: false,
        takes_group: true,
    })
}

/// A read of a matrix.
pub fn read(alloc: Global, matrix: Found, indices: Indices) -> Result<Found, Stop>
    requires matrix { Measured matrix }
    requires indices { IndicesCount indices }
    ensures made { Makes result (trees.read (trees.place_of (expr_tree matrix.expr)) (expr_tree matrix.expr) (indices_of indices.items.items)) }
{
    let height = above(higher(matrix.height, indices.highest));
    let place = matrix.expr.place;
    let boxed = Box::new(alloc, matrix.expr)?;
    Ok(Found {
        expr: Expr {
            place,
            kind: Kind::Read(boxed, indices.items),
        },
        height,
        ends_open: false,
        takes_group: indices.has_every,
    })
}

/// A domain of ranges.
pub fn of_ranges(place: Place, ranges: Ranges) -> FoundDomain
    requires ranges { RangesCount ranges }
    ensures made { ShowsDomain result (trees.ranges place (ranges_of ranges.items.items)) }
{
    let height = above(ranges.highest);
    FoundDomain {
        domain: Domain {
            place,
            kind: DomainKind::Ranges(ranges.items),
        },
        height,
    }
}

/// A matrix domain.
pub fn matrix(
    alloc: Global,
    place: Place,
    indices: Domains,
    element: FoundDomain,
) -> Result<FoundDomain, Stop>
    requires indices { DomainsCount indices }
    requires element { MeasuredDomain element }
    ensures made { MakesDomain result (trees.matrix_domain place (domains_of indices.items.items) (domain_tree element.domain)) }
{
    let height = above(higher(indices.highest, element.height));
    let boxed = Box::new(alloc, element.domain)?;
    Ok(FoundDomain {
        domain: Domain {
            place,
            kind: DomainKind::Matrix(indices.items, boxed),
        },
        height,
    })
}
