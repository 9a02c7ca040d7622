//! Makes domains of trees that were read.

ghost use Rattle.std.specs.Prelude.{◌≡◌};
ghost use Rattle.ep_parse_parts.specs.Founds.{MakesDomain, MeasuredDomain, ShowsDomain};
ghost use Rattle.ep_tree.specs.Trees as trees;
ghost use Rattle.ep_tree.specs.Views.{domain_tree};

use crate::cursor::Stop;
use crate::found::{FoundDomain, above, higher};
use ep_base::{Name, Place};
use ep_tree::{Domain, DomainKind, SetOp};
use std::alloc::Global;

/// `bool`
pub fn booleans(place: Place) -> FoundDomain
    ensures made { ShowsDomain result (trees.bool place) }
{
    FoundDomain {
        domain: Domain {
            place,
            kind: DomainKind::Bool,
        },
        height: 1,
    }
}

/// `int` without ranges.
pub fn integers(place: Place) -> FoundDomain
    ensures made { ShowsDomain result (trees.int place) }
{
    FoundDomain {
        domain: Domain {
            place,
            kind: DomainKind::Int,
        },
        height: 1,
    }
}

/// A domain's name.
pub fn named_domain(place: Place, name: Name) -> FoundDomain
    ensures made { ShowsDomain result (trees.named_domain place name) }
{
    FoundDomain {
        domain: Domain {
            place,
            kind: DomainKind::Named(name),
        },
        height: 1,
    }
}

/// A domain in brackets.
pub fn group_domain(alloc: Global, place: Place, part: FoundDomain) -> Result<FoundDomain, Stop>
    requires part { MeasuredDomain part }
    ensures made { MakesDomain result (trees.group_domain place (domain_tree part.domain)) }
{
    let height = above(part.height);
    let part = Box::new(alloc, part.domain)?;
    Ok(FoundDomain {
        domain: Domain {
            place,
            kind: DomainKind::Group(part),
        },
        height,
    })
}

/// Two domains with an operation of sets.
pub fn set_domain(
    alloc: Global,
    op: SetOp,
    one: FoundDomain,
    other: FoundDomain,
) -> Result<FoundDomain, Stop>
    requires one { MeasuredDomain one }
    requires other { MeasuredDomain other }
    ensures made { MakesDomain result (trees.set_domain (trees.place_of_domain (domain_tree one.domain)) op (domain_tree one.domain) (domain_tree other.domain)) }
{
    let height = above(higher(one.height, other.height));
    let place = one.domain.place;
    let one = Box::new(alloc, one.domain)?;
    let other = Box::new(alloc, other.domain)?;
    Ok(FoundDomain {
        domain: Domain {
            place,
            kind: DomainKind::Set(op, one, other),
        },
        height,
    })
}
