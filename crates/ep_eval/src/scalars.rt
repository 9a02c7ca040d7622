//! What the numbers of a domain stand for.

ghost use Rattle.std.specs.Prelude.{◌≡◌, ◌≢◌, None};
ghost use Rattle.ep_tree.specs.Environments as names;
ghost use Rattle.ep_tree.specs.Environments.{context_of};
ghost use Rattle.ep_tree.specs.Evaluation.{domain_values};
ghost use Rattle.ep_tree.specs.Types.{judge_domain, named_domain_type};
ghost use Rattle.ep_tree.specs.Views.{domain_tree};
ghost use Rattle.ep_tree.specs.declared.values.Mode.{Mode as EachMode};
ghost use Rattle.ep_eval.specs.Bounds.{domain_of};
ghost use Rattle.ep_eval.specs.Scalars.{is_of_booleans};
ghost use Rattle.ep_eval.specs.Scopes.{env_in};

use super::domains::hides;
use super::environments::NamedDomain;
use super::scopes::Scope;
use ep_base::Name;
use ep_tree::{Domain, DomainKind, Scalar};

/// Whether a named domain is one of Booleans.
fn is_named_of_booleans(domain: &NamedDomain) -> bool
    ensures { result ≡ is_of_booleans (named_domain_type (Some (names.meaning_in (domain_of domain.now)))) }
{
    if domain.indices.len() > 0 {
        return false;
    }
    match domain.of {
        Scalar::Bool => true,
        Scalar::Int => false,
    }
}

/// Whether a name stands for a domain of Booleans.
fn names_booleans(scope: Scope<'_, '_>, name: &Name) -> bool
    ensures { result ≡ is_of_booleans (named_domain_type (context_of (env_in scope.entry) name.now)) }
{
    if hides(scope.around, name) {
        return false;
    }
    match scope.env.domain(name) {
        Some(domain) => is_named_of_booleans(domain),
        None => false,
    }
}

/// Whether a domain is one of Booleans.
#[tactic(auto, unfolding(crate::specs::Scalars::is_of_booleans, ep_tree::specs::Types::judge_domain))]
pub fn is_boolean(scope: Scope<'_, '_>, d: &Domain) -> bool
    ensures { result ≡ is_of_booleans (judge_domain (context_of (env_in scope.entry)) (domain_tree d.now)) }
{
    match &d.kind {
        DomainKind::Bool => true,
        DomainKind::Int => false,
        DomainKind::Ranges(_) => false,
        DomainKind::Named(name) => names_booleans(scope, name),
        DomainKind::Group(inner) => is_boolean(scope, inner),
        DomainKind::Set(_, left, right) => is_boolean(scope, left) && is_boolean(scope, right),
        DomainKind::Matrix(_, _) => false,
    }
}

/// What the numbers of a domain stand for, where it has numbers.
pub fn scalar_of(scope: Scope<'_, '_>, d: &Domain) -> Scalar
    ensures { (mode : EachMode) → domain_values mode (env_in scope.entry) (domain_tree d.now) ≢ None
        → result ≡ names.scalar_in (env_in scope.entry) (domain_tree d.now) }
{
    if is_boolean(scope, d) {
        return Scalar::Bool;
    }
    Scalar::Int
}
