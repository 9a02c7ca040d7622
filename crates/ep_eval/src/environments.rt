//! Environments: what each name stands for.

ghost use Rattle.std.specs.Prelude.{◌≡◌, Some, IfOk, IfSome, OnOk, OnErr, IsTrue, option_map};
ghost use Rattle.std.specs.List.{list_all};
ghost use Rattle.ep_tree.specs.Environments.{HasAscendingDomain, has_cells, has_domain, meaning_in, shape_type};
ghost use Rattle.ep_tree.specs.Names.{nothing_known, put};
ghost use Rattle.ep_tree.specs.Types.{named_type, type_from};
ghost use Rattle.ep_tree.specs.TypedValues.{IsOf, IsTypedBound, IsTypedEnv, is_number_of};
ghost use Rattle.ep_tree.specs.Views.{value_tree};
ghost use Rattle.ep_eval.specs.Bounds.{bound_of, cells_of, domain_of, entry_bound, only_cells, only_domain, only_value};
ghost use Rattle.ep_eval.specs.Known.{HasAscendingDomains, StandsUnderName, env_of};

use super::copies::{copy_domain, copy_entry};
use ep_base::{Memory, Name, Runs};
use ep_tree::{Entry, Mode, Scalar, ValueType};
use ep_types_rules::of_scalar;
use indexmap::IndexMap;
use std::alloc::Global;
use std::marker::Model;

/// A domain that a name stands for: the numbers of its index domains, none for a scalar domain, and of its elements, and
/// what these stand for.
#[derive(Drop)]
pub struct NamedDomain {
    pub indices: Vec<Runs>,
    pub values: Runs,
    pub of: Scalar,
}

/// What a name stands for.
#[derive(Drop)]
enum Meaning {
    /// A value of a type.
    Value(Entry),
    /// The cells of a decision variable, by its domain.
    Cells(NamedDomain),
    /// A domain.
    Domain(NamedDomain),
}

/// The same meaning once more.
#[tactic(auto, unfolding(crate::specs::Bounds::bound_of, crate::specs::Known::StandsUnderName))]
fn copy_meaning(alloc: Global, meaning: &Meaning) -> Result<Meaning, Memory>
    ensures bound { IfOk result (λ copy. bound_of copy ≡ bound_of meaning.now) }
    ensures named { IfOk result (λ copy. (name : Name) → StandsUnderName name (Some meaning.now) → StandsUnderName name (Some copy)) }
{
    match meaning {
        Meaning::Value(entry) => {
            let entry = copy_entry(alloc, entry)?;
            Ok(Meaning::Value(entry))
        }
        Meaning::Cells(domain) => {
            let domain = copy_domain(alloc, domain)?;
            Ok(Meaning::Cells(domain))
        }
        Meaning::Domain(domain) => {
            let domain = copy_domain(alloc, domain)?;
            Ok(Meaning::Domain(domain))
        }
    }
}

/// The type of the values of a domain.
pub(crate) fn shape_type(domain: &NamedDomain) -> ValueType
    ensures { result ≡ shape_type domain.now.of domain.now.indices.items }
{
    if domain.indices.len() == 0 {
        return of_scalar(domain.of);
    }
    ValueType::Matrix {
        dims: domain.indices.len() as u64,
        of: domain.of,
    }
}

/// The type of what a name stands for, where that is a value or a decision variable.
#[tactic(auto, unfolding(crate::specs::Bounds::bound_of, ep_tree::specs::Environments::meaning_in, ep_tree::specs::Types::named_type, ep_tree::specs::Types::type_from))]
fn meaning_type(meaning: &Meaning) -> Option<ValueType>
    ensures { result ≡ type_from (named_type (Some (meaning_in (bound_of meaning.now)))) }
{
    match meaning {
        Meaning::Value(entry) => Some(entry.ty),
        Meaning::Cells(domain) => Some(shape_type(domain)),
        Meaning::Domain(_) => None,
    }
}

/// What names stand for, and the mode in which expressions are evaluated. Contracts see both.
#[derive(Drop)]
pub struct Env {
    alloc: Global,
    mode: Mode,
    known: IndexMap<Name, Meaning>,
}

impl Model for Env {
    ghost use Rattle.ep_eval.specs.Known.{KnownNames};

    ghost Value = { KnownNames };

    ghost use Rattle.std.specs.Coded.{codes};
    ghost use Rattle.ep_tree.specs.contracts.values.Value as value;

    ghost coded = { Prim.hlevel (codes, value.the_row.coded) };

    ghost use Rattle.ep_eval.specs.EnvInside.{IsSoundEnv, known_of};

    ghost view = { known_of };

    ghost invariant = { IsSoundEnv };
}

impl Env {
    /// No name stands for anything.
    pub fn new(alloc: Global, mode: Mode) -> Env
        ensures mode { result.mode ≡ mode }
        ensures empty { env_of result ≡ nothing_known }
    {
        Env {
            alloc,
            mode,
            known: IndexMap::new(alloc),
        }
    }

    /// The mode in which expressions are evaluated.
    pub fn mode(&self) -> Mode
        ensures mode { result ≡ self.now.mode }
        ensures typed { IsTypedEnv (env_of self.now) }
        ensures ascending { HasAscendingDomains (env_of self.now) }
    {
        self.mode
    }

    /// A name stands for something new. Where memory is refused all is as before.
    fn put(&mut self, name: Name, meaning: Meaning) -> Result<(), Memory>
        requires typed { IsTypedBound (Some (bound_of meaning)) }
        requires ascending { HasAscendingDomain (Some (bound_of meaning)) }
        requires named { StandsUnderName name (Some meaning) }
        ensures mode { self.new.mode ≡ self.old.mode }
        ensures known { OnOk result (env_of self.new ≡ put name (bound_of meaning) (env_of self.old)) }
        ensures unchanged { OnErr result (self.new ≡ self.old) }
    {
        self.known.insert(name, meaning)?;
        Ok(())
    }

    /// A name stands for the value of an entry, in place of what it stood for. Where memory is refused all is as
    /// before.
    pub fn set(&mut self, entry: Entry) -> Result<(), Memory>
        requires typed { IsOf entry.ty (value_tree entry.value) }
        ensures mode { self.new.mode ≡ self.old.mode }
        ensures known { OnOk result (env_of self.new ≡ put entry.name (entry_bound entry) (env_of self.old)) }
        ensures unchanged { OnErr result (self.new ≡ self.old) }
    {
        let name = Name::new(self.alloc, entry.name.text())?;
        self.put(name, Meaning::Value(entry))
    }

    /// A name stands for a domain, in place of what it stood for. Where memory is refused all is as before.
    pub fn name_domain(
        &mut self,
        name: Name,
        indices: Vec<Runs>,
        values: Runs,
        of: Scalar,
    ) -> Result<(), Memory>
        requires scalar { IsTrue (list_all (is_number_of of) values) }
        ensures mode { self.new.mode ≡ self.old.mode }
        ensures known { OnOk result (env_of self.new
            ≡ put name (has_domain of indices.items values) (env_of self.old)) }
        ensures unchanged { OnErr result (self.new ≡ self.old) }
    {
        let _ = values.runs();
        let domain = NamedDomain {
            indices,
            values,
            of,
        };
        self.put(name, Meaning::Domain(domain))
    }

    /// A name stands for the cells of a decision variable with this domain, in place of what it stood for. Where memory
    /// is refused all is as before.
    pub fn name_cells(
        &mut self,
        name: Name,
        indices: Vec<Runs>,
        values: Runs,
        of: Scalar,
    ) -> Result<(), Memory>
        ensures mode { self.new.mode ≡ self.old.mode }
        ensures known { OnOk result (env_of self.new
            ≡ put name (has_cells of indices.items values) (env_of self.old)) }
        ensures unchanged { OnErr result (self.new ≡ self.old) }
    {
        let domain = NamedDomain {
            indices,
            values,
            of,
        };
        self.put(name, Meaning::Cells(domain))
    }

    /// A name stands for a copy of what is given, in place of what it stood for.
    fn put_copy(&mut self, name: &Name, meaning: &Meaning) -> Result<(), Memory>
        requires typed { IsTypedBound (Some (bound_of meaning.now)) }
        requires ascending { HasAscendingDomain (Some (bound_of meaning.now)) }
        requires named { StandsUnderName name.now (Some meaning.now) }
        ensures mode { self.new.mode ≡ self.old.mode }
        ensures known { OnOk result (env_of self.new ≡ put name.now (bound_of meaning.now) (env_of self.old)) }
    {
        let name = Name::new(self.alloc, name.text())?;
        let meaning = copy_meaning(self.alloc, meaning)?;
        self.put(name, meaning)
    }

    /// The same environment once more. Linear in what it holds.
    pub fn copy(&self) -> Result<Env, Memory>
        ensures mode { IfOk result (λ env. env.mode ≡ self.now.mode) }
        ensures known { IfOk result (λ env. env_of env ≡ env_of self.now) }
    {
        let mut copy = Env::new(self.alloc, self.mode());
        for place in 0..self.known.len() {
            if let Some((name, meaning)) = self.known.get_index(place) {
                copy.put_copy(name, meaning)?;
            }
        }
        Ok(copy)
    }

    /// What a name stands for, where it stands for anything.
    fn meaning(&self, name: &Name) -> Option<&Meaning>
        ensures bound { option_map (λ m. bound_of m.now) result ≡ env_of self.now name.now }
        ensures named { StandsUnderName name.now (option_map (λ m. m.now) result) }
    {
        self.known.get(name)
    }

    /// The type of a name, where it stands for a value or a decision variable.
    #[tactic(auto, unfolding(ep_tree::specs::Types::named_type, ep_tree::specs::Types::type_from))]
    pub(crate) fn type_of(&self, name: &Name) -> Option<ValueType>
        ensures { result ≡ type_from (named_type (option_map meaning_in (env_of self.now name.now))) }
    {
        match self.meaning(name) {
            Some(meaning) => meaning_type(meaning),
            None => None,
        }
    }

    /// The value that a name stands for, where it stands for one, with that name and its type.
    #[tactic(auto, unfolding(crate::specs::Bounds::bound_of, crate::specs::Bounds::only_value, crate::specs::Known::StandsUnderName))]
    pub fn entry(&self, name: &Name) -> Option<&Entry>
        ensures bound { option_map (λ e. entry_bound e.now) result ≡ only_value (env_of self.now name.now) }
        ensures named { IfSome result (λ e. e.now.name ≡ name.now) }
    {
        match self.meaning(name) {
            Some(Meaning::Value(entry)) => Some(entry),
            _ => None,
        }
    }

    /// The domain that a name stands for, where it stands for one.
    #[tactic(auto, unfolding(crate::specs::Bounds::bound_of, crate::specs::Bounds::only_domain))]
    pub fn domain(&self, name: &Name) -> Option<&NamedDomain>
        ensures { option_map (λ d. domain_of d.now) result ≡ only_domain (env_of self.now name.now) }
    {
        match self.meaning(name) {
            Some(Meaning::Domain(domain)) => Some(domain),
            _ => None,
        }
    }

    /// The domain of the decision variable that a name stands for, where it stands for one.
    #[tactic(auto, unfolding(crate::specs::Bounds::bound_of, crate::specs::Bounds::only_cells))]
    pub fn cells(&self, name: &Name) -> Option<&NamedDomain>
        ensures { option_map (λ d. cells_of d.now) result ≡ only_cells (env_of self.now name.now) }
    {
        match self.meaning(name) {
            Some(Meaning::Cells(domain)) => Some(domain),
            _ => None,
        }
    }
}
