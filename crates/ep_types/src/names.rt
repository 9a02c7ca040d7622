//! What names stand for while a text is checked.

ghost use Rattle.std.specs.Prelude.{◌≡◌, true, IfErr, IfOk, IfSome, OnOk, OnSome, option_map, take};
ghost use Rattle.ep_tree.specs.Names.{put};
ghost use Rattle.ep_tree.specs.Types as types;
ghost use Rattle.ep_tree.specs.Types.{Context, typed};
ghost use Rattle.ep_types_rules.specs.Concluding.{SaysOfCheck};
ghost use Rattle.ep_types_rules.specs.Named.{IsUnknown};
ghost use Rattle.ep_types_rules.specs.declared.errors.StaticError.TheVariants.{Memory as OutOfMemory};
ghost use Rattle.ep_types.specs.Again.{Keeps};
ghost use Rattle.ep_types.specs.Checking.{check_domain_name, check_name, check_value};
ghost use Rattle.ep_types.specs.Meanings.{behind_names, names_context, known_by, meaning_of, or_else};
ghost use Rattle.ep_types.specs.Hiding.{Hides};

use ep_base::{Memory, Name, Place};
use ep_tree::ValueType;
use ep_types_rules::{StaticError, is_boolean};
use indexmap::IndexMap;
use std::alloc::Global;

/// What a name stands for.
#[derive(Clone, Copy, Debug, PartialEq, Eq)]
pub(crate) enum Meaning {
    /// A value of a type, and whether it is a decision variable's.
    Value(ValueType, bool),
    /// A domain whose values are of a type.
    Domain(ValueType),
}

/// The names of the statements before, and those of the quantifiers and generators around, of which
/// a later one hides an earlier one.
#[derive(Drop)]
pub(crate) struct Names<'a> {
    pub(crate) alloc: Global,
    pub(crate) declared: &'a IndexMap<&'a str, Meaning>,
    pub(crate) inner: Vec<(&'a str, Meaning)>,
}

/// The last of some names that is this one.
fn hidden_by(inner: &[(&str, Meaning)], name: &str) -> Option<Meaning>
    ensures { (c : Context) → behind_names inner.now c name.now
        ≡ or_else (option_map meaning_of result) (c name.now) }
{
    let mut left = inner.len();
    while left > 0 {
        left -= 1;
        let (other, meaning) = inner[left];
        if name == other {
            return Some(meaning);
        }
    }
    None
}

/// The type of a name, where it isn't a decision variable's, or such a one may stand.
fn may_stand(
    decisions: bool,
    place: Place,
    ty: ValueType,
    decision: bool,
) -> Result<ValueType, StaticError>
    ensures { SaysOfCheck (λ t. t) result (check_value decisions place ty decision) }
{
    if !decision {
        return Ok(ty);
    }
    if decisions {
        return Ok(ty);
    }
    Err(StaticError::WrongCategory(place))
}

/// Whether two names stand for the same.
fn is_same(one: Meaning, other: Meaning) -> bool
    ensures { result ≡ true → meaning_of one ≡ meaning_of other }
{
    one == other
}

/// What a name of a quantifier or generator over a domain of this type stands for.
#[tactic(auto, unfolding(ep_tree::specs::Types::quantified_name, crate::specs::Meanings::meaning_of))]
fn quantified_name(ty: ValueType) -> Meaning
    ensures { meaning_of result ≡ types.quantified_name (typed ty) }
{
    if is_boolean(ty) {
        Meaning::Value(ValueType::Bool, false)
    } else {
        Meaning::Value(ValueType::Int, false)
    }
}

/// A type where it is known.
fn known_if(known: bool, ty: ValueType) -> Option<ValueType>
    ensures same { IfSome result (λ t. t ≡ ty) }
    ensures known { OnSome result (known ≡ true) }
{
    if known { Some(ty) } else { None }
}

impl<'a> Names<'a> {
    /// The names of statements alone.
    #[tactic(auto, unfolding(crate::specs::Meanings::names_context, crate::specs::Meanings::behind_names))]
    pub(crate) fn new(alloc: Global, declared: &'a IndexMap<&'a str, Meaning>) -> Names<'a>
        ensures { names_context result ≡ known_by declared.now.entries }
    {
        Names {
            alloc,
            declared,
            inner: Vec::new(alloc),
        }
    }

    /// What a name stands for.
    ///
    /// Linear in the names of the quantifiers around.
    fn find(&self, name: &str) -> Option<Meaning>
        ensures { option_map meaning_of result ≡ names_context self.now name.now }
    {
        match hidden_by(&self.inner, name) {
            Some(meaning) => Some(meaning),
            None => self.declared.get(name).copied(),
        }
    }

    /// The type of a name as an expression, where decision variables may stand or may not.
    pub(crate) fn value_type(
        &self,
        decisions: bool,
        place: Place,
        name: &Name,
    ) -> Result<ValueType, StaticError>
        ensures { SaysOfCheck (λ t. t) result
            (check_name decisions place name.now (names_context self.now name.now)) }
    {
        match self.find(name.text()) {
            None => Err(self.unknown(place, name)),
            Some(Meaning::Domain(_)) => Err(StaticError::IllTyped(place)),
            Some(Meaning::Value(ty, decision)) => may_stand(decisions, place, ty, decision),
        }
    }

    /// The type of a name as a domain.
    pub(crate) fn domain_type(&self, place: Place, name: &Name) -> Result<ValueType, StaticError>
        ensures { SaysOfCheck (λ t. t) result
            (check_domain_name place name.now (names_context self.now name.now)) }
    {
        match self.find(name.text()) {
            None => Err(self.unknown(place, name)),
            Some(Meaning::Value(_, _)) => Err(StaticError::IllTyped(place)),
            Some(Meaning::Domain(ty)) => Ok(ty),
        }
    }

    /// The error of a name that isn't declared.
    #[tactic(auto, unfolding(ep_types_rules::specs::Named::fault_of))]
    fn unknown(&self, place: Place, name: &Name) -> StaticError
        ensures { IsUnknown place name.now result }
    {
        match Name::new(self.alloc, name.text()) {
            Ok(name) => StaticError::UnknownName(place, name),
            Err(Memory) => StaticError::Memory,
        }
    }

    /// A name stands for something new, until it is shown again.
    fn hide(&mut self, name: &'a Name, meaning: Meaning) -> Result<(), StaticError>
        ensures hides { OnOk result (Hides self.old self.new) }
        ensures known { OnOk result (names_context self.new
            ≡ put name.now (meaning_of meaning) (names_context self.old)) }
        ensures memory { IfErr result (λ e. e ≡ OutOfMemory) }
    {
        self.inner.push((name.text(), meaning))?;
        Ok(())
    }

    /// Whether a name stands for nothing, or for this already.
    fn keeps(&self, name: &Name, meaning: Meaning) -> bool
        ensures { result ≡ true → Keeps (names_context self.now) name.now (meaning_of meaning) }
    {
        match self.find(name.text()) {
            None => true,
            Some(before) => is_same(before, meaning),
        }
    }

    /// Hides a name of a quantifier or generator over a domain of this type. Where the name stood for
    /// nothing, or for the same, the domain is of this type behind the name too, which is then given.
    pub(crate) fn quantify(
        &mut self,
        name: &'a Name,
        ty: ValueType,
    ) -> Result<Option<ValueType>, StaticError>
        ensures hides { OnOk result (Hides self.old self.new) }
        ensures known { OnOk result (names_context self.new
            ≡ put name.now (types.quantified_name (typed ty)) (names_context self.old)) }
        ensures same { IfOk result (λ again. IfSome again (λ t. t ≡ ty)) }
        ensures keeps { IfOk result (λ again. OnSome again
            (Keeps (names_context self.old) name.now (types.quantified_name (typed ty)))) }
        ensures memory { IfErr result (λ e. e ≡ OutOfMemory) }
    {
        let meaning = quantified_name(ty);
        let again = known_if(self.keeps(name, meaning), ty);
        self.hide(name, meaning)?;
        Ok(again)
    }

    /// The names that were hidden since there were so many stand for what they did.
    pub(crate) fn show(&mut self, depth: usize)
        ensures inner { self.new.inner.items ≡ take depth self.old.inner.items }
        ensures declared { self.new.declared ≡ self.old.declared }
    {
        self.inner.truncate(depth);
    }
}
