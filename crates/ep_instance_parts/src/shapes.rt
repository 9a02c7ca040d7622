//! Domains as they are bound.

ghost use Rattle.std.specs.Prelude.{◌≡◌, option_map};
ghost use Rattle.ep_tree.specs.Binding.{elements_pass, index_domains, model_text, or_refuse, shape_of, undefined_at};
ghost use Rattle.ep_tree.specs.Views.{domain_tree};
ghost use Rattle.ep_eval.specs.Known.{env_of};
ghost use Rattle.ep_instance_parts.specs.Reading.{IsShape};
ghost use Rattle.ep_instance_parts.specs.Refusals.{text_name};
ghost use Rattle.ep_instance_parts.specs.Steps.{StepsTo, shape_said};
ghost use Rattle.ep_instance_parts.specs.Tests.{Answers64, element_test};

use super::elements::Elements;
use super::errors::{BindError, Source};
use super::opened::{Opened, read_opened};
use ep_base::{Place, Runs};
use ep_eval::{Env, scalar_in};
use ep_tree::{Domain, Scalar};
use std::alloc::Global;

/// A domain as it is bound: its scalar, the numbers of its index domains, and those that its
/// elements may be.
#[derive(Drop)]
pub struct Shape {
    pub scalar: Scalar,
    pub indices: Vec<Runs>,
    pub elements: Elements,
}

/// The domain that was read, where it is defined.
pub fn shape_from(
    alloc: Global,
    text: Source,
    place: Place,
    env: &Env,
    d: &Domain,
    read: Opened,
) -> Result<Shape, BindError>
    requires indices { option_map (λ v. v.items) read.indices
        ≡ index_domains env.now.mode (env_of env.now) (domain_tree d.now) }
    requires elements { Answers64 element_test read.elements
        (elements_pass env.now.mode (env_of env.now) (domain_tree d.now)) }
    ensures { StepsTo IsShape result (or_refuse (undefined_at (text_name text) place)
        (shape_of env.now.mode (env_of env.now) (domain_tree d.now))) }
{
    let scalar = scalar_in(alloc, env, d)?;
    let indices = read.indices;
    let elements = read.elements;
    let Some(indices) = indices else {
        return Err(BindError::Undefined(text, place));
    };
    let Some(elements) = elements else {
        return Err(BindError::Undefined(text, place));
    };
    Ok(Shape {
        scalar,
        indices,
        elements,
    })
}

/// The domain of a group of parameters.
pub fn given_shape(alloc: Global, place: Place, env: &Env, d: &Domain) -> Result<Shape, BindError>
    ensures { StepsTo IsShape result (shape_said env.now.mode (undefined_at model_text place)
        (env_of env.now) (domain_tree d.now)) }
{
    let (read, _) = read_opened(alloc, env, 0, d)?;
    shape_from(alloc, Source::Model, place, env, d, read)
}
