//! Puts models out.

ghost use Rattle.std.specs.Prelude.{◌≡◌, IfOk};
ghost use Rattle.ep_tree.specs.Views.{model_tree};
ghost use Rattle.ep_print.specs.Models.{model_text};

use crate::answers::LANGUAGE_LINE;
use crate::statements::push_statements;
use ep_base::Memory;
use ep_tree::Model;
use std::alloc::Global;

/// The text of a model. Where some text spells the model, so does this one, places aside. One pass, linear in the text.
#[tactic(auto, unfolding(crate::specs::Models::model_text, ep_tree::specs::Views::model_tree))]
pub fn print_model(alloc: Global, model: &Model) -> Result<Vec<u8>, Memory>
    ensures text { IfOk result (λ text. text.items ≡ model_text (model_tree model.now)) }
{
    let mut text = Vec::from_slice(alloc, LANGUAGE_LINE)?;
    push_statements(&mut text, &model.statements)?;
    Ok(text)
}
