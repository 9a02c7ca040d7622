//! The texts of judgements.

ghost use Rattle.std.specs.Prelude.{◌≡◌, ◌++◌, codes, IfOk};
ghost use Rattle.std.specs.Fmt.{decimal, signed_decimal};
ghost use Rattle.ep_instance.specs.Judgements.{judgement_of};
ghost use Rattle.ep_said.specs.Judgements.{judgement_text, wrong_shape_text};

use ep_instance::Judgement;
use itoa::Buffer;
use std::alloc::{AllocError, Global};

/// What is said of an assignment.
#[tactic(auto, unfolding(crate::specs::Judgements::judgement_text))]
pub fn judgement_text(alloc: Global, judgement: &Judgement) -> Result<Vec<u8>, AllocError>
    ensures text { IfOk result (λ text. text.items ≡ judgement_text (judgement_of judgement.now)) }
{
    match judgement {
        Judgement::Solution { objective: None } => Vec::from_slice(alloc, b"$ solution\n"),
        Judgement::Solution {
            objective: Some(value),
        } => objective_text(alloc, *value),
        Judgement::Violated(number) => violated_text(alloc, *number),
        Judgement::ObjectiveUndefined => Vec::from_slice(alloc, b"$ objective undefined\n"),
    }
}

/// A solution has this objective.
fn objective_text(alloc: Global, value: i64) -> Result<Vec<u8>, AllocError>
    ensures { IfOk result (λ text. text.items
        ≡ codes "$ solution objective " ++ (signed_decimal value ++ codes "\n")) }
{
    let mut digits = Buffer::new();
    let mut text = Vec::from_slice(alloc, b"$ solution objective ")?;
    text.extend_from_slice(digits.format(value).as_bytes())?;
    text.extend_from_slice(b"\n")?;
    Ok(text)
}

/// A clause is violated.
fn violated_text(alloc: Global, number: u64) -> Result<Vec<u8>, AllocError>
    ensures { IfOk result (λ text. text.items
        ≡ codes "$ violated " ++ (decimal number ++ codes "\n")) }
{
    let mut digits = Buffer::new();
    let mut text = Vec::from_slice(alloc, b"$ violated ")?;
    text.extend_from_slice(digits.format(number).as_bytes())?;
    text.extend_from_slice(b"\n")?;
    Ok(text)
}

/// A name keeps a solution text from giving an assignment.
pub fn wrong_shape_text(alloc: Global, name: &str) -> Result<Vec<u8>, AllocError>
    ensures text { IfOk result (λ text. text.items ≡ wrong_shape_text name.now) }
{
    let mut text = Vec::from_slice(alloc, b"$ wrong shape ")?;
    text.extend_from_slice(name.as_bytes())?;
    text.extend_from_slice(b"\n")?;
    Ok(text)
}
