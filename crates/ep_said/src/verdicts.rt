//! The texts of verdicts on proofs.

ghost use Rattle.std.specs.Prelude.{◌≡◌, ◌++◌, codes, IfOk};
ghost use Rattle.std.specs.Fmt.{decimal};
ghost use Rattle.ep_said.specs.Verdicts.{verdict_text};

use itoa::Buffer;
use log_check::Verdict;
use std::alloc::{AllocError, Global};

/// What is said of a proof with this verdict.
#[tactic(auto, unfolding(crate::specs::Verdicts::verdict_text))]
pub fn verdict_text(alloc: Global, verdict: Verdict) -> Result<Vec<u8>, AllocError>
    ensures text { IfOk result (λ text. text.items ≡ verdict_text verdict) }
{
    match verdict {
        Verdict::Verified => Vec::from_slice(alloc, b"$ verified\n"),
        Verdict::BadStep(number) => bad_step_text(alloc, number),
        Verdict::NoEmptyClause => Vec::from_slice(alloc, b"$ no empty clause\n"),
    }
}

/// A line of a proof isn't valid.
fn bad_step_text(alloc: Global, number: u64) -> Result<Vec<u8>, AllocError>
    ensures { IfOk result (λ text. text.items
        ≡ codes "$ bad step " ++ (decimal number ++ codes "\n")) }
{
    let mut digits = Buffer::new();
    let mut text = Vec::from_slice(alloc, b"$ bad step ")?;
    text.extend_from_slice(digits.format(number).as_bytes())?;
    text.extend_from_slice(b"\n")?;
    Ok(text)
}
