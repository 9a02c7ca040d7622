//! Variables of 0 and 1 by which an encoding says more than the variables of its constraint can.

ghost use Rattle.std.specs.Prelude.{◌≡◌, length, IfOk, OnOk};
ghost use Rattle.enc_atoms.specs.Steps.{HasTruths, IsReady, IsTruthDomain, numbers_from};

use cnf_core::Formula;
use enc_var::Layout;
use ep_base::{Memory, Run, Runs};
use std::alloc::Global;

/// The numbers 0 and 1.
fn truth_domain(alloc: Global) -> Result<Runs, Memory>
    ensures { IfOk result IsTruthDomain }
{
    let parts = vec![in alloc; Run { lo: 0, hi: 1 }]?;
    Runs::new(alloc, parts)
}

/// Adds so many variables, each of 0 and 1, and answers their numbers. After want of memory nothing is promised of layout
/// and formula.
pub fn new_truths(
    alloc: Global,
    layout: &mut Layout,
    f: &mut Formula,
    count: usize,
) -> Result<Vec<u64>, Memory>
    requires { IsReady layout.old f.old }
    ensures numbers { IfOk result (λ truths. truths.items ≡ numbers_from (length layout.old) count) }
    ensures new { OnOk result (HasTruths layout.old f.old layout.new f.new count) }
{
    let domain = truth_domain(alloc)?;
    let mut truths = Vec::new(alloc);
    for _made in 0..count {
        let truth = layout.new_var(alloc, f, &domain)?;
        truths.push(truth)?;
    }
    Ok(truths)
}
