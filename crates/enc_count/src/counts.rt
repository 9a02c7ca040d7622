//! Counts of numbers among variables: for each number a mark of 0 and 1 for each variable that can be it, and the sum of
//! these marks compared with the count.

ghost use Rattle.std.specs.Prelude.{◌≡◌, ◌<◌, pos, ℕ, ℤ, List, [], false, length, IsTrue, IfOk, OnOk, Some, option_to_list, slice_get, slice_index_or, unwrap_or};
ghost use Rattle.std.specs.List.{All, list_all};
ghost use Rattle.ep_base.specs.Numbers.{counts_hold, has_number, times_in};
ghost use Rattle.ep_base.specs.declared.operators.CompareOp.TheVariants as Op;
ghost use Rattle.ep_flat.specs.Cons.{is_as_said, numbers_of_vars, number_at};
ghost use Rattle.enc_atoms.specs.Atoms.{Adds, AreOfDomains};
ghost use Rattle.enc_count.specs.Counts.{AreFit, IsAllOf, IsMark, counted_parts, no_wanted, sum_holds, wanted_by_numbers, wanted_by_vars, wanted_holds};
ghost use Rattle.enc_atoms.specs.Steps.{AreOf, HasTruth, Implied, IsReady};

use cnf_core::Formula;
use enc_atoms::{Atom, add_decided, add_guarded, add_implied, add_never, all_are, new_truths};
use enc_linear::encode_con;
use enc_var::Layout;
use ep_base::{CompareOp, Memory};
use ep_flat::{Con, ConKind};
use std::alloc::Global;

/// A number, and how often it is to stand among variables: as often as the variable, where there is one, and the count say
/// together.
#[derive(Clone, Copy, Debug)]
pub(crate) struct Wanted {
    pub(crate) value: i64,
    pub(crate) var: Option<u64>,
    pub(crate) count: i64,
}

/// The variables that can be the number.
fn able_to_be(alloc: Global, layout: &Layout, vars: &[u64], number: i64) -> Result<Vec<u64>, Memory>
    requires { AreOf layout.now vars.now }
    ensures within { IfOk result (λ able. AreOf layout.now able.items) }
    ensures times { IfOk result (λ able. (values : List ℤ) → AreOfDomains layout.now values
        → times_in (numbers_of_vars values able.items) number ≡ times_in (numbers_of_vars values vars.now) number) }
{
    let mut able = Vec::new(alloc);
    for var in vars {
        if !layout.domain(*var).has(number) {
            continue;
        }
        able.push(*var)?;
    }
    Ok(able)
}

/// Adds that a variable is 1 exactly where another one is the number.
fn add_mark(
    alloc: Global,
    layout: &Layout,
    f: &mut Formula,
    mark: u64,
    var: u64,
    number: i64,
) -> Result<(), Memory>
    requires ready { IsReady layout.now f.old }
    requires mark { mark < length layout.now }
    requires var { var < length layout.now }
    ensures { OnOk result (Adds layout.now f.old layout.now f.new (IsMark mark var number)) }
{
    add_implied(alloc, layout, f, &[], (mark, 1), (var, number))?;
    add_implied(alloc, layout, f, &[], (var, number), (mark, 1))
}

/// Adds for each variable that its mark is 1 exactly where it is the number.
fn add_marks(
    alloc: Global,
    layout: &Layout,
    f: &mut Formula,
    marks: &[u64],
    vars: &[u64],
    number: i64,
) -> Result<(), Memory>
    requires ready { IsReady layout.now f.old }
    requires many { length marks.now ≡ length vars.now }
    requires marks { AreOf layout.now marks.now }
    requires vars { AreOf layout.now vars.now }
    ensures { OnOk result (Adds layout.now f.old layout.now f.new (λ values. (k : ℕ) → k < length vars.now
        → IsMark (slice_index_or marks.now k 0) (slice_index_or vars.now k 0) number values)) }
{
    for k in 0..vars.len() {
        add_mark(alloc, layout, f, marks[k], vars[k], number)?;
    }
    Ok(())
}

/// A part with the coefficient -1.
fn minus_one(alloc: Global, var: u64) -> Result<Vec<(i64, u64)>, Memory>
    ensures { IfOk result (λ parts. parts.items ≡ counted_parts (Some var) []) }
{
    let mut parts = Vec::new(alloc);
    parts.push((-1, var))?;
    Ok(parts)
}

/// A part with the coefficient -1 for a variable, where there is one.
fn minus(alloc: Global, var: Option<u64>) -> Result<Vec<(i64, u64)>, Memory>
    ensures { IfOk result (λ parts. parts.items ≡ counted_parts var []) }
{
    match var {
        None => Ok(Vec::new(alloc)),
        Some(var) => minus_one(alloc, var),
    }
}

/// The parts of a sum of marks, less a variable where there is one.
fn parts_of(alloc: Global, var: Option<u64>, marks: &[u64]) -> Result<Vec<(i64, u64)>, Memory>
    ensures { IfOk result (λ parts. parts.items ≡ counted_parts var marks.now) }
{
    let mut parts = minus(alloc, var)?;
    for mark in marks {
        parts.push((1, *mark))?;
    }
    Ok(parts)
}

/// Adds that the sum of marks compares so with what is wanted, or that the variable of its truth says whether it does.
fn add_sum(
    alloc: Global,
    layout: &mut Layout,
    f: &mut Formula,
    truth: Option<u64>,
    op: CompareOp,
    marks: &[u64],
    wanted: Wanted,
) -> Result<(), Memory>
    requires ready { IsReady layout.old f.old }
    requires truth { AreFit layout.old (option_to_list truth) }
    requires marks { AreFit layout.old marks.now }
    requires wanted { AreFit layout.old (option_to_list wanted.var) }
    ensures { OnOk result (Adds layout.old f.old layout.new f.new
        (λ values. IsTrue (is_as_said values truth (sum_holds values op marks.now wanted)))) }
{
    let parts = parts_of(alloc, wanted.var, marks)?;
    let kind = ConKind::Linear(parts, op, wanted.count);
    let con = Con { truth, kind };
    encode_con(alloc, &con, layout, f)
}

/// Adds that a number stands among variables as often as is compared with what is wanted, or that the variable of its truth
/// says whether it does. Costs a sum of as many marks as there are variables that can be the number.
fn add_count(
    alloc: Global,
    layout: &mut Layout,
    f: &mut Formula,
    truth: Option<u64>,
    op: CompareOp,
    vars: &[u64],
    wanted: Wanted,
) -> Result<(), Memory>
    requires ready { IsReady layout.old f.old }
    requires truth { AreFit layout.old (option_to_list truth) }
    requires vars { AreOf layout.old vars.now }
    requires wanted { AreFit layout.old (option_to_list wanted.var) }
    ensures { OnOk result (Adds layout.old f.old layout.new f.new
        (λ values. IsTrue (is_as_said values truth (wanted_holds values op vars.now wanted)))) }
{
    let able = able_to_be(alloc, layout, vars, wanted.value)?;
    let marks = new_truths(alloc, layout, f, able.len())?;
    add_marks(alloc, layout, f, &marks, &able, wanted.value)?;
    add_sum(alloc, layout, f, truth, op, &marks, wanted)
}

/// The variable at a place, where there is one.
fn at_place(truths: &[u64], place: usize) -> Option<u64>
    ensures { result ≡ slice_get truths.now place }
{
    if place < truths.len() {
        Some(truths[place])
    } else {
        None
    }
}

/// Adds for each number that it stands among variables as often as is compared with what is wanted, or, as far as there are
/// variables for that, that its own variable says whether it does.
fn add_counts(
    alloc: Global,
    layout: &mut Layout,
    f: &mut Formula,
    truths: &[u64],
    op: CompareOp,
    vars: &[u64],
    wanted: &[Wanted],
) -> Result<(), Memory>
    requires ready { IsReady layout.old f.old }
    requires truths { AreFit layout.old truths.now }
    requires vars { AreOf layout.old vars.now }
    requires wanted { All (λ one. AreFit layout.old (option_to_list one.var)) wanted.now }
    ensures { OnOk result (Adds layout.old f.old layout.new f.new (λ values. (k : ℕ) → k < length wanted.now
        → IsTrue (is_as_said values (slice_get truths.now k)
        (wanted_holds values op vars.now (slice_index_or wanted.now k no_wanted))))) }
{
    for k in 0..wanted.len() {
        let truth = at_place(truths, k);
        add_count(alloc, layout, f, truth, op, vars, wanted[k])?;
    }
    Ok(())
}

/// Adds that each of the variables is 1 where the truth is.
fn add_each_told(
    alloc: Global,
    layout: &Layout,
    f: &mut Formula,
    truth: u64,
    told: &[u64],
) -> Result<(), Memory>
    requires ready { IsReady layout.now f.old }
    requires truth { truth < length layout.now }
    requires told { AreOf layout.now told.now }
    ensures { OnOk result (Adds layout.now f.old layout.now f.new
        (λ values. All (λ one. Implied truth (pos 1) one (pos 1) values) told.now)) }
{
    for one in told {
        add_implied(alloc, layout, f, &[], (truth, 1), (*one, 1))?;
    }
    Ok(())
}

/// Adds that one of the variables is 0 where the truth is.
fn add_some_untold(
    alloc: Global,
    layout: &Layout,
    f: &mut Formula,
    truth: u64,
    told: &[u64],
) -> Result<(), Memory>
    requires ready { IsReady layout.now f.old }
    requires truth { truth < length layout.now }
    requires told { AreOf layout.now told.now }
    ensures { OnOk result (Adds layout.now f.old layout.now f.new (λ values. number_at values truth ≡ pos 0
        → IsTrue (has_number (numbers_of_vars values told.now) (pos 0)))) }
{
    let off = [Atom::is_not(truth, 0)];
    let atoms = all_are(alloc, told, 0)?;
    add_guarded(alloc, layout, f, &off, &atoms)
}

/// Adds that a variable is 1 where all of these are, and 0 where one of them is.
fn add_all_told(
    alloc: Global,
    layout: &Layout,
    f: &mut Formula,
    truth: u64,
    told: &[u64],
) -> Result<(), Memory>
    requires ready { IsReady layout.now f.old }
    requires truth { truth < length layout.now }
    requires told { AreOf layout.now told.now }
    ensures { OnOk result (Adds layout.now f.old layout.now f.new (IsAllOf truth told.now)) }
{
    add_decided(alloc, layout, f, truth)?;
    add_each_told(alloc, layout, f, truth, told)?;
    add_some_untold(alloc, layout, f, truth, told)
}

/// Adds that a variable is 1 exactly where each number stands among variables as often as is compared with what is wanted,
/// and else 0.
fn encode_truth(
    alloc: Global,
    layout: &mut Layout,
    f: &mut Formula,
    truth: u64,
    op: CompareOp,
    vars: &[u64],
    wanted: &[Wanted],
) -> Result<(), Memory>
    requires ready { IsReady layout.old f.old }
    requires truth { truth < length layout.old }
    requires vars { AreOf layout.old vars.now }
    requires wanted { All (λ one. AreFit layout.old (option_to_list one.var)) wanted.now }
    ensures { OnOk result (Adds layout.old f.old layout.new f.new (λ values. IsTrue (is_as_said values (Some truth)
        (list_all (wanted_holds values op vars.now) wanted.now)))) }
{
    let told = new_truths(alloc, layout, f, wanted.len())?;
    add_all_told(alloc, layout, f, truth, &told)?;
    add_counts(alloc, layout, f, &told, op, vars, wanted)
}

/// Adds that each number stands among variables as often as is compared with what is wanted, or that the variable of its
/// truth is 1 exactly where that is so, and else 0.
fn encode_wanted(
    alloc: Global,
    layout: &mut Layout,
    f: &mut Formula,
    truth: Option<u64>,
    op: CompareOp,
    vars: &[u64],
    wanted: &[Wanted],
) -> Result<(), Memory>
    requires ready { IsReady layout.old f.old }
    requires truth { HasTruth layout.old truth }
    requires vars { AreOf layout.old vars.now }
    requires wanted { All (λ one. AreFit layout.old (option_to_list one.var)) wanted.now }
    ensures { OnOk result (Adds layout.old f.old layout.new f.new (λ values. IsTrue (is_as_said values truth
        (list_all (wanted_holds values op vars.now) wanted.now)))) }
{
    match truth {
        None => add_counts(alloc, layout, f, &[], op, vars, wanted),
        Some(truth) => encode_truth(alloc, layout, f, truth, op, vars, wanted),
    }
}

/// The numbers with the variables of their counts.
fn with_vars(alloc: Global, numbers: &[i64], counts: &[u64]) -> Result<Vec<Wanted>, Memory>
    requires { length numbers.now ≡ length counts.now }
    ensures { IfOk result (λ wanted. wanted.items ≡ wanted_by_vars numbers.now counts.now) }
{
    let mut wanted = Vec::new(alloc);
    for k in 0..numbers.len() {
        wanted.push(Wanted {
            value: numbers[k],
            var: Some(counts[k]),
            count: 0,
        })?;
    }
    Ok(wanted)
}

/// The numbers with their counts.
fn with_numbers(alloc: Global, numbers: &[i64], counts: &[i64]) -> Result<Vec<Wanted>, Memory>
    requires { length numbers.now ≡ length counts.now }
    ensures { IfOk result (λ wanted. wanted.items ≡ wanted_by_numbers numbers.now counts.now) }
{
    let mut wanted = Vec::new(alloc);
    for k in 0..numbers.len() {
        wanted.push(Wanted {
            value: numbers[k],
            var: None,
            count: counts[k],
        })?;
    }
    Ok(wanted)
}

/// Adds that each number stands among variables as often as its count's variable says, or that the variable of its truth is
/// 1 exactly where that is so, and else 0. It never is where there are more numbers than counts, or fewer.
pub(crate) fn encode_counts(
    alloc: Global,
    layout: &mut Layout,
    f: &mut Formula,
    truth: Option<u64>,
    vars: &[u64],
    numbers: &[i64],
    counts: &[u64],
) -> Result<(), Memory>
    requires ready { IsReady layout.old f.old }
    requires truth { HasTruth layout.old truth }
    requires vars { AreOf layout.old vars.now }
    requires counts { AreFit layout.old counts.now }
    ensures { OnOk result (Adds layout.old f.old layout.new f.new (λ values. IsTrue (is_as_said values truth
        (unwrap_or (counts_hold Op.Equal (numbers_of_vars values vars.now) numbers.now (numbers_of_vars values counts.now)) false)))) }
{
    if numbers.len() != counts.len() {
        return add_never(alloc, layout, f, truth);
    }
    let wanted = with_vars(alloc, numbers, counts)?;
    encode_wanted(alloc, layout, f, truth, CompareOp::Equal, vars, &wanted)
}

/// Adds that each number stands among variables as often as is compared with its count, or that the variable of its truth is
/// 1 exactly where that is so, and else 0. It never is where there are more numbers than counts, or fewer.
pub(crate) fn encode_bounds(
    alloc: Global,
    layout: &mut Layout,
    f: &mut Formula,
    truth: Option<u64>,
    op: CompareOp,
    vars: &[u64],
    numbers: &[i64],
    counts: &[i64],
) -> Result<(), Memory>
    requires ready { IsReady layout.old f.old }
    requires truth { HasTruth layout.old truth }
    requires vars { AreOf layout.old vars.now }
    ensures { OnOk result (Adds layout.old f.old layout.new f.new (λ values. IsTrue (is_as_said values truth
        (unwrap_or (counts_hold op (numbers_of_vars values vars.now) numbers.now counts.now) false)))) }
{
    if numbers.len() != counts.len() {
        return add_never(alloc, layout, f, truth);
    }
    let wanted = with_numbers(alloc, numbers, counts)?;
    encode_wanted(alloc, layout, f, truth, op, vars, &wanted)
}
