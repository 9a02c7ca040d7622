//! The table: models over a few decision variables.

use crate::instances::instance_of;
use crate::lists::{all_lists, evaluated, grounded};
use ep_size::measure;
use ep_tree::Mode;
use ep_unroll::unroll;
use std::alloc::Global;
use std::test::Fail;

/// The decision variables of each row.
const FRONT: &str = "find x : int(-1..2) find y : int(0..2) find b : bool ";

/// The first list of numbers under which the ground of a row says something else than direct evaluation.
fn first_different(alloc: Global, mode: Mode, row: &str) -> Result<Option<String>, Fail> {
    let text = format!(in alloc; "{FRONT}{row}")?;
    let instance = instance_of(alloc, mode, text.as_str())?;
    let _measures = measure(alloc, &instance)?;
    let ground = unroll(alloc, &instance)?;
    for list in all_lists(alloc, &instance)? {
        let evaluated = evaluated(alloc, &instance, list.text.as_str())?;
        if evaluated != grounded(alloc, &ground, &list.cells)? {
            return Ok(Some(list.text));
        }
    }
    Ok(None)
}

/// The first row of a table of which that is so, with that list.
fn first_wrong(alloc: Global, mode: Mode, table: &str) -> Result<Option<String>, Fail> {
    for row in table.lines() {
        if let Some(list) = first_different(alloc, mode, row)? {
            return Ok(Some(format!(in alloc; "{row}: {}", list.as_str())?));
        }
    }
    Ok(None)
}

/// Numbers, comparisons and connectives.
const NUMBERS: &str = "minimising x + y - 2 * x
minimising -x * y
minimising |x - y|
minimising x / y
minimising y / x
minimising x % y
minimising y % x
minimising (0 - 7) / x
minimising 7 % x
minimising x ** 3 + x ** 0
minimising x ** (0 - 1)
minimising factorial(3) + x
minimising min(x, y) - max(x, y)
minimising min([x, y, 1])
minimising max([x / y, 2])
minimising min([x | i : int(1..0)])
minimising sum([x, y, x]) + product([x, y, x])
minimising sum([x | i : int(1..0)]) + product([x | i : int(1..0)])
minimising toInt(x = y) - toInt(b)
such that x = y, x != y, x < y, x <= y, x > y, x >= y
such that x <= y, x >= y
such that x < y, y != 1
such that x > y, b
such that b -> x > y, b <-> x = 1
such that b <-> x / y = 1
such that !(10 / x > 2)
such that !(x / y = 1), !b
such that x = 0 \\/ 10 / x >= 10
such that !b /\\ (x = 1 \\/ y = 2)
such that and([x = 1, b]), or([x / y = 1, b])
such that or([x / y = 0, b])
such that and([b | i : int(1..0)])
such that or([b | i : int(1..0)])
such that 10 / x > 2 minimising x / y
such that (x / y = 1) = b
such that x > 0, y / x = 1 minimising x / y
such that x in int(0, 2)
such that x / y in int(-1..0)
such that x in int(0..2) - int(1)
such that x in toSet([y, 1])
such that y in toSet([x / y, 1])
such that !(x in toSet([x / y]))";

/// Quantifiers, comprehensions, and statements on all parts.
const LISTS: &str = "such that forAll i : int(0..2) . x + i > y
such that exists i : int(1..3) . i * x = y
such that forAll i : int(1..0) . x > 5
such that exists i : int(1..0) . x < 5
such that forAll i : int(1..1 / 0) . x = x
such that exists i : int(1..1 / 0) . x = x
such that !(forAll i : int(1..1 / 0) . x = x)
such that forAll i : int(0..2) . y / (x - i) < 2
such that exists i, j : int(0..1) . x / i = j
minimising sum i : int(1..3) . i * x
minimising sum i : int(1..1 / 0) . x
minimising sum i : int(0..2) . y / (x + i)
minimising sum([i * x | i : int(1..3), i != 2])
minimising [x / i | i : int(0..2), i > 0][y]
minimising sum([x + j | i : int(1..2), j : int(1..i)])
minimising sum([x | i : int(1..1 / 0)])
minimising sum([x | i : int(0..1), 1 / i > 0])
minimising sum(flatten([[x, y], [y, x]]))
minimising flatten([[x], [y], [3]])[y]
such that allDiff([x + i | i : int(1..2)])
such that allDiff([x, y, 1])
such that allDiff([x / y, y])
such that !allDiff([x, y])
such that [x, y] <lex [y, x]
such that [x] <=lex [x, y]
such that [x, 1] >lex [1]
such that [x / y] >=lex [1]
such that gcc([x, y, 1], [1, 2], [y, 1])
such that !gcc([x, y, 1], [1, 1], [y, 2])
such that gcc([x, y], [1], [1, 1])
such that gcc([x / y, y], [1], [1])
such that atleast([x, y], [1], [2])
such that atmost([x, y, y], [1, 0], [2, 1])
such that atleast([x, y], [1, 1], [2])
such that !atmost([x / y], [1], [1])
such that table([x, y], [[1, 2], [-1, 0]])
such that table([x, y], [[1], [2, 1]])
such that !table([x / y], [[1]])";

/// Reads of lists: of a number, of a truth value, and of a part that is a list.
const READS: &str = "minimising [x, y][1]
minimising [x, y][y]
minimising [x, y; int(0..1)][y]
minimising [x, y; int(1..3)][1]
minimising [10 / x, y][2]
minimising [10, y, 5][x]
such that [b, x = 1][y]
such that ![b, x = y][y]
such that toInt([b, true][x]) = 0
such that ([b, true][x]) = ([b, false][y])
minimising [[x, y], [1, 2]][y, 1]
minimising [[x, y], [1, 2]][y, x]
minimising sum([[x, y], [1, 2]][1, ..])
minimising sum([[x, y], [1, 2]][.., 2])
minimising sum([10 / x, y][..])
minimising sum([[10 / x, y], [y, 1]][2, ..])
minimising sum([[5, 6], [10 / x, y]][1, ..])
minimising max([[y, 10 / x], [x, 2]][.., 1])
minimising [[10 / x, y], [y, 1]][1, ..][y]
minimising sum([[x, y], [y / x, 1]][3, ..])
such that allDiff([y, 10 / x][..])
such that or([x / y = 1, b][..])
such that !and([b, x = 10 / y][..])
such that y in toSet([[y, x], [1, 1 / x]][1, ..])
minimising [[1 / 0], [x, y]][1, 1]
minimising [[1 / 0], [x, y]][2, 1]
minimising [[1 / 0], [x, y]][y, 1]
minimising [[[1 / 0], [2]], [[x], [y]]][1, 2, y]
minimising sum([[[1 / 0], [2]], [[x], [y]]][1, 2, ..])
minimising sum([[x, y], [1, 2]; int(1..3)][1, ..])
minimising sum([[[x], [y]][3, ..], [y]][1, ..])
minimising sum([[[x], [y]][3, ..], [y]][2, ..])
such that [[b, true], [(1 / 0 = 1)]][y, 1]
such that and([[[b], [b]][3, ..], [b]][1, ..])
such that !and([[[b], [b]][3, ..], [b]][.., 1])
such that !([[1 / 0], [x]][1, 1] = 1)";

/// The first wrong row in one of the modes of undefinedness.
fn wrong_in_a_mode(alloc: Global, table: &str) -> Result<Option<String>, Fail> {
    match first_wrong(alloc, Mode::Relational, table)? {
        Some(wrong) => Ok(Some(wrong)),
        None => first_wrong(alloc, Mode::Strict, table),
    }
}

#[test]
fn grounds_of_numbers_say_what_evaluation_says(rt: HostRuntime) -> Result<(), Fail> {
    assert_eq!(rt; wrong_in_a_mode(rt.alloc(), NUMBERS)?, None);
    Ok(())
}

#[test]
fn grounds_of_lists_say_what_evaluation_says(rt: HostRuntime) -> Result<(), Fail> {
    assert_eq!(rt; wrong_in_a_mode(rt.alloc(), LISTS)?, None);
    Ok(())
}

#[test]
fn grounds_of_reads_say_what_evaluation_says(rt: HostRuntime) -> Result<(), Fail> {
    assert_eq!(rt; wrong_in_a_mode(rt.alloc(), READS)?, None);
    Ok(())
}
