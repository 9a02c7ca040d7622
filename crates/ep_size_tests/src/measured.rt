//! How great instances and expressions are, and where the limits lie.

use crate::texts::{cut, measures};
use ep_tree::Mode;
use std::alloc::Global;
use std::test::Fail;

/// What is said of how great an instance is: its size and its weight, or why it has none.
fn measured(alloc: Global, mode: Mode, model: &str, params: &str) -> Result<String, Fail> {
    match measures(alloc, mode, "", model, params)? {
        Ok((size, weight)) => Ok(format!(in alloc; "{size} {weight}")?),
        Err(refused) => Ok(refused),
    }
}

/// Whether a row is right: a model, its parameters, and what is said in the relational and in the strict mode. Where the
/// last part is missing, the same is said in both.
pub(crate) fn is_right(alloc: Global, row: &str) -> Result<bool, Fail> {
    let (model, rest) = cut(row);
    let (params, rest) = cut(rest);
    let (relational, strict) = cut(rest);
    let one = measured(alloc, Mode::Relational, model, params)?;
    if strict.is_empty() {
        return Ok(one.as_str() == relational);
    }
    let other = measured(alloc, Mode::Strict, model, params)?;
    Ok(one.as_str() == relational && other.as_str() == strict)
}

/// Instances, and how great they are.
pub(crate) const INSTANCES: &str = "$ Cells, clauses and objectives
##0 0
find x : int(1..3) such that x > 2##4 7
find x : int(1..3) such that x > 2 minimising -x##6 10
given n : int(1..9) find m : matrix indexed by [int(1..n), int(1..2)] of int(0..n) such that sum(m) = n#letting n be 3#10 500
find S, E, N, D, M, O, R, Y : int(0..9) such that 1000*S + 100*E + 10*N + D + 1000*M + 100*O + 10*R + E = 10000*M + 1000*O + 100*N + 10*E + Y, S != 0, M != 0, allDiff([S, E, N, D, M, O, R, Y])##60 1095185
find x : matrix indexed by [int(1..60)] of bool such that sum([x[i] * 10000 | i : int(1..60)]) = 600000##367 5462650
$ The two modes
such that forAll i : int(1..toInt(!(1/0 = 1))) . true##11 0#10 0
$ Sizes
find m : matrix indexed by [int(1..5000000)] of int(1)##5000000 5000000
find m : matrix indexed by [int(1..5000001)] of int(1)##L4
find m : matrix indexed by [int(1..4999999)] of int(1) such that true##5000000 4999999
find m : matrix indexed by [int(1..5000000)] of int(1) such that true##L4
find m : matrix indexed by [int(1..4999999)] of int(1) minimising (1)##L4
$ Reaches
find x : int(0..1024) minimising x ** 4##4 2050
find x : int(0..1025) minimising x ** 4##L5
find x : int(0..1) minimising 2**40 - 1 + x##7 6
find x : int(0..1) minimising 2**40 + x##L5
find x : int(-1..0) minimising x + 1 - 2**40##7 6
find x : int(-1..0) minimising x - 2**40##L5
such that 2**40 >= 0##5 0
such that 2**40 + 1 >= 0##L5
such that 0 - 2**40 <= 0##7 0
such that 0 - 2**40 - 1 <= 0##L5
such that product([0, 2, 2**40]) = 0##9 0
such that product([2, 2**40, 0]) = 0##L5
$ Weights
find m : matrix indexed by [int(1..4000000)] of int(1..5)##4000000 20000000
find m : matrix indexed by [int(1..4000000)] of int(1..5) find z : int(1)##L6
find x : int(1..9999999) find z : int(1) such that x >= 1##5 20000000
find x : int(1..10000000) such that x >= 1##L6
find x, y : int(0..9999) such that x * y = 6##L6
$ Weight is named where neither other limit is passed
find x : int(0..16384) such that x ** 3 = 8##L5
find x, y : int(0..9999) such that x * y = 6, 2**41 > 0##L5
find x, y : int(0..9999) such that x * y = 6 find m : matrix indexed by [int(1..4999995)] of int(1)##L4
$ Behind a limit that is passed nothing is asked of what isn't known
find x : int(0..16384) find q : matrix indexed by [int(1..2), int(1..2)] of int(1..2) such that x ** 3 = 8, allDiff(q[1, ..])##L5
find x : int(0..16384) find q : matrix indexed by [int(1..2), int(1..2)] of int(1..2) such that x ** 3 = 8 /\\ allDiff(q[1, ..])##L5
find x : int(0..16384) find q : matrix indexed by [int(1..2), int(1..2)] of int(1..2) such that x ** 3 = 8 /\\ sum(q[.., 2]) = 3##L5
find x : int(0..16384) find q : matrix indexed by [int(1..2), int(1..2)] of int(1..2) such that x ** 3 = 8 /\\ q[q[1, 2], 1] = 1##L5
find x : int(0..16384) such that x ** 3 = 8 /\\ allDiff([[x, 1], [2, x]][1, ..])##L5
find x : int(0..16384) such that x ** 3 = 8 /\\ allDiff([[x, 1], [2, x]][.., 1])##L5
find x : int(0..16384) such that x ** 3 = 8 /\\ max(flatten([[x, 1], [2, x]])) = 2##L5
find m : matrix indexed by [int(1..4999995)] of int(1) find q : matrix indexed by [int(1..2), int(1..2)] of int(1..2) such that true, allDiff(q[1, ..])##L4
find m : matrix indexed by [int(1..4999995)] of int(1) find q : matrix indexed by [int(1..2), int(1..2)] of int(1..2) such that true, true, allDiff(q[1, ..])##L4";

/// Instances with as many nodes as there may be, and with more.
pub(crate) const MANY_NODES: &str = "\
such that forAll i : int(1..4999997) . true##5000000 0
such that forAll i : int(1..4999998) . true##L4";
