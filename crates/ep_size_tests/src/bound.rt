//! Models with parameters and solution texts in both modes.

use crate::texts::{cut, said};
use ep_tree::Mode;
use std::alloc::Global;
use std::test::Fail;

/// Whether a row is right: a model, its parameters, a solution text, and what is said of them in the relational and in
/// the strict mode. Where the last part is missing, the same is said in both.
pub(crate) fn is_right(alloc: Global, row: &str) -> Result<bool, Fail> {
    let (model, rest) = cut(row);
    let (params, rest) = cut(rest);
    let (solution, rest) = cut(rest);
    let (relational, strict) = cut(rest);
    let one = said(alloc, Mode::Relational, model, params, solution)?;
    if one.as_str() != relational {
        return Ok(false);
    }
    let other = said(alloc, Mode::Strict, model, params, solution)?;
    let wanted = if strict.is_empty() {
        relational
    } else {
        strict
    };
    Ok(other.as_str() == wanted)
}

/// Texts that are bound or refused.
pub(crate) const BOUND: &str = "$ Parameters
given n : int(1..9) where n % 2 = 0 find x : int(1..n) minimising n#letting n be 3##F11 1
given n : int(1..9) where n % 2 = 0 find x : int(1..n) minimising n#letting n be 10##F9 n
given n : int(1..9) where n % 2 = 0 find x : int(1..n) minimising n###F8 n
given n : int(1..9) where n % 2 = 0 find x : int(1..n) minimising n#letting n be domain int(1..2)##F8 n
given n : int(1..9) where n % 2 = 0 find x : int(1..n) minimising n#letting k be 3 letting n be k+1#letting x be 4#solution 4
given a : int(1..2), b : int(1..a) minimising b#letting b be 2 letting a be 2##solution 2
given a : int(1..2), b : int(1..a)#letting b be 2 letting a be 1##F9 b
given a, b : int(1..2), c : int(1..b)#letting a be 3 letting b be 4 letting c be 2##F9 a
given a, b : int(1..2), c : int(1..b)#letting a be 2 letting b be 4 letting c be 2##F9 b
given a, b : int(1..2)#letting a be 3##F8 b
given a : int(1..1/0)###F10 model 2:1
given a : int(1..2), b : int(1..1/0)###F8 a
given a : int(1..2), b : int(1..1/0)#letting a be 1##F10 model 2:1
given b : bool#letting b be 1##F9 b
given n : int(0..1) minimising n#letting n be true##solution 1
given n : int(2..), k : int minimising n + k#letting n be 200 letting k be -5##solution 195
given n : int(2..)#letting n be 1##F9 n
given m : matrix indexed by [int(5..6)] of int(0..9) minimising m[6]#letting m be [7, 8]##solution 8
given m : matrix indexed by [int(5..7)] of int(0..9)#letting m be [7, 8]##F9 m
$ Lettings
letting a be 2**40 minimising a###solution 1099511627776
letting a be 2**41###L5
letting a be 0 - 2**40 minimising a###solution -1099511627776
letting a be 0 - 2**40 - 1###L5
letting m be [5, 6; int(1..3)]###F10 model 2:1
letting n be 1/0###F10 model 2:1
letting c : bool = 3###F9 c
letting c : int(1..2) = 3 letting d be 1/0###F9 c
letting d be 1/0 letting c : int(1..2) = 3###F10 model 2:1
find x : int(1..3) find y, z : int(1..2), w : int(1..1/0)###F10 model 2:20
#letting n be 1/0##F10 params 1:1
#letting n be 2**41##L5
$ Conditions
where 1 = 1, 1 = 2, 1 = 3###F11 2
where 1 = 1 where 1 = 1, 2 = 2 where 1 = 2, 1 = 3###F11 4
where 1 = 2, 2**41 > 0###L5
where forAll i : int(1..2) . i < 3###solution
$ The two modes
where true \\/ (1/0 = 1)###solution#F11 1
where !(1/0 = 1)###solution#F11 1
where 1 = 2, 1/0 = 1###F11 1
letting b be 1/0 = 1###solution#F10 model 2:1
letting b be [true, false][3]###solution#F10 model 2:1
letting m be [i | i : int(1..3), 1/(i - 1) > 0] minimising sum(m)###solution 2#F10 model 2:1
given n : int(1..2)#letting n be toInt(1/0 = 1)##F9 n#F10 params 1:1";

/// Solution texts.
pub(crate) const JUDGED: &str = "$ Clauses and objectives
find x : int(0..0) such that !(10/x > 2)##letting x be 0#solution#violated 1
find m : matrix indexed by [int(1..2)] of bool find i : int(3..3) such that !m[1], !m[2], toInt(m[i]) = 0##letting m be [false, false] letting i be 3#solution#violated 3
find m : matrix indexed by [int(1..2)] of bool find i : int(3..3) such that !m[1], !m[2], toInt(m[i]) = 0##letting m be [false, true] letting i be 3#violated 2
find y, z, w : int(-10..10) such that y = (-3) % 5, z = 3 % (-5), w = (-7) / 2##letting y be 2 letting z be -2 letting w be -4#solution
find y, z, w : int(-10..10) such that y = (-3) % 5, z = 3 % (-5), w = (-7) / 2##letting y be -3 letting z be -2 letting w be -4#violated 1
find y, z, w : int(-10..10) such that y = (-3) % 5, z = 3 % (-5), w = (-7) / 2##letting y be 2 letting z be 3 letting w be -3#violated 2
find y, z, w : int(-10..10) such that y = (-3) % 5, z = 3 % (-5), w = (-7) / 2##letting y be 2 letting z be -2 letting w be -3#violated 3
find x, y, z : int(1..2) find c : int(0..3) such that gcc([x,y,z], [1,2], [c,c])##letting x be 1 letting y be 2 letting z be 1 letting c be 1#violated 1
find x, y, z : int(1..2) find c : int(0..3) such that gcc([x,y,z], [1,2], [c,c])##letting x be 1 letting y be 1 letting z be 1 letting c be 3#violated 1
find x : int(0..2) such that (x = 0) \\/ (10 / x >= 10)##letting x be 0#solution#violated 1
find x : int(0..2) such that (x = 0) \\/ (10 / x >= 10)##letting x be 1#solution
find x : int(0..2) such that (x = 0) \\/ (10 / x >= 10)##letting x be 2#violated 1
find x : int(1..2) such that forAll i : int(1..0) . 1/0 = x##letting x be 1#solution
find x : int(1..2) such that table([x], [[1] | i : int(1..0)])##letting x be 2#violated 1
find x : int(1..2) such that table([x], [[2], [2]])##letting x be 2#solution
such that allDiff([i | i : int(1..0)])###solution
find m : matrix indexed by [int(1..0)] of bool##letting m be [; int(1..0)]#solution
find m : matrix indexed by [int(1..0)] of bool##letting m be []#solution
letting D be domain int(1..3) find x : D such that forAll i : D . x >= i##letting x be 3#solution
letting D be domain int(1..3) find x : D such that forAll i : D . x >= i##letting x be 2#violated 1
find x : int(0..3) minimising 6 / x##letting x be 0#objective undefined
find x : int(0..3) minimising 6 / x##letting x be 2#solution 3
find x : int(0..3) minimising 6 / x such that x != 0##letting x be 0#violated 1
$ Texts that don't fit
find x, y : int(1..2)##letting x be 1#wrong shape y
find x, y : int(1..2)##letting x be 1 letting y be 3#wrong shape y
find x, y : int(1..2)##letting x be 3 letting y be 3#wrong shape x
find x, y : int(1..2)##letting x be 1 letting y be 2 letting z be 3#wrong shape z
find x : int(1..2)##letting x be domain int(1..2)#wrong shape x
find x : bool##letting x be 1#wrong shape x
find x : int(0..1) minimising x##letting x be true#solution 1
find m : matrix indexed by [int(1..2)] of int(1..2)##letting m be [1, 2, 1]#wrong shape m
find m : matrix indexed by [int(3..4)] of int(1..2) minimising m[4]##letting m be [1, 2]#solution 2
find x : int(0..3)##letting x be 1/0#F10 solution 1:1
find x : int(0..3)##letting x : int(2..3) = 1#F9 x
find x : int(0..3)##letting x be 2**41#L5
find x : bool##letting x be 1/0 = 1#solution#F10 solution 1:1
$ Sums and letters
find S, E, N, D, M, O, R, Y : int(0..9) such that 1000*S + 100*E + 10*N + D + 1000*M + 100*O + 10*R + E = 10000*M + 1000*O + 100*N + 10*E + Y, S != 0, M != 0, allDiff([S, E, N, D, M, O, R, Y])##letting S be 9 letting E be 5 letting N be 6 letting D be 7 letting M be 1 letting O be 0 letting R be 8 letting Y be 2#solution
find S, E, N, D, M, O, R, Y : int(0..9) such that 1000*S + 100*E + 10*N + D + 1000*M + 100*O + 10*R + E = 10000*M + 1000*O + 100*N + 10*E + Y, S != 0, M != 0, allDiff([S, E, N, D, M, O, R, Y])##letting S be 9 letting E be 5 letting N be 6 letting D be 7 letting M be 1 letting O be 0 letting R be 8 letting Y be 3#violated 1
find S, E, N, D, M, O, R, Y : int(0..9) such that 1000*S + 100*E + 10*N + D + 1000*M + 100*O + 10*R + E = 10000*M + 1000*O + 100*N + 10*E + Y, S != 0, M != 0, allDiff([S, E, N, D, M, O, R, Y])##letting S be 9 letting E be 5 letting N be 6 letting D be 7 letting M be 1 letting O be 0 letting R be 8#wrong shape Y";
