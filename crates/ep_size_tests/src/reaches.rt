//! How great expressions over some decision variables are: their sizes and weights, and the numbers that they reach.
//!
//! Reaches are found by the limit of numbers: with as much added as brings the greatest number to the limit, an
//! expression is measured, and with one more it isn't. How many values an expression has to the weights is what a minus
//! before it weighs.

use crate::texts::{cut, measures};
use ep_tree::Mode;
use std::alloc::Global;
use std::test::Fail;

/// Decision variables, of which there are sixteen cells with 45 values together, a domain and a number.
const DECLARED: &str = "letting D be domain int(1..3) letting k be 3 \
find x : int(0..9) find y : int(-3..2) find z : int(2..4) find s : int(1, 5) find b : bool find e : int(1..0) \
find v : matrix indexed by [int(1..2)] of int(1..3) find g : matrix indexed by [int(1..2)] of int(1, 5) \
find w : matrix indexed by [int(1..2)] of bool find Q : matrix indexed by [int(1..2), int(1..2)] of int(1..2) \
minimising ";

/// The size and the weight of an expression, without the cells, or why it has none.
fn own_measures(alloc: Global, e: &str) -> Result<Result<(u64, u64), String>, Fail> {
    match measures(alloc, Mode::Relational, DECLARED, e, "")? {
        Ok((size, weight)) => Ok(Ok((size.saturating_sub(16), weight.saturating_sub(45)))),
        Err(refused) => Ok(Err(refused)),
    }
}

/// Whether a row is right: an expression, and its size or its weight.
pub(crate) fn has_measure(alloc: Global, row: &str) -> Result<bool, Fail> {
    let (e, wanted) = cut(row);
    match own_measures(alloc, e)? {
        Ok((size, weight)) => {
            let one = format!(in alloc; "size {size}")?;
            let other = format!(in alloc; "weight {weight}")?;
            Ok(one.as_str() == wanted || other.as_str() == wanted)
        }
        Err(_) => Ok(false),
    }
}

/// Expressions, and their sizes or their weights.
pub(crate) const MEASURES: &str = "toInt(b)#size 2
factorial(3)#size 2
|x|#size 2
sum(v)#size 2
atleast(v,[1],[2])#size 6
table([x],[[1]])#size 6
v <lex v#size 3
allDiff([i | i : int(1..2); int(1..2)])#size 9
allDiff([i | i : int(1..2), i > 1, i < 1])#size 17
allDiff([i | i : int(1..1/0)])#size 7
allDiff([j | i : int(0..1), j : int(1..1/i)])#size 16
x in (D)#size 2
x in int(1..2) union int(3..4)#size 6
product([s,s,s])#weight 60
product([1/0,2,x])#weight 11
max([y,x,z])#weight 90
min([x,y,z])#weight 78
atleast(v,[1,1],[2])#weight 14
atmost(v,[1,1],[2])#weight 14
sum i : D . s#weight 78
sum i, j : int(1..2) . s#weight 378
|s|#weight 2
s = s#weight 10
[s] <lex [s]#weight 10
s in D#weight 5
s in toSet([s])#weight 10
g[z]#weight 16
allDiff(g)#weight 20
table([s],[[1]])#weight 6
table([s,x],[[1,2],[3,4]])#weight 19
gcc(g,[1],[x])#weight 26
exists i : D . b#weight 4
b \\/ b \\/ b#weight 4
or(w)#weight 3
max(v)#weight 9
forAll i : int(1..0) . x = 1#weight 1
(w[1]) * s#weight 4
w[1] * x#weight 20
max([s,y,y])#weight 60
x in toSet([[y],[1; int(1..2)]])#weight 16
sum(Q[1,..])#weight 12
exists i, j : int(1..2) . b#weight 9";

/// Whether an expression is measured, and not so the one where one more is added.
fn is_at_limit(alloc: Global, e: &str, more: &str) -> Result<bool, Fail> {
    let farther = format!(in alloc; "{e} {more} 1")?;
    let one = own_measures(alloc, e)?;
    let other = own_measures(alloc, farther.as_str())?;
    match other {
        Ok(_) => Ok(false),
        Err(refused) => Ok(one.is_ok() && refused.as_str() == "L5"),
    }
}

/// What a minus before an expression weighs.
fn minus_weight(alloc: Global, e: &str) -> Result<u64, Fail> {
    let negated = format!(in alloc; "-({e})")?;
    let one = own_measures(alloc, e)?;
    let other = own_measures(alloc, negated.as_str())?;
    match one {
        Ok((_, weight)) => match other {
            Ok((_, with_minus)) => Ok(with_minus.saturating_sub(weight)),
            Err(_) => Ok(0),
        },
        Err(_) => Ok(0),
    }
}

/// Whether a row is right: an expression, the least and the greatest number that it reaches, and what a minus before it
/// weighs.
pub(crate) fn has_reach(alloc: Global, row: &str) -> Result<bool, Fail> {
    let (e, rest) = cut(row);
    let (least, rest) = cut(rest);
    let (greatest, wanted) = cut(rest);
    let highest = format!(in alloc; "({e}) + 2**40 - ({greatest})")?;
    let lowest = format!(in alloc; "({e}) - 2**40 - ({least})")?;
    let weight = minus_weight(alloc, e)?;
    let spread = format!(in alloc; "{weight}")?;
    Ok(
        is_at_limit(alloc, highest.as_str(), "+")?
            && is_at_limit(alloc, lowest.as_str(), "-")?
            && spread.as_str() == wanted,
    )
}

/// Expressions, and what they reach.
pub(crate) const REACHES: &str = "x % 1#0#0#1
x % e#0#0#1
y % e#0#0#1
e % x#0#8#9
x ** (1/0)#0#0#1
g[1/0]#0#0#1
sum(Q[1,..])#2#4#3
sum(Q[..,1])#2#4#3
sum(Q[3,..])#0#0#1
[s; int(1..1)][1]#1#5#5
[s][1]#1#5#5
(g)[1]#1#5#5
Q[..,2][1]#1#2#2
([[x,y; int(7,8)],[z,s; int(7,8)]][..,8])[2]#1#5#5
([[x,y],[z,s]; int(7,8)][..,1])[8]#2#4#3
sum([x, [1; int(1..2)][1]])#0#9#10
sum(flatten([[x],[1; int(1..2)]]))#0#9#10
[x,1; int(0..5)][1]#0#9#10
[x,1; int(1..1/0)][1]#0#9#10
forAll x : int(1..2) . x = 1#0#0#0
1 in toSet(v)#0#1#2
gcc([1],[1],[x])#0#1#2
sum([x | i : int(1..3), i < 3])#0#18#19
sum([x | i : int(0..1), j : int(1..1/i)])#0#9#10
flatten(Q)[1]#1#2#2
sum i : int(1..1/0) . x#0#0#1
w[1]#0#1#2
[x, 1/0][s]#0#9#10
[[1/0],v][1,1]#0#0#1
[[1/0],v][z,1]#1#3#3
[[v,v][3,..],v][1,1]#0#0#1
[[v,v][3,..],v][z,1]#1#3#3
sum([[v,v][3,..],v][2,..])#2#6#5";
