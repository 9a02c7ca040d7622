//! What expressions are worth, where what is undefined makes the nearest Boolean expression false.

use crate::texts::{cut, limit_word, model_of, params_of, refusal};
use ep_eval::{EvalError, Seen, evaluate};
use ep_instance::{Instance, bind};
use ep_tree::{Mode, Value};
use std::alloc::Global;
use std::test::Fail;

/// What the objective of an instance is worth: a number, or `none`.
fn objective_value(alloc: Global, instance: &Instance) -> Result<String, Fail> {
    let Some(objective) = instance.objective() else {
        return Ok(String::from_str(alloc, "no objective")?);
    };
    match evaluate(alloc, instance.env(), &objective.e) {
        Ok(Seen::Value(Value::Number(number))) => Ok(format!(in alloc; "{number}")?),
        Ok(Seen::Value(Value::Matrix(_, _))) => Ok(String::from_str(alloc, "a matrix")?),
        Ok(Seen::Undefined) => Ok(String::from_str(alloc, "none")?),
        Err(EvalError::Limit(limit)) => Ok(String::from_str(alloc, limit_word(limit))?),
        Err(EvalError::Memory) => Ok(String::from_str(alloc, "memory")?),
    }
}

/// What names stand for in a row: a number, lists of numbers and of Booleans, and a square.
const KNOWN: &str = "letting i be 5 letting m be [10, 20, 30] letting w be [false, true] \
letting M be [[1, 2], [3, 4]] minimising ";

/// What an expression is worth.
fn worth(alloc: Global, e: &str) -> Result<String, Fail> {
    let model = model_of(alloc, KNOWN, e)?;
    let params = params_of(alloc, "")?;
    match bind(alloc, model, params, Mode::Relational) {
        Ok(instance) => objective_value(alloc, &instance),
        Err(refused) => refusal(alloc, &refused),
    }
}

/// Whether a row is right: an expression, and what it is worth.
pub(crate) fn is_right(alloc: Global, row: &str) -> Result<bool, Fail> {
    let (e, wanted) = cut(row);
    Ok(worth(alloc, e)?.as_str() == wanted)
}

/// Expressions and what they are worth.
pub(crate) const VALUES: &str = "[1] >=lex [1]#1
[1,2] <=lex [1]#0
[1] >lex [1]#0
[1] <lex [1/0]#0
3 != 2#1
2 != 3#1
false -> true#1
false <-> false#1
and([true,true])#1
max([9,2])#9
-(1/0)#none
|1/0|#none
factorial(1/0)#none
sum(flatten([1/0]))#none
2 * (1/0)#none
(1/0) * 2#none
min(1, 1/0)#none
1 < 1/0#0
1/0 < 1#0
1/0 in int(0..9)#0
1/0 in toSet([0,1])#0
1 in toSet([1/0,1])#0
1 in toSet([[0],[2,1]])#1
true /\\ true /\\ false#0
true \\/ false#1
exists j : int(1..2) . j = 3#0
exists j, k : int(1..2) . j + k = 4#1
sum j : int(0..2) . 6/j#none
[6/j | j : int(0..2), j > 0][1]#6
[6/j | j : int(0..2), j > 0][2]#3
sum([6/j | j : int(0..2), j > 0])#9
[j | j : int(1..4), j > 1, j < 4][1]#2
[j | j : int(1..4), j > 1, j < 4][2]#3
sum([j | j : int(1..4), j > 1, j < 4])#5
[j | j : int(1..4), j < 4, j > 1][1]#2
[j | j : int(1..4), j < 4, j > 1][2]#3
sum([j | j : int(1..4), j < 4, j > 1])#5
sum([j | j : int(1..2); int(1..3)])#none
sum([j | j : int(1..2); int(1..1/0)])#none
[i | i : int(1..2); int(i..i+1)][5]#1
[i | i : int(1..2); int(i..i+1)][6]#2
sum([i | i : int(1..2); int(i..i+1)])#3
sum([4,5; int(1)])#none
[true; int(1..2)][1]#0
[true,false][1/0]#0
or([[true],[false]][3,..])#0
or([[true],[false]][..,2])#0
sum(M[3,..])#none
sum(M[1/0,..])#none
forAll b : bool . [b][2]#0
and([[b][2] | b : bool])#0
![true; int(1..2)][1]#1
gcc([1/0],[1],[0])#0
gcc([1],[1/0],[0])#0
gcc([1],[1],[1/0])#0
gcc([1,1],[1,1],[2,2])#1
gcc([1],[],[])#1
atmost([1,1,2],[2,1],[1,2])#1
atmost([1,1,2],[1],[2])#1
table([1/0],[[1]])#0
table([1],[[1],[1/0]])#0
1 in int(1/0..3)#0
2 in int(1..2) - int(2..3)#0
3 in int(1..2) - int(2..3)#0
1 in (int(1/0) union int(1))#0
sum j : int(0..1) . (sum k : int(1..1/j) . 1)#none
[1][1] + [[1],[2]][1][1]#2
(1/0) + 1#none
1 % (1/0)#none
2 ** (1/0)#none
[1,1/0][2] = 1#0
!(1/0 < 1)#1
!(1 < 1/0)#1
[4; int(1..2)][1]#none
M[1,..][2]#2
m[1/0]#none
!(1/0 in int(0..9))#1";
