//! Runs over texts: the answers, each refusal with its line, and judgements. With ample memory none of them ends for want of it.
//!
//! A table has a row a line: a model below its first line, what goes with it, and what is put out, below the
//! first line of an answer, with `#` between them. An `@` ends a line of the texts.

use crate::calls::{
    FIRST_LINE, Texts, difference, joined, said_of, text_of, wrong_behind, wrong_row, wrong_rows,
};
use std::alloc::{AllocError, Global};
use std::test::Fail;
use std::thread::Threads;

const SOLVE: &str = "--in-eprime m --in-param p";

const SOLVE_IN: &str = "--in-eprime m --in-param p --undefined=";

const VERIFY: &str = "--task verify --in-eprime=m --in-solution s";

const VERIFY_IN: &str = "--task verify --in-eprime=m --in-solution s --undefined=";

const LIST_IN: &str = "--task enumerate --in-eprime m --solutions all --undefined=";

const LIST: &str = "--task enumerate --in-eprime=m --solutions ";

const ANSWERS: &str = "\
##$ solution@
such that true, 1 < 2##$ solution@
such that 1 > 2##$ no solution@
minimising 7##$ optimum 7@
maximising 1 / 0##$ no solution@
find x : int(1..0)##$ no solution@
find x : int(1..0) such that false##$ no solution@
find m : matrix indexed by [int(1..0)] of bool##$ solution@letting m be [; int(1..0)]@
find m : matrix indexed by [int(1..0)] of int(1..0) maximising sum(m)##$ optimum 0@letting m be [; int(1..0)]@
find m : matrix indexed by [int(1..0)] of int(1..1000000000) find x : int(1..0)##$ no solution@
find x : int(1..3) find m : matrix indexed by [int(1..0)] of bool find b : bool minimising x * 2 such that !b##$ optimum 2@letting x be 1@letting m be [; int(1..0)]@letting b be false@
find x : int(1..3) such that x > 2##$ solution@letting x be 3@
find x, y : int(0..3) such that x + y = 6, x - y = 0##$ solution@letting x be 3@letting y be 3@
find x : int(1..3) minimising 5 such that x > 2##$ optimum 5@letting x be 3@
find x : int(0..3) minimising 6 / x##$ optimum 2@letting x be 3@
find x : int(0..0) minimising 6 / x##$ no solution@
find x : int(0..3) maximising 6 / x##$ optimum 6@letting x be 1@
find x : int(0..0) such that !(10/x > 2)##$ solution@letting x be 0@
find m : matrix indexed by [int(1..2)] of bool find i : int(3..3) such that !m[1], !m[2], toInt(m[i]) = 0##$ solution@letting m be [false, false; int(1..2)]@letting i be 3@
find y, z, w : int(-10..10) such that y = (-3) % 5, z = 3 % (-5), w = (-7) / 2##$ solution@letting y be 2@letting z be -2@letting w be -4@
given n, cap : int(1..) given w, v : matrix indexed by [int(1..n)] of int(0..) find take : matrix indexed by [int(1..n)] of bool maximising sum i : int(1..n) . take[i] * v[i] such that (sum i : int(1..n) . take[i] * w[i]) <= cap#letting n be 3 letting cap be 7 letting w be [3, 4, 5] letting v be [4, 5, 6]#$ optimum 9@letting take be [true, true, false; int(1..3)]@
find x, y, z : int(1..2) find c : int(0..3) such that gcc([x,y,z], [1,2], [c,c])##$ no solution@
find x : int(1..2) such that table([x], [[2], [2]])##$ solution@letting x be 2@
letting D be domain int(1..3) find x : D such that forAll i : D . x >= i##$ solution@letting x be 3@
given a : int(1..9), b, c : int(1..a) where a = 3, b = c#letting a be 3 letting b be 2 letting c be 2#$ solution@
letting a be 2**40##$ solution@
given n : int(1..9) where n % 2 = 0 find x : int(n..n)#letting k be 3 letting n be k+1#$ solution@letting x be 4@
find x : matrix indexed by [int(1..2)] of int(0..3) such that sum([x[i] * i | i : int(1..3), i < 3]) = 9, allDiff([x[i] - i | i : int(1..2)])##$ solution@letting x be [3, 3; int(1..2)]@
find x, y : int(0..3) such that [x, y, 3][x] = 2, x ** 2 = 4##$ solution@letting x be 2@letting y be 2@
letting m be [7] find x : int(1..2) such that forAll i : int(1..2) . x = i \\/ x + m[i] > 0##$ solution@letting x be 2@
find m : matrix indexed by [int(1..2), int(1..1), int(1..2)] of bool such that and(flatten(m[.., 1, ..]))##$ solution@letting m be [[[true, true; int(1..2)]; int(1)], [[true, true; int(1..2)]; int(1)]; int(1..2)]@
find x : matrix indexed by [int(1..7)] of int(1..8) such that (sum i : int(1..7) . x[i]) = 56##$ solution@letting x be [8, 8, 8, 8, 8, 8, 8; int(1..7)]@
find S, E, N, D, M, O, R, Y : int(0..9)@such that 1000*S + 100*E + 10*N + D + 1000*M + 100*O + 10*R + E = 10000*M + 1000*O + 100*N + 10*E + Y,@S != 0, M != 0, allDiff([S, E, N, D, M, O, R, Y])##$ solution@letting S be 9@letting E be 5@letting N be 6@letting D be 7@letting M be 1@letting O be 0@letting R be 8@letting Y be 2@
given n, cap : int(1..)@given w, v : matrix indexed by [int(1..n)] of int(0..)@find take : matrix indexed by [int(1..n)] of bool@maximising sum([take[i] * v[i] | i : int(1..n)])@such that sum([take[i] * w[i] | i : int(1..n)]) <= cap#letting n be 3 letting cap be 7 letting w be [3, 4, 5] letting v be [4, 5, 6]#$ optimum 9@letting take be [true, true, false; int(1..3)]@
find a, b, c, d : int(1..3)@such that allDiff([a, b, c, d])##$ no solution@
find x : int(1..2)@such that table([x], [ [1] | i : int(1..0) ])##$ no solution@
such that allDiff([ i | i : int(1..0) ])##$ solution@
find b : bool@maximising b@such that !b##$ optimum 0@letting b be false@
find x, y : int(-3..3)@such that |x| = 3, x * y = 6, min([x, y]) = -3##$ solution@letting x be -3@letting y be -2@
find x, y : int(0..9)@such that x ** 2 = 49, x % y = 3, max([x, y]) = 7##$ solution@letting x be 7@letting y be 4@
find m : matrix indexed by [int(1..2)] of int(0..2)@such that [1, 2] <=lex m, m <=lex [1, 2]##$ solution@letting m be [1, 2; int(1..2)]@
find m : matrix indexed by [int(1..3)] of int(0..2)@such that atleast(m, [2], [1]), atmost(m, [2, 0], [1, 2]), m[1] > m[2]##$ solution@letting m be [1, 0, 1; int(1..3)]@
find m : matrix indexed by [int(1..3)] of int(0..5)@find x : int(0..9)@find b : bool@such that x in int(2, 5..6), b <-> x > 4, m[x] = 5, m[1] + m[3] = 0##$ solution@letting m be [0, 5, 0; int(1..3)]@letting x be 2@letting b be false@
find x : matrix indexed by [int(1..60)] of bool@such that sum([x[i] * 10000 | i : int(1..60)]) = 600000##$ solution@letting x be [true, true, true, true, true, true, true, true, true, true, true, true, true, true, true, true, true, true, true, true, true, true, true, true, true, true, true, true, true, true, true, true, true, true, true, true, true, true, true, true, true, true, true, true, true, true, true, true, true, true, true, true, true, true, true, true, true, true, true, true; int(1..60)]@
find x : matrix indexed by [int(1..60)] of bool@such that sum([x[i] * 10000 | i : int(1..60)]) = 600001##$ no solution@
such that forAll i : int(1..4999997) . true##$ solution@
find m : matrix indexed by [int(1..1)] of int(0..2)@such that [[1/0], m][1, 1] = 1##$ no solution@
find m : matrix indexed by [int(1..1)] of int(0..2)@such that [[1/0], m][2, 1] = 1##$ no solution@
find m : matrix indexed by [int(1..1)] of int(0..0)@such that !([[1/0], m][1, 1] = 1)##$ solution@letting m be [0; int(1)]@
find m : matrix indexed by [int(1..1)] of int(0..0)@such that !(sum([m, [1]; int(1..3)][1, ..]) = 0)##$ solution@letting m be [0; int(1)]@
find b : bool@find x : int(1..2)@such that [[b, true], [(1/0 = 1)]][x, 1], x = 1##$ solution@letting b be true@letting x be 1@
find p : matrix indexed by [int(1..1)] of bool@such that and([[p, p][3, ..], p][1, ..])##$ no solution@
find p : matrix indexed by [int(1..1)] of bool@such that and([[p, p][3, ..], p][2, ..])##$ no solution@
find x : int(0..1)@such that x ** 129 = 1##$ solution@letting x be 1@
find x : int(-1..1)@such that x ** 1000000001 = -1##$ solution@letting x be -1@
find x, y : int(0, 10000)@maximising x * y##$ optimum 100000000@letting x be 10000@letting y be 10000@
find x : int(0, 1000000)@maximising 3 * x##$ optimum 3000000@letting x be 1000000@
find x : int(1..2)@minimising x * 100000000000##$ optimum 100000000000@letting x be 1@
find x : int(-1000000000, 999999999)@maximising |x|##$ optimum 1000000000@letting x be -1000000000@
find x : int(0, 1000000)@maximising x ** 2##$ optimum 1000000000000@letting x be 1000000@
find x, y : int(1, 1000000000)@maximising x / y##$ optimum 1000000000@letting x be 1000000000@letting y be 1@
find x, y : int(2, 1000000000)@maximising x % y##$ optimum 2@letting x be 2@letting y be 1000000000@
find x, y : int(1, 1000000000)@minimising max(x, y)##$ optimum 1@letting x be 1@letting y be 1@
find x : int(-1099511627776, 1099511627775)@such that (-x) % 2 = 1##$ solution@letting x be 1099511627775@
find x, y, z, w : int(2147483648)@such that 2147483648 * (x + z - y - w) = 0##$ solution@letting x be 2147483648@letting y be 2147483648@letting z be 2147483648@letting w be 2147483648@
find x, y : int(2147483648)@such that 2147483648 * (x - 2147483647) + 2147483648 * (y - 2147483647) = 4294967296##$ solution@letting x be 2147483648@letting y be 2147483648@
find x : int(0, 1000000)@such that (1000000 * x) % 7 = 1##$ solution@letting x be 1000000@
such that true $ \u{e9}##$ solution@";

#[test]
fn models_have_their_answers(rt: HostRuntime) -> Result<(), Fail> {
    let wrong = wrong_rows(&rt, SOLVE, FIRST_LINE, ANSWERS)?;
    assert_eq!(rt; wrong.as_str(), "");
    Ok(())
}

/// Four pigeons of which each sits in one of three holes, and no two in one.
const PIGEONS: &str = "\
find p : matrix indexed by [int(1..4), int(1..3)] of bool@such that forAll i : int(1..4) . exists j : int(1..3) . p[i,j],@\
forAll j : int(1..3) . forAll a,b : int(1..4) . (a < b) -> !(p[a,j] /\\ p[b,j])##";

/// More words, and what is put out.
const BUDGETS: &str = "\
--in-eprime m --in-param p#$ no solution@
--in-eprime m --conflicts 1#$ unknown 1 conflicts@
--in-eprime m --conflicts=01#$ unknown 1 conflicts@
--task enumerate --in-eprime m --solutions 10#$ no solution@
--task enumerate --in-eprime m --solutions 10 --conflicts 1#$ unknown 1 conflicts@";

#[test]
fn a_budget_is_spent_or_serves(rt: HostRuntime) -> Result<(), Fail> {
    let wrong = wrong_words(&rt, PIGEONS, FIRST_LINE, BUDGETS)?;
    assert_eq!(rt; wrong.as_str(), "");
    Ok(())
}

/// The first row of a table, which has words and what is put out, that is wrong over the texts of a row, with what is put out.
fn wrong_words<R: Threads + Sync + AllocGlobal>(
    rt: &R,
    texts: &str,
    first_line: &str,
    table: &str,
) -> Result<String, Fail> {
    for line in table.lines() {
        let (words, want) = line.split_once('#').unwrap_or((line, ""));
        let row = joined(rt.alloc(), texts, want)?;
        let wrong = wrong_row(rt, words, first_line, row.as_str())?;
        if !wrong.is_empty() {
            return Ok(wrong);
        }
    }
    Ok(String::new(rt.alloc()))
}

const REFUSED: &str = "\
such that 1 < 2 < 3##fault F2 model 2:17@
given n : int(1..9) where n % 2 = 0#letting n be 3#fault F11 1@
given n : int(1..9) where n % 2 = 0#letting n be 10#fault F9 n@
given n : int(1..9) where n % 2 = 0##fault F8 n@
given n : int(1..9) where n % 2 = 0#letting n be 4 letting#fault F2 params 1:23@
given n : int(1..9) where n % 2 = 0#letting n be true#fault F11 1@
given n : int(1..9) where n % 2 = 0#letting n be 1 + true + [1]#fault F5 params 1:14@
given n : int(1..9) where n % 2 = 0#letting n be 1/0#fault F10 params 1:1@
given a : int(1..9), b, c : int(1..a)#letting a be 3 letting b be 2 letting c be 4#fault F9 c@
given a : int(1..9), b, c : int(1..a)#letting a be 3 letting b be 5 letting c be 4#fault F9 b@
given a : int(1..9), b, c : int(1..a)#letting a be 3 letting b be 5#fault F8 c@
given a, b, c : int(1..9) where a = 3, b = c#letting a be 4 letting b be 1 letting c be 2#fault F11 1@
given a, b, c : int(1..9) where a = 3, b = c#letting a be 3 letting b be 1 letting c be 2#fault F11 2@
given a : int(1..9), b : int(1..1/0)#letting a be 1#fault F10 model 2:1@
find x : int(1..3)@such that x +##fault F2 model 3:14@
letting n be 1234567890123456789##limit L2 model 2:14@
such that y = 1##fault F3 model 2:11 y@
find x : bool@find x : bool##fault F4 model 3:6 x@
find x : matrix indexed by [int(1..2)] of int(0..9)@such that sum i : int(1..2) . x[i] = 5##fault F5 model 3:11@
find x : int(1..3)@find y : int(1..x)##fault F6 model 3:17@
find x : int##fault F7 model 2:10@
letting n be 1/0##fault F10 model 2:1@
letting m be [5, 6; int(1..3)]##fault F10 model 2:1@
letting a be 2**41##limit L5@
find m : matrix indexed by [int(1..5000001)] of bool##limit L4@
such that forAll i : int(1..4999998) . true##limit L4@
such that forAll i,j,k : int(1..2000) . true##limit L4@
find x : int(0..16384) such that x * x * x = 8##limit L5@
find x, y : int(0..9999) such that x*y = 6##limit L6@
find x : int(0..16385) such that x ** 3 = 8##limit L5@
find x : matrix indexed by [int(1..2)] of int(0..9999) such that product([x[i] | i : int(1..2)]) = 6##limit L6@
given n : int(1..9)@where n % 2 = 0@find x : int(1..n)#letting n be 3#fault F11 1@
given n : int(1..9)@where n % 2 = 0@find x : int(1..n)#letting n be 10#fault F9 n@
find x : int(0..16384)@such that x**3 = 8##limit L5@
\u{e9}##fault F1 model 2:1@";

#[test]
fn faults_and_limits_have_their_lines(rt: HostRuntime) -> Result<(), Fail> {
    let wrong = wrong_rows(&rt, SOLVE, "", REFUSED)?;
    assert_eq!(rt; wrong.as_str(), "");
    Ok(())
}

const JUDGED: &str = "\
find x, y : int(1..9) such that x < y, x + y = 5#letting y be 4 letting x be 1#$ solution@
find x, y : int(1..9) such that x < y, x + y = 5#letting x be 1 letting y be 3#$ violated 2@
find x, y : int(1..9) such that x < y, x + y = 5#letting x be 1#$ wrong shape y@
find x, y : int(1..9) such that x < y, x + y = 5#letting x be 1 letting y be 4 letting z be 2#$ wrong shape z@
find x : int(0..3) minimising 6 / x#letting x be 0#$ objective undefined@
find x : int(0..3) minimising 6 / x#letting x be 2#$ solution objective 3@
find x : int(0..3)#letting x be 1/0#fault F10 solution 1:1@
find x : int(0..3)#letting x : int(2..3) = 1#fault F9 x@
find S, E, N, D, M, O, R, Y : int(0..9)@such that 1000*S + 100*E + 10*N + D + 1000*M + 100*O + 10*R + E = 10000*M + 1000*O + 100*N + 10*E + Y,@S != 0, M != 0, allDiff([S, E, N, D, M, O, R, Y])#letting S be 9 letting E be 5 letting N be 6 letting D be 7 letting M be 1 letting O be 0 letting R be 8 letting Y be 2#$ solution@
find S, E, N, D, M, O, R, Y : int(0..9)@such that 1000*S + 100*E + 10*N + D + 1000*M + 100*O + 10*R + E = 10000*M + 1000*O + 100*N + 10*E + Y,@S != 0, M != 0, allDiff([S, E, N, D, M, O, R, Y])#letting S be 9 letting E be 5 letting N be 6 letting D be 7 letting M be 1 letting O be 0 letting R be 8 letting Y be 3#$ violated 1@
find S, E, N, D, M, O, R, Y : int(0..9)@such that 1000*S + 100*E + 10*N + D + 1000*M + 100*O + 10*R + E = 10000*M + 1000*O + 100*N + 10*E + Y,@S != 0, M != 0, allDiff([S, E, N, D, M, O, R, Y])#letting S be 9 letting E be 5 letting N be 6 letting D be 7 letting M be 1 letting O be 0 letting R be 8#$ wrong shape Y@
find x : int(0..3)@such that y#letting z be y#fault F3 model 3:11 y@";

#[test]
fn solution_texts_are_judged(rt: HostRuntime) -> Result<(), Fail> {
    let wrong = wrong_rows(&rt, VERIFY, "", JUDGED)?;
    assert_eq!(rt; wrong.as_str(), "");
    Ok(())
}

/// Rows behind the number of solutions that are wanted.
const LISTED: &str = "\
all#find x : int(1..3) such that x > 2##$ solution 1@letting x be 3@$ complete@
1#find x : int(1..3) such that x > 2##$ solution 1@letting x be 3@
all#find x : int(1..3) such that x > 3##$ no solution@
2###$ solution 1@$ complete@
all#find x : int(0..0) minimising 6 / x##$ no solution@
all#find m : matrix indexed by [int(1..0)] of bool##$ solution 1@letting m be [; int(1..0)]@$ complete@";

#[test]
fn solutions_are_listed(rt: HostRuntime) -> Result<(), Fail> {
    let wrong = wrong_behind(&rt, LIST, FIRST_LINE, LISTED)?;
    assert_eq!(rt; wrong.as_str(), "");
    Ok(())
}

/// A model with three solutions, and what a list says of each of them.
const THREE_LISTED: [(&str, &str); 2] = [
    (
        "find x : int(1..3)@maximising x",
        "@letting x be 1@#@letting x be 2@#@letting x be 3@",
    ),
    (
        "find x, y : int(1..2)@such that x <= y",
        "@letting x be 1@letting y be 1@#@letting x be 1@letting y be 2@#@letting x be 2@letting y be 2@",
    ),
];

/// How many solutions are wanted and listed, and whether these are said to be all.
const COUNTED: [(&str, usize, bool); 5] = [
    ("1", 1, false),
    ("2", 2, false),
    ("3", 3, false),
    ("4", 3, true),
    ("all", 3, true),
];

/// What is said where so many solutions of a model are wanted.
fn said_of_list<R: Threads + Sync + AllocGlobal>(
    rt: &R,
    count: &str,
    model: &str,
) -> Result<String, Fail> {
    let words = joined(rt.alloc(), LIST, count)?;
    let model = text_of(rt.alloc(), FIRST_LINE, model)?;
    let texts = Texts {
        model: model.as_bytes(),
        params: b"",
        solution: b"",
    };
    said_of(rt, words.as_str(), &texts)
}

/// How many blocks of a list end so.
fn times(text: &str, end: &str) -> usize {
    text.split('$').filter(|block| block.ends_with(end)).count()
}

/// Whether each of three solutions is listed at most once, and once where all three are.
fn lists_each(
    alloc: Global,
    text: &str,
    solutions: &str,
    found: usize,
) -> Result<bool, AllocError> {
    for solution in solutions.split('#') {
        let end = text_of(alloc, "", solution)?;
        let times = times(text, end.as_str());
        if times > 1 || times == 0 && found == 3 {
            return Ok(false);
        }
    }
    Ok(true)
}

/// Whether an answer lists so many solutions, and says that these are all.
fn lists(text: &str, found: usize, is_complete: bool) -> bool {
    let blocks = text.split('$');
    let count = blocks
        .filter(|block| block.starts_with(" solution "))
        .count();
    let says_all = text.ends_with("\n$ complete\n");
    text.starts_with("answered ") && count == found && says_all == is_complete
}

/// So many of the three solutions are listed, whatever their order, and none of them twice.
#[test]
fn each_solution_is_listed_once(rt: HostRuntime) -> Result<(), Fail> {
    for (model, solutions) in THREE_LISTED {
        for (count, found, is_complete) in COUNTED {
            let said = said_of_list(&rt, count, model)?;
            assert!(rt; lists(said.as_str(), found, is_complete), "{said}");
            let is_right = lists_each(rt.alloc(), said.as_str(), solutions, found)?;
            assert!(rt; is_right, "{said}");
        }
    }
    Ok(())
}

/// Rows behind a mode of undefinedness.
const MODE_ANSWERS: &str = "\
strict#find x : int(0..0)@such that !(10/x > 2)##$ no solution@
relational#find x : int(0..0)@such that !(10/x > 2)##$ solution@letting x be 0@
strict#find x : int(0..2)@such that (x = 0) \\/ (10 / x >= 10)##$ solution@letting x be 1@
strict#find m : matrix indexed by [int(1..2)] of bool@find i : int(3..3)@such that !m[1], !m[2], toInt(m[i]) = 0##$ no solution@
relational#where true \\/ (1/0 = 1)##$ solution@
relational#letting b be 1/0 = 1##$ solution@
strict#find x : int(0..1)@maximising toInt(!(1/x = 1))##$ optimum 0@letting x be 1@
relational#find x : int(0..1)@maximising toInt(!(1/x = 1))##$ optimum 1@letting x be 0@
strict#find b : bool@find x : int(1..2)@such that [[b, true], [(1/0 = 1)]][x, 1], x = 1##$ no solution@
strict#find m : matrix indexed by [int(1..1)] of int(0..0)@such that !([[1/0], m][1, 1] = 1)##$ no solution@
strict#find p : matrix indexed by [int(1..1)] of bool@such that !(and([[p, p][3, ..], p][1, ..]))##$ no solution@";

const MODE_REFUSED: &str = "\
strict#where true \\/ (1/0 = 1)##fault F11 1@
strict#letting b be 1/0 = 1##fault F10 model 2:1@";

const MODE_LISTED: &str = "\
strict#find x : int(0..2)@such that (x = 0) \\/ (10 / x >= 10)##$ solution 1@letting x be 1@$ complete@
strict#find x : int(0..0)@such that !(10/x > 2)##$ no solution@";

const MODE_JUDGED: &str = "\
relational#find x : int(0..0)@such that !(10/x > 2)#letting x be 0#$ solution@
strict#find x : int(0..0)@such that !(10/x > 2)#letting x be 0#$ violated 1@
relational#find b : bool@such that !b#letting b be 1/0 = 1#$ solution@
strict#find b : bool@such that !b#letting b be 1/0 = 1#fault F10 solution 1:1@
strict#find x : int(0..1)@maximising toInt(!(1/x = 1))#letting x be 0#$ objective undefined@
relational#find m : matrix indexed by [int(1..1)] of int(0..2)@such that !([[1/0], m][1, 1] = 1)#letting m be [1]#$ solution@
strict#find m : matrix indexed by [int(1..1)] of int(0..2)@such that !([[1/0], m][1, 1] = 1)#letting m be [1]#$ violated 1@
relational#find p : matrix indexed by [int(1..1)] of bool@such that !(and([[p, p][3, ..], p][1, ..]))#letting p be [true]#$ solution@";

#[test]
fn a_model_is_read_in_a_mode(rt: HostRuntime) -> Result<(), Fail> {
    for (words, first_line, rows) in [
        (SOLVE_IN, FIRST_LINE, MODE_ANSWERS),
        (SOLVE_IN, "", MODE_REFUSED),
        (LIST_IN, FIRST_LINE, MODE_LISTED),
        (VERIFY_IN, "", MODE_JUDGED),
    ] {
        let wrong = wrong_behind(&rt, words, first_line, rows)?;
        assert_eq!(rt; wrong.as_str(), "");
    }
    Ok(())
}

/// The end of the words, a model, and two rests of rows of which one is put out.
const EITHER: [(&str, &str, &str, &str); 3] = [
    (
        "--task enumerate --in-eprime m --solutions all",
        "find x : int(0..2)@such that (x = 0) \\/ (10 / x >= 10)##",
        "$ solution 1@letting x be 0@$ solution 2@letting x be 1@$ complete@",
        "$ solution 1@letting x be 1@$ solution 2@letting x be 0@$ complete@",
    ),
    (
        "--task enumerate --in-eprime m --solutions all --undefined relational",
        "find x : int(0..2)@such that (x = 0) \\/ (10 / x >= 10)##",
        "$ solution 1@letting x be 0@$ solution 2@letting x be 1@$ complete@",
        "$ solution 1@letting x be 1@$ solution 2@letting x be 0@$ complete@",
    ),
    (
        "--in-eprime m --undefined strict",
        "find x : int(1..2)@such that forAll i : int(1..0) . 1/0 = x##",
        "$ solution@letting x be 1@",
        "$ solution@letting x be 2@",
    ),
];

/// A row over a model where its end isn't put out, and else nothing.
fn wrong_end<R: Threads + Sync + AllocGlobal>(
    rt: &R,
    words: &str,
    model: &str,
    want: &str,
) -> Result<String, Fail> {
    let row = joined(rt.alloc(), model, want)?;
    wrong_row(rt, words, FIRST_LINE, row.as_str())
}

#[test]
fn either_answer_will_do(rt: HostRuntime) -> Result<(), Fail> {
    for (words, model, one, other) in EITHER {
        let first = wrong_end(&rt, words, model, one)?;
        let second = wrong_end(&rt, words, model, other)?;
        assert!(rt; first.is_empty() || second.is_empty(), "{first}");
    }
    Ok(())
}

/// Words that are no command.
const NO_COMMANDS: &str = "\
--in-param p
--in-eprime m --conflicts 0
--in-eprime m --conflicts -1
--in-eprime m --solutions 2
--in-eprime m --in-eprime m
--task check --in-cnf m
--task check --in-cnf m --in-log s --workers 0
--task check --in-cnf m --in-log s --workers 65
--task enumerate --in-eprime m
--task enumerate --in-eprime m --solutions 0
--task generate
--task generate --number 1000000001
--task generate --number 0 --out-solution x
--task verify --in-eprime m
--in-eprime m --undefined lax
--in-eprime m --undefined strict --undefined strict
--task verify --in-eprime m --in-solution s --undefined both
--help
 ";

#[test]
fn words_come_first(rt: HostRuntime) -> Result<(), Fail> {
    let texts = Texts {
        model: b"such that",
        params: b"such that",
        solution: b"such that",
    };
    for words in NO_COMMANDS.lines() {
        let said = said_of(&rt, words, &texts)?;
        assert_eq!(rt; said.as_str(), "usage fault usage\n", "{words}");
    }
    Ok(())
}

/// Words over texts that all have faults, and the line of the first that is met.
const ORDERED: &str = "\
--in-eprime none#device read none@
--in-eprime m --in-param none#device read none@
--in-eprime m --in-param p#fault F2 params 1:8@
--task=verify --in-eprime m --in-solution none#device read none@
--task=verify --in-eprime m --in-solution s#fault F2 solution 1:8@
--in-eprime s --in-param none#fault F2 model 1:1@
--in-eprime m#fault F3 model 2:11 y@";

#[test]
fn files_come_in_their_order(rt: HostRuntime) -> Result<(), Fail> {
    for row in ORDERED.lines() {
        let (words, want) = row.split_once('#').unwrap_or((row, ""));
        let said = said_of_faults(&rt, words)?;
        let wrong = difference(rt.alloc(), row, said.as_str(), "", want)?;
        assert_eq!(rt; wrong.as_str(), "");
    }
    Ok(())
}

/// What words say over texts that all have faults.
fn said_of_faults<R: Threads + Sync + AllocGlobal>(rt: &R, words: &str) -> Result<String, Fail> {
    let model = text_of(rt.alloc(), FIRST_LINE, "such that y")?;
    let texts = Texts {
        model: model.as_bytes(),
        params: b"letting",
        solution: b"letting",
    };
    said_of(rt, words, &texts)
}

/// A row whose tree is so high.
fn high_row(
    alloc: Global,
    count: usize,
    before: char,
    middle: &str,
    behind: &str,
) -> Result<String, AllocError> {
    let mut row = String::from_str(alloc, "such that ")?;
    for _ in 0..count {
        row.push(before)?;
    }
    row.push_str(middle)?;
    for _ in 0..count {
        row.push_str(behind)?;
    }
    row.push_str("##")?;
    Ok(row)
}

#[test]
fn trees_may_be_so_high(rt: HostRuntime) -> Result<(), Fail> {
    for (count, first_line, want) in [
        (255, FIRST_LINE, "$ solution@"),
        (256, "", "limit L3 model 2:266@"),
    ] {
        for (before, middle, behind) in [('!', " false", ""), ('(', "true", ")")] {
            let row = high_row(rt.alloc(), count, before, middle, behind)?;
            let row = joined(rt.alloc(), row.as_str(), want)?;
            let wrong = wrong_row(&rt, SOLVE, first_line, row.as_str())?;
            assert_eq!(rt; wrong.as_str(), "");
        }
    }
    Ok(())
}

/// How many first parts of a model, each a byte longer than the one before it, end in the same line; none of them has a fault
/// where there is no line.
const CUT: [(u64, &str); 31] = [
    (8, "fault F2 model 1:1"),
    (1, "fault F2 model 1:9"),
    (8, "fault F2 model 1:10"),
    (1, "fault F2 model 1:18"),
    (1, "fault F2 model 1:19"),
    (1, "fault F2 model 1:20"),
    (1, "fault F2 model 1:21"),
    (2, ""),
    (3, "fault F2 model 2:1"),
    (1, "fault F2 model 2:5"),
    (1, "fault F2 model 2:6"),
    (1, "fault F2 model 2:7"),
    (1, "fault F2 model 2:8"),
    (1, "fault F2 model 2:9"),
    (1, "fault F2 model 2:10"),
    (1, "fault F3 model 2:10 i"),
    (1, "fault F2 model 2:10"),
    (1, "fault F7 model 2:10"),
    (1, "fault F2 model 2:14"),
    (2, "fault F2 model 2:15"),
    (1, "fault F2 model 2:17"),
    (1, "fault F2 model 2:18"),
    (2, ""),
    (3, "fault F2 model 3:1"),
    (1, "fault F2 model 3:5"),
    (4, "fault F2 model 3:6"),
    (2, ""),
    (2, "fault F5 model 3:11"),
    (1, "fault F2 model 3:14"),
    (1, "fault F2 model 3:15"),
    (1, ""),
];

/// Whether what is said of a first part of a model is this line, or an answer where there is none.
fn is_said(text: &str, line: &str) -> bool {
    if line.is_empty() {
        return text.starts_with("answered language ESSENCE' 1.0\n$ solution\n");
    }
    let put = text.strip_prefix("text ").unwrap_or("");
    put.strip_suffix("\n") == Some(line)
}

/// What is said of a model alone.
fn said_of_model<R: Threads + Sync + AllocGlobal>(rt: &R, model: &[u8]) -> Result<String, Fail> {
    let texts = Texts {
        model,
        params: b"",
        solution: b"",
    };
    said_of(rt, SOLVE, &texts)
}

const THREE_LINES: &[u8] = b"language ESSENCE' 1.0\nfind x : int(1..3)\nsuch that x > 2";

#[test]
fn a_model_may_be_cut(rt: HostRuntime) -> Result<(), Fail> {
    let mut length = 0usize;
    for (count, line) in CUT {
        for _ in 0..count {
            let model = THREE_LINES.get(..length).unwrap_or(b"");
            let said = said_of_model(&rt, model)?;
            assert!(rt; is_said(said.as_str(), line), "{line}: {said}");
            length = length.saturating_add(1);
        }
    }
    assert_eq!(rt; length, THREE_LINES.len().saturating_add(1));
    Ok(())
}

const THREE_ANSWERED: &str = "answered language ESSENCE' 1.0\n$ solution\nletting x be 3\n";

/// Models, the length up to which blanks follow, and what is said. In a comment any byte may stand.
const BYTES: [(&[u8], usize, &str); 4] = [
    (
        b"language ESSENCE' 1.0\n\xff",
        0,
        "text fault F1 model 2:1\n",
    ),
    (
        b"language ESSENCE' 1.0\nsuch that true $\xff",
        0,
        "answered language ESSENCE' 1.0\n$ solution\n",
    ),
    (THREE_LINES, 16_777_216, THREE_ANSWERED),
    (THREE_LINES, 16_777_217, "limit limit L1 model\n"),
];

/// A text with blanks behind it up to a length.
fn padded(alloc: Global, text: &[u8], length: usize) -> Result<Vec<u8>, AllocError> {
    let mut model = Vec::from_slice(alloc, text)?;
    for _ in text.len()..length {
        model.push(b' ')?;
    }
    Ok(model)
}

#[test]
fn texts_may_be_so_long_and_have_any_bytes(rt: HostRuntime) -> Result<(), Fail> {
    for (text, length, want) in BYTES {
        let model = padded(rt.alloc(), text, length)?;
        let said = said_of_model(&rt, &model)?;
        assert_eq!(rt; said.as_str(), want);
    }
    Ok(())
}

/// Each number stands once in each row and each column, and some of them are given.
const SQUARE: &str = "\
given n : int(1..100)@given hint : matrix indexed by [int(1..n), int(1..n)] of int(0..n)@\
find q : matrix indexed by [int(1..n), int(1..n)] of int(1..n)@such that@\
forAll i : int(1..n) . allDiff(q[i,..]),@forAll j : int(1..n) . allDiff(q[..,j]),@\
forAll i,j : int(1..n) . (hint[i,j] != 0) -> (q[i,j] = hint[i,j])";

const HINTS: &str = "\
letting n be 16 letting hint be [\
[3, 4, 0, 0, 7, 0, 0, 0, 0, 0, 13, 0, 0, 0, 1, 2], \
[0, 0, 0, 7, 8, 0, 0, 0, 0, 0, 0, 0, 0, 1, 0, 0], \
[5, 0, 0, 8, 0, 10, 0, 0, 0, 0, 15, 16, 0, 2, 0, 0], \
[0, 0, 0, 0, 10, 11, 0, 0, 0, 0, 0, 0, 0, 3, 0, 5], \
[0, 0, 9, 0, 0, 0, 0, 0, 0, 16, 1, 0, 0, 0, 0, 6], \
[8, 0, 0, 0, 0, 0, 0, 0, 0, 0, 0, 0, 4, 5, 6, 0], \
[0, 0, 0, 12, 0, 0, 0, 0, 1, 0, 0, 4, 5, 0, 7, 8], \
[0, 11, 12, 13, 0, 0, 16, 0, 0, 0, 0, 0, 0, 7, 0, 0], \
[0, 0, 0, 0, 0, 0, 0, 0, 3, 0, 0, 0, 0, 0, 0, 0], \
[12, 0, 0, 0, 0, 1, 2, 0, 4, 5, 6, 7, 8, 9, 0, 0], \
[13, 0, 0, 0, 1, 0, 3, 4, 0, 0, 0, 0, 0, 0, 0, 0], \
[0, 15, 16, 1, 2, 3, 0, 0, 6, 0, 0, 0, 0, 0, 0, 0], \
[0, 0, 0, 0, 3, 0, 0, 0, 7, 8, 0, 10, 0, 0, 13, 0], \
[16, 1, 0, 3, 0, 5, 0, 7, 8, 0, 0, 0, 12, 13, 0, 15], \
[0, 2, 3, 0, 0, 0, 7, 0, 0, 0, 0, 12, 0, 14, 0, 0], \
[0, 0, 0, 0, 6, 0, 0, 0, 10, 11, 12, 13, 0, 0, 0, 0]]";

/// What is said of the answer to a model with parameters, where it is judged as a solution text.
fn judged<R: Threads + Sync + AllocGlobal>(
    rt: &R,
    model: &str,
    params: &str,
) -> Result<String, Fail> {
    let model = text_of(rt.alloc(), FIRST_LINE, model)?;
    let mut texts = Texts {
        model: model.as_bytes(),
        params: params.as_bytes(),
        solution: b"",
    };
    let said = said_of(rt, SOLVE, &texts)?;
    let answer = said.as_str().strip_prefix("answered ").unwrap_or("");
    texts.solution = answer.as_bytes();
    let words = "--task verify --in-eprime m --in-param p --in-solution s";
    said_of(rt, words, &texts)
}

#[test]
fn an_answer_is_a_solution_text(rt: HostRuntime) -> Result<(), Fail> {
    for (model, params, judgement) in [
        (SQUARE, HINTS, "answered $ solution\n"),
        (
            "given a : int find x : int(0..a) maximising x * (a - x)",
            "letting a be 8",
            "answered $ solution objective 16\n",
        ),
        (
            "find m : matrix indexed by [int(1..2), int(4..3)] of bool find b : bool such that !b",
            "",
            "answered $ solution\n",
        ),
    ] {
        let said = judged(&rt, model, params)?;
        assert_eq!(rt; said.as_str(), judgement);
    }
    Ok(())
}
