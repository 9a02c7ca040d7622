//! Runs that solve cubes side by side: answers, budgets, what is written, and words that are no command.
//!
//! A table has a row a line: a number of variables, a model below its first line, its parameters, and what is put out below the first line
//! of an answer, with `#` between them. An `@` ends a line of the texts.

use crate::calls::{FIRST_LINE, files_of, held_by, said_over, text_of, wrong_behind};
use std::test::Fail;

const CUBES: &str = "--in-eprime m --in-param p --cubes ";

/// Answers are those of `solve`. With an objective nothing is divided.
const ANSWERS: &str = "\
3#find S, E, N, D, M, O, R, Y : int(0..9)@such that 1000*S + 100*E + 10*N + D + 1000*M + 100*O + 10*R + E = 10000*M + 1000*O + 100*N + 10*E + Y,@S != 0, M != 0, allDiff([S, E, N, D, M, O, R, Y])##$ solution@letting S be 9@letting E be 5@letting N be 6@letting D be 7@letting M be 1@letting O be 0@letting R be 8@letting Y be 2@
3#given n, cap : int(1..) given w, v : matrix indexed by [int(1..n)] of int(0..) find take : matrix indexed by [int(1..n)] of bool maximising sum i : int(1..n) . take[i] * v[i] such that (sum i : int(1..n) . take[i] * w[i]) <= cap#letting n be 3 letting cap be 7 letting w be [3, 4, 5] letting v be [4, 5, 6]#$ optimum 9@letting take be [true, true, false; int(1..3)]@
1#find a, b, c, d : int(1..3)@such that allDiff([a, b, c, d])##$ no solution@
6#find a, b, c, d : int(1..3)@such that allDiff([a, b, c, d])##$ no solution@
6#find x : int(1..3)@such that x > 2##$ solution@letting x be 3@
2#find x : int(1..0)##$ no solution@
2#such that 1 > 2##$ no solution@
2###$ solution@";

/// Words that are no command.
const NO_COMMANDS: &str = "\
0###fault usage@
7###fault usage@
1 --cubes 1###fault usage@
2 --task explain###fault usage@
2 --task enumerate --solutions all###fault usage@";

#[test]
fn cubes_have_the_answers_of_models(rt: HostRuntime) -> Result<(), Fail> {
    let wrong = wrong_behind(&rt, CUBES, FIRST_LINE, ANSWERS)?;
    assert_eq!(rt; wrong.as_str(), "");
    let wrong = wrong_behind(&rt, CUBES, "", NO_COMMANDS)?;
    assert_eq!(rt; wrong.as_str(), "");
    Ok(())
}

/// Seven pigeons of which each sits in one of six holes, and no two in one.
const PIGEONS: &str = "\
find p : matrix indexed by [int(1..7), int(1..6)] of bool@such that forAll i : int(1..7) . exists j : int(1..6) . p[i,j],@\
forAll j : int(1..6) . forAll a,b : int(1..7) . (a < b) -> !(p[a,j] /\\ p[b,j])@";

/// Where the conflicts of a cube are spent its literals are added to the formula, and each has no more than the budget.
#[test]
fn the_literals_of_a_spent_cube_are_added(rt: HostRuntime) -> Result<(), Fail> {
    let model = text_of(rt.alloc(), FIRST_LINE, PIGEONS)?;
    let mut files = files_of(rt.alloc(), &[("m", model.as_bytes())], 0)?;
    let words = "--in-eprime m --cubes 2 --conflicts 5 --out-cnf f --out-log l";
    let said = said_over(&rt, words, &mut files)?;
    assert_eq!(rt;
        said.as_str(),
        "unknown language ESSENCE' 1.0\n$ unknown 5 conflicts\n"
    );
    assert!(rt; held_by(&files, "f").contains("c added 2\n"));
    assert_eq!(rt; held_by(&files, "l").lines().count(), 5);
    let said = said_over(&rt, "--task check --in-cnf f --in-log l", &mut files)?;
    assert_eq!(rt; said.as_str(), "refuted $ no empty clause\n");
    Ok(())
}
