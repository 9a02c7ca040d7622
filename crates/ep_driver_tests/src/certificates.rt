//! Formulas and logs that are written, and proofs that are checked.
//!
//! A row has a formula, a proof and what is put out, with `#` between them. An `@` ends a line of the texts.

use crate::calls::{FIRST_LINE, difference, files_of, held_by, joined, said_over, text_of, wanted};
use ep_base::MemFiles;
use std::test::Fail;
use std::thread::Threads;

const CHECK: &str = "--task check --in-cnf f --in-log=l";

/// The same by one worker and by several.
const CHECKS: &str = "\
--task check --in-cnf f --in-log=l
--task check --in-cnf f --in-log=l --workers 1
--task check --in-cnf f --in-log=l --workers 2
--task check --in-cnf f --in-log=l --workers 3
--task check --in-cnf f --in-log=l --workers 64";

/// Two variables and all clauses of both.
const CHECKED: &str = "\
p cnf 2 4@1 2 0@1 -2 0@-1 2 0@-1 -2 0@#5 1 0 1 2 0@6 0 5 3 4 0@#$ verified@
p cnf 2 4@1 2 0@1 -2 0@-1 2 0@-1 -2 0@#5 1 0 1 0@6 0 5 3 4 0@#$ bad step 1@
p cnf 2 4@1 2 0@1 -2 0@-1 2 0@-1 -2 0@#5 1 0 -1 2 0@6 0 5 3 4 0@#$ bad step 1@
p cnf 2 4@1 2 0@1 -2 0@-1 2 0@-1 -2 0@#5 1 0 1 6 0@6 0 5 3 4 0@#$ bad step 1@
p cnf 2 4@1 2 0@1 -2 0@-1 2 0@-1 -2 0@#4 1 0 1 2 0@6 0 5 3 4 0@#$ bad step 1@
p cnf 2 4@1 2 0@1 -2 0@-1 2 0@-1 -2 0@#5 1 0 1 2 0@#$ no empty clause@
p cnf 2 4@1 2 0@1 -2 0@-1 2 0@-1 -2 0@#5 1 0 1 0@6 0 5 0@#$ bad step 1@
p cnf 2 4@1 2 0@1 -2 0@-1 2 0@-1 -2 0@#5 1 0 1 2 0@5 d 5 0@6 0 5 3 4 0@#$ bad step 3@
p cnf 2 4@1 2 0@1 -2 0@-1 2 0@-1 -2 0@#c one@@5 1 0 1 2 0@c@@@6 0 5 3 4 0@c@#$ verified@
p cnf 1 4@1 2 0@1 -2 0@-1 2 0@-1 -2 0@#5 1 0 1 2 0@6 0 5 3 4 0@#fault F12 2@
p cnf 2 4@1 2 0@1 -2 0@-1 2 0@-1 -2 0@#5 1 0 1 2 0@6 x@#fault F13 2@
p cnf 2 5@1 2 0@1 -2 0@-1 2 0@-1 -2 0@#5 1 0 1 2 0@6 x@#fault F12 5@
p cnf 0 0##$ no empty clause@
p cnf 999999999999999999 0##$ no empty clause@
p cnf 1 1@0##$ verified@
c nothing@p cnf 1 x#6 x#fault F12 2@";

/// A row with what is said of its proof to words where that is something else, and else nothing.
fn wrong_check<R: Threads + Sync + AllocGlobal>(
    rt: &R,
    words: &str,
    row: &str,
) -> Result<String, Fail> {
    let alloc = rt.alloc();
    let (formula, rest) = row.split_once('#').unwrap_or((row, ""));
    let (proof, want) = rest.split_once('#').unwrap_or((rest, ""));
    let formula = text_of(alloc, "", formula)?;
    let proof = text_of(alloc, "", proof)?;
    let texts = [("f", formula.as_bytes()), ("l", proof.as_bytes())];
    let mut files = files_of(alloc, &texts, 0)?;
    let said = said_over(rt, words, &mut files)?;
    Ok(difference(alloc, row, said.as_str(), "", want)?)
}

/// The first row of which something else is said.
fn first_wrong_check<R: Threads + Sync + AllocGlobal>(rt: &R, words: &str) -> Result<String, Fail> {
    for row in CHECKED.lines() {
        let wrong = wrong_check(rt, words, row)?;
        if !wrong.is_empty() {
            return Ok(wrong);
        }
    }
    Ok(String::new(rt.alloc()))
}

#[test]
fn proofs_are_checked(rt: HostRuntime) -> Result<(), Fail> {
    for words in CHECKS.lines() {
        let wrong = first_wrong_check(&rt, words)?;
        assert_eq!(rt; wrong.as_str(), "", "by {words}");
    }
    Ok(())
}

/// What is said where only one file stands there.
fn said_over_one<R: Threads + Sync + AllocGlobal>(rt: &R, name: &str) -> Result<String, Fail> {
    let text: &[u8] = b"p cnf 0 0";
    let mut files = files_of(rt.alloc(), &[(name, text)], 0)?;
    said_over(rt, CHECK, &mut files)
}

#[test]
fn a_proof_that_is_not_there_cannot_be_checked(rt: HostRuntime) -> Result<(), Fail> {
    for (held, want) in [
        ("l", "device device read f\n"),
        ("f", "device device read l\n"),
    ] {
        let said = said_over_one(&rt, held)?;
        assert_eq!(rt; said.as_str(), want);
    }
    Ok(())
}

/// Models, the words that write a formula and a log, the answer's first two lines, and what the check of the log says.
const WRITTEN: &str = "\
find a, b, c, d : int(1..3)@such that allDiff([a, b, c, d])@#--in-eprime m#$ no solution@#$ verified@
find x : int(1..3)@maximising x@such that x < 3@#--in-eprime m#$ optimum 2@letting x be 2@#$ verified@
find x : int(1..3)@such that x > 2@#--in-eprime m#$ solution@letting x be 3@#$ no empty clause@
find a, b, c, d : int(1..3)@such that allDiff([a, b, c, d])@#--in-eprime m --cubes 1#$ no solution@#$ verified@
find a, b, c, d : int(1..3)@such that allDiff([a, b, c, d])@#--in-eprime m --cubes 2#$ no solution@#$ verified@
find a, b, c, d : int(1..3)@such that allDiff([a, b, c, d])@#--in-eprime m --cubes 6#$ no solution@#$ verified@
find x : int(1..3)@maximising x@such that x < 3@#--in-eprime m --cubes 3#$ optimum 2@letting x be 2@#$ verified@
find x : int(1..3)@such that x > 2@#--in-eprime m --cubes 2#$ solution@letting x be 3@#$ no empty clause@
find x : int(1..1)@#--task enumerate --solutions all --in-eprime m#$ solution 1@letting x be 1@$ complete@#$ verified@";

/// Whether an answer is put out and held as `s` by a run over a model, which writes a formula and a log.
fn is_written<R: Threads + Sync + AllocGlobal>(
    rt: &R,
    words: &str,
    files: &mut MemFiles,
    answer: &str,
) -> Result<bool, Fail> {
    let alloc = rt.alloc();
    let words = joined(alloc, words, " --out-log l --out-solution s --out-cnf f")?;
    let said = said_over(rt, words.as_str(), files)?;
    let answer = wanted(alloc, FIRST_LINE, answer)?;
    let held = held_by(files, "s");
    Ok(said.as_str() == answer.as_str() && answer.as_str().strip_prefix("answered ") == Some(held))
}

/// Whether a row's answer is written, and its verdict is that on the log and the formula.
fn is_certified<R: Threads + Sync + AllocGlobal>(rt: &R, row: &str) -> Result<bool, Fail> {
    let alloc = rt.alloc();
    let (model, rest) = row.split_once('#').unwrap_or((row, ""));
    let (words, rest) = rest.split_once('#').unwrap_or((rest, ""));
    let (answer, verdict) = rest.split_once('#').unwrap_or((rest, ""));
    let model = text_of(alloc, FIRST_LINE, model)?;
    let mut files = files_of(alloc, &[("m", model.as_bytes())], 0)?;
    if !is_written(rt, words, &mut files, answer)? {
        return Ok(false);
    }
    let said = said_over(rt, CHECK, &mut files)?;
    let verdict = wanted(alloc, "", verdict)?;
    Ok(said.as_str() == verdict.as_str())
}

#[test]
fn a_written_log_is_checked_against_the_written_formula(rt: HostRuntime) -> Result<(), Fail> {
    for row in WRITTEN.lines() {
        let is_right = is_certified(&rt, row)?;
        assert!(rt; is_right, "{row}");
    }
    Ok(())
}

/// Whether a formula that these words write over a model has all these parts, with `#` between them, behind an answer.
fn writes_parts<R: Threads + Sync + AllocGlobal>(
    rt: &R,
    words: &str,
    model: &str,
    parts: &str,
) -> Result<bool, Fail> {
    let alloc = rt.alloc();
    let model = text_of(alloc, FIRST_LINE, model)?;
    let mut files = files_of(alloc, &[("m", model.as_bytes())], 0)?;
    let said = said_over(rt, words, &mut files)?;
    let text = held_by(&files, "f");
    let has_all = parts.split('#').all(|part| text.contains(part));
    Ok(said.starts_with("answered ") && has_all)
}

#[test]
fn a_formula_says_how_many_clauses_were_added(rt: HostRuntime) -> Result<(), Fail> {
    let words = "--task enumerate --in-eprime m --solutions 2 --out-cnf f";
    let parts = "c cell x 1 #c cell x 2 #c cell y 1 #c cell y 2 #c added 2\n";
    let is_right = writes_parts(&rt, words, "find x, y : int(1..2)@such that x <= y@", parts)?;
    assert!(rt; is_right);
    Ok(())
}

/// Models, and parts of the formula that is written, of which the last is the header.
const HEADERS: [(&str, &str); 3] = [
    (
        "find a, b : bool@",
        "c cell a 0 -1\n#c cell b 1 2\n#c added 0\np cnf 2 0\n",
    ),
    (
        "find a, b : bool@such that a@",
        "c cell b 0 -2\n#c added 0\np cnf 2 1\n1 0\n",
    ),
    ("find x : int(1..0)@", "c added 0\np cnf "),
];

#[test]
fn a_header_covers_the_notes(rt: HostRuntime) -> Result<(), Fail> {
    for (model, parts) in HEADERS {
        let is_right = writes_parts(&rt, "--in-eprime m --out-cnf f", model, parts)?;
        assert!(rt; is_right, "{model}");
    }
    Ok(())
}

/// Words with every option of a search.
const OPTIONS: [&str; 3] = [
    "--task solve --in-eprime m --in-param p --cubes 2 --conflicts 1000 --undefined strict --out-cnf f --out-log l --out-solution s",
    "--task solve --in-eprime m --in-param p --conflicts 1000 --undefined strict --out-cnf f --out-log l --out-solution s",
    "--task enumerate --in-eprime m --in-param p --solutions 3 --conflicts 1000 --undefined=strict --out-cnf f --out-log l --out-solution s",
];

/// The three files that words write over a model and its parameters, one behind another.
fn written_by<R: Threads + Sync + AllocGlobal>(rt: &R, words: &str) -> Result<String, Fail> {
    let alloc = rt.alloc();
    let model = text_of(
        alloc,
        FIRST_LINE,
        "given n : int(1..9) find x, y : int(0..n) maximising x * 2 - y such that x + y != n, x / (y + 1) < 3@",
    )?;
    let params = text_of(alloc, FIRST_LINE, "letting n be 5@")?;
    let texts = [("m", model.as_bytes()), ("p", params.as_bytes())];
    let mut files = files_of(alloc, &texts, 0)?;
    let mut all = said_over(rt, words, &mut files)?;
    for name in ["f", "l", "s"] {
        all.push_str(held_by(&files, name))?;
    }
    Ok(all)
}

#[test]
fn the_same_words_write_the_same_bytes(rt: HostRuntime) -> Result<(), Fail> {
    for words in OPTIONS {
        let once = written_by(&rt, words)?;
        let again = written_by(&rt, words)?;
        assert!(rt;
            once.contains("p cnf ") && !once.contains("(no file)"),
            "{words}"
        );
        assert_eq!(rt; once.as_str(), again.as_str());
    }
    Ok(())
}

#[test]
fn a_log_that_cannot_be_written_leaves_the_formula(rt: HostRuntime) -> Result<(), Fail> {
    let alloc = rt.alloc();
    let model = text_of(
        alloc,
        FIRST_LINE,
        "find a, b, c, d : int(1..3)@such that allDiff([a, b, c, d])@",
    )?;
    let mut files = files_of(alloc, &[("m", model.as_bytes())], 3)?;
    let said = said_over(&rt, "--in-eprime m --out-cnf f --out-log l", &mut files)?;
    assert_eq!(rt; said.as_str(), "device device write l\n");
    assert!(rt; held_by(&files, "f").contains("\np cnf "));
    assert_eq!(rt; held_by(&files, "l"), "(no file)");
    Ok(())
}

/// How many steps a run over a model logs, which says this among other things.
fn steps_of<R: Threads + Sync + AllocGlobal>(
    rt: &R,
    words: &str,
    want: &str,
) -> Result<usize, Fail> {
    let alloc = rt.alloc();
    let model = text_of(
        alloc,
        FIRST_LINE,
        "find x, y, z : int(0..9)@maximising x + 2 * y + 3 * z@such that x + y + z <= 12, x * y != 20, y != z@",
    )?;
    let mut files = files_of(alloc, &[("m", model.as_bytes())], 0)?;
    let said = said_over(rt, words, &mut files)?;
    if !said.contains(want) {
        return Err(Fail::new("another answer"));
    }
    Ok(held_by(&files, "l").lines().count())
}

#[test]
fn a_bound_on_the_objective_spares_conflicts(rt: HostRuntime) -> Result<(), Fail> {
    let best = "--in-eprime m --out-log l";
    let all = "--in-eprime m --task enumerate --solutions all --out-log l";
    let bounded = steps_of(&rt, best, "$ optimum 33\n")?;
    let unbounded = steps_of(&rt, all, "$ complete\n")?;
    assert!(rt; bounded < unbounded, "{bounded} {unbounded}");
    Ok(())
}
