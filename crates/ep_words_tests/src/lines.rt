//! Lines of words, and the jobs that they ask for.

use ep_base::Word;
use ep_words::{WordsError, read_words};
use std::alloc::Global;
use std::test::Fail;

/// The words of a line, with a space between any two.
fn words_of(alloc: Global, line: &str) -> Result<Vec<Word>, Fail> {
    let mut words = Vec::new(alloc);
    for word in line.split(' ') {
        words.push(Word::new(alloc, word)?)?;
    }
    Ok(words)
}

/// What is made of a line: the job's `Debug` text, or `usage`.
fn answer_to(alloc: Global, line: &str) -> Result<String, Fail> {
    let words = words_of(alloc, line)?;
    match read_words(alloc, &words) {
        Ok(job) => Ok(format!(in alloc; "{job:?}")?),
        Err(WordsError::Usage) => Ok(String::from_str(alloc, "usage")?),
        Err(WordsError::Memory) => Ok(String::from_str(alloc, "memory")?),
    }
}

/// Lines, each with the job that it asks for.
const COMMANDS: [(&str, &str); 13] = [
    (
        "--in-eprime m",
        "Solve { in_eprime: Word { text: \"m\" }, in_param: None, conflicts: 1000000, \
         out_solution: None, out_cnf: None, out_log: None, undefined: Relational, cubes: None }",
    ),
    (
        "--out-log=l --conflicts=7 --in-eprime=a=b --task solve --out-cnf c --in-param=-p --out-solution s",
        "Solve { in_eprime: Word { text: \"a=b\" }, in_param: Some(Word { text: \"-p\" }), conflicts: 7, \
         out_solution: Some(Word { text: \"s\" }), out_cnf: Some(Word { text: \"c\" }), \
         out_log: Some(Word { text: \"l\" }), undefined: Relational, cubes: None }",
    ),
    (
        "--undefined strict --in-eprime m",
        "Solve { in_eprime: Word { text: \"m\" }, in_param: None, conflicts: 1000000, \
         out_solution: None, out_cnf: None, out_log: None, undefined: Strict, cubes: None }",
    ),
    (
        "--in-eprime m --cubes=3",
        "Solve { in_eprime: Word { text: \"m\" }, in_param: None, conflicts: 1000000, \
         out_solution: None, out_cnf: None, out_log: None, undefined: Relational, cubes: Some(3) }",
    ),
    (
        "--task explain --in-eprime m --in-param p",
        "Explain { in_eprime: Word { text: \"m\" }, in_param: Some(Word { text: \"p\" }), conflicts: 1000000, \
         undefined: Relational }",
    ),
    (
        "--task explain --conflicts 7 --in-eprime m --undefined strict",
        "Explain { in_eprime: Word { text: \"m\" }, in_param: None, conflicts: 7, undefined: Strict }",
    ),
    (
        "--task opb --in-opb o --conflicts 7",
        "Opb { in_opb: Word { text: \"o\" }, conflicts: 7 }",
    ),
    (
        "--task enumerate --in-eprime m --solutions all",
        "Enumerate { in_eprime: Word { text: \"m\" }, in_param: None, solutions: 1000000, \
         conflicts: 1000000, out_solution: None, out_cnf: None, out_log: None, undefined: Relational }",
    ),
    (
        "--task enumerate --in-eprime m --solutions 2 --undefined=strict",
        "Enumerate { in_eprime: Word { text: \"m\" }, in_param: None, solutions: 2, \
         conflicts: 1000000, out_solution: None, out_cnf: None, out_log: None, undefined: Strict }",
    ),
    (
        "--task=verify --in-eprime m --in-solution s --undefined relational",
        "Verify { in_eprime: Word { text: \"m\" }, in_solution: Word { text: \"s\" }, in_param: None, \
         undefined: Relational }",
    ),
    (
        "--task verify --in-eprime m --undefined strict --in-solution s",
        "Verify { in_eprime: Word { text: \"m\" }, in_solution: Word { text: \"s\" }, in_param: None, \
         undefined: Strict }",
    ),
    (
        "--task check --in-cnf k.cnf --in-log k.lrat --workers 64",
        "Check { in_cnf: Word { text: \"k.cnf\" }, in_log: Word { text: \"k.lrat\" }, workers: 64 }",
    ),
    (
        "--task generate --number 0",
        "Generate { number: 0, conflicts: 1000000, out_eprime: None, out_param: None }",
    ),
];

/// Lines that are no command.
const NO_COMMANDS: [&str; 36] = [
    "--task solve",
    "",
    "--in-eprime m --conflicts 0",
    "--in-eprime m --conflicts 1000000001",
    "--in-eprime m --conflicts 00000000001",
    "--in-eprime m --conflicts +1",
    "--in-eprime m --solutions 2",
    "--in-eprime m --in-eprime m",
    "--in-eprime m n",
    "--in-eprime",
    "--in-eprime=",
    "--in-eprime -m",
    "--in-eprime -",
    "--in-eprime  m",
    "--in-eprime --out-cnf c",
    "--in-eprim m",
    "-in-eprime m",
    "--in-eprime m --",
    "--in-eprime m --help",
    "--in-eprime m --undefined lax",
    "--in-eprime m --undefined=",
    "--in-eprime m --undefined strict --undefined strict",
    "--in-eprime m --cubes 7",
    "--in-eprime m --cubes 0",
    "--task enumerate --in-eprime m --solutions all --cubes 2",
    "--task explain --in-param p",
    "--task explain --in-eprime m --out-log l",
    "--task opb",
    "--task opb --in-opb o --in-eprime m",
    "--in-eprime m --in-opb o",
    "--task verify --in-eprime m",
    "--task check --in-cnf k --in-log l --workers 65",
    "--task check --in-cnf k --in-log l --undefined strict",
    "--task generate --number 1000000001",
    "--task generate --number 0 --undefined relational",
    "--task other --in-eprime m",
];

#[test]
fn lines_ask_for_jobs(rt: HostRuntime) -> Result<(), Fail> {
    for (line, wanted) in COMMANDS {
        let answer = answer_to(rt.alloc(), line)?;
        assert_eq!(rt; answer.as_str(), wanted, "at {line}");
    }
    Ok(())
}

#[test]
fn other_lines_ask_for_none(rt: HostRuntime) -> Result<(), Fail> {
    for line in NO_COMMANDS {
        let answer = answer_to(rt.alloc(), line)?;
        assert_eq!(rt; answer.as_str(), "usage", "at {line}");
    }
    Ok(())
}
