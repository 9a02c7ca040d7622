//! Constraints as text.
//!
//! A constraint has words: its kind, and what it is made of. Numbers have commas between them, `-2..1` stands for all from -2 to 1, and `-` for none. Lists of numbers have `/`
//! between them, and `none` is no list.

use ep_base::{CompareOp, Key, LexOp, Run, Runs};
use ep_flat::{Con, ConKind};
use std::alloc::Global;
use std::test::Fail;

/// The numbers of a word.
pub(crate) fn numbers_of(alloc: Global, word: &str) -> Result<Vec<i64>, Fail> {
    let mut numbers = Vec::new(alloc);
    if word == "-" {
        return Ok(numbers);
    }
    for part in word.split(',') {
        match part.split_once("..") {
            Some((low, high)) => {
                for number in low.parse::<i64>()?..=high.parse::<i64>()? {
                    numbers.push(number)?;
                }
            }
            None => numbers.push(part.parse::<i64>()?)?,
        }
    }
    Ok(numbers)
}

/// The variables of a word.
fn variables_of(alloc: Global, word: &str) -> Result<Vec<u64>, Fail> {
    let mut variables = Vec::new(alloc);
    for number in &numbers_of(alloc, word)? {
        variables.push(number.unsigned_abs())?;
    }
    Ok(variables)
}

/// The lists of a word.
fn keys_of(alloc: Global, word: &str) -> Result<Vec<Key>, Fail> {
    let mut keys = Vec::new(alloc);
    if word == "none" {
        return Ok(keys);
    }
    for list in word.split('/') {
        keys.push(Key::new(numbers_of(alloc, list)?))?;
    }
    Ok(keys)
}

/// The numbers as a set.
pub(crate) fn set_of(alloc: Global, numbers: &[i64]) -> Result<Runs, Fail> {
    let mut runs = Vec::new(alloc);
    for number in numbers {
        runs.push(Run {
            lo: *number,
            hi: *number,
        })?;
    }
    Ok(Runs::new(alloc, runs)?)
}

/// Numbers and variables, one after the other, as pairs.
fn parts_of(alloc: Global, word: &str) -> Result<Vec<(i64, u64)>, Fail> {
    let mut parts = Vec::new(alloc);
    for pair in numbers_of(alloc, word)?.chunks(2) {
        if let [number, variable] = pair {
            parts.push((*number, variable.unsigned_abs()))?;
        }
    }
    Ok(parts)
}

/// The parts of a clause: 1 and a variable that is true, 0 and one that isn't.
fn clause_of(alloc: Global, word: &str) -> Result<Vec<(bool, u64)>, Fail> {
    let mut parts = Vec::new(alloc);
    for (number, variable) in &parts_of(alloc, word)? {
        parts.push((*number == 1, *variable))?;
    }
    Ok(parts)
}

fn compare_op(word: &str) -> CompareOp {
    match word {
        "=" => CompareOp::Equal,
        "!=" => CompareOp::NotEqual,
        "<" => CompareOp::Less,
        "<=" => CompareOp::AtMost,
        ">" => CompareOp::Greater,
        _ => CompareOp::AtLeast,
    }
}

fn lex_op(word: &str) -> LexOp {
    match word {
        "<" => LexOp::Less,
        "<=" => LexOp::AtMost,
        ">" => LexOp::Greater,
        _ => LexOp::AtLeast,
    }
}

/// The word at this place.
fn word_at<'a>(words: &[&'a str], place: usize) -> &'a str {
    match words.get(place) {
        Some(word) => word,
        None => "-",
    }
}

/// The variable that is the word at this place.
fn variable_at(words: &[&str], place: usize) -> Result<u64, Fail> {
    Ok(word_at(words, place).parse::<u64>()?)
}

/// A constraint that has a result, or says something of single variables.
fn single_of(alloc: Global, words: &[&str]) -> Result<ConKind, Fail> {
    let x = variable_at(words, 1)?;
    let second = word_at(words, 2);
    let kind = match word_at(words, 0) {
        "same" => ConKind::Same(x, variable_at(words, 2)?),
        "member" => ConKind::Member(x, set_of(alloc, &numbers_of(alloc, second)?)?),
        "absolute" => ConKind::Absolute(x, variable_at(words, 2)?),
        "least" => ConKind::Least(x, variables_of(alloc, second)?),
        "greatest" => ConKind::Greatest(x, variables_of(alloc, second)?),
        "element" => ConKind::Element(
            x,
            variables_of(alloc, second)?,
            keys_of(alloc, word_at(words, 3))?,
            variables_of(alloc, word_at(words, 4))?,
        ),
        name => operation_of(name, x, variable_at(words, 2)?, variable_at(words, 3)?),
    };
    Ok(kind)
}

/// A result of two numbers.
fn operation_of(name: &str, r: u64, x: u64, y: u64) -> ConKind {
    match name {
        "product" => ConKind::Product(r, x, y),
        "quotient" => ConKind::Quotient(r, x, y),
        "remainder" => ConKind::Remainder(r, x, y),
        _ => ConKind::Power(r, x, y),
    }
}

/// A constraint that counts.
fn counting_of(alloc: Global, words: &[&str]) -> Result<ConKind, Fail> {
    let xs = variables_of(alloc, word_at(words, 1))?;
    let second = word_at(words, 2);
    let third = word_at(words, 3);
    let kind = match word_at(words, 0) {
        "gcc" => ConKind::Gcc(xs, numbers_of(alloc, second)?, variables_of(alloc, third)?),
        "atleast" => ConKind::AtLeast(xs, numbers_of(alloc, second)?, numbers_of(alloc, third)?),
        _ => ConKind::AtMost(xs, numbers_of(alloc, second)?, numbers_of(alloc, third)?),
    };
    Ok(kind)
}

/// The constraint of these words.
fn kind_of(alloc: Global, words: &[&str]) -> Result<ConKind, Fail> {
    let first = word_at(words, 1);
    let second = word_at(words, 2);
    let third = word_at(words, 3);
    let kind = match word_at(words, 0) {
        "clause" => ConKind::Clause(clause_of(alloc, first)?),
        "all" => ConKind::All(variables_of(alloc, first)?),
        "linear" => ConKind::Linear(
            parts_of(alloc, first)?,
            compare_op(second),
            third.parse::<i64>()?,
        ),
        "alldiff" => ConKind::AllDiff(variables_of(alloc, first)?),
        "gcc" | "atleast" | "atmost" => counting_of(alloc, words)?,
        "table" => ConKind::Table(variables_of(alloc, first)?, keys_of(alloc, second)?),
        "lex" => ConKind::Lex(
            lex_op(first),
            variables_of(alloc, second)?,
            variables_of(alloc, third)?,
        ),
        _ => single_of(alloc, words)?,
    };
    Ok(kind)
}

/// The words of a text, with a space between any two.
fn words_of(alloc: Global, text: &str) -> Result<Vec<&str>, Fail> {
    let mut words = Vec::new(alloc);
    for word in text.split(' ') {
        if !word.is_empty() {
            words.push(word)?;
        }
    }
    Ok(words)
}

/// The constraint of a text, with the variable of its truth.
pub(crate) fn con_of(alloc: Global, text: &str, truth: Option<u64>) -> Result<Con, Fail> {
    let words = words_of(alloc, text)?;
    Ok(Con {
        truth,
        kind: kind_of(alloc, &words)?,
    })
}

/// The constraints of a text, with `&` between any two and this variable of their truth. `none` is no constraint.
pub(crate) fn cons_of(alloc: Global, text: &str, truth: Option<u64>) -> Result<Vec<Con>, Fail> {
    let mut cons = Vec::new(alloc);
    if text == "none" {
        return Ok(cons);
    }
    for said in text.split('&') {
        cons.push(con_of(alloc, said, truth)?)?;
    }
    Ok(cons)
}

/// The numbers that the variables may have, a word for each.
pub(crate) fn domains_of(alloc: Global, text: &str) -> Result<Vec<Vec<i64>>, Fail> {
    let mut domains = Vec::new(alloc);
    for word in &words_of(alloc, text)? {
        domains.push(numbers_of(alloc, word)?)?;
    }
    Ok(domains)
}
