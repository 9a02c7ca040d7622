//! Statements that are counted.

use ep_parse_model::parse_model;
use std::alloc::Global;
use std::test::Fail;

/// How many statements a model has, where it is read.
fn statements_of(alloc: Global, text: &str) -> Option<usize> {
    match parse_model(alloc, text.as_bytes()) {
        Ok(model) => Some(model.statements.len()),
        Err(_) => None,
    }
}

/// How many statements there are, and the text.
const COUNTED: &str = "0 language ESSENCE' 1.0
1 language ESSENCE' 01 . 00 branching on []
2 language ESSENCE' 1.0 branching on [x, y] heuristic z
3 language ESSENCE' 1.0 where such that where $ a comment
3 language ESSENCE' 1.0 such that heuristic _ branching on [a]";

#[test]
fn statements_without_parts_are_read(rt: HostRuntime) -> Result<(), Fail> {
    for row in COUNTED.lines() {
        let (count, text) = row.split_once(' ').unwrap_or(("", row));
        let count = count.parse::<usize>()?;
        assert_eq!(rt; statements_of(rt.alloc(), text), Some(count), "{text}");
    }
    Ok(())
}
