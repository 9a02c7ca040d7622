//! Long and deep texts.

use crate::rows::{Rows, of_row};
use std::alloc::{AllocError, Global};
use std::test::Fail;

/// Texts of pieces: a long list, trees of the greatest height, and domains in one another, which are read once for all names.
pub(crate) const GREAT: &str = "fine 1~such that allDiff([0~200000~,1~1~])
F5 1~such that allDiff(@[0~1000~,1~1~,[]])
fine 1~such that ~255~!~1~true
F5 1~such that ~254~!~1~@!1
fine 1~such that 1 = ~60~sum([i | i, j, k : int(1..~1~1~60~)])";

/// So many names that are to be found.
fn names(alloc: Global, count: u64) -> Result<String, AllocError> {
    let mut text = String::from_str(alloc, "find a")?;
    for number in 0..count {
        let name = format!(in alloc; ", a{number}")?;
        text.push_str(name.as_str())?;
    }
    text.push_str(" : bool such that a99")?;
    Ok(text)
}

#[test]
fn many_names_are_declared(rt: HostRuntime) -> Result<(), Fail> {
    let text = names(rt.alloc(), 100_000)?;
    let said = of_row(rt.alloc(), Rows::Whole, text.as_str())?;
    assert_eq!(rt; said, ("fine", true));
    Ok(())
}
