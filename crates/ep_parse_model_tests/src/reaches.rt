//! How far expressions and domains of at most a height reach in the tokens of a text.

use ep_lexer::lex;
use ep_parse_parts::{Cursor, DomainLevel, Level, Stop};
use ep_parse_trees::{domain, expr};
use std::alloc::Global;
use std::test::Fail;

/// How far an expression of at most a height reaches, or where it is refused.
fn reach(alloc: Global, text: &[u8], most: u64) -> Result<(&'static str, usize), Fail> {
    let Ok(tokens) = lex(alloc, text) else {
        return Ok(("no tokens", 0));
    };
    let mut cursor = Cursor::new(text, &tokens);
    let read = expr(alloc, &mut cursor, Level::Implications, most);
    Ok((ending(&read), tokens.len().saturating_sub(cursor.len())))
}

/// How a reading ended, in a word.
fn ending<T>(read: &Result<T, Stop>) -> &'static str {
    match read {
        Ok(_) => "read",
        Err(Stop::Wrong) => "wrong",
        Err(Stop::TooHigh) => "too high",
        Err(Stop::Memory) => "memory",
    }
}

/// How far a domain of at most a height reaches, or where it is refused.
fn domain_reach(alloc: Global, text: &[u8], most: u64) -> Result<(&'static str, usize), Fail> {
    let Ok(tokens) = lex(alloc, text) else {
        return Ok(("no tokens", 0));
    };
    let mut cursor = Cursor::new(text, &tokens);
    let read = domain(alloc, &mut cursor, DomainLevel::Domains, most);
    Ok((ending(&read), tokens.len().saturating_sub(cursor.len())))
}

/// The first row of a table that reaches otherwise. A row has a text, and behind a `#` the greatest height, how its reading ends and how far it reaches.
fn first_other(alloc: Global, is_domain: bool, table: &str) -> Result<Option<&str>, Fail> {
    for row in table.lines() {
        let (text, said) = row.split_once(" # ").unwrap_or((row, ""));
        let (most, wanted) = said.split_once(' ').unwrap_or((said, ""));
        let most = most.parse::<u64>()?;
        let (how, number) = if is_domain {
            domain_reach(alloc, text.as_bytes(), most)?
        } else {
            reach(alloc, text.as_bytes(), most)?
        };
        let found = format!(in alloc; "{how} {number}")?;
        if found.as_str() != wanted {
            return Ok(Some(row));
        }
    }
    Ok(None)
}

/// Expressions.
const EXPRESSIONS: &str = "1 # 256 read 1
x + 1 - y, z # 256 read 5
a -> b -> c # 256 read 5
a = b = c # 256 read 3
2 ** 3 ** 4 * 5 # 256 read 7
forAll i : int(1..3) . i = 1 /\\ b # 256 read 15
a /\\ b /\\ c \\/ d # 256 read 7
x in ] # 256 wrong 2
x in int(1..3) union D # 256 read 10
x in toSet(m) # 256 read 6
m[1, .., 2][3] # 256 read 11
m[1][2] # 256 read 7
m[..][2] # 256 read 7
[1, 2, 3] # 256 read 7
[] # 256 read 2
[ ; int(1..2)] # 256 read 9
[1, 2; int(1..2)] # 256 read 12
[1, 2,] # 256 wrong 5
[i | i : int(1..2), j, k : D, i < j] # 256 read 22
[i | i : D, j] # 256 read 9
sum([1, 2]) # 256 read 8
sum i : D . i # 256 read 6
min(1) # 256 read 4
min(1, 2) # 256 read 6
gcc(a, b, c) # 256 read 8
gcc(a, b) # 256 wrong 5
|x| + -y # 256 read 6
(a # 256 wrong 2
 # 256 wrong 0
a /\\ # 256 wrong 2";

/// Domains.
const DOMAINS: &str = "bool # 1 read 1
int # 1 read 1
int(1, 3..5, ..7, 9..) # 2 read 14
int(..) # 1 read 4
int(1) # 1 too high 2
int() # 2 wrong 2
(D) # 1 too high 0
D union int - (E) # 3 read 7
D union E union F # 2 too high 3
matrix indexed by [D, E] of int # 2 read 10
matrix indexed by [D] of matrix indexed by [E] of bool # 2 read 15
matrix indexed by [D of int # 2 wrong 5
matrix indexed [D] # 2 wrong 2
matrix # 1 too high 0
bool # 0 too high 0
1 # 0 wrong 0";

/// Expressions of small heights.
const HEIGHTS: &str = "1 # 0 too high 0
) # 0 wrong 0
1 # 1 read 1
(1) # 1 too high 0
(1) # 2 read 3
!a # 1 too high 0
1 + 2 # 1 too high 1
1 + 2 # 2 read 3
1 * 2 * 3 # 2 too high 3
[] # 1 read 2
[1] # 1 too high 1
m[1] # 1 too high 1
m[1][2] # 2 read 7
m[..][2] # 2 too high 4";

#[test]
fn expressions_and_domains_reach_as_far_as_they_can(rt: HostRuntime) -> Result<(), Fail> {
    for (is_domain, table) in [(false, EXPRESSIONS), (true, DOMAINS), (false, HEIGHTS)] {
        assert_eq!(rt; first_other(rt.alloc(), is_domain, table)?, None);
    }
    Ok(())
}

/// How the reading of an expression ends that is so many copies of a part, and a name.
fn ending_of(alloc: Global, part: &str, count: usize) -> Result<&'static str, Fail> {
    let mut text = Vec::new(alloc);
    for _ in 0..count {
        text.extend_from_slice(part.as_bytes())?;
    }
    text.push(b'x')?;
    let (how, _) = reach(alloc, &text, 256)?;
    Ok(how)
}

/// How far a list of an expression reaches that is ten thousand copies of a part, and a name, and of which nothing ends the list.
fn chain_reach(alloc: Global, part: &str) -> Result<(&'static str, usize), Fail> {
    let mut text = Vec::from_slice(alloc, b"[")?;
    for _ in 0..10_000 {
        text.extend_from_slice(part.as_bytes())?;
    }
    text.push(b'x')?;
    reach(alloc, &text, 3)
}

#[test]
fn the_greatest_height_is_read(rt: HostRuntime) -> Result<(), Fail> {
    let alloc = rt.alloc();
    for part in ["(", "!", "-", "[", "|", "forAll i : D . "] {
        assert_ne!(rt; ending_of(alloc, part, 255)?, "too high", "{part}");
        assert_eq!(rt; ending_of(alloc, part, 256)?, "too high", "{part}");
    }
    Ok(())
}

#[test]
fn long_chains_are_read(rt: HostRuntime) -> Result<(), Fail> {
    for part in ["x + ", "x /\\ ", "x \\/ ", "x, "] {
        let found = chain_reach(rt.alloc(), part)?;
        assert_eq!(rt; found, ("wrong", 20_002), "{part}");
    }
    Ok(())
}
