//! Whether a row of a table is right, and the tests over all tables.

use crate::deciding::{sizes, solutions};
use crate::meanings::is_met;
use crate::rows::{con_of, cons_of, domains_of, numbers_of, set_of};
use crate::tables::{
    CHOICES, COUNTS, OPERATIONS, ORDERS, PROBLEMS, SIZES, SUMS, TOLD_SIZES, TRUTHS, WIDE_SUMS,
};
use ep_flat::{Con, Flat};
use std::alloc::Global;
use std::test::Fail;

/// All lists with a number of each domain, in order.
fn all_lists(alloc: Global, domains: &[Vec<i64>]) -> Result<Vec<Vec<i64>>, Fail> {
    let mut lists = vec![in alloc; Vec::new(alloc)]?;
    for domain in domains {
        let mut longer = Vec::new(alloc);
        for list in &lists {
            for number in domain {
                let mut one = list.clone()?;
                one.push(*number)?;
                longer.push(one)?;
            }
        }
        lists = longer;
    }
    Ok(lists)
}

/// The lists that meet a constraint.
fn lists_that_meet(alloc: Global, domains: &[Vec<i64>], con: &Con) -> Result<Vec<Vec<i64>>, Fail> {
    let mut met = Vec::new(alloc);
    for list in all_lists(alloc, domains)? {
        if is_met(alloc, &list, con)? {
            met.push(list)?;
        }
    }
    Ok(met)
}

/// The problem with a variable for each domain, and these constraints.
fn flat_of(alloc: Global, domains: &[Vec<i64>], cons: Vec<Con>) -> Result<Flat, Fail> {
    let mut vars = Vec::new(alloc);
    for domain in domains {
        vars.push(set_of(alloc, domain)?)?;
    }
    Ok(Flat { vars, cons })
}

/// How many lists the solver finds that meet a constraint, where those are just the lists that do.
fn count_of(alloc: Global, domains: &[Vec<i64>], con: Con) -> Result<Option<usize>, Fail> {
    let met = lists_that_meet(alloc, domains, &con)?;
    let flat = flat_of(alloc, domains, vec![in alloc; con]?)?;
    let found = solutions(alloc, &flat, domains)?;
    if found != met {
        return Ok(None);
    }
    Ok(Some(found.len()))
}

/// Whether the solver finds the lists that meet a constraint with a variable of its truth, which is one more variable
/// with this domain.
fn is_told(alloc: Global, said: &str, domains: &[Vec<i64>], truth: &str) -> Result<bool, Fail> {
    let con = con_of(alloc, said, Some(domains.len() as u64))?;
    let mut more = Vec::new(alloc);
    for domain in domains {
        more.push(domain.clone()?)?;
    }
    more.push(numbers_of(alloc, truth)?)?;
    Ok(count_of(alloc, &more, con)?.is_some())
}

/// Whether as many lists meet the constraint of a row as it says, and all that meet it are found, without a variable of
/// its truth, with one that can be both, one that can't be 1, one that can't be 0, and one that stands in the constraint
/// itself.
fn is_right(alloc: Global, row: &str) -> Result<bool, Fail> {
    let (text, number) = row.split_once(" # ").unwrap_or((row, ""));
    let (said, sets) = text.split_once(" : ").unwrap_or((text, ""));
    let domains = domains_of(alloc, sets)?;
    let count = count_of(alloc, &domains, con_of(alloc, said, None)?)?;
    if count != Some(number.parse::<usize>()?) {
        return Ok(false);
    }
    let own = count_of(alloc, &domains, con_of(alloc, said, Some(0))?)?;
    Ok(
        own.is_some()
            && is_told(alloc, said, &domains, "0..1")?
            && is_told(alloc, said, &domains, "-1..0,2")?
            && is_told(alloc, said, &domains, "1,3")?,
    )
}

/// Whether a list meets all constraints.
fn meets_all(alloc: Global, list: &[i64], cons: &[Con]) -> Result<bool, Fail> {
    for con in cons {
        if !is_met(alloc, list, con)? {
            return Ok(false);
        }
    }
    Ok(true)
}

/// How many lists the solver finds that meet all constraints, where each that it finds does.
fn count_of_found(
    alloc: Global,
    domains: &[Vec<i64>],
    cons: Vec<Con>,
) -> Result<Option<usize>, Fail> {
    let flat = flat_of(alloc, domains, cons)?;
    let found = solutions(alloc, &flat, domains)?;
    for list in &found {
        if !meets_all(alloc, list, &flat.cons)? {
            return Ok(None);
        }
    }
    Ok(Some(found.len()))
}

/// Whether as many lists are found for the constraints of a row as it says.
fn has_so_many(alloc: Global, row: &str) -> Result<bool, Fail> {
    let (text, number) = row.split_once(" # ").unwrap_or((row, ""));
    let (said, sets) = text.split_once(" : ").unwrap_or((text, ""));
    let domains = domains_of(alloc, sets)?;
    let count = count_of_found(alloc, &domains, cons_of(alloc, said, None)?)?;
    Ok(count == Some(number.parse::<usize>()?))
}

/// Whether the formula of the constraints of a row, which all have this variable of their truth, is as large as it says.
fn is_so_large(alloc: Global, row: &str, truth: Option<u64>) -> Result<bool, Fail> {
    let (text, counts) = row.split_once(" # ").unwrap_or((row, ""));
    let (said, sets) = text.split_once(" : ").unwrap_or((text, ""));
    let (variables, clauses) = counts.split_once(" ").unwrap_or((counts, ""));
    let domains = domains_of(alloc, sets)?;
    let flat = flat_of(alloc, &domains, cons_of(alloc, said, truth)?)?;
    let found = sizes(alloc, &flat)?;
    Ok(found.0 == variables.parse::<u64>()? && found.1 == clauses.parse::<usize>()?)
}

/// What a table says of its rows.
#[derive(Clone, Copy)]
enum Says {
    /// How many lists meet a constraint.
    Lists,
    /// How many lists are found for some constraints.
    Found,
    /// How large a formula is.
    Size,
    /// The same where the first variable tells whether a constraint holds.
    ToldSize,
}

/// The first row of a table that isn't right.
fn first_wrong(alloc: Global, says: Says, table: &str) -> Result<Option<&str>, Fail> {
    for row in table.lines() {
        let is_so = match says {
            Says::Lists => is_right(alloc, row)?,
            Says::Found => has_so_many(alloc, row)?,
            Says::Size => is_so_large(alloc, row, None)?,
            Says::ToldSize => is_so_large(alloc, row, Some(0))?,
        };
        if !is_so {
            return Ok(Some(row));
        }
    }
    Ok(None)
}

/// The first row of some tables that isn't right.
fn first_wrong_of(
    alloc: Global,
    tables: &[(Says, &'static str)],
) -> Result<Option<&'static str>, Fail> {
    for (says, table) in tables {
        if let Some(row) = first_wrong(alloc, *says, *table)? {
            return Ok(Some(row));
        }
    }
    Ok(None)
}

/// Tables of truth values, lists and orders.
const LISTS: [(Says, &str); 4] = [
    (Says::Lists, TRUTHS),
    (Says::Lists, CHOICES),
    (Says::Lists, COUNTS),
    (Says::Lists, ORDERS),
];

/// Tables of numbers.
const NUMBERS: [(Says, &str); 3] = [
    (Says::Lists, SUMS),
    (Says::Lists, WIDE_SUMS),
    (Says::Lists, OPERATIONS),
];

/// Tables of problems and sizes.
const WHOLE: [(Says, &str); 3] = [
    (Says::Found, PROBLEMS),
    (Says::Size, SIZES),
    (Says::ToldSize, TOLD_SIZES),
];

#[test]
fn lists_are_as_said(rt: HostRuntime) -> Result<(), Fail> {
    assert_eq!(rt; first_wrong_of(rt.alloc(), &LISTS)?, None);
    Ok(())
}

#[test]
fn numbers_are_as_said(rt: HostRuntime) -> Result<(), Fail> {
    assert_eq!(rt; first_wrong_of(rt.alloc(), &NUMBERS)?, None);
    Ok(())
}

#[test]
fn problems_and_sizes_are_as_said(rt: HostRuntime) -> Result<(), Fail> {
    assert_eq!(rt; first_wrong_of(rt.alloc(), &WHOLE)?, None);
    Ok(())
}

/// Rows of which the second has another number.
const WRONG: &str = "all 0 : 0..1 # 1\nall 0 : 0..1 # 2\nall 0 : 0..1 # 1";

#[test]
fn a_row_with_a_wrong_number_is_found(rt: HostRuntime) -> Result<(), Fail> {
    for says in [Says::Lists, Says::Found] {
        let found = first_wrong(rt.alloc(), says, WRONG)?;
        assert_eq!(rt; found, Some("all 0 : 0..1 # 2"));
    }
    Ok(())
}
