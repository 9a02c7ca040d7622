//! Printed texts, each beside its bytes.

use crate::{answers, listings, models, refusals, values};
use ep_base::Memory;
use std::alloc::Global;
use std::test::Fail;

/// What is printed in the end: refusals, values, answers, lists of solutions and models.
const TEXTS: [&str; 43] = [
    "fault usage\n",
    "fault F1 model 3:14\n",
    "fault F2 params 3:14\n",
    "fault F3 solution 3:14 y\n",
    "fault F4 model 3:14 y\n",
    "fault F5 model 3:14\n",
    "fault F6 model 3:14\n",
    "fault F7 model 3:14\n",
    "fault F8 n\n",
    "fault F9 n\n",
    "fault F10 model 3:14\n",
    "fault F11 1\n",
    "fault F12 5\n",
    "fault F13 2\n",
    "limit L1 cnf\n",
    "limit L2 log 3:14\n",
    "limit L3 model 3:14\n",
    "limit L4\n",
    "limit L5\n",
    "limit L6\n",
    "device read none.eprime\n",
    "device write k.cnf\n",
    "memory\n",
    "-7",
    "true",
    "[false, false; int(1..2)]",
    "[; int(1..0)]",
    "language ESSENCE' 1.0\n$ solution 1\nletting m be [[4, -5, 6; int(-1..0, 5)], [; int(1..0)]; int(1, 3)]\n$ complete\n",
    "language ESSENCE' 1.0\n$ solution 1\nletting m be [[true; int(0)], [false; int(0)]; int(-3..-2)]\n$ complete\n",
    "language ESSENCE' 1.0\n$ solution 1\nletting m be [1, 2, 3, 4, 5; int(2, 1..3, 3)]\n$ complete\n",
    "language ESSENCE' 1.0\n$ solution 1\nletting m be [-9223372036854775808; int(9223372036854775807)]\n$ complete\n",
    "language ESSENCE' 1.0\n$ no solution\n",
    "language ESSENCE' 1.0\n$ solution\nletting m be [; int(1..0)]\n",
    "language ESSENCE' 1.0\n$ optimum 9\nletting take be [true, true, false; int(1..3)]\n",
    "language ESSENCE' 1.0\n$ unknown 10 conflicts\n",
    "language ESSENCE' 1.0\n$ unknown 10 conflicts\n$ incumbent 7\nletting m be [; int(1..0)]\n",
    "language ESSENCE' 1.0\n$ solution\nletting m be [false, false; int(1..2)]\nletting i be 3\n",
    "language ESSENCE' 1.0\n$ solution 1\nletting x be 1\n$ solution 2\nletting x be -2\n$ complete\n",
    "language ESSENCE' 1.0\n$ solution 1\nletting x be 1\n$ solution 2\nletting x be -2\n",
    "language ESSENCE' 1.0\n$ solution 1\nletting x be 1\n$ solution 2\nletting x be -2\n$ unknown 10 conflicts\n",
    "language ESSENCE' 1.0\n$ no solution\n",
    "language ESSENCE' 1.0\nfind x : int ( 1 .. 3 )\nsuch that x > 2\n",
    "language ESSENCE' 1.0\nminimising x [ 1 , .. ]\nmaximising x [ 1 , .. ]\n",
];

/// The text of this number.
fn text(alloc: Global, number: usize) -> Result<Vec<u8>, Memory> {
    match number {
        0..=22 => refusals::line(alloc, number),
        23..=30 => values::text(alloc, number - 23),
        31..=36 => answers::text(alloc, number - 31),
        37..=40 => listings::text(alloc, number - 37),
        _ => models::text(alloc, number.saturating_sub(41)),
    }
}

#[test]
fn texts_have_their_bytes(rt: HostRuntime) -> Result<(), Fail> {
    for (number, wanted) in TEXTS.iter().enumerate() {
        let text = text(rt.alloc(), number)?;
        assert_eq!(rt; text.as_slice(), wanted.as_bytes());
    }
    Ok(())
}

/// A printer that isn't linear in its text wouldn't come to an end here.
#[test]
fn a_million_numbers_are_printed(rt: HostRuntime) -> Result<(), Fail> {
    let text = values::counting(rt.alloc(), 1_000_000)?;
    assert_eq!(rt; text.len(), 7_888_973);
    Ok(())
}
