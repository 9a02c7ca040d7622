//! Texts that are cut behind each of their tokens, and texts with a foreign token there.

use crate::refusals::{LANGUAGE, of_model, of_params};
use ep_base::Place;
use std::alloc::Global;
use std::test::Fail;

/// A token that no text has behind its first line.
const FOREIGN: &str = " ESSENCE'";

/// The column behind a row of so many bytes, of which so many stand in front of it.
fn column_behind(length: usize, front: usize) -> u64 {
    match u64::try_from(length.saturating_sub(front)) {
        Ok(column) => column.saturating_add(1),
        Err(_) => 0,
    }
}

/// Whether the tokens so far are refused at their end, or are whole where they may be.
fn is_cut(said: (&'static str, Place), line: u64, column: u64, may_end: bool) -> bool {
    if may_end {
        return said.0 == "fine";
    }
    said.0 == "F2" && said.1 == Place { line, column }
}

/// Whether a model is refused at its end, or is whole where it may be, and a foreign token behind it is refused at its place.
fn is_cut_there(alloc: Global, text: &str, may_end: bool) -> Result<bool, Fail> {
    let column = column_behind(text.len(), LANGUAGE.len());
    if !is_cut(of_model(alloc, text.as_bytes()), 2, column, may_end) {
        return Ok(false);
    }
    let longer = format!(in alloc; "{text}{FOREIGN}")?;
    let foreign = of_model(alloc, longer.as_bytes());
    Ok(is_cut(foreign, 2, column.saturating_add(1), false))
}

/// Whether a model whose row is cut behind each word is refused at its end, except behind a word with the
/// mark `@`, where it is whole; and a foreign token behind each word is refused at its place.
fn is_right(alloc: Global, row: &str) -> Result<bool, Fail> {
    let mut text = String::from_str(alloc, LANGUAGE)?;
    for word in row.split(' ') {
        if text.as_str().len() > LANGUAGE.len() {
            text.push_str(" ")?;
        }
        text.push_str(word.strip_suffix("@").unwrap_or(word))?;
        if !is_cut_there(alloc, text.as_str(), word.ends_with("@"))? {
            return Ok(false);
        }
    }
    Ok(true)
}

/// The first row of a table that isn't right.
fn first_uncut(alloc: Global, table: &str) -> Result<Option<&str>, Fail> {
    for row in table.lines() {
        if !is_right(alloc, row)? {
            return Ok(Some(row));
        }
    }
    Ok(None)
}

/// Statements. A mark stands behind each word with which they may end.
const STATEMENTS: &str = "given n , m : bool@ , k : D@
find x : int@ ( 1 .. 2 , 3 .. , .. 4 , .. , 5 )@
find x : matrix indexed by [ D , ( E ) ] of matrix indexed by [ F ] of G@
find x : D@ union E@ intersect ( F - G )@ - bool@
letting c be 1@
letting c = x@ = y@
letting c : D = 1@
letting c : matrix indexed by [ D ] of int be x@
letting D be domain E@ union F@
letting D = domain matrix indexed by [ D ] of bool@
where@ x@ ,@ y@ ,@
such that@ x@ ,@ y@ ,@
such that@ such that@ where@ find x : D@
minimising x@
minimizing x@ + 1@
maximising x@ such that@
maximizing - x@
branching on [ ]@
branching on [ x , y ]@
heuristic static@ heuristic x@
given n : int@ ( 1 .. )@ letting m be n@ find x : int@ ( .. m )@ such that@ x@ = m@ minimising x@";

/// Expressions. A mark stands behind each word with which they may end.
const EXPRESSIONS: &str = "such that@ 1@ + 2@ - 3@ * 4@ / 5@ % 6@ ** 7@
such that@ ! - ! x@ -> ! y@
such that@ a@ -> b@ <-> c@ \\/ d@ /\\ e@ = f@
such that@ a@ != b@ \\/ c@ < d@ \\/ e@ <= f@ \\/ g@ > h@ \\/ i@ >= j@
such that@ a@ <lex b@ /\\ c@ <=lex d@ /\\ e@ >lex f@ /\\ g@ >=lex h@
such that@ a@ in D@ union ( E - bool )@ /\\ b@
such that@ a@ in int@ ( 1 .. 2 )@ - E@ -> b@
such that@ a@ in toSet ( b - 1 )@ /\\ c@
such that@ forAll i , j : D . a@
such that@ exists i : int . sum j : bool union E . a@ /\\ b@
such that@ ( forAll i : D . a + 1 )@ = b@
such that@ ( ( a ) )@
such that@ | a |@
such that@ | | a | + 1 |@ - b@
such that@ [ ]@
such that@ [ ; D ]@
such that@ [ a ]@ [ 1 ]@
such that@ [ a , b ; D - E ]@
such that@ [ a | i : D ]@
such that@ [ a | i , j : D , k : E , c , d ; F ]@
such that@ [ a | i : D , j , k , l : E , c + 1 , d ]@
such that@ m@ [ 1 , .. ]@ [ 2 + x ]@ [ .. ]@ = n@
such that@ toInt ( a )@ + flatten ( b )@ + sum ( c )@ + product ( d )@ + and ( e )@
such that@ or ( a )@ + min ( b )@ + max ( c )@ + allDiff ( d )@ + factorial ( e + 1 )@
such that@ min ( a , b )@ + max ( c - 1 , d )@ + table ( [ e ] , f )@
such that@ gcc ( a , b , c )@ /\\ atleast ( d , e , f )@ /\\ atmost ( g , h , i )@
such that@ true@ = false@ ,@ 0@
such that@ [ toInt ( a [ 1 ] ) | i : ( D ) ]@
such that@ sum ( [ x [ i ] | i : int ( 1 .. n ) , i % 2 = 0 ] )@ <= max ( y )@";

/// First lines.
const FIRST_LINES: &str = "language
language ESSENCE'
language ESSENCE' 1
language ESSENCE' 1.
language ESSENCE' 1.0@";

/// Whether a first line is refused at its end as a model and as parameters, or is whole where it has a mark.
fn is_first_line(alloc: Global, row: &str) -> bool {
    let text = row.strip_suffix("@").unwrap_or(row);
    let column = column_behind(text.len(), 0);
    let may_end = row.ends_with("@");
    is_cut(of_model(alloc, text.as_bytes()), 1, column, may_end)
        && is_cut(of_params(alloc, text.as_bytes()), 1, column, may_end)
}

/// A row with a wrong mark is found, too.
#[test]
fn texts_are_cut_behind_each_token(rt: HostRuntime) -> Result<(), Fail> {
    let alloc = rt.alloc();
    for table in [STATEMENTS, EXPRESSIONS] {
        assert_eq!(rt; first_uncut(alloc, table)?, None);
    }
    for row in FIRST_LINES.lines() {
        assert!(rt; is_first_line(alloc, row), "{row}");
    }
    assert_eq!(rt; of_params(alloc, b"").0, "fine");
    for row in ["such that@ x", "find x : int@ (@ 1 )@"] {
        assert_eq!(rt; first_uncut(alloc, row)?, Some(row));
    }
    Ok(())
}
