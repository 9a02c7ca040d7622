//! Which tokens may stand behind the beginning of a text.

use crate::refusals::{LANGUAGE, of_model, of_params};
use ep_base::Place;
use std::alloc::Global;
use std::test::Fail;

/// Every token, names and numbers apart, and some names and numbers.
const TOKENS: &str =
    "language ESSENCE' given letting where find such that minimising minimizing maximising maximizing branching on heuristic be domain matrix indexed by of int bool union intersect in toInt toSet flatten forAll exists sum product and or min max allDiff gcc atleast atmost table factorial true false ( ) [ ] , ; : . .. | + - * ** / % ! = != < <= > >= /\\ \\/ -> <-> <lex <=lex >lex >=lex x y1 0 1 7";

/// What a word of a row stands for: some tokens, or itself.
fn meant(word: &str) -> &str {
    match word {
        "NAME" => "x y1",
        "EXPR" =>
            "toInt flatten forAll exists sum product and or min max allDiff gcc atleast atmost table factorial true false ( [ | - ! x y1 0 1 7",
        "DOMAIN" => "int bool ( x y1",
        "STAT" =>
            "given letting where find such branching heuristic minimising minimizing maximising maximizing",
        "OTHER" => "given letting where find such branching heuristic",
        "SET" => "union intersect -",
        "LOGIC" => "/\\ \\/ -> <->",
        "SUM" => "+ - * ** / % [",
        "COMPARE" => "= != < <= > >= in <lex <=lex >lex >=lex",
        _ => word,
    }
}

/// Whether a token is among some that are parted by blanks.
fn is_among(words: &str, token: &str) -> bool {
    for word in words.split(' ') {
        if word == token {
            return true;
        }
    }
    false
}

/// Whether a row's words allow a token.
fn is_allowed(words: &str, token: &str) -> bool {
    for word in words.split(' ') {
        if is_among(meant(word), token) {
            return true;
        }
    }
    false
}

/// Whether what is said refuses the token behind so many bytes of a line.
fn is_refused(said: (&'static str, Place), line: u64, length: usize) -> bool {
    let column = match u64::try_from(length) {
        Ok(column) => column.saturating_add(1),
        Err(_) => 0,
    };
    said.0 == "F2" && said.1 == Place { line, column }
}

/// How texts are read.
#[derive(Clone, Copy)]
enum Reader {
    /// As models, behind the first line.
    Behind,
    /// As models.
    Whole,
    /// As parameters.
    Params,
}

/// What is said of a text that a token ends behind a beginning, and in which line it stands.
fn said_behind(
    alloc: Global,
    reader: Reader,
    beginning: &str,
    token: &str,
) -> Result<((&'static str, Place), u64), Fail> {
    let front = match reader {
        Reader::Behind => LANGUAGE,
        _ => "",
    };
    let text = format!(in alloc; "{front}{beginning}{token}")?;
    Ok(match reader {
        Reader::Behind => (of_model(alloc, text.as_bytes()), 2),
        Reader::Whole => (of_model(alloc, text.as_bytes()), 1),
        Reader::Params => (of_params(alloc, text.as_bytes()), 1),
    })
}

/// Whether just those tokens are refused behind a beginning that words don't allow.
fn goes_on(alloc: Global, reader: Reader, beginning: &str, words: &str) -> Result<bool, Fail> {
    for token in TOKENS.split(' ') {
        let (said, line) = said_behind(alloc, reader, beginning, token)?;
        if is_refused(said, line, beginning.len()) == is_allowed(words, token) {
            return Ok(false);
        }
    }
    Ok(true)
}

/// The first row of a table of which some token is refused and allowed, or neither. Behind the `#` of a row
/// stand the tokens that may follow the beginning in front of it.
fn first_row(alloc: Global, reader: Reader, table: &str) -> Result<Option<&str>, Fail> {
    for row in table.lines() {
        let (beginning, words) = row.split_once('#').unwrap_or((row, ""));
        if !goes_on(alloc, reader, beginning, words)? {
            return Ok(Some(row));
        }
    }
    Ok(None)
}

/// Beginnings of statements.
const STATEMENTS: &str = "# STAT
given # NAME
given x # , :
given x , # NAME
given x , y # , :
given x : # DOMAIN matrix
given x : bool # , SET STAT
given x : bool , # NAME
find # NAME
find x # , :
find x : # DOMAIN matrix
find x : y # , SET STAT
letting # NAME
letting x # : be =
letting x : # DOMAIN matrix
letting x : y # be = SET
letting x : y be # EXPR
letting x be # EXPR domain
letting x = # EXPR domain
letting x be domain # DOMAIN matrix
letting x be domain y # SET STAT
letting x be 1 # SUM COMPARE LOGIC STAT
where # EXPR STAT
where true # , SUM COMPARE LOGIC STAT
where true , # EXPR STAT
such # that
such that # EXPR STAT
such that true # , SUM COMPARE LOGIC STAT
such that true , # EXPR STAT
minimising # EXPR
maximizing # EXPR
minimising x # SUM COMPARE LOGIC OTHER
minimising x find y : int # ( , SET OTHER
minimising x such that y # , SUM COMPARE LOGIC OTHER
branching # on
branching on # [
branching on [ # NAME ]
branching on [ x # , ]
branching on [ x , # NAME
branching on [ x ] # STAT
branching on [ ] # STAT
heuristic # NAME
heuristic x # STAT";

/// Beginnings of domains.
const DOMAINS: &str = "find x : int # ( , SET STAT
find x : int ( # EXPR ..
find x : int ( 1 # , .. ) SUM COMPARE LOGIC
find x : int ( 1 .. # EXPR , )
find x : int ( 1 .. 2 # , ) SUM COMPARE LOGIC
find x : int ( .. # EXPR , )
find x : int ( .. 2 # , ) SUM COMPARE LOGIC
find x : int ( 1 , # EXPR ..
find x : int ( .. , # EXPR ..
find x : int ( 1 ) # , SET STAT
find x : y union # DOMAIN
find x : y - # DOMAIN
find x : y - z # , SET STAT
find x : ( # DOMAIN
find x : ( y # ) SET
find x : ( int # ( ) SET
find x : ( y ) # , SET STAT
find x : matrix # indexed
find x : matrix indexed # by
find x : matrix indexed by # [
find x : matrix indexed by [ # DOMAIN
find x : matrix indexed by [ y # , ] SET
find x : matrix indexed by [ int # ( , ] SET
find x : matrix indexed by [ y , # DOMAIN
find x : matrix indexed by [ y ] # of
find x : matrix indexed by [ y ] of # DOMAIN matrix
find x : matrix indexed by [ y ] of z # , SET STAT
find x : matrix indexed by [ y ] of matrix indexed by [ z ] of bool # , SET STAT";

/// Beginnings of operators and quantifiers.
const OPERATORS: &str = "such that x # , SUM COMPARE LOGIC STAT
such that 1 # , SUM COMPARE LOGIC STAT
such that ! # EXPR
such that - # EXPR
such that ! x # , SUM COMPARE LOGIC STAT
such that x + # EXPR
such that x - # EXPR
such that x * # EXPR
such that x / # EXPR
such that x % # EXPR
such that x ** # EXPR
such that x /\\ # EXPR
such that x \\/ # EXPR
such that x -> # EXPR
such that x <-> # EXPR
such that x = # EXPR
such that x >= # EXPR
such that x <=lex # EXPR
such that x + y # , SUM COMPARE LOGIC STAT
such that x = y # , SUM LOGIC STAT
such that x < y + 1 # , SUM LOGIC STAT
such that x = y ** - z # , SUM LOGIC STAT
such that x >lex y # , SUM LOGIC STAT
such that x = y /\\ z # , SUM COMPARE LOGIC STAT
such that x = y -> z # , SUM COMPARE LOGIC STAT
such that x in # DOMAIN toSet
such that x in y # , SET LOGIC STAT
such that x in y - # DOMAIN
such that x in int # ( , SET LOGIC STAT
such that x in int ( 1 ) # , SET LOGIC STAT
such that x in bool \\/ y # , SUM COMPARE LOGIC STAT
such that x in toSet # (
such that x in toSet ( # EXPR
such that x in toSet ( y # ) SUM COMPARE LOGIC
such that x in toSet ( y ) # , LOGIC STAT
such that forAll # NAME
such that exists # NAME
such that sum # NAME (
such that forAll x # , :
such that forAll x , # NAME
such that forAll x : # DOMAIN
such that forAll x : y # . SET
such that forAll x : int # ( . SET
such that forAll x : y . # EXPR
such that forAll x : y . z # , SUM COMPARE LOGIC STAT
such that forAll x : y . z = w # , SUM LOGIC STAT
such that forAll x : y . z in w # , SET LOGIC STAT
such that 1 = sum x : y . z # , SUM COMPARE LOGIC STAT
such that 1 = sum x : y . z = w # , SUM LOGIC STAT
such that 1 + sum x : y . z = w # , SUM LOGIC STAT
such that x /\\ forAll x : y . z # , SUM COMPARE LOGIC STAT
such that ( forAll x : y . z = w ) # , SUM COMPARE LOGIC STAT
such that 1 = ( sum x : y . z ) # , SUM LOGIC STAT";

/// Beginnings of operands.
const OPERANDS: &str = "such that ( # EXPR
such that ( x # ) SUM COMPARE LOGIC
such that ( x = y # ) SUM LOGIC
such that ( x ) # , SUM COMPARE LOGIC STAT
such that | # EXPR
such that | x # | SUM COMPARE LOGIC
such that | x | # , SUM COMPARE LOGIC STAT
such that | | x | # | SUM COMPARE LOGIC
such that [ # EXPR ] ;
such that [ x # , ; ] | SUM COMPARE LOGIC
such that [ x , # EXPR
such that [ x , y # , ; ] SUM COMPARE LOGIC
such that [ x , y ; # DOMAIN
such that [ ; # DOMAIN
such that [ ; x # ] SET
such that [ ; x ] # , SUM COMPARE LOGIC STAT
such that [ ] # , SUM COMPARE LOGIC STAT
such that m [ # EXPR ..
such that m [ x # , ] SUM COMPARE LOGIC
such that m [ .. # , ]
such that m [ .. , # EXPR ..
such that m [ x ] # , SUM COMPARE LOGIC STAT
such that m [ .. ] [ # EXPR ..
such that toInt # (
such that toInt ( # EXPR
such that toInt ( x # ) SUM COMPARE LOGIC
such that toInt ( x ) # , SUM COMPARE LOGIC STAT
such that flatten # (
such that product # (
such that and # (
such that or ( x # ) SUM COMPARE LOGIC
such that sum ( # EXPR
such that sum ( x # ) SUM COMPARE LOGIC
such that allDiff ( x # ) SUM COMPARE LOGIC
such that factorial ( x # ) SUM COMPARE LOGIC
such that min # (
such that min ( # EXPR
such that min ( x # , ) SUM COMPARE LOGIC
such that max ( x # , ) SUM COMPARE LOGIC
such that max ( x , # EXPR
such that max ( x , y # ) SUM COMPARE LOGIC
such that max ( x , y ) # , SUM COMPARE LOGIC STAT
such that table # (
such that table ( x # , SUM COMPARE LOGIC
such that table ( x , # EXPR
such that table ( x , y # ) SUM COMPARE LOGIC
such that gcc # (
such that gcc ( x # , SUM COMPARE LOGIC
such that atleast ( x , y # , SUM COMPARE LOGIC
such that atmost ( x , y , # EXPR
such that gcc ( x , y , z # ) SUM COMPARE LOGIC
such that gcc ( x , y , z ) # , SUM COMPARE LOGIC STAT";

/// Beginnings of comprehensions, in which names may yet become a generator's or conditions.
const COMPREHENSIONS: &str = "such that [ x | # NAME
such that [ x | i # , :
such that [ x | i , # NAME
such that [ x | i , j # , :
such that [ x | i : # DOMAIN
such that [ x | i : y # , ; ] SET
such that [ x | i : int # ( , ; ] SET
such that [ x | i : y , # EXPR
such that [ x | i : y , z # , : ; ] SUM COMPARE LOGIC
such that [ x | i : y , z , # EXPR
such that [ x | i : y , z , w # , : ; ] SUM COMPARE LOGIC
such that [ x | i : y , z , w : # DOMAIN
such that [ x | i : y , z , w : v # , ; ] SET
such that [ x | i : y , z , w : v , u # , : ; ] SUM COMPARE LOGIC
such that [ x | i : y , 1 # , ; ] SUM COMPARE LOGIC
such that [ x | i : y , 1 , # EXPR
such that [ x | i : y , 1 , w # , ; ] SUM COMPARE LOGIC
such that [ x | i : y , z , 1 # , ; ] SUM COMPARE LOGIC
such that [ x | i : y , z , 1 , w # , ; ] SUM COMPARE LOGIC
such that [ x | i : y , z + 1 # , ; ] SUM COMPARE LOGIC
such that [ x | i : y , z + 1 , w # , ; ] SUM COMPARE LOGIC
such that [ x | i : y , z [ 1 ] , w # , ; ] SUM COMPARE LOGIC
such that [ x | i : y , ( z ) , w # , ; ] SUM COMPARE LOGIC
such that [ x | i : y , z = w # , ; ] SUM LOGIC
such that [ x | i : y , z , w = v # , ; ] SUM LOGIC
such that [ x | i : y ; # DOMAIN
such that [ x | i : y ; z # ] SET
such that [ x | i : y , z , w ; v # ] SET
such that [ x | i : y ] # , SUM COMPARE LOGIC STAT
such that [ x | i : y , z ] # , SUM COMPARE LOGIC STAT";

/// Beginnings of models.
const MODELS: &str = "# language
language # ESSENCE'
language ESSENCE' # 1
language ESSENCE' 1 # .
language ESSENCE' 1 . # 0
language ESSENCE' 1 . 0 # STAT";

/// Beginnings of parameters.
const PARAMS: &str = "# language letting
language # ESSENCE'
language ESSENCE' # 1
language ESSENCE' 1 # .
language ESSENCE' 1 . # 0
language ESSENCE' 1 . 0 # letting
letting # NAME
letting x # : be =
letting x : y # be = SET
letting x be # EXPR domain
letting x be 1 # SUM COMPARE LOGIC letting
letting x be domain # DOMAIN matrix
letting x be domain y # SET letting
letting x be domain y letting # NAME";

/// Tables of whole texts, statements and domains, with how their rows are read.
const STATEMENT_TABLES: [(Reader, &str); 4] = [
    (Reader::Behind, STATEMENTS),
    (Reader::Behind, DOMAINS),
    (Reader::Whole, MODELS),
    (Reader::Params, PARAMS),
];

/// Also, a row with fewer or with more tokens is found.
#[test]
fn statements_and_domains_go_on_with_these_tokens(rt: HostRuntime) -> Result<(), Fail> {
    let alloc = rt.alloc();
    for (reader, table) in STATEMENT_TABLES {
        assert_eq!(rt; first_row(alloc, reader, table)?, None);
    }
    for row in ["given x # ,", "given x # , : ="] {
        assert_eq!(rt; first_row(alloc, Reader::Behind, row)?, Some(row));
    }
    Ok(())
}

#[test]
fn operators_go_on_with_these_tokens(rt: HostRuntime) -> Result<(), Fail> {
    assert_eq!(rt; first_row(rt.alloc(), Reader::Behind, OPERATORS)?, None);
    Ok(())
}

#[test]
fn operands_and_comprehensions_go_on_with_these_tokens(rt: HostRuntime) -> Result<(), Fail> {
    for table in [OPERANDS, COMPREHENSIONS] {
        assert_eq!(rt; first_row(rt.alloc(), Reader::Behind, table)?, None);
    }
    Ok(())
}
