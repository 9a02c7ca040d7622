//! Each form of the language with its values in both modes, as rows of tables.
//!
//! A row is an expression with its operators behind their parts, then what it is worth in the relational and in the strict
//! mode: a digit, a letter from `a` on for -1 and below, `.` for no value, and `!` for a limit.

use ep_base::{CompareOp, LexOp, Name, Place};
use ep_eval::{Env, EvalError, Seen, evaluate};
use ep_tree::{
    BinaryOp, Domain, DomainKind, Expr, FoldOp, Generator, Kind, Mode, QuantOp, Range, SetOp, Value,
};
use std::alloc::Global;
use std::test::Fail;

/// The expressions and domains that a row has begun.
#[derive(Drop)]
struct Begun {
    alloc: Global,
    parts: Vec<Expr>,
    starts: Vec<usize>,
    domains: Vec<Domain>,
}

/// A place that doesn't matter.
fn place() -> Place {
    Place { line: 1, column: 1 }
}

/// An expression at a place that doesn't matter.
fn placed(kind: Kind) -> Expr {
    Expr {
        place: place(),
        kind,
    }
}

/// The last part, and a truth value where there is none.
fn last_part(begun: &mut Begun) -> Expr {
    match begun.parts.pop() {
        Some(part) => part,
        None => placed(Kind::Truth(false)),
    }
}

/// The last part in a box.
fn boxed_part(begun: &mut Begun) -> Result<Box<Expr>, EvalError> {
    let part = last_part(begun);
    Ok(Box::new(begun.alloc, part)?)
}

/// The last domain, and that of truth values where there is none.
fn last_domain(begun: &mut Begun) -> Domain {
    match begun.domains.pop() {
        Some(domain) => domain,
        None => Domain {
            place: place(),
            kind: DomainKind::Bool,
        },
    }
}

/// The last domain in a box.
fn boxed_domain(begun: &mut Begun) -> Result<Box<Domain>, EvalError> {
    let domain = last_domain(begun);
    Ok(Box::new(begun.alloc, domain)?)
}

/// The operator of two numbers that a letter stands for.
fn binary_op(letter: u8) -> Option<BinaryOp> {
    match letter {
        b'*' => Some(BinaryOp::Mul),
        b'/' => Some(BinaryOp::Div),
        b'%' => Some(BinaryOp::Mod),
        b'^' => Some(BinaryOp::Pow),
        b'v' => Some(BinaryOp::Min),
        b'V' => Some(BinaryOp::Max),
        b'>' => Some(BinaryOp::Implies),
        b'@' => Some(BinaryOp::Iff),
        _ => None,
    }
}

/// The comparison that a letter stands for.
fn compare_op(letter: u8) -> Option<CompareOp> {
    match letter {
        b'=' => Some(CompareOp::Equal),
        b'~' => Some(CompareOp::NotEqual),
        b'<' => Some(CompareOp::Less),
        b'L' => Some(CompareOp::AtMost),
        b'G' => Some(CompareOp::Greater),
        b'H' => Some(CompareOp::AtLeast),
        _ => None,
    }
}

/// The comparison of lists that a letter stands for.
fn lex_op(letter: u8) -> Option<LexOp> {
    match letter {
        b'l' => Some(LexOp::Less),
        b'k' => Some(LexOp::AtMost),
        b'g' => Some(LexOp::Greater),
        b'h' => Some(LexOp::AtLeast),
        _ => None,
    }
}

/// The fold that a letter stands for.
fn fold_op(letter: u8) -> Option<FoldOp> {
    match letter {
        b'S' => Some(FoldOp::Sum),
        b'P' => Some(FoldOp::Product),
        b'A' => Some(FoldOp::And),
        b'O' => Some(FoldOp::Or),
        b'm' => Some(FoldOp::Min),
        b'M' => Some(FoldOp::Max),
        _ => None,
    }
}

/// The quantifier that a letter stands for: a small one over `i` and `j`.
fn quant_op(letter: u8) -> Option<QuantOp> {
    match letter {
        b'Q' | b'q' => Some(QuantOp::ForAll),
        b'W' | b'o' => Some(QuantOp::Exists),
        b'Z' | b'z' => Some(QuantOp::Sum),
        _ => None,
    }
}

/// The operation on domains that a letter stands for.
fn set_op(letter: u8) -> Option<SetOp> {
    match letter {
        b'u' => Some(SetOp::Union),
        b'n' => Some(SetOp::Intersect),
        b'w' => Some(SetOp::Minus),
        _ => None,
    }
}

/// A form of one part.
fn of_one(letter: u8, part: Box<Expr>) -> Kind {
    match letter {
        b'!' => Kind::Not(part),
        b'_' => Kind::Neg(part),
        b'a' => Kind::Abs(part),
        b'T' => Kind::ToInt(part),
        b'#' => Kind::Factorial(part),
        b'F' => Kind::Flatten(part),
        b'D' => Kind::AllDiff(part),
        _ => Kind::Group(part),
    }
}

/// A form of three parts.
fn of_three(letter: u8, first: Box<Expr>, second: Box<Expr>, third: Box<Expr>) -> Kind {
    match letter {
        b'c' => Kind::Gcc(first, second, third),
        b'C' => Kind::AtLeast(first, second, third),
        _ => Kind::AtMost(first, second, third),
    }
}

/// Puts a form of one part in place of its part.
fn add_one(begun: &mut Begun, letter: u8) -> Result<(), EvalError> {
    let part = boxed_part(begun)?;
    let kind = match fold_op(letter) {
        Some(op) => Kind::Fold(op, part),
        None => of_one(letter, part),
    };
    begun.parts.push(placed(kind))?;
    Ok(())
}

/// Puts a form of two parts in place of its parts.
fn add_two(begun: &mut Begun, letter: u8) -> Result<(), EvalError> {
    let right = boxed_part(begun)?;
    let left = boxed_part(begun)?;
    let kind = if let Some(op) = binary_op(letter) {
        Kind::Binary(op, left, right)
    } else if let Some(op) = compare_op(letter) {
        Kind::Compare(op, left, right)
    } else if let Some(op) = lex_op(letter) {
        Kind::Lex(op, left, right)
    } else if letter == b'E' {
        Kind::InSet(left, right)
    } else {
        Kind::Table(left, right)
    };
    begun.parts.push(placed(kind))?;
    Ok(())
}

/// Puts a form of three parts in place of its parts.
fn add_three(begun: &mut Begun, letter: u8) -> Result<(), EvalError> {
    let third = boxed_part(begun)?;
    let second = boxed_part(begun)?;
    let first = boxed_part(begun)?;
    begun
        .parts
        .push(placed(of_three(letter, first, second, third)))?;
    Ok(())
}

/// Puts a chain in place of its two parts.
fn add_chain(begun: &mut Begun, letter: u8) -> Result<(), EvalError> {
    let right = last_part(begun);
    let left = last_part(begun);
    let mut terms = Vec::new(begun.alloc);
    terms.push((true, left))?;
    terms.push((letter == b'+', right))?;
    begun.parts.push(placed(Kind::Add(terms)))?;
    Ok(())
}

/// Puts a conjunction or a disjunction in place of its two parts.
fn add_truths(begun: &mut Begun, letter: u8) -> Result<(), EvalError> {
    let right = last_part(begun);
    let left = last_part(begun);
    let mut parts = Vec::new(begun.alloc);
    parts.push(left)?;
    parts.push(right)?;
    let kind = if letter == b'&' {
        Kind::And(parts)
    } else {
        Kind::Or(parts)
    };
    begun.parts.push(placed(kind))?;
    Ok(())
}

/// Puts a read in place of a matrix and its indices: one, two, or `..` and one.
fn add_read(begun: &mut Begun, letter: u8) -> Result<(), EvalError> {
    let last = last_part(begun);
    let mut indices = Vec::new(begun.alloc);
    if letter == b'R' {
        let first = last_part(begun);
        indices.push(Some(first))?;
    }
    if letter == b's' {
        indices.push(None)?;
    }
    indices.push(Some(last))?;
    let matrix = boxed_part(begun)?;
    begun.parts.push(placed(Kind::Read(matrix, indices)))?;
    Ok(())
}

/// Puts a list in place of the parts since it began, with the last domain for its indices where one is asked for.
fn add_list(begun: &mut Begun, letter: u8) -> Result<(), EvalError> {
    let domain = if letter == b';' {
        Some(boxed_domain(begun)?)
    } else {
        None
    };
    let start = begun.starts.pop().unwrap_or(0);
    let mut parts = Vec::new(begun.alloc);
    for _ in start..begun.parts.len() {
        parts.push(last_part(begun))?;
    }
    parts.reverse();
    begun.parts.push(placed(Kind::Literal(parts, domain)))?;
    Ok(())
}

/// The name `i`, or the names `i` and `j`.
fn names_of(alloc: Global, has_two: bool) -> Result<Vec<Name>, EvalError> {
    let mut names = Vec::new(alloc);
    names.push(Name::new(alloc, "i")?)?;
    if has_two {
        names.push(Name::new(alloc, "j")?)?;
    }
    Ok(names)
}

/// Puts a quantifier over `i`, or over `i` and `j`, in place of its body, over the last domain.
fn add_quantifier(begun: &mut Begun, op: QuantOp, has_two: bool) -> Result<(), EvalError> {
    let body = boxed_part(begun)?;
    let domain = boxed_domain(begun)?;
    let names = names_of(begun.alloc, has_two)?;
    begun
        .parts
        .push(placed(Kind::Quant(op, names, domain, body)))?;
    Ok(())
}

/// A generator of one name over the last domain.
fn generator(begun: &mut Begun, name: &str) -> Result<Generator, EvalError> {
    let domain = last_domain(begun);
    let mut names = Vec::new(begun.alloc);
    names.push(Name::new(begun.alloc, name)?)?;
    Ok(Generator { names, domain })
}

/// Puts a comprehension in place of its expression and its condition: over `i` in the last domain, with the domain behind
/// it for its indices where one is asked for.
fn add_comprehension(begun: &mut Begun, letter: u8) -> Result<(), EvalError> {
    let indices = if letter == b'Y' {
        Some(boxed_domain(begun)?)
    } else {
        None
    };
    let mut conditions = Vec::new(begun.alloc);
    conditions.push(last_part(begun))?;
    let body = boxed_part(begun)?;
    let mut generators = Vec::new(begun.alloc);
    generators.push(generator(begun, "i")?)?;
    begun.parts.push(placed(Kind::Comprehension(body, generators, conditions, indices)))?;
    Ok(())
}

/// Puts a comprehension without a condition in place of its expression: over `i` in the last domain.
fn add_plain(begun: &mut Begun) -> Result<(), EvalError> {
    let body = boxed_part(begun)?;
    let mut generators = Vec::new(begun.alloc);
    generators.push(generator(begun, "i")?)?;
    let conditions = Vec::new(begun.alloc);
    begun.parts.push(placed(Kind::Comprehension(body, generators, conditions, None)))?;
    Ok(())
}

/// Puts a comprehension in place of its expression: over `i` in the last domain but one and `j` in the last.
fn add_nested(begun: &mut Begun) -> Result<(), EvalError> {
    let body = boxed_part(begun)?;
    let inner = generator(begun, "j")?;
    let mut generators = Vec::new(begun.alloc);
    generators.push(generator(begun, "i")?)?;
    generators.push(inner)?;
    let conditions = Vec::new(begun.alloc);
    begun.parts.push(placed(Kind::Comprehension(body, generators, conditions, None)))?;
    Ok(())
}

/// Puts whether it is in the last domain in place of a number.
fn add_within(begun: &mut Begun) -> Result<(), EvalError> {
    let domain = boxed_domain(begun)?;
    let part = boxed_part(begun)?;
    begun.parts.push(placed(Kind::InDomain(part, domain)))?;
    Ok(())
}

/// The domain of the numbers between the last two parts.
fn between(begun: &mut Begun) -> Result<DomainKind, EvalError> {
    let high = last_part(begun);
    let low = last_part(begun);
    let mut ranges = Vec::new(begun.alloc);
    ranges.push(Range::Span(Some(low), Some(high)))?;
    Ok(DomainKind::Ranges(ranges))
}

/// The domain of the last part alone.
fn alone(begun: &mut Begun) -> Result<DomainKind, EvalError> {
    let part = last_part(begun);
    let mut ranges = Vec::new(begun.alloc);
    ranges.push(Range::One(part))?;
    Ok(DomainKind::Ranges(ranges))
}

/// The matrix domain of truth values with the last domain for its indices.
fn matrix_of_truths(begun: &mut Begun) -> Result<DomainKind, EvalError> {
    let mut indices = Vec::new(begun.alloc);
    if let Some(domain) = begun.domains.pop() {
        indices.push(domain)?;
    }
    let elements = boxed_domain(begun)?;
    Ok(DomainKind::Matrix(indices, elements))
}

/// Adds a domain.
fn add_domain(begun: &mut Begun, letter: u8) -> Result<(), EvalError> {
    let kind = if let Some(op) = set_op(letter) {
        let right = boxed_domain(begun)?;
        let left = boxed_domain(begun)?;
        DomainKind::Set(op, left, right)
    } else if letter == b':' {
        between(begun)?
    } else if letter == b'X' {
        matrix_of_truths(begun)?
    } else if letter == b'p' {
        alone(begun)?
    } else if letter == b'x' {
        DomainKind::Named(Name::new(begun.alloc, "y")?)
    } else if letter == b'I' {
        DomainKind::Int
    } else {
        DomainKind::Bool
    };
    begun.domains.push(Domain {
        place: place(),
        kind,
    })?;
    Ok(())
}

/// Adds what has no parts: a digit, a truth value or a name of one letter.
fn add_leaf(begun: &mut Begun, letter: u8) -> Result<(), EvalError> {
    let kind = match letter {
        b'0'..=b'9' => Kind::Number(i64::from(letter - b'0')),
        b't' => Kind::Truth(true),
        b'f' => Kind::Truth(false),
        b'i' => Kind::Named(Name::new(begun.alloc, "i")?),
        b'j' => Kind::Named(Name::new(begun.alloc, "j")?),
        _ => Kind::Named(Name::new(begun.alloc, "y")?),
    };
    begun.parts.push(placed(kind))?;
    Ok(())
}

/// Goes on by a letter of a row.
fn add(begun: &mut Begun, letter: u8) -> Result<(), EvalError> {
    if let Some(op) = quant_op(letter) {
        return add_quantifier(begun, op, letter >= b'a');
    }
    match letter {
        b'[' => {
            let start = begun.parts.len();
            begun.starts.push(start)?;
            Ok(())
        }
        b']' | b';' => add_list(begun, letter),
        b'N' | b'Y' => add_comprehension(begun, letter),
        b'J' => add_nested(begun),
        b'd' => add_plain(begun),
        b'e' => add_within(begun),
        b'+' | b'-' => add_chain(begun, letter),
        b'&' | b'|' => add_truths(begun, letter),
        b'r' | b'R' | b's' => add_read(begun, letter),
        _ => add_form(begun, letter),
    }
}

/// Goes on by a letter of a form that is told by its number of parts.
fn add_form(begun: &mut Begun, letter: u8) -> Result<(), EvalError> {
    if "(!_aT#FDSPAOmM".as_bytes().contains(&letter) {
        return add_one(begun, letter);
    }
    if "*/%^vV>@=~<LGHlkghEb".as_bytes().contains(&letter) {
        return add_two(begun, letter);
    }
    if "cCK".as_bytes().contains(&letter) {
        return add_three(begun, letter);
    }
    if "unw:pxXIB".as_bytes().contains(&letter) {
        return add_domain(begun, letter);
    }
    add_leaf(begun, letter)
}

/// What a text begins.
fn begun_by(alloc: Global, text: &[u8]) -> Result<Begun, EvalError> {
    let mut begun = Begun {
        alloc,
        parts: Vec::new(alloc),
        starts: Vec::new(alloc),
        domains: Vec::new(alloc),
    };
    for letter in text {
        add(&mut begun, *letter)?;
    }
    Ok(begun)
}

/// The expression of a row.
pub(crate) fn expression(alloc: Global, text: &[u8]) -> Result<Expr, EvalError> {
    let mut begun = begun_by(alloc, text)?;
    Ok(last_part(&mut begun))
}

/// The domain of a row.
pub(crate) fn domain(alloc: Global, text: &[u8]) -> Result<Domain, EvalError> {
    let mut begun = begun_by(alloc, text)?;
    Ok(last_domain(&mut begun))
}

/// Whether an expression is worth what a letter says.
fn is_worth(alloc: Global, mode: Mode, e: &Expr, letter: u8) -> Result<bool, EvalError> {
    let env = Env::new(alloc, mode);
    match evaluate(alloc, &env, e) {
        Ok(Seen::Value(Value::Number(number))) => Ok(number == told(letter)),
        Ok(Seen::Value(Value::Matrix(_, _))) => Ok(false),
        Ok(Seen::Undefined) => Ok(letter == b'.'),
        Err(EvalError::Limit(_)) => Ok(letter == b'!'),
        Err(EvalError::Memory) => Err(EvalError::Memory),
    }
}

/// The number that a letter stands for, and one that no row has where it stands for none.
fn told(letter: u8) -> i64 {
    match letter {
        b'0'..=b'9' => i64::from(letter - b'0'),
        b'a'..=b'i' => -1 - i64::from(letter - b'a'),
        _ => 100,
    }
}

/// Whether a row is right.
fn is_right(alloc: Global, row: &str) -> Result<bool, EvalError> {
    let (text, said) = row.split_once(' ').unwrap_or((row, ""));
    let e = expression(alloc, text.as_bytes())?;
    match said.as_bytes() {
        [relational, strict, ..] => Ok(
            is_worth(alloc, Mode::Relational, &e, *relational)?
                && is_worth(alloc, Mode::Strict, &e, *strict)?,
        ),
        _ => Ok(false),
    }
}

/// The first row of a table that isn't right.
fn first_wrong(alloc: Global, table: &str) -> Result<Option<&str>, EvalError> {
    for row in table.lines() {
        if !is_right(alloc, row)? {
            return Ok(Some(row));
        }
    }
    Ok(None)
}

/// Numbers.
const NUMBERS: &str = "35+ 88 a sum
35- bb a difference
58- cc a chain
23* 66 a product
3_ cc the negative
3_a 33 the absolute value
3y+ .. a sum with a part that has no value
3y* .. and a product
y_ .. and a negative
ya .. and an absolute value
72/ 33 a quotient is the floor
7_2/ dd also below 0
72_/ dd also where the second part is below 0
7_2_/ 33 and where both are
70/ .. no quotient by 0
72% 11 a remainder
7_2% 11 has the sign of the second part
72_% aa of the second part
7_2_% aa of both
70% .. no remainder by 0
23^ 88 a power
2_3^ hh of a negative
00^ 11 an empty product also of 0
21_^ .. no power below 0
11_^ .. also of 1
3# 66 a factorial
0# 11 of 0
1_# .. none below 0
35v 33 the lesser
35V 55 the greater
3yv .. the lesser of one that has no value
tT 11 a truth value as a number
1_28^4^28^*1-^ aa of the greatest odd number
285*1+^ !! a power too far from 0
99^9^ !! a number too far from 0
99^9^0* !! also as a part";

/// Truth values.
const TRUTHS: &str = "33= 11 equal
34~ 11 not equal
34< 11 less
33< 00 not less
33L 11 at most
33G 00 not greater
33H 11 at least
3y= 0. without a value
yy= 0. nothing equals itself where it has no value
yy~ 0. nor does it differ
t! 00 a negation
y! 0. of what has no value
33=(! 00 and of a group
43=(! 11 of a false one
y3=(! 1. and of one without a value
yy=! 1. a comparison without a value is false
tf& 00 both
tt& 11 both
tf| 11 one of them
ff| 00 none of them
ty| 0. one that is true beside one without a value
33=yy=| 1. beside a comparison without a value
fyy=& 0. behind a false one
tf> 00 implies
10> 00 also of numbers
ff> 11 implies
ft> 11 implies
fyy=> 1. behind a false one
ff@ 11 exactly if
tf@ 00 exactly if";

/// Lists that are joined and compared.
const LISTS: &str = "[]S 00 of no part
[]P 11 of no part
[]A 11 of no part
[]O 00 of no part
[]m .. of no part
[]M .. of no part
[352]m 22 the least
[352]M 55 the greatest
[38_]m hh the least below 0
[3y]m .. a part has no value
[15]S 66 a sum
[38_]S ee a sum below 0
[1y]S .. a part has no value
[23]P 66 a product
[38_]P38*+ 00 a product below 0
[0y]P .. also behind a 0
[258*^20]P !! a part of a product is too far from 0
[tf]A 00 all
[tf]O 11 some
[ty]O 0. a matrix with a part that has no value has none
[fy]A 0. nor here
[12][121]l 11 a part that ends first is less
[121][12]l 00 and no greater one
[12][12]l 00 equal ones
[12][12]k 11 equal ones
[13][12]g 11 the first difference decides
[2][12]h 11 also over length
[][1]l 11 nothing is less
[1y][1]l 0. a part has no value
[123]D 11 all differ
[121]D 00 also where they stand apart
[]D 11 of no part
[1y]D 0. a part has no value";

/// Parts that are counted.
const COUNTS: &str = "[211][12][21]c 11 so many
[211][12][11]c 00 not at least
[211][12][22]c 00 nor at most
[211][12][2]c 0. lengths differ
[21y][12][21]c 0. a part has no value
[211][11][12]C 11 at least
[211][31][12]C 00 not at least
[211][1][12]C 0. lengths differ
[211][21][12]K 11 at most
[211][11][12]K 00 not at most
[211][2][12]K 0. lengths differ
[12][[12][34]]b 11 a row
[13][[12][34]]b 00 no row
[12][]b 00 no row at all
[12][[12][3]]b 0. a row has another length
[1y][[12][34]]b 0. a part has no value";

/// Domains and their numbers.
const DOMAINS: &str = "213:e 11 within
413:e 00 not within
231:e 00 an empty range
21y:e 0. an end has no value
y13:e 0. the number has none
2[12]E 11 a part
3[12]E 00 no part
y[12]E 0. the number has no value
2[2y]E 0. a part has no value
1Be 11 a truth value
2Be 00 no truth value
413:35:ue 11 in the second
213:35:ue 11 in the first
613:35:ue 00 in none
313:35:ne 11 in both
213:35:ne 00 in the first alone
213:35:we 11 in the first alone
313:35:we 00 in both
513:35:we 00 in the second alone
515:33:we 11 behind a gap
315:33:we 00 in the gap
1B13:ne 11 of truth values and numbers
213:1y:ue 0. one has no value
23y:13:we 0. one has no value
213:BXe 0. a matrix domain has no numbers
2Ie 0. nor has a domain of all numbers";

/// Quantifiers.
const QUANTIFIERS: &str = "13:i4<Q 11 for all
13:i3<Q 00 not for all
13:i2<W 11 for some
13:i1<W 00 for none
13:iZ 66 the sum
31:yQ 11 over nothing
31:yW 00 over nothing
31:yZ 00 over nothing
1y:tQ 0. the domain has no value
1y:tW 0. the domain has no value
1y:1Z .. the domain has no value
13:yZ .. an instance has no value
02:6i/3=W 1. an instance is undefined inside
02:6i/3=Q 0. an instance is undefined inside
12:iZi= 0. a name ends with its quantifier
13:11:iZZ 33 the inner name hides the outer
13:jz92*- 00 the sum over two names
12:jq 00 for all of two names
12:jo 11 for some of two names
10:jq 11 over nothing
10:jo 00 over nothing
10:jz 00 over nothing
1y:jq 0. the domain has no value
1y:jo 0. the domain has no value
1y:jz .. the domain has no value";

/// Lists in brackets, as matrices.
const MATRICES: &str = "[12]S 33 parts
[1234:;S 33 as many indices as parts
[1235:;S .. more indices than parts
[1233:;S .. fewer indices than parts
[123y:;S .. the index domain has no value
[31:;S 00 no part and no index
[11:;S .. no part and an index
[1y34:;S .. a part has no value
[[12][12]]FS 66 rows
[[12][3]]FS 66 rows of different lengths
[[12][3y]]FS .. a part of a row has no value
[[12][312:;]FS .. a row has another number of indices
[[tt][fy]]FO 0. a part of a row has no value
[[]]FS 00 an empty row
[[34]56:;FS .. fewer rows than indices
[3467:;6r 33 by its own indices
[34]2r 44 by indices from 1
[[34][12]]21R 11 by two indices
[[12][34]]2sS 66 a column
[[12][34]]2rS 77 a row
[[3467:;]F1r 33 flattened parts have indices from 1";

/// Comprehensions.
const COMPREHENSIONS: &str = "13:itNS 66 the numbers
13:itN2r 22 indices from 1
13:ii2=!NS 44 those that pass
13:ii2=!N2r 33 with indices in a row
31:itNS 00 over nothing
1y:itNS .. the domain has no value
13:yfNS 00 what isn't chosen isn't read
13:ytNS .. a part has no value
13:iyy=NS 0. a condition has no value
02:i6i/3=NS 2. nor has one of several
02:6i/i0~NS 99 a condition keeps a part from being read
02:6i/tNS .. a part has no value
12:ii3<N3r .. only as many parts as were chosen
13:79:itY8r 22 by its own indices
13:78:itYS .. another number of indices
13:7i:itYS .. the index domain doesn't see the name
12:1i:jJS 44 later domains see earlier names
12:1i:jJ3r 22 in order
12:1i:iJS 55 and so does the expression";

/// Reads outside of a matrix.
const READS: &str = "[34]3r .. outside of numbers
[34]0r .. also below
[34]yr .. the index has no value
[34]3r3= 0. inside a comparison
[34]3r3=! 1. and not outside of it
[5634:;1r .. by its own indices
[[12][3]]22R .. a row of another length
[[12][3]]2sS .. a column that a row doesn't have
[tf]1r 11 within truth values
[tf]2r 00 within truth values
[tf]3r 0. outside of truth values
[tf]3r! 1. is false itself
[tf]10/r 0. the index has no value
[t10/1=]1r 1. a comparison without a value is a part
[t10/1=]2r 0. and is false
[[tf][ft]]12R 00 within rows
[[tf][ft]]13R 0. outside of a row
[[tf][ft]]3sO 0. a column that no row has";

#[test]
fn expressions_are_worth_what_rows_say(rt: HostRuntime) -> Result<(), Fail> {
    for table in [
        NUMBERS,
        TRUTHS,
        LISTS,
        COUNTS,
        DOMAINS,
        QUANTIFIERS,
        MATRICES,
        COMPREHENSIONS,
        READS,
    ] {
        assert_eq!(rt; first_wrong(rt.alloc(), table)?, None);
    }
    Ok(())
}

#[test]
fn many_parts_are_joined(rt: HostRuntime) -> Result<(), Fail> {
    let alloc = rt.alloc();
    let mut parts = Vec::new(alloc);
    for _ in 0..100_000 {
        parts.push(placed(Kind::Number(1)))?;
    }
    let list = Box::new(alloc, placed(Kind::Literal(parts, None)))?;
    let sum = placed(Kind::Fold(FoldOp::Sum, list));
    let env = Env::new(alloc, Mode::Strict);
    match evaluate(alloc, &env, &sum)? {
        Seen::Value(Value::Number(number)) => assert_eq!(rt; number, 100_000),
        _ => assert!(rt; false),
    }
    Ok(())
}
