//! Texts with their trees.

use crate::printed::{Printed, put_statements};
use ep_parse_model::parse_model;
use std::alloc::{AllocError, Global};
use std::test::Fail;

/// The statements that a text is read as, behind the first line.
fn tree_of(
    alloc: Global,
    shows_places: bool,
    front: &str,
    text: &str,
) -> Result<Printed, AllocError> {
    let mut whole = Vec::from_slice(alloc, b"language ESSENCE' 1.0\n")?;
    whole.extend_from_slice(front.as_bytes())?;
    whole.extend_from_slice(text.as_bytes())?;
    let mut tree = Printed::new(alloc, shows_places);
    match parse_model(alloc, &whole) {
        Ok(model) => put_statements(&mut tree, &model.statements),
        Err(_) => tree.put("not read"),
    }
    Ok(tree)
}

/// The first row of a table whose text has another tree than stands behind its `#`. In front of each row
/// stands the beginning of a statement, and the tree lies between the two others.
fn first_other_tree<'a>(
    alloc: Global,
    shows_places: bool,
    front: &str,
    opens: &str,
    closes: &str,
    table: &'a str,
) -> Result<Option<&'a str>, Fail> {
    for row in table.lines() {
        let (text, tree) = row.split_once('#').unwrap_or((row, ""));
        let read = tree_of(alloc, shows_places, front, text)?;
        let mut wanted = Printed::new(alloc, false);
        wanted.put(opens);
        wanted.put(tree);
        wanted.put(closes);
        if !read.is(&wanted) {
            return Ok(Some(row));
        }
    }
    Ok(None)
}

/// Expressions that stand for themselves, in brackets, and functions.
const OPERANDS: &str = "7 # 7
007 # 7
true # true
false # false
x # x
(x) # {x}
((x)) # {{x}}
|x| # (abs x)
||x|| # (abs (abs x))
|x| - |y| # (+ +(abs x) -(abs y))
toInt(x) # (toInt x)
flatten(x) # (flatten x)
sum(x) # (sum x)
product(x) # (product x)
and(x) # (and x)
or(x) # (or x)
min(x) # (min x)
max(x) # (max x)
allDiff(x) # (allDiff x)
factorial(x) # (factorial x)
min(x, y) # (min x y)
max(x, y) # (max x y)
table(x, y) # (table x y)
gcc(x, y, z) # (gcc x y z)
atleast(x, y, z) # (atleast x y z)
atmost(x, y, z) # (atmost x y z)
min(1 + 2, -x) # (min (+ +1 +2) (neg x))
sum([x, y]) # (sum [ x y])
sum((x)) # (sum {x})";

/// Lists, comprehensions and reads.
const LISTS: &str = "[] # []
[ ; D] # [ ; D]
[x] # [ x]
[1, x = y, 3] # [ 1 (= x y) 3]
[x ; D] # [ x ; D]
[x, y ; int(1..2)] # [ x y ; int( 1..2)]
[[], [x]] # [ [] [ x]]
[x | i : D] # [ x | i : D ?]
[x | i, j : D] # [ x | i j : D ?]
[x | i : D, j : E] # [ x | i : D j : E ?]
[x | i : D, j, k : E] # [ x | i : D j k : E ?]
[x | i : D, y] # [ x | i : D ? y]
[x | i : D, y, z] # [ x | i : D ? y z]
[x | i : D, y, z, j : E] # [ x | i : D y z j : E ?]
[x | i : D, j : E, y + 1, z] # [ x | i : D j : E ? (+ +y +1) z]
[x | i : D, y, z = 1, w] # [ x | i : D ? y (= z 1) w]
[x | i : D, y, m[1]] # [ x | i : D ? y (read m 1)]
[x | i : D, [y | j : E]] # [ x | i : D ? [ y | j : E ?]]
[x | i : D ; E] # [ x | i : D ? ; E]
[x | i : D, y, z ; E] # [ x | i : D ? y z ; E]
[|x| | i : D] # [ (abs x) | i : D ?]
[x, |y|] # [ x (abs y)]
[sum i : D . i | j : E] # [ (sum i : D . i) | j : E ?]
m[1] # (read m 1)
m[1, 2] # (read m 1 2)
m[..] # (read m ..)
m[.., x] # (read m .. x)
m[x + 1] # (read m (+ +x +1))
m[1][2] # (read m 1 2)
m[1][2, 3][4] # (read m 1 2 3 4)
m[1][2, ..] # (read m 1 2 ..)
m[1, ..][2] # (read (read m 1 ..) 2)
m[i][..][j] # (read (read m i ..) j)
m[..][i][j] # (read (read m ..) i j)
m[..][..] # (read (read m ..) ..)
m[m[1]] # (read m (read m 1))
(m)[1] # (read {m} 1)
(m[1])[2] # (read {(read m 1)} 2)
[x, y][1] # (read [ x y] 1)
[x | i : D][1] # (read [ x | i : D ?] 1)
|x|[1] # (read (abs x) 1)
7[1] # (read 7 1)
true[..] # (read true ..)
flatten(x)[1] # (read (flatten x) 1)
table(x, y)[1] # (read (table x y) 1)";

/// Operators, from the tightest to the loosest.
const OPERATORS: &str = "!x # (! x)
!!x # (! (! x))
-x # (neg x)
- -x # (neg (neg x))
!-x # (! (neg x))
-7 # (neg 7)
-m[1] # (neg (read m 1))
-x ** 2 # (** (neg x) 2)
x ** -2 # (** x (neg 2))
x ** y # (** x y)
2 ** 3 ** 4 # (** (** 2 3) 4)
2 ** (3 ** 4) # (** 2 {(** 3 4)})
2 * 3 ** 4 # (* 2 (** 3 4))
2 ** 3 * 4 # (* (** 2 3) 4)
-x * y # (* (neg x) y)
x * y # (* x y)
x / y # (/ x y)
x % y # (% x y)
2 * 3 / 4 % 5 # (% (/ (* 2 3) 4) 5)
2 % 3 * 4 # (* (% 2 3) 4)
2 * -3 # (* 2 (neg 3))
x + y # (+ +x +y)
x - y # (+ +x -y)
1 + 2 - 3 + 4 # (+ +1 +2 -3 +4)
1 - 2 * 3 # (+ +1 -(* 2 3))
2 * 3 + 4 # (+ +(* 2 3) +4)
(1 + 2) + 3 # (+ +{(+ +1 +2)} +3)
1 - -2 # (+ +1 -(neg 2))
-1 + 2 # (+ +(neg 1) +2)
x = y # (= x y)
x != y # (!= x y)
x < y # (< x y)
x <= y # (<= x y)
x > y # (> x y)
x >= y # (>= x y)
x <lex y # (<lex x y)
x <=lex y # (<=lex x y)
x >lex y # (>lex x y)
x >=lex y # (>=lex x y)
x<lexy # (< x lexy)
x <-y # (< x (neg y))
1 + 2 < 3 - 4 # (< (+ +1 +2) (+ +3 -4))
!x = y # (= (! x) y)
(x = y) = z # (= {(= x y)} z)
x in D # (in x D)
x + 1 in D - E # (in (+ +x +1) (- D E))
x in int # (in x int)
x in int(1, 3) # (in x int( 1 3))
x in (D) # (in x { D})
x in toSet(m) # (inSet x m)
x + 1 in toSet([1, 2]) # (inSet (+ +x +1) [ 1 2])
!x in D # (in (! x) D)";

/// Connectives and quantifiers.
const CONNECTIVES: &str = "x /\\ y # (/\\ x y)
x /\\ y /\\ z # (/\\ x y z)
(x /\\ y) /\\ z # (/\\ {(/\\ x y)} z)
x = y /\\ y != z # (/\\ (= x y) (!= y z))
x in D /\\ y # (/\\ (in x D) y)
x in toSet(m) /\\ y # (/\\ (inSet x m) y)
!x /\\ y # (/\\ (! x) y)
x \\/ y # (\\/ x y)
x \\/ y \\/ z # (\\/ x y z)
x \\/ y /\\ z # (\\/ x (/\\ y z))
x /\\ y \\/ z /\\ w # (\\/ (/\\ x y) (/\\ z w))
x -> y # (-> x y)
x <-> y # (<-> x y)
x -> y -> z # (-> (-> x y) z)
x -> y <-> z # (<-> (-> x y) z)
x <-> y -> z # (-> (<-> x y) z)
x -> (y -> z) # (-> x {(-> y z)})
x \\/ y -> z /\\ w # (-> (\\/ x y) (/\\ z w))
x -> y \\/ z -> w # (-> (-> x (\\/ y z)) w)
forAll i : D . x # (forAll i : D . x)
exists i : D . x # (exists i : D . x)
sum i : D . x # (sum i : D . x)
forAll i, j : D . x # (forAll i j : D . x)
forAll i : int . x # (forAll i : int . x)
forAll i : bool . x # (forAll i : bool . x)
forAll i : int(1..2) . x # (forAll i : int( 1..2) . x)
forAll i : D - E . x # (forAll i : (- D E) . x)
forAll i : (D) . (x) # (forAll i : { D} . {x})
forAll i : D . x + y # (forAll i : D . (+ +x +y))
forAll i : D . x = y # (forAll i : D . (= x y))
forAll i : D . x /\\ y -> z # (forAll i : D . (-> (/\\ x y) z))
forAll i : D . exists j : E . x # (forAll i : D . (exists j : E . x))
(forAll i : D . x) /\\ y # (/\\ {(forAll i : D . x)} y)
x /\\ forAll i : D . y \\/ z # (/\\ x (forAll i : D . (\\/ y z)))
x -> forAll i : D . y -> z # (-> x (forAll i : D . (-> y z)))
x = sum i : D . y = z # (= x (sum i : D . (= y z)))
1 + sum i : D . i + 2 # (+ +1 +(sum i : D . (+ +i +2)))
2 * sum i : D . i * 3 # (* 2 (sum i : D . (* i 3)))
2 ** sum i : D . i ** 3 # (** 2 (sum i : D . (** i 3)))
!forAll i : D . x /\\ y # (! (forAll i : D . (/\\ x y)))
-sum i : D . x # (neg (sum i : D . x))
sum i : D . sum(m) # (sum i : D . (sum m))
forAll i : D . x in E # (forAll i : D . (in x E))
x, y, # x y
(forAll i : D . x), y # {(forAll i : D . x)} y
forAll i : D . x, y # (forAll i : D . x) y";

/// Domains.
const DOMAINS: &str = "bool # bool
int # int
D # D
int(1) # int( 1)
int(1, 2) # int( 1 2)
int(1..2) # int( 1..2)
int(1..) # int( 1..)
int(..2) # int( ..2)
int(..) # int( ..)
int(.., ..) # int( .. ..)
int(1, 2..3, 4.., ..5, ..) # int( 1 2..3 4.. ..5 ..)
int(x + 1..-2) # int( (+ +x +1)..(neg 2))
int(m[..]..m[1]) # int( (read m ..)..(read m 1))
int(sum i : D . i..3) # int( (sum i : D . i)..3)
(D) # { D}
((bool)) # { { bool}}
(int(1)) # { int( 1)}
D union E # (union D E)
D intersect E # (intersect D E)
D - E # (- D E)
D union E intersect F # (intersect (union D E) F)
D - E - F # (- (- D E) F)
D - (E - F) # (- D { (- E F)})
D intersect E union F - G # (- (union (intersect D E) F) G)
bool union int # (union bool int)
int(1) - int(2) # (- int( 1) int( 2))
matrix indexed by [D] of E # (matrix D of E)
matrix indexed by [D, E] of bool # (matrix D E of bool)
matrix indexed by [D union E, (F)] of int # (matrix (union D E) { F} of int)
matrix indexed by [D] of E union F # (matrix D of (union E F))
matrix indexed by [D] of (E) # (matrix D of { E})
matrix indexed by [D] of matrix indexed by [E] of F # (matrix D E of F)
matrix indexed by [D, E] of matrix indexed by [F] of matrix indexed by [G] of int # (matrix D E F G of int)";

/// Statements.
const STATEMENTS: &str = "given n : D # (given [ n : D])
given n, m : D # (given [ n m : D])
given n, m : D, k : E # (given [ n m : D] [ k : E])
find x : D # (find [ x : D])
find x : D, y, z : bool # (find [ x : D] [ y z : bool])
letting c be 1 # (letting c = 1)
letting c = 1 # (letting c = 1)
letting c : D be 1 # (letting c : D = 1)
letting c : D - E = x = y # (letting c : (- D E) = (= x y))
letting c = x = y # (letting c = (= x y))
letting c : matrix indexed by [D] of E be [] # (letting c : (matrix D of E) = [])
letting D be domain E # (letting D domain E)
letting D = domain matrix indexed by [E] of F # (letting D domain (matrix E of F))
where # (where)
where x # (where x)
where x, # (where x)
where x, y # (where x y)
where x, y, # (where x y)
such that # (such)
such that x, y, # (such x y)
such that such that # (such) (such)
such that x such that y # (such x) (such y)
such that x, where y # (such x) (where y)
where find x : D where # (where) (find [ x : D]) (where)
minimising x # (minimising x)
minimizing x + 1 # (minimising (+ +x +1))
maximising x # (maximising x)
maximizing x # (maximising x)
branching on [] # (branching)
branching on [x] # (branching x)
branching on [x, y] # (branching x y)
heuristic static # (heuristic static)
heuristic x find x : D # (heuristic x) (find [ x : D])
letting c be 1 letting d be c # (letting c = 1) (letting d = c)
letting D be domain int letting c be 1 # (letting D domain int) (letting c = 1)
given n : int find x : int(1..n) # (given [ n : int]) (find [ x : int( 1..n)])
minimising x branching on [x] heuristic a # (minimising x) (branching x) (heuristic a)
such that x maximising y such that z # (such x) (maximising y) (such z)";

/// Texts whose trees have the column of each node's first token in front of it.
const PLACES: &str = "such that x + 1, -(y) # 1'(such 11'(+ +11'x +15'1) 18'(neg 19'{20'y}))
such that x ** 2 * 3 = m[i, 4] # 1'(such 11'(= 11'(* 11'(** 11'x 16'2) 20'3) 24'(read 24'm 26'i 29'4)))
such that m[1][2][..][3] # 1'(such 11'(read 11'(read 11'm 13'1 16'2 ..) 23'3))
such that m[..][3] # 1'(such 11'(read 11'(read 11'm ..) 17'3))
such that |x|, [1 ; D], sum(x) # 1'(such 11'(abs 12'x) 16'[ 17'1 ; 21'D] 25'(sum 29'x))
such that forAll i, j : D . x # 1'(such 11'(forAll i j : 25'D . 29'x))
such that [x | i : D, j : E, y ; F] # 1'(such 11'[ 12'x | i : 20'D j : 27'E ? 30'y ; 34'F])
such that x in D - E, y in toSet(m) # 1'(such 11'(in 11'x 16'(- 16'D 20'E)) 23'(inSet 23'y 34'm))
such that x /\\ y \\/ z -> w # 1'(such 11'(-> 11'(\\/ 11'(/\\ 11'x 16'y) 21'z) 26'w))
such that min(x, y) <lex gcc(1, 2, 3) # 1'(such 11'(<lex 11'(min 15'x 18'y) 26'(gcc 30'1 33'2 36'3)))
find x, y : (D), z : int(1..2, 3) # 1'(find [ 6'x 9'y : 13'{ 14'D}] [ 18'z : 22'int( 26'1..29'2 32'3)])
given n : matrix indexed by [D, E] of F # 1'(given [ 7'n : 11'(matrix 30'D 33'E of 39'F)])
letting c : D be 1 where x # 1'(letting 9'c : 13'D = 18'1) 20'(where 26'x)
letting D be domain E branching on [x, y] # 1'(letting 9'D domain 21'E) 23'(branching 37'x 40'y)";

/// Whether columns are shown, what stands in front of each row of a table, what stands around its tree, and the table.
const TABLES: [(bool, &str, &str, &str, &str); 7] = [
    (false, "such that ", " (such", ")", OPERANDS),
    (false, "such that ", " (such", ")", LISTS),
    (false, "such that ", " (such", ")", OPERATORS),
    (false, "such that ", " (such", ")", CONNECTIVES),
    (false, "find x : ", " (find [ x :", "])", DOMAINS),
    (false, "", "", "", STATEMENTS),
    (true, "", "", "", PLACES),
];

/// A row with another tree is found, too.
#[test]
fn texts_have_their_trees(rt: HostRuntime) -> Result<(), Fail> {
    let alloc = rt.alloc();
    for (shows_places, front, opens, closes, table) in TABLES {
        let found = first_other_tree(alloc, shows_places, front, opens, closes, table)?;
        assert_eq!(rt; found, None);
    }
    let table = "x # x\nx + 1 # (+ +x +1)\n(x) # x\nx # x";
    let found = first_other_tree(alloc, false, "such that ", " (such", ")", table)?;
    assert_eq!(rt; found, Some("(x) # x"));
    Ok(())
}
