//! What names stand for, and where.

/// Texts that are well typed since a name or a domain has its type.
pub(crate) const TYPES: &str = "find k : bool such that k
find k : E such that k
find k : bool union E such that k
find k : (bool) such that k
find k : matrix indexed by [D] of E such that and(k)
find k : matrix indexed by [D] of (bool) such that k[1]
find k : M such that and(k)
find k : matrix indexed by [D] of M such that and(k[1]), k[1, 2]
find k : matrix indexed by [D] of matrix indexed by [E, D] of int(1..2) such that k[1, 1, 1] = 1
such that forAll i : bool . i
such that forAll i : (bool) . i
such that forAll i : E . i
such that forAll i : bool intersect E . i
such that forAll i : bool - E . i
such that and([i | i : (E)])
letting k be true such that k
letting k be [true] such that and(k)
letting k : bool be 3 such that k
letting k : M be [] such that and(k), p[k[1]] = 1
letting k be [] such that and(k), k <lex m
letting k : D be true such that k + k = 2
given k : int(g..n, 7, v[1]..) such that k = 1
given k : D union int(7..8), l : int(1..k) such that k = l
given k : E union E such that k
letting K be domain D - int(2) find k : K such that k = 1
letting K be domain matrix indexed by [bool, D] of E find k : K such that and(k[1])";

/// Texts that are ill typed since it has no other one.
pub(crate) const OTHER_TYPES: &str = "find k : int(1..2) such that @k
find k : bool union D such that @k
find k : D intersect bool such that @k
find k : matrix indexed by [D] of D such that @and(k)
find k : matrix indexed by [D] of M such that @k[1, 2, 3]
find k : matrix indexed by [D] of M such that @k[1]
such that @forAll i : D . i
such that @forAll i : bool union D . i
such that @forAll i : D - bool . i
such that @and([i | i : (D)])
letting k be 1 such that @k
letting k : int(0..1) be true such that @k
letting k be [] such that @k[1]
given k : @int(v..3)
given k : @int(1..v)
given k : @int(1, v)
given k : @int(1..2, v..)
find k : @M union D
find k : @D intersect M
find k : @D - M
given k : D union (@int(1..2) union M)
find k : @matrix indexed by [M] of D
find k : @matrix indexed by [D, M] of D
find k : matrix indexed by [D] of matrix indexed by [D] of @D union M
letting K be domain @matrix indexed by [(M)] of D
letting k : @int([]) be 1";

/// Texts whose names are known where they stand.
pub(crate) const KNOWN: &str = "given k : int(1..3), l : int(1..k)
letting k be 3 given l : int(1..k) find o : int(l..k)
letting k : int(1..3) be 2 where k = 2
letting K be domain int(1..3) find k, l : K
branching on [x, q, n, D] heuristic static
branching on []
such that forAll i : D . forAll j : int(1..i) . x > i + j
such that forAll i, j : D . i + j > x
such that forAll n, k : int(1..n) . k > 0
such that forAll i : D . forAll i : int(1..i) . i > 0
such that sum([i + j | i : D, j : int(1..i)]) = 3
such that sum([i | i : D, x : int(1..i), x > i]) = 3
such that forAll D : D . D > 0
such that (forAll D : D . D > 0) /\\ x in D
such that forAll E : E . E
such that forAll m : D . m > 0
such that (forAll m : D . m > 0) /\\ m[1] > 0
such that (forAll m : D . m > 0), m[1] > 0
such that [m | m : D] <lex m
such that sum([b | x, b : D, b > x]) = 1 -> b
minimising sum x : D . x ** x";

/// Texts with a name that is declared nowhere, later, or in a scope that has ended.
pub(crate) const UNKNOWN: &str = "such that @z = 1
such that x = @z
such that x in @Z
find k : @Z
find k : matrix indexed by [D, @Z] of bool
given k : int(1..@k)
given k, l : int(1..@l)
given k : int(1..3), l : int(1..@l)
letting k be @k
letting k : int(1..@k) be 1
letting K be domain @K
such that @k = 1 find k : D
branching on [x, @z]
branching on [@z] find z : D
such that forAll i : int(1..@i) . true
such that forAll i, j : int(1..@i) . i = j
such that forAll i, j : int(1..@j) . true
such that (forAll i : D . true) /\\ @i = 1
such that forAll i : D . true, (@i) = 1
such that sum([i | i : D, j : int(1..@j)]) = 1
such that sum([i | j : int(1..@i), i : D]) = 1
such that sum([i | i : D ; int(1..@i)]) = 1
such that sum([i | i : D]) = @i
such that sum([i | i : D, @j = i]) = 1
minimising @z
where @z = 1";

/// Texts that declare a name again.
pub(crate) const DECLARED_AGAIN: &str = "find @x : D
find k, @k : D
find k : D, l, @k : D
given k : D find @k : bool
letting @n be 1
letting @D be domain int(1..2)
letting k be 1 letting @k be 1
find @M : bool
given @x : D
letting @x : D be 1";

/// Texts with a domain's name as an expression, or another name as a domain.
pub(crate) const OF_THE_WRONG_SORT: &str = "such that @D = 1
such that x = @M
such that allDiff(@M)
such that x in @n
such that x in @g
find k : @n
given k : @v
such that forAll i : D . x in @i
such that forAll D : D . x in @D
such that forAll D : int(1..2) . forAll i : @D . true
such that @E
minimising @D
letting K be domain @n
letting k be @D";

/// Texts with two faults, behind the one that is named.
pub(crate) const TWO_FAULTS: &str = "F3 such that @z = k
F3 such that [1] < @z
F3 such that m[@z, k] = 1
F3 such that @z[k] = 1
F3 such that gcc(@z, k, l)
F3 such that atmost(m, @z, k)
F3 such that sum([k | i : @Z, l]) = 1
F3 such that sum([k | i : D, @l]) = 1
F3 such that sum([k | i : D ; @Z]) = 1
F3 such that sum([1 | i : @Z, j : K ; D]) = 1
F3 such that [@k ; Z] <lex z
F3 such that x in int(@z..k)
F7 such that x in @int(z, k..)
F3 such that forAll i : @Z . k
F3 such that forAll i, x : int(1..@z) . k
F4 find @x : D such that z
F3 find x : int(1..@z)
F3 letting x : @Z be k
F3 letting x be @z
F3 letting x : D be @z
F4 find @x, y : D
F4 find k, @x, k : D
F5 such that @x, z
F3 such that @z find x : D
F7 find k : @int(z..)
F7 find x : @int(1..v, ..)
F7 such that forAll i : @int . z
F5 such that 1 = (@-m) + z
F6 such that 2 ** @x + m = 1
F5 such that (@-m) ** x = 1
F6 such that (2 ** @x) = m
F6 where @m > 1
F5 where @v > 1, x = 1
F6 where @x = m
F5 such that x in @y
F5 find k : @x
F3 such that table(@z, q)
F6 such that table(m, @q) /\\ 1
F5 such that allDiff(@[v, v][x, [1]])
F6 such that allDiff([w, w][@x, [1], ..])
F5 such that allDiff(@q[[1], ..])
F5 such that allDiff(@m[x, [1], ..])";

/// Texts behind the first line alone.
pub(crate) const ALONE: &str = "F3 such that @y = 1
F4 find x : bool find @x : bool
F5 find x : matrix indexed by [int(1..2)] of int(0..9) such that @sum i : int(1..2) . x[i] = 5
F6 find x : int(1..3) find y : int(1..@x)
F7 find x : @int";

/// Parameters, which see the lettings before them alone.
pub(crate) const PARAMS: &str = "fine letting k be 3
fine letting k be 3 letting l be [k, 1] letting K be domain int(1..k)
fine letting k : int(1..3) be 2
fine letting k be sum i : int(1..3) . i
fine letting K be domain int(1..3) letting k : matrix indexed by [K] of K be [1, 2, 3]
F3 letting k be @n
F3 letting k be @l letting l be 1
F4 letting k be 3 letting @k be 3
F5 letting k be @1 + [1]
F5 letting k be 1 letting l : @k be 1
F7 letting k : @int be 1
F7 letting K be domain matrix indexed by [@int] of bool
F5 letting k be true letting l be @[k] + 1";
