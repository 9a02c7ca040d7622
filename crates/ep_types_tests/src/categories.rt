//! Where a decision variable's name may stand.

/// Texts with decision variables where they may stand.
pub(crate) const ALLOWED: &str = "$ Clauses, objectives and orders
such that x = 1, b
minimising x + y
maximising sum(m)
branching on [x, m]
$ Parts of nodes
such that !b, b -> p[1], b <-> p[1]
such that x * y / n % 3 = min(x, y)
such that |x - y| + -x = toInt(b)
such that m <lex m, x in D, 1 in toSet(m)
such that forAll i : D . x = i
such that exists i : D . m[i] = x
such that (sum i : D . x * i) = 1
such that and([x = i | i : D]) /\\ or([b, p[1]])
such that sum([m[i] | i : D, i > 1]) = x
such that [x, y ; int(1..2)] <lex m
such that allDiff([x, y]), allDiff(flatten(q))
$ The base of a power
such that x ** 2 = 4
$ The indices of a read that leaves a number
such that m[x] = 1
such that v[x] = 1
such that q[x, y] = 1
such that q[x][y] = 1
such that q[1][x] = 1
such that m[m[x]] = 1
$ The base of a read
such that q[1, ..] <lex q[n]
$ The lists that are counted, and the counts of gcc
such that gcc(m, v, m)
such that gcc([x, y], [1], [x])
such that atleast(m, v, v), atmost(m, v, v)
such that atleast([x], [n], [1]), atmost([x], [n], [1])
$ The row that stands in a table
such that table([x, y], [[1, 2]])
such that table(m, w)
$ Names that hide a decision variable
such that forAll x : D . 2 ** x > 1
such that forAll x : D . factorial(x) > 1
such that exists x, y : D . v[x] ** y > 1
such that sum([1 | x : D, x > 1]) = 1
such that forAll x : D . allDiff(q[x])
such that forAll m : D . gcc(q, [m], [x])
such that forAll x : D . forAll i : int(1..x) . y in int(x..i)
where forAll x : D . x > 0
letting k be sum x : D . x
find k : int(1..sum([x | x : D]))";

/// Texts with decision variables where none may stand.
pub(crate) const FORBIDDEN: &str = "$ A domain
find k : int(1..@x)
find k : int(@x)
find k : D union int(@x..3)
given k : int(@x..)
given k : matrix indexed by [int(1..@x)] of int
given k : matrix indexed by [D] of int(1..@x)
letting k : int(1..@x) be 1
letting K be domain int(1..@x)
such that forAll i : int(1..@x) . true
such that sum([1 | i : D, j : int(1..@x)]) = 1
such that sum([1 | i : D ; int(1..@x)]) = 1
such that [1 ; int(1..@x)] <lex m
such that y in int(1..@x)
such that y in int(1..v[@x])
such that y in int(1..@m[1])
$ A letting
letting k be @x
letting k be [1, @b]
letting k be sum(@m)
letting k be v[@x]
letting k be @q[1, 1]
$ A clause of where
where @b
where n > 1, @x = 1
where forAll i : D . i > @x
where allDiff(@m)
$ The conditions of a comprehension
such that sum([1 | i : D, @x = i]) = 1
such that sum([1 | i : D, g, @b]) = 1
such that sum([1 | i : D, v[@x] = i]) = 1
$ The indices of a read that leaves a matrix
such that q[@x] <lex m
such that q[@x, ..] <lex m
such that q[.., @x] <lex m
such that w[@x] <lex m
such that sum(q[1 + @x]) = 1
such that sum(q[v[@x]]) = 1
such that sum(q[@m[1]]) = 1
$ The exponent
such that 2 ** @x = 4
such that x ** @y = 4
such that 2 ** (n + @b) = 4
$ Factorials
such that factorial(@x) = 1
such that factorial(1 + v[@y]) = 1
$ The values of gcc, atleast and atmost, and the counts of the last two
such that gcc(m, @m, v)
such that gcc(m, [1, @x], m)
such that atleast(m, @m, v)
such that atleast(m, v, @m)
such that atleast(m, [@x], [1])
such that atleast(m, [1], [@b])
such that atmost(m, @m, v)
such that atmost(m, v, @m)
such that atmost(m, [@x], [1])
such that atmost(m, [1], [@b])
$ The rows of a table
such that table(m, @q)
such that table(v, [[1, @x]])
such that table(m, [@m])
$ A name that is hidden no more
such that (forAll x : D . 2 ** x > 1) /\\ 2 ** @x = 4
such that sum([1 | x : D, x > 1]) = 2 ** @x
such that (forAll i : int(1..factorial(n)) . i < x) /\\ factorial(@x) = 1";
