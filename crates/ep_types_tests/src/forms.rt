//! What each form takes, and what it gives.

/// Texts that are well typed.
pub(crate) const WELL_TYPED: &str = "$ Numbers, truth values and names
such that 1 = 1
such that true
such that false
such that b
such that g, (b)
where g
such that (x) = 1
$ Connectives
such that !b
such that b /\\ true
such that b /\\ g /\\ p[1]
such that b \\/ false
such that b -> g
such that b <-> g
$ Quantifiers
such that forAll i : D . x > i
such that exists i : D . x = i
such that (sum i : D . x * i) = 6
such that (sum i : bool . i) = 1
$ Operators
such that -x = 1
such that -b = 1
such that |x - y| = 1
such that x + b - n = 1
such that x * b = 1
such that x / 2 = 1
such that x % n = 1
such that x ** n = 1
such that b ** g = 1
such that min(x, y) = 1
such that max(x, b) = 1
such that factorial(n) = 1
such that factorial(g) = 1
such that toInt(b) = 1
$ Comparisons
such that x = y
such that x != b
such that b < x
such that x <= 1
such that x > n
such that b >= g
such that m <lex v
such that p <=lex m
such that m >lex []
such that [] >=lex p
such that x in D
such that b in D
such that x in bool
such that x in (E)
such that x in toSet(m)
such that x in toSet(r)
such that b in toSet([])
$ Lists
such that and([b, true])
such that [b, 1] <lex m
such that [x, y] <lex m
such that and([p, p])
such that and([[b], []])
such that and([[], [b]])
such that and([[], []])
such that and([[[b]], [[]]])
such that table(m, [v, v])
such that table(m, [[1, 2], []])
such that table(m, [[], []])
such that [] <lex m
such that allDiff([])
such that [x ; int(1..1)] <lex m
such that [b, b ; bool] <lex m
such that allDiff([[] ; D])
such that and([r, r])
such that allDiff([q, [m]])
$ Comprehensions
such that and([b | i : D])
such that [i | i : D] <lex m
such that and([i | i : E])
such that sum([i | i : D, j : D, i < j]) = 3
such that sum([i | i, j : D, i < j, g]) = 3
such that and([p | i : D])
such that table(m, [v | i : D])
such that table(m, [[] | i : D])
such that [x | i : D ; int(0..2)] <lex m
$ Reads
such that m[1] = 2
such that m[b] = 2
such that p[1]
such that q[1, 2] = 3
such that q[1][2] = 3
such that r[x, y]
such that q[1] <lex m
such that q[1, ..] <lex m
such that q[.., 1] <lex m
such that m[..] <lex m
such that table(m, w[.., ..])
such that table(m, w[..])
such that and(p[..])
such that [q, q][1, 2, 3] = 1
such that [q, q][1, .., 3] <lex m
such that [x, y][n] = 1
$ Functions of a matrix
such that sum(m) = product(q)
such that min(m) = max(q)
such that sum(p) = 1
such that sum([]) = 0
such that min([b]) = max([])
such that product([x, b]) = 1
such that and(p)
such that or(r)
such that and([])
such that flatten(q) <lex m
such that flatten(m) <lex m
such that and(flatten(r))
such that and(flatten([]))
such that allDiff(m)
such that allDiff(r)
such that allDiff(flatten(q))
$ Functions that count
such that gcc(m, v, m)
such that gcc(q, [1, 2], [x, y])
such that gcc(p, [], [])
such that atleast(m, v, v)
such that atleast(q, [1], [g])
such that atmost(m, v, v)
such that atmost(r, [], [])
such that table(m, w)
such that table([x, b], [[1, 2]])
such that table([], [])
$ Clauses and objectives
where n > 1, g,
where
such that
minimising x
maximising b
minimising sum(m)";

/// Texts in which a node is ill typed.
pub(crate) const ILL_TYPED: &str = "$ Numbers, truth values and names
such that @1
such that true, @x, b
such that b, @n
where g, @n
where @v
such that @m
such that @(x)
such that (@(x) /\\ b)
$ Connectives
such that @!x
such that !@!m
such that @b /\\ x
such that @b /\\ g /\\ 1
such that @1 \\/ b
such that @b -> x
such that @x -> b
such that @b <-> 1
such that @x <-> b
such that @p /\\ b
$ Quantifiers
such that @forAll i : D . x
such that @exists i : D . i
such that @exists i : D . m
such that (@sum i : D . m) = 1
such that @sum i : D . b
such that @forAll i : M . b
such that @exists i : M . b
such that (@sum i : M . 1) = 1
$ Operators
such that @-m = 1
such that @-b
such that @|m| = 1
such that @|b|
such that @x + m = 1
such that @x - y - m = 1
such that @m + x = 1
such that @b + b
such that @x * m = 1
such that @m * x = 1
such that @b * b
such that @m / 2 = 1
such that @x / v = 1
such that @x % v = 1
such that @m % 2 = 1
such that @x ** v = 1
such that @m ** 2 = 1
such that @b ** g
such that @min(x, m) = 1
such that @min(b, b)
such that @max(m, x) = 1
such that @factorial(v) = 1
such that @factorial(g)
such that @toInt(x) = 1
such that @toInt(p) = 1
such that @toInt(b)
$ Comparisons
such that @x = m
such that @m = x
such that @m != m
such that @p < b
such that @x <= []
such that @m > 1
such that @v >= v
such that @(x = 1) + 1
such that @x <lex m
such that @m <lex x
such that @m <=lex q
such that @q <lex q
such that @q >lex []
such that @r >=lex b
such that @(m <lex v) + 1
such that @m in D
such that @x in M
such that @m in M
such that @x in toSet(y)
such that @m in toSet(m)
such that @m in toSet(q)
$ Lists
such that @and([b, 1])
such that and(@[b, p])
such that allDiff(@[m, x])
such that allDiff(@[n, []])
such that allDiff(@[[], x])
such that allDiff(@[m, q])
such that allDiff(@[[], m, q])
such that @and([[true], [1]])
such that @and([p, m])
such that @[[], []] <lex m
such that @[m] <lex m
such that @table(m, [[[]], []])
such that allDiff(@[1 ; M])
such that allDiff(@[b, 1 ; M])
$ Comprehensions
such that allDiff(@[i | i : D, i])
such that allDiff(@[i | i : D, i < 2, v])
such that allDiff(@[1 | i : M])
such that allDiff(@[1 | i : D, j : M])
such that allDiff(@[1 | i : D ; M])
such that @and([i | i : D])
such that @[m | i : D] <lex m
such that @[[] | i : D] <lex m
such that @[i | i : E]
$ Reads
such that @m[1, 2] = 3
such that @m[1, ..] = 3
such that @m[.., 1] <lex m
such that @q[1, .., ..] <lex m
such that @x[1] = 1
such that @b[1]
such that @[][1] = 1
such that @[][..] <lex m
such that @m[v] = 1
such that @q[1, v] = 1
such that @m[[]] = 1
such that @m[1]
such that @q[1] = 1
such that @q[1, ..] = 1
such that @q[.., ..] <lex m
such that @q[..] <lex m
such that @r[1]
such that @p[..]
$ Functions of a matrix
such that @sum(x) = 1
such that @product(b) = 1
such that @min(x) = 1
such that @max(n) = 1
such that @sum(p)
such that @product(p)
such that @min([b])
such that @max([])
such that @and(m)
such that @and(b)
such that @or(q)
such that @or(x)
such that @flatten(x) <lex m
such that @flatten(q)
such that @and(flatten(q))
such that @flatten(b) <lex m
such that @allDiff(x)
such that @allDiff(b)
such that @allDiff(m) = m
$ Functions that count
such that @gcc(x, v, m)
such that @gcc(m, 1, m)
such that @gcc(m, w, m)
such that @gcc(m, v, x)
such that @gcc(m, v, q)
such that @atleast(x, v, v)
such that @atleast(m, w, v)
such that @atleast(m, 1, v)
such that @atleast(m, v, w)
such that @atleast(m, v, 1)
such that @atmost(x, v, v)
such that @atmost(m, w, v)
such that @atmost(m, 1, v)
such that @atmost(m, v, w)
such that @atmost(m, v, 1)
such that @table(x, w)
such that @table(q, w)
such that @table(m, v)
such that @table(m, 1)
such that @table(m, [w, w])
$ Clauses and objectives
minimising @m
maximising @[]
minimising @r";
