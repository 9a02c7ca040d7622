//! What models of other programs have, and what is written in its place.

/// Texts that are refused.
pub(crate) const REFUSED: &str = "F5 such that @sum i : D . m[i] = 5
F7 given d : matrix indexed by [@int(1..)] of int
F5 such that @x -> y = 1
F5 such that @!x
F5 such that @x /\\ y
F5 such that @toInt(x) = 1
F6 such that sum([1 | i : D, @m[i] = 2]) = 1
F6 such that atmost(m, [@x], [1])
F5 such that @q[1, ..] = q[2, ..]
F5 such that @q[1, ..] != q[2, ..]
F5 such that @m = [1, 2, 3]
F6 such that allDiff(q[@x, ..])
F6 such that 2 ** @x = 4
F6 such that table(m, @q)
F3 minimising @z find z : D
F3 letting k be @z letting z be 1";

/// Texts that say the same, or that mean something else than their writer may think.
pub(crate) const WRITTEN: &str = "such that (sum i : D . m[i]) = 5
such that (sum i : D . m[i] = 5) >= 1
such that forAll i : D . forAll j : D . q[i, j] = 1
such that 0 < x /\\ x < 5
such that x = 1, x = 1 -> y = 1
such that sum([m[i] = 2 | i : D]) = 1
such that gcc(m, [1], [x])
such that and([q[1, k] = q[2, k] | k : D])
such that m <=lex v, v <=lex m
such that exists k : D . q[1, k] != q[2, k]
such that allDiff([q[x, k] | k : D])
such that v[x] = 4
such that exists i : D . m[1] = q[i, 1] /\\ m[2] = q[i, 2]
such that m[1] = 0 \\/ m[1] != m[2]
such that max([x, y, n]) = 1
such that |x| % 2 = 1
such that x in int(1, 2), x in toSet([1, 2])
such that allDiff(flatten(q))
such that sum([m[v[k]] | k : int(1..3)]) = 1
such that -x ** 2 = 4
such that forAll i : D . m[i] <= m[i + 1]
branching on [m, y]
minimising x * 10 + y";
