//! Where domains may be open.

/// Givens of open domains.
pub(crate) const OPEN: &str = "given k : int
given k : (int)
given k : int(..)
given k : int(1..)
given k : int(..9)
given k : int(1..2, 4..)
given k : int(..2, 4, 6..)
given k : int union bool
given k : D union int(7..)
given k : int(1..) intersect int(..9)
given k : (int - (int(3..)))
given k : matrix indexed by [D] of int
given k : matrix indexed by [D, E] of int(1..)
given k : matrix indexed by [D] of (int union int(..3))
given k : matrix indexed by [D] of matrix indexed by [E] of int
given k, l : int, o : int(1..k) find u : int(l..o)";

/// Texts with an open domain where none may stand.
pub(crate) const CLOSED: &str = "$ Decision variables
find k : @int
find k : (@int)
find k : @int(..)
find k : @int(1..)
find k : @int(..9)
find k : @int(1..2, 4..)
find k : @int(3, 4..)
find k : @int(..2, 4, 6)
find k : D union @int
find k : @int(1..) intersect D
find k : D - (@int)
find k : matrix indexed by [D] of @int
find k : matrix indexed by [D] of (@int(1..))
find k : matrix indexed by [D] of matrix indexed by [D] of @int
$ Lettings
letting k : @int be 1
letting k : matrix indexed by [D] of @int be v
letting K be domain @int
letting K be domain D union @int(3..)
$ Index domains
given k : matrix indexed by [@int] of int
given k : matrix indexed by [D, @int(1..)] of int
given k : matrix indexed by [D union @int] of int
given k : matrix indexed by [D] of matrix indexed by [@int] of int
find k : matrix indexed by [@int(1..)] of D
such that [1 ; @int] <lex m
such that [1 ; @int(1..)] <lex m
such that [i | i : D ; @int(1..)] <lex m
$ Domains of quantifiers and generators
such that forAll i : @int . true
such that exists i : @int(1..) . true
such that (sum i : D union @int . i) = 1
such that forAll i : D . forAll j : @int(i..) . i < j
such that sum([i | i : @int]) = 1
such that sum([i | i : D, j : @int(..i)]) = 1
$ Domains that are looked into
such that x in @int
such that x in @int(1..)
such that x in D - @int(2..)
$ Domains inside the bounds of a given
given k : int(1..sum([i | i : @int]))
given k : int(sum([1 ; @int])..)
given k : int((sum i : @int(1..) . i)..)";
