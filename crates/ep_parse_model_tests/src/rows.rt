//! Tables of texts that are refused where they are marked, and of texts that are read.

/// Texts that are refused where they are marked.
pub(crate) const REFUSED: &str = "$ Comparisons make no chain
such that 0 < x @< 5
such that x = y @= z
such that x != y @= z
such that x <= y @>= z
such that x = y @in D
such that x in D @= y
such that x in D @< y
such that x in D @in E
such that x in toSet(m) @= y
such that x in toSet(m) @in D
such that x in toSet(m) @- 1
such that x <lex y @<lex z
such that x <lex y @= z
such that x = y @>=lex z
such that x = y + 1 @= z
such that x = y ** 2 * z @!= w
such that x /\\ y = z @= w
such that !x = y @= z
such that (x = y) = z @= w
such that [x = y @= z]
such that m[x = y @= z]
such that sum(x = y @= z)
$ The - behind a domain is the domain's
such that x in D - @1
such that x in D union @1
such that x in D @+ 1
such that x in D @* 2
such that x in D@[1]
such that x in @[1, 2]
such that x in @toInt(y)
$ Behind a bare quantifier the operator is its body's
such that forAll i : D . x = y @= z
such that 1 + sum i : D . x = y @= z
such that x = sum i : D . y = z @= w
such that !forAll i : D . x in D @= y
such that 2 ** sum i : D . x <lex y @< z
such that forAll i : D . exists j : D . x = y @< z
such that x -> forAll i : D . y = z @in D
such that forAll i : D . x in D - @1
such that forAll i : D@, j : E . x
such that forAll i : D . x@. y
such that forAll @(i) : D . x
such that forAll i @in D . x
such that forAll i @. x
such that forAll i : @matrix . x
such that exists @[i] : D . x
such that sum i : D @= 1
such that product @i : D . x";

/// Lists and commas that are refused where they are marked.
pub(crate) const COMMAS: &str = "$ A comma behind the last part
such that x,@,
where x,@,
where @,
such that @, x
such that x, y,@,
minimising x@,
letting c be 1@,
letting c @, d be 1
given n : D,@
given n : D, @find x : D
find x, @: D
find x, @, y : D
find x, @1
find x : D, y@
find x : int(1,@)
find x : int(1,@, 2)
find x : int(@)
find x : matrix indexed by [D,@] of D
find x : matrix indexed by [@] of D
such that [x,@]
such that [@, x]
such that m[x,@]
such that m[@]
such that m[..,@]
such that min(x,@)
such that min(x, y@,)
such that sum(x@,)
such that sum(@)
such that table(x@)
such that gcc(x, y@)
such that gcc(x, y, z@, w)
such that forAll i, @: D . x
such that [x | i : D,@]
such that [x | i : D, y,@]
such that [x | i : D, @; E]
such that [x | i : D, y, z + 1, w @: E]
such that [x | i : D, 1, y @: E]
such that [x | i : D, y, z, (w) @: E]
such that [x | i @= 1]
such that [x | @1]
such that [x | @(i) : D]
such that [x, y @| i : D]
such that [x ; @1]
such that [x ; D@, E]
such that [x | i : D ; E@, y]
such that (x@, y)
such that (@)
such that ||@
such that |x@, y|
branching on [x,@]
branching on [@, x]
branching on [x @y]
branching @[x]
branching on @x
branching on [@1]
heuristic@
heuristic @1
heuristic x@, y
heuristic @min";

/// Forms of other languages and versions, and words in the wrong place.
pub(crate) const FOREIGN: &str = "$ Functions and operators that are none
such that forAll i : int(1..n)@, j : int(1..m) . true
such that alldifferent_except@(x, 0)
such that max(x, y@, z)
such that abs@(x)
such that x @mod 2
such that x @xor y
such that x @and y
such that x @or y
such that not @x
such that flatten(1@, m)
such that concatenate@(x, y)
such that popcount@(x)
such that [m[x] | s @<- m]
such that x in @[1, 2]
such that @toSet(x)
such that @..
such that x @y
such that x @7
such that 7 @x
such that 7@(x)
such that x @!y
such that x =@= y
$ A second objective
minimising x @minimising y
minimising x @maximising y
maximizing x @minimizing y
maximising x such that y @maximising z
minimising x such that y, z, @minimising x
minimising x find y : D @maximizing y
$ Names that are words
find @min : bool
find @max : bool
find @on : bool
find @by : bool
find @of : bool
find x, @sum : bool
given @table : int
given @product : int
letting @domain be 1
letting c be @be
letting c be domain@
branching on [@on]
$ Statements
@x
@1
@,
such@
@that
@language ESSENCE' 1.0
find @: D
find x @D
find x : @1
find x : D @= 1
given n@
given n @be 1
letting n : D@
letting n @1
letting n be @= 1
letting n be@
letting n@
letting n be domain @1
letting n : D be @domain E
letting n = @= 1
letting n @find x : D
letting a@, b be 1
such @such
such @where
such that x @that y
such that x @domain
minimising @minimising
minimising@
where x @be
branching on [x@[1], y]
$ Domains
find x : bool@(1)
find x : int(1)@(2)
find x : int(1 @2)
find x : int(1..2@..3)
find x : int(1..2@.3)
find x : int(1..@.2)
find x : D@[1]
find x : D union@
find x : D @+ E
find x : D union @matrix indexed by [E] of F
find x : (@matrix indexed by [E] of F)
find x : (D@
find x : (@)
find x : matrix @by [D] of E
find x : matrix indexed @[D] of E
find x : matrix indexed by @D of E
find x : matrix indexed by [@matrix indexed by [D] of E] of F
find x : matrix indexed by [D]@, y : D
find x : matrix indexed by [D] of E @of F
find x : matrix indexed by [D @of E
find x : @toSet(m)";

/// Texts that begin otherwise than a model does.
pub(crate) const WHOLE: &str = "@
@find x : bool
@1.0
language@
language @essence
language @1.0
language ESSENCE'@
language ESSENCE' 1@
language ESSENCE' 1.@
language ESSENCE' 1.@b.a
language ESSENCE' @2.0
language ESSENCE' @0.1
language ESSENCE' 1.@1
language ESSENCE' 1@..0
language ESSENCE' 1.0@.0
language ESSENCE' 1.0 @language ESSENCE' 1.0
language ESSENCE' @-1.0
language ESSENCE' 1.0 @1
language @language
@ESSENCE' 1.0";

/// The same with a byte that begins no token.
pub(crate) const WHOLE_BYTES: &str = "language essence@' 1.0
language ESSENC@'E' 1.0
find x@?";

/// Texts that begin otherwise than parameters do.
pub(crate) const PARAMS: &str = "@find
language ESSENCE' 1.0 @find
letting x @3";

/// Parameters with a number of too many digits.
pub(crate) const PARAMS_NUMBERS: &str = "@1234567890123456789";

/// Texts with a byte that begins no token, which is named before any fault of syntax.
pub(crate) const BYTES: &str = "@?
@{
@\"
@#
@&
@~
@^
@'
@`
@\\
@\u{e9}
find x : bool @? find y : bool
find x@\u{e9} : bool
find xESSENCE@' : bool
such that x @\\ y
such that x @&& y
such that x in @{1, 2}
such that ) ) = 1 @?
such that ) 1 @? 1234567890123456789
find x : bool @\u{0}";

/// The same in a later line.
pub(crate) const LATER_BYTES: &str = "1~such^ @?";

/// Texts with a number of too many digits, which is named before any fault of syntax.
pub(crate) const NUMBERS: &str = "@1234567890123456789
such that x = @1234567890123456789
such that x = @0000000000000000001
such that x = -@1234567890123456789
such that ) = ( @1234567890123456789 ?
find x : int(123456789012345678..@1234567890123456789)";

/// Texts that are read, whose tokens are as long as they can be.
pub(crate) const READ: &str = "such that x = 123456789012345678
such that x = 000000000000000001
find ESSENCE : bool
such that a<lexb, a<lex_, a<=lex1, a>lex b
such that x<-y, x<->y, x*-y, x/-y
such that x $ = ?
find x : bool $ \u{e9} ?
such that(x)/\\(y)
find x:int(1..2)such that x=1
find languages, ons, min_, _, Min, minimise, x1, A : bool";

/// Texts whose tokens are longer than their writer may think.
pub(crate) const LONGER: &str = "such that x <lexb @y
such that x <le @y
such that x <=@> y
such that x =@> y
such that x !=@= y
such that x >@< y
such that x /\\@/ y
such that x /@/ y
such that x **@* y
such that m[..@.]
such that m[1@..2]
such that x @|| y
such that 1@a = 1
such that 1@.5 = 1";

/// Texts whose trees are of height 256, or lower.
pub(crate) const LOW: &str = "1~such that ~255~(~1~x~255~)
1~such that ~255~!~1~x
1~such that ~255~- ~1~x
1~such that ~255~|~1~x~255~|
1~such that 1~255~*1
1~such that 1~255~/1
1~such that 1~255~%1
1~such that 1~255~**1
1~such that x~255~->x
1~such that x~255~<->x
1~such that 1~255~*1~1~**1
1~such that 1*1~254~**1
1~such that 1~1000~+1
1~such that 1~1000~-1
1~such that x~1000~/\\x
1~such that x~1000~\\/x
1~such that x~1000~,x
1~such that [x~1000~,x~1~]
1~such that x /\\ ~254~!~1~x
1~such that m~255~[..]
1~such that m~1000~[1]
1~such that m~254~[..]~1000~[1]
1~such that m~254~[..]~3~[1]~1~[..]
1~such that ~255~m[~1~1~255~]
1~such that ~255~toInt(~1~x~255~)
1~such that ~255~sum(~1~x~255~)
1~such that ~255~factorial(~1~x~255~)
1~such that ~255~min(1,~1~x~255~)
1~such that ~255~table(1,~1~x~255~)
1~such that ~255~gcc(1,1,~1~x~255~)
1~such that ~255~atleast(~1~x~255~,1,1)
1~such that ~255~forAll i:D.~1~x
1~such that ~255~sum i,j,k:D.~1~x
1~such that forAll i:~254~(~1~D~254~)~1~.x
1~such that forAll i:~253~(~1~D union D~253~)~1~.x
1~such that forAll i~1000~,i~1~:D.x
1~such that ~256~[~256~]
1~such that ~255~[~1~x~255~]
1~such that ~255~[~1~x,x~255~]
1~such that ~255~[~1~x~255~|i:D]
1~such that [x|i:~254~(~1~D~254~)~1~]
1~such that [x|i:D,~254~!~1~x]
1~such that [x;~254~(~1~D~254~)~1~]
1~such that [x|i:D;~254~(~1~D~254~)~1~]
1~such that [x|i:D~1000~,i:D~1~]
1~such that ~127~[1|i:int(1..~1~1~127~)]
1~such that ~127~[1|i:int(1..~1~[1|i:int(..)]~127~)]
1~such that ~254~!~1~[x|i:D,y,z:E]
1~such that ~254~!~1~[x|i:D,y,z]
1~such that ~127~(1=~1~!1~127~)
1~such that ~85~(1 in int(~1~1~85~))
1~such that ~127~(1 in toSet(~1~!1~127~))
1~such that ~127~(1<lex ~1~!1~127~)
1~such that x in ~254~(~1~D~254~)
1~find x : ~255~(~1~D~255~)
1~find x : D~255~ union D
1~find x : D~255~ intersect D
1~find x : D~255~ - D
1~find x : int(~254~(~1~x~254~)~1~)
1~find x : int(1..~254~!~1~x)
1~find x : int(1~1000~,1~1~)
1~find x : matrix indexed by [~254~(~1~D~254~)~1~] of bool
1~find x : matrix indexed by [D] of ~254~(~1~D~254~)
1~find x : ~1000~matrix indexed by [D] of ~1~bool
1~find x : matrix indexed by [D~1000~,D~1~] of bool
1~letting c be ~255~!~1~x
1~letting c : ~255~(~1~D~255~)~1~ be x
1~minimising ~255~-~1~x
1~where ~255~!~1~x,~255~!~1~x";

/// Texts that only trees of height 257 and more go on with, behind the mark.
pub(crate) const HIGH: &str = "1~such that ~255~(~1~@(x~256~)
1~such that ~255~!~1~@!x
1~such that ~255~- ~1~@- x
1~such that ~255~|~1~@|x~256~|
1~such that 1~255~*1~1~@*1
1~such that 1~255~/1~1~@/1
1~such that 1~255~%1~1~@%1
1~such that 1~255~**1~1~@**1
1~such that x~255~->x~1~@->x
1~such that x~255~<->x~1~@<->x
1~such that 1~255~*1~1~@+1
1~such that 1~255~*1~1~@=1
1~such that 1~255~*1~1~ @in D
1~such that 1~255~*1~1~@<lex x
1~such that 1~255~*1~1~@/\\x
1~such that 1*1~254~**1~1~@**1
1~such that ~255~!~1~x@/\\x
1~such that x /\\ ~254~!~1~@!x
1~such that m~255~[..]~1~@[..]
1~such that m~255~[..]~1~@[1]
1~such that m~254~[..]~1~[1][..]@[1]
1~such that ~255~m[~1~m@[1~256~]
1~such that ~255~toInt(~1~@toInt(x~256~)
1~such that ~255~sum(~1~@sum(x~256~)
1~such that ~255~sum(~1~@sum i : D . x~255~)
1~such that ~255~factorial(~1~@factorial(x~256~)
1~such that ~255~min(1,~1~@min(1,x~256~)
1~such that ~255~table(1,~1~@table(1,x~256~)
1~such that ~255~gcc(1,1,~1~@gcc(1,1,x~256~)
1~such that ~255~atleast(~1~@atleast(x~256~,1,1)
1~such that ~255~forAll i:D.~1~@forAll i:D.x
1~such that ~255~sum i,j:D.~1~@sum i:D.x
1~such that ~255~forAll i:D.~1~x@/\\x
1~such that ~255~forAll i:D.~1~x@=x
1~such that forAll i:~254~(~1~@(D~255~)~1~.x
1~such that forAll i:~254~(~1~D @union D~254~)~1~.x
1~such that ~256~[~1~@x~256~]
1~such that ~256~[~1~@;D~256~]
1~such that ~255~[~1~x@+1~255~]
1~such that [x|i:~254~(~1~@(D~255~)~1~]
1~such that [x|i:D,~254~!~1~@!x]
1~such that [x;~254~(~1~@(D~255~)~1~]
1~such that [x|i:D;~254~(~1~@(D~255~)~1~]
1~such that ~127~[1|i:int(1..~1~[1|i:int(@1..~127~)]
1~such that ~254~!~1~[x|i:D,y@+1]
1~such that ~254~!~1~[x|i:D,y,z@[1]]
1~such that ~254~!~1~[x|i:int(@1)]
1~such that ~127~(1=~1~!@!1~127~)
1~such that ~127~(1=~1~(1@=1)~127~)
1~such that ~85~(1 in int(~1~@(1~85~))
1~such that ~127~(1 in toSet(~1~(1 @in D)~127~))
1~such that ~127~(1<lex ~1~(1 @<lex 1)~127~)
1~such that x in ~254~(~1~@(D~255~)
1~find x : ~255~(~1~@(D~256~)
1~find x : D~255~ union D~1~ @union D
1~find x : D~255~ intersect D~1~ @intersect D
1~find x : D~255~ - D~1~ @- D
1~find x : D~255~ - D~1~ @union D
1~find x : int(~254~(~1~@(x~255~)~1~)
1~find x : int(1..~254~!~1~@!x)
1~find x : int(1,2..~254~!~1~x@+1)
1~find x : matrix indexed by [~254~(~1~@(D~255~)~1~] of bool
1~find x : matrix indexed by [D] of ~254~(~1~@(D~255~)
1~letting c be ~255~!~1~@!x
1~letting c : ~255~(~1~@(D~256~)~1~ be x
1~minimising ~255~-~1~@-x
1~where ~255~!~1~x,~255~!~1~@!x";

/// Texts that get too high first, and then go wrong.
pub(crate) const HIGH_FIRST: &str = "1~such that ~255~!~1~@! )
1~such that ~255~!~1~@!
1~such that ~255~(~1~@()
1~such that ~255~(~1~@(x y
1~such that 1~255~*1~1~@* )
1~such that 1~255~*1~1~@= 1 = 1
1~such that m~255~[..]~1~@[,]
1~such that ~255~forAll i:D.~1~@forAll )
1~such that ~255~[~1~x@+]
1~find x : D~255~ - D~1~ @- 1
1~find x : ~255~(~1~@( find
1~such that ~255~!~1~@!x find find";

/// Texts that go wrong first, or go wrong where they are as high as can be, and statements behind many others.
pub(crate) const WRONG_FIRST: &str = "1~such that @) ~256~!~1~x
1~such that ~255~!~1~@)
1~such that ~255~!~1~@+
1~such that ~255~!~1~@
1~such that ~255~(~1~@)
1~such that ~255~(~1~x~255~)~1~@)
1~such that ~255~(~1~x~254~)~1~@
1~such that 1~255~*1~1~ @1
1~such that 1~255~*1~1~@)
1~such that 1~254~*1~1~*@
1~such that x = y @= ~256~!~1~x
1~such that ~256~[~256~]~1~@]
1~such that ~256~[~1~@)
1~such that ~255~forAll i:D.~1~@)
1~find x : D~255~ union D~1~ @)
1~find x : D~255~ union D~1~@(
1~find x @~256~(
100~such that x^~1~such that @)
100~find x : bool ~1~find @: bool
100~letting x be 1^~1~letting x be @
1~minimising x ~100~where x,^~1~@minimising x
1000~such that x, ~1~such that x,@,
99~^~1~find x : bool find@
1~where^@be";
