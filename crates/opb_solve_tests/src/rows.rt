//! Texts beside what is said of them. In a row `|` stands for a line end, and what is said stands behind ` => `.

use crate::said::said;
use std::test::Fail;

const ROWS: &str = "\
* #variable= 2 #constraint= 1|min: +1 x1 +2 x2 ;|+1 x1 +1 x2 >= 1 ;| => s OPTIMUM FOUND|v x1 -x2|
* #variable= 9 #constraint= 7|+1 x1 >= 1 ;| => s SATISFIABLE|v x1|
+1 x1 +1 x2 = 1 ;|+1 x1 >= 1 ;|+1 x2 >= 1 ;| => s UNSATISFIABLE|
+1 x1 > 1 ;| => fault 1
| => s SATISFIABLE|v|
+1000000000000 x1 +1000000000000 x2 >= 1 ;| => L5
+10000000 x1 +10000000 x2 >= 1 ;| => L6
+2 ~x7 >= 2; => s SATISFIABLE|v -x7|
min: ;| => s OPTIMUM FOUND|v|
min: +1 x3 ;|+1 x1 +1 x2 = 2 ;| => s OPTIMUM FOUND|v x1 x2 -x3|
min: -3 ~x9 +1 x2 ;|+1 x9 +1 x2 >= 1 ;| => s OPTIMUM FOUND|v x2 -x9|
min: -1 x10 -1 x9 ;|-1 x9 -1 x10 >= -1 ; +1 x9 >= 1 ;| => s OPTIMUM FOUND|v x9 -x10|
min: +1 x1 ;|+1 x1 >= 2 ;| => s UNSATISFIABLE|
+1 x1 +1 x1 >= 2 ;| => s SATISFIABLE|v x1|
+1 x1 +1 ~x1 = 1 ; +1 x1 = 0 ;| => s SATISFIABLE|v -x1|
+1 x1 -1 x1 >= 1 ;| => s UNSATISFIABLE|
+0 x4 >= 0 ; -1 x4 = -1 ;| => s SATISFIABLE|v x4|
+1 x1 >= -0 ; -1 x1 >= 0 ;| => s SATISFIABLE|v -x1|
+3 x1 +5 x2 +7 x3 = 8 ;| => s SATISFIABLE|v x1 x2 -x3|
+1 x1 >= 1| => fault 1
+1 x1 1 ;| => fault 1
+1 x1 >= 1234567890123456789 ;| => fault 1
";

#[test]
fn this_is_said_of_texts(rt: HostRuntime) -> Result<(), Fail> {
    let alloc = rt.alloc();
    for row in ROWS.lines() {
        let Some((text, answer)) = row.split_once(" => ") else {
            panic!(rt; "no arrow in {row}");
        };
        let text = text.replace(alloc, "|", "\n")?;
        assert_eq!(rt; said(alloc, &text, 1_000_000)?.as_str(), answer, "{row}");
    }
    Ok(())
}

/// Four pigeons in three holes: each sits somewhere, and no hole takes two.
const PIGEONS: &str = "\
+1 x1 +1 x2 +1 x3 >= 1 ;
+1 x4 +1 x5 +1 x6 >= 1 ;
+1 x7 +1 x8 +1 x9 >= 1 ;
+1 x10 +1 x11 +1 x12 >= 1 ;
-1 x1 -1 x4 -1 x7 -1 x10 >= -1 ;
-1 x2 -1 x5 -1 x8 -1 x11 >= -1 ;
-1 x3 -1 x6 -1 x9 -1 x12 >= -1 ;
";

#[test]
fn conflicts_are_spent(rt: HostRuntime) -> Result<(), Fail> {
    let alloc = rt.alloc();
    assert_eq!(rt; said(alloc, PIGEONS, 1)?.as_str(), "s UNKNOWN| spent");
    assert_eq!(rt;
        said(alloc, PIGEONS, 1_000_000)?.as_str(),
        "s UNSATISFIABLE|"
    );
    Ok(())
}

/// Twenty things, of which each has a worth and a weight, and a sack: the worth goes by the weight. A table by weights says that no
/// other choice is worth as much. Without a constraint that bounds the worth by what the sack holds the end takes four times as
/// many conflicts as are allowed.
const KNAPSACK: &str = "\
min: -13 x1 -18 x2 -17 x3 -11 x4 -15 x5 -10 x6 -17 x7 -3 x8 -15 x9 -11 x10 -10 x11 -10 x12 -3 x13 \
-11 x14 -12 x15 -13 x16 -7 x17 -21 x18 -12 x19 -2 x20 ;
-12 x1 -16 x2 -16 x3 -10 x4 -14 x5 -8 x6 -15 x7 -1 x8 -14 x9 -9 x10 -8 x11 -8 x12 -1 x13 -10 x14 -10 \
x15 -11 x16 -5 x17 -20 x18 -10 x19 -1 x20 >= -99 ;
";

#[test]
fn a_knapsack_ends_within_few_conflicts(rt: HostRuntime) -> Result<(), Fail> {
    assert_eq!(rt;
        said(rt.alloc(), KNAPSACK, 500)?.as_str(),
        "s OPTIMUM FOUND|v x1 -x2 -x3 -x4 -x5 x6 x7 x8 -x9 x10 x11 x12 x13 -x14 x15 x16 x17 -x18 x19 x20|"
    );
    Ok(())
}

#[test]
fn a_text_without_words_is_an_empty_problem(rt: HostRuntime) -> Result<(), Fail> {
    let alloc = rt.alloc();
    assert_eq!(rt; said(alloc, "", 1)?.as_str(), "s SATISFIABLE|v|");
    assert_eq!(rt;
        said(alloc, "* a\r\n+1\tx1 >= 1\r;\r\n", 1)?.as_str(),
        "s SATISFIABLE|v x1|"
    );
    Ok(())
}
