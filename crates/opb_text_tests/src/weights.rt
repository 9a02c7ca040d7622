//! Texts beside their weights, or the limit that they are over, behind ` => `.

use crate::told::weight;
use std::test::Fail;

const ROWS: &str = "\
min: ; => 0
min: +1 x1 +2 x2 ; +1 x1 +1 x2 >= 1 ; => 32
+1 x1 +1 x1 >= 1 ; => 14
+1 x1 +1 ~x1 >= 1 ; => 14
+1000 x1 >= 1 ; => 2004
+10000 x1 >= 1 ; => 20004
+1000000 x1 >= 1 ; => 2000004
+9999998 x1 >= 1 ; => 20000000
+9999998 x1 >= -1 ; +0 x1 = 3 ; => L6
+9999999 x1 >= 1 ; => L6
+10000000 x1 +10000000 x2 >= 1 ; => L6
+100 x1 +100 x2 +100 x3 +100 x4 +100 x5 +100 x6 >= 1 ; => 7224
+1000 x1 +1000 x2 +1000 x3 +1000 x4 +1000 x5 +1000 x6 >= 1 ; => 54260
+1000000000000 x1 +1000000000000 x2 >= 1 ; => L5
+1 x1 >= 1099511627775 ; => 6
+1 x1 >= -1099511627775 ; => 6
+1 x1 >= 1099511627776 ; => L5
+1 x1 >= -1099511627776 ; => L5
-1 x1 >= 1099511627776 ; => L5
>= 1099511627776 ; => 0
>= 1099511627777 ; => L5
min: +1099511627776 x1 ; => L6
min: +1099511627776 x1 -1 x1 ; => L5
+10000000 x1 >= 1 ; +1099511627777 x1 >= 1 ; => L5
";

#[test]
fn weights_are_these(rt: HostRuntime) -> Result<(), Fail> {
    let alloc = rt.alloc();
    for row in ROWS.lines() {
        let Some((text, said)) = row.split_once(" => ") else {
            panic!(rt; "no arrow in {row}");
        };
        assert_eq!(rt; weight(alloc, text)?.as_str(), said, "{row}");
    }
    Ok(())
}
