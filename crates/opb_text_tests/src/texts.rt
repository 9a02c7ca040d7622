//! Texts beside what they say. In a row `|` stands for a line end, and what is said stands behind ` => `.

use crate::told::reading;
use std::test::Fail;

const ROWS: &str = "\
* => says
* #variable= 2 #constraint= 1|min: +1 x1 +2 x2 ;|+1 x1 +1 x2 >= 1 ;| => says min: 1x1 2x2; 1x1 1x2 >= 1;
* #variable= 9 #constraint= 7|+1 x1 >= 1 ;| => says 1x1 >= 1;
+1 x1 +1 x2 = 1 ;|+1 x1 >= 1 ;|+1 x2 >= 1 ;| => says 1x1 1x2 = 1; 1x1 >= 1; 1x2 >= 1;
+1 x1 > 1 ;| => fault 1
+2 ~x7 >= 2;| => says 2~x7 >= 2;
min:;>=0;=-0;| => says min:; >= 0; = 0;
min: +1 x1 ; min: +1 x1 ;| => fault 1
+1 x1 >= 1 ;|min: +1 x1 ;| => fault 2
min:+1 x1 ;| => fault 1
max: +1 x1 ;| => fault 1
+1 x1 x2 >= 1 ;| => fault 1
+1 x1|+1 x2|<= 1 ;| => fault 3
+1 x1 >= 1 >= 1 ;| => fault 1
+1 x1 >= -0 ;| => says 1x1 >= 0;
+1 x1 >= 1| => fault 1
+1 x1 >= 1||| => fault 3
+1 x1| => fault 1
+1 x1 ;| => fault 1
+1 x1 >= ;| => fault 1
| => says
   || => says
* one|* two| => says
 *x| => fault 1
+1 x1 >= 1 * x|;| => fault 1
+1 x1 >= 1|* x|;| => says 1x1 >= 1;
+1 x1>=1;-3 x02=4; => says 1x1 >= 1; -3x2 = 4;
1 x1 >= +123456789012345678 ; => says 1x1 >= 123456789012345678;
1 x1 >= 1234567890123456789 ; => fault 1
1 x123456789012345678 >= 1 ; => says 1x123456789012345678 >= 1;
1 x1234567890123456789 >= 1 ; => fault 1
1 x0 >= 1 ; => fault 1
1 x >= 1 ; => fault 1
1 ~ x1 >= 1 ; => fault 1
1 ~~x1 >= 1 ; => fault 1
1 y1 >= 1 ; => fault 1
x1 >= 1 ; => fault 1
+ 1 x1 >= 1 ; => fault 1
+-1 x1 >= 1 ; => fault 1
1 x1 >=1>=; => fault 1
1 x1 >== 1; => fault 1
1 x1 >>= 1; => fault 1
1 x1 = > 1; => fault 1
1 x1 > = 1; => fault 1
0 x3 0 x3 = 0; => says 0x3 0x3 = 0;
";

#[test]
fn texts_say_this(rt: HostRuntime) -> Result<(), Fail> {
    let alloc = rt.alloc();
    for row in ROWS.lines() {
        let Some((text, said)) = row.split_once(" => ") else {
            panic!(rt; "no arrow in {row}");
        };
        let text = text.replace(alloc, "|", "\n")?;
        assert_eq!(rt; reading(alloc, &text)?.as_str(), said, "{row}");
    }
    Ok(())
}

#[test]
fn carriage_returns_and_tabs_are_blanks(rt: HostRuntime) -> Result<(), Fail> {
    let alloc = rt.alloc();
    let said = reading(alloc, "* a\r\n+1\tx1 >= 1\r;\r\n+1 x1 >\r\n")?;
    assert_eq!(rt; said.as_str(), "fault 3");
    let said = reading(alloc, "* a\r\n+1\tx1 >= 1\r;\r\n")?;
    assert_eq!(rt; said.as_str(), "says 1x1 >= 1;");
    Ok(())
}
