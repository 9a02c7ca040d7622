//! Texts beside their variables and their flat problems.

use ep_flat::{ConKind, Flat};
use opb_text::{flat_of, measure_opb, opb_vars, read_opb};
use std::alloc::Global;
use std::test::Fail;

/// The flat problem of a text, as one line: domains, constraints, and the variable of the objective.
fn told(alloc: Global, text: &str) -> Result<String, Fail> {
    let Ok(opb) = read_opb(alloc, text.as_bytes()) else {
        return Ok(String::from_str(alloc, "fault")?);
    };
    if measure_opb(alloc, &opb).is_err() {
        return Ok(String::from_str(alloc, "limit")?);
    }
    let (flat, goal) = flat_of(alloc, &opb)?;
    let mut line = String::new(alloc);
    for domain in &flat.vars {
        for run in domain.runs() {
            let lo = run.lo;
            let hi = run.hi;
            line.push_str(&format!(in alloc; "{lo}..{hi} ")?)?;
        }
    }
    for con in &flat.cons {
        if let ConKind::Linear(parts, op, number) = &con.kind {
            for part in parts {
                let coefficient = part.0;
                let var = part.1;
                line.push_str(&format!(in alloc; "{coefficient}*{var} ")?)?;
            }
            line.push_str(&format!(in alloc; "{op:?} {number} ")?)?;
        }
    }
    line.push_str(&format!(in alloc; "{goal:?}")?)?;
    Ok(line)
}

#[test]
fn flat_problems_are_these(rt: HostRuntime) -> Result<(), Fail> {
    let alloc = rt.alloc();
    assert_eq!(rt; told(alloc, "")?.as_str(), "None");
    assert_eq!(rt;
        told(alloc, "min: +1 x1 +2 x2 ; +1 x1 +1 x2 >= 1 ;")?.as_str(),
        "0..1 0..1 0..3 1*0 1*1 AtLeast 1 1*0 2*1 -1*2 Equal 0 Some(2)"
    );
    assert_eq!(rt;
        told(alloc, "+2 ~x7 >= 2;")?.as_str(),
        "0..1 -2*0 AtLeast 0 None"
    );
    let objective = "min: -3 ~x9 +1 x2 ; +1 x9 +1 x2 -2 x9 +1 ~x9 = 1 ;";
    let said = "0..1 0..1 -3..1 1*0 -2*1 Equal 0 1*0 3*1 -1*2 Equal 3 Some(2)";
    assert_eq!(rt; told(alloc, objective)?.as_str(), said);
    Ok(())
}

/// Texts beside the variables of their problems.
const VARIABLES: &str = "\
min: +1 x9 -2 ~x4 ; +1 x2 -1 ~x9 +0 x7 >= 1 ; +3 x2 = 3 ; => x2 x4 x7 x9
+1 x10 +1 x9 +1 x10 >= 1 ; => x9 x10
min: ; >= 0 ; =>
";

/// The variables of a text's problem, each behind a blank.
fn variables(alloc: Global, text: &str) -> Result<String, Fail> {
    let Ok(opb) = read_opb(alloc, text.as_bytes()) else {
        return Ok(String::from_str(alloc, "fault")?);
    };
    let vars = opb_vars(alloc, &opb)?;
    let mut line = String::new(alloc);
    for var in &vars {
        let number = *var;
        line.push_str(&format!(in alloc; " x{number}")?)?;
    }
    Ok(line)
}

#[test]
fn variables_ascend_each_once(rt: HostRuntime) -> Result<(), Fail> {
    let alloc = rt.alloc();
    for row in VARIABLES.lines() {
        let Some((text, said)) = row.split_once(" =>") else {
            panic!(rt; "no arrow in {row}");
        };
        assert_eq!(rt; variables(alloc, text)?.as_str(), said, "{row}");
    }
    Ok(())
}
