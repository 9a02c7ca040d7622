//! The text of an answer, as solvers in competitions print it.

ghost use Rattle.std.specs.Prelude.{◌≡◌, ◌≤◌, IsSome, IfOk};
ghost use Rattle.sat_bench.specs.declared.texts.TheConstants.{WIDTH};

use crate::refusal::Refusal;
use cnf_core::Formula;
use itoa::Buffer;
use sat_search::{Outcome, Solver};
use std::alloc::{AllocError, Global};

/// The most bytes that a line of values has.
const WIDTH: usize = 78;

/// The most variables of a formula of which a model gives each a value.
const MOST_VALUES: u64 = 10_000_000;

/// A text, and the status with which the program ends when it is put out.
#[derive(Debug, Drop)]
pub struct Reply {
    pub text: String,
    pub status: u8,
}

/// The reply to an outcome, with the values that the model gives the variables up to this one where there is a model.
pub fn reply_to(
    alloc: Global,
    outcome: Outcome,
    solver: &Solver,
    vars: u64,
    conflicts: u64,
) -> Result<Reply, Refusal>
    requires { outcome ≡ Outcome.Sat → IsSome solver.now.kept }
    ensures sat { outcome ≡ Outcome.Sat → IfOk result (λ reply. reply.status ≡ 10) }
    ensures unsat { outcome ≡ Outcome.Unsat → IfOk result (λ reply. reply.status ≡ 20) }
    ensures spent { outcome ≡ Outcome.Spent → IfOk result (λ reply. reply.status ≡ 0) }
{
    let text = format!(in alloc; "c conflicts {conflicts}\n")?;
    match outcome {
        Outcome::Sat => Ok(Reply {
            text: with_model(text, solver, vars)?,
            status: 10,
        }),
        Outcome::Unsat => Ok(Reply {
            text: with_line(text, "s UNSATISFIABLE\n")?,
            status: 20,
        }),
        Outcome::Spent => Ok(Reply {
            text: with_line(text, "s UNKNOWN\n")?,
            status: 0,
        }),
    }
}

/// The last variable of which a model gives the value: that of the formula, or where it has too many, as a short text can say, the
/// last one that a clause names. Those over that one may have any value.
pub fn last_valued(formula: &Formula) -> u64 {
    let vars = formula.vars();
    if vars <= MOST_VALUES {
        vars
    } else {
        greatest_variable(formula)
    }
}

/// The greatest variable that a clause names, or 0 where none does.
fn greatest_variable(formula: &Formula) -> u64 {
    let mut greatest = 0;
    let clauses = formula.clauses();
    for place in 0..clauses.len() {
        if let Some(last) = clauses.clause(place).last() {
            greatest = last.var().max(greatest);
        }
    }
    greatest
}

fn with_line(text: String, line: &str) -> Result<String, AllocError> {
    let mut text = text;
    text.push_str(line)?;
    Ok(text)
}

/// The text, the line that says that there is a model, and the values of the variables up to this one.
fn with_model(text: String, solver: &Solver, vars: u64) -> Result<String, AllocError>
    requires { IsSome solver.now.kept }
{
    let mut lines = ValueLines {
        text: with_line(text, "s SATISFIABLE\nv")?,
        width: 1,
    };
    for var in 1..=vars {
        lines.put(!solver.value(var), var)?;
    }
    lines.put(false, 0)?;
    with_line(lines.text, "\n")
}

/// A text that ends with lines of values as they grow, and the width of the last one.
#[derive(Debug, Drop)]
struct ValueLines {
    text: String,
    width: usize,
    ghost within: { width ≤ WIDTH },
}

impl ValueLines {
    /// Appends a number, on a new line where the last one has no room for it.
    fn put(&mut self, negative: bool, number: u64) -> Result<(), AllocError> {
        let mut buffer = Buffer::new();
        let digits = buffer.format(number);
        let width = 1 + usize::from(negative) + digits.len();
        if self.width + width > WIDTH {
            self.text.push_str("\nv")?;
            self.width = 1;
        }
        self.text.push_str(if negative { " -" } else { " " })?;
        self.text.push_str(digits)?;
        self.width += width;
        Ok(())
    }
}
