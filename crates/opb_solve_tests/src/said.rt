//! What is said of a text, as one line.

use cnf_core::Log;
use ep_base::Limit;
use opb_solve::{OpbRefusal, OpbStop, reply_to_opb};
use std::alloc::Global;
use std::test::Fail;

/// The lines of a reply, with `|` for each line end, or why there is none; and `, spent` where the conflicts are.
pub(crate) fn said(alloc: Global, text: &str, conflicts: u64) -> Result<String, Fail> {
    let mut log = Log::new(alloc);
    match reply_to_opb(alloc, text.as_bytes(), conflicts, &mut log) {
        Ok(reply) => {
            let Ok(lines) = String::from_utf8(reply.text) else {
                return Ok(String::from_str(alloc, "no text")?);
            };
            let mut line = lines.replace(alloc, "\n", "|")?;
            if reply.spent {
                line.push_str(" spent")?;
            }
            Ok(line)
        }
        Err(OpbStop::Refused(OpbRefusal::TooLong)) => Ok(String::from_str(alloc, "too long")?),
        Err(OpbStop::Refused(OpbRefusal::Bad(line))) => Ok(format!(in alloc; "fault {line}")?),
        Err(OpbStop::Refused(OpbRefusal::Over(Limit::Reach))) => Ok(String::from_str(alloc, "L5")?),
        Err(OpbStop::Refused(OpbRefusal::Over(Limit::Weight))) => Ok(String::from_str(
            alloc, "L6",
        )?),
        Err(_) => Ok(String::from_str(alloc, "memory")?),
    }
}
