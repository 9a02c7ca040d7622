//! How a node that holds a decision variable is settled once its parts are known.

ghost use Rattle.std.specs.Prelude.{IfOk};
ghost use Rattle.ep_size.specs.Meters.{SettlesMade};

use super::errors::SizeError;
use super::extents::Extent;
use super::totals::Totals;
use ep_base::{Limit, Memory};
use ep_eval::MOST_SIZE;

/// What is known of a node that is made. It is counted, unless a limit is passed: then nothing is known, whatever was made of parts of which nothing was.
pub fn settle<'a>(
    totals: &mut Totals,
    made: Result<Extent<'a>, SizeError>,
) -> Result<Extent<'a>, Memory>
    ensures { IfOk result (SettlesMade totals.old totals.new made.entry) }
{
    if totals.meter.passed.is_some() {
        return Ok(Extent::Nothing);
    }
    match made {
        Ok(known) => {
            if totals.meter.size >= MOST_SIZE {
                totals.meter.passed = Some(Limit::Size);
                return Ok(Extent::Nothing);
            }
            totals.meter.size += 1;
            Ok(known)
        }
        Err(SizeError::Limit(limit)) => {
            totals.meter.passed = Some(limit);
            Ok(Extent::Nothing)
        }
        Err(SizeError::Memory) => Err(Memory),
    }
}
