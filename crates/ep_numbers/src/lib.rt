//! Numbers as the stages compute with them: sets of them as lists, those that are near enough to 0, powers, and
//! the intervals in which the results of operations lie.
#![tactic(auto)]

mod listing;
mod powers;
pub mod quotients;
mod reach;
mod sets;
mod spans;

pub use listing::{has_count, listed, run_length, runs_ascend, set_length};
pub use powers::{nth_power, steps, times};
pub use reach::{MOST_NUMBER, MOST_WIDE, is_far, is_far_word, is_near, near_number};
pub use sets::{copy_keys, copy_sets};
pub use spans::{
    Extremes, Span, WideSpan, absolute, added, greatest, has_zero, least, near, negated, only,
    power, product, quotient, remainder, scaled, span_of_set, widened, width, with_one,
};
