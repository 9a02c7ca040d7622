//! Where the value of a function goes.

/// The variable of a result, and the one that says whether it has the function's value, if there is one.
#[derive(Clone, Copy)]
pub(crate) struct Target {
    /// The variable that says whether the result has the value; none where it has to.
    pub truth: Option<u64>,
    /// The variable of the result.
    pub result: u64,
}
