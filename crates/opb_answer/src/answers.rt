//! What a search may answer.

/// The truth value of a variable.
#[derive(Clone, Copy, Debug, PartialEq, Eq)]
pub struct OpbValue {
    /// The number of the variable.
    pub var: u64,
    /// Whether it is true.
    pub holds: bool,
}

/// What is answered to a problem. A solution gives each variable that stands in the problem its truth value, in ascending
/// order.
#[derive(Debug, Drop)]
pub enum OpbAnswer {
    /// A solution of a problem that states no objective.
    Solution(Vec<OpbValue>),
    /// A solution with the smallest objective.
    Optimum(Vec<OpbValue>),
    /// There is no solution.
    NoSolution,
    /// The conflicts were spent, perhaps with a solution of a problem that states an objective at hand.
    Unknown(Option<Vec<OpbValue>>),
}
