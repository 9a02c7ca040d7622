//! Answers as numbers of cells.

/// What was found.
#[derive(Debug, Drop)]
pub enum CellAnswer {
    /// The numbers of the cells in a solution.
    Solution(Vec<i64>),
    /// The best number of the objective, and those of the cells.
    Optimum(i64, Vec<i64>),
    /// There is no solution.
    NoSolution,
    /// The budget is spent; the best so far, where there is one.
    Unknown(Option<(i64, Vec<i64>)>),
}

/// Some solutions, and how their list ends.
#[derive(Debug, Drop)]
pub struct CellListing {
    /// The numbers of the cells in each.
    pub found: Vec<Vec<i64>>,
    /// Why there are no more.
    pub end: End,
}

/// How a list of solutions ends.
#[derive(Clone, Copy, Debug, PartialEq, Eq)]
pub enum End {
    /// There is no further one.
    Complete,
    /// There are as many as were wanted.
    Stopped,
    /// The budget is spent.
    Spent,
}
