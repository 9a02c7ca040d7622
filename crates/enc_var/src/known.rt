//! What is known of a statement on a variable.

use cnf_core::Lit;

/// A statement on a variable: it always holds, it never does, or it does where a literal is true.
#[derive(Clone, Copy, Debug, PartialEq, Eq)]
pub enum Known {
    True,
    False,
    Is(Lit),
}
