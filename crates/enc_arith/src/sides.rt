//! The two sides of which an extreme part can be.

ghost use Rattle.std.specs.Prelude.{◌≡◌};

use ep_base::CompareOp;

/// Whether the least part is asked for or the greatest one.
#[derive(Clone, Copy)]
pub(crate) enum Side {
    Least,
    Greatest,
}

impl Side {
    ghost use Rattle.std.specs.Prelude.{◌≡◌};
    ghost use Rattle.enc_arith.specs.Extremes.{reached_of, within_of};

    /// How each part compares with the extreme one.
    #[tactic(auto, unfolding(crate::specs::Extremes::within_of))]
    pub(crate) fn within(self) -> CompareOp
        ensures { result ≡ within_of self }
    {
        match self {
            Side::Least => CompareOp::AtLeast,
            Side::Greatest => CompareOp::AtMost,
        }
    }

    /// How some part compares with it.
    #[tactic(auto, unfolding(crate::specs::Extremes::reached_of))]
    pub(crate) fn reached(self) -> CompareOp
        ensures { result ≡ reached_of self }
    {
        match self {
            Side::Least => CompareOp::AtMost,
            Side::Greatest => CompareOp::AtLeast,
        }
    }
}
