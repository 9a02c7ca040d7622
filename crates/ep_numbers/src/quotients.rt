//! Quotients and remainders.

ghost use Rattle.std.specs.Prelude.{◌≡◌};
ghost use Rattle.ep_base.specs.Numbers as numbers;

/// The floor of `x / y`, which has no value for y = 0.
pub fn quotient(left: i64, right: i64) -> Option<i128>
    ensures { result ≡ numbers.quotient left right }
{
    let over = i128::from(left);
    let under = i128::from(right);
    if under > 0 {
        return Some(over.div_euclid(under));
    }
    if under < 0 {
        return Some((-over).div_euclid(-under));
    }
    None
}

/// `x % y`, which has no value for y = 0.
pub fn remainder(left: i64, right: i64) -> Option<i128>
    ensures { result ≡ numbers.remainder left right }
{
    let over = i128::from(left);
    let under = i128::from(right);
    if under > 0 {
        return Some(over.rem_euclid(under));
    }
    if under < 0 {
        return Some(-(-over).rem_euclid(-under));
    }
    None
}
