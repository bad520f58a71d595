//! Every division of a rule rounds up, and every size ends at 60,001.
ghost use Rattle.std.specs.Prelude.{◌≡◌};
ghost use Rattle.clauses.specs.Rounding.{divided_up, RoundedUp, per_cent, ended};

use terms::limits::LARGEST_SIZE;

/// The end of sizes: one above the largest. A number and no absence of one, since it is compared with sizes like one; no stock reaches it.
pub const END: u16 = LARGEST_SIZE + 1;

/// `n / d` rounded up; 0 where `d` is 0.
pub fn divided_up(n: u128, d: u128) -> u128
    ensures value { result ≡ divided_up n d }
    ensures least { RoundedUp n d result }
{
    if d == 0 { 0 } else { n.div_ceil(d) }
}

/// So many per cent of a size, rounded up.
pub fn percentage(percent: u8, size: u16) -> u128
    ensures { result ≡ per_cent percent size }
{
    divided_up(u128::from(percent) * u128::from(size), 100)
}

/// A size, which ends as 60,001 where it is above 60,000.
pub fn end_size(n: u128) -> u16
    ensures { result ≡ ended n }
{
    n.min(u128::from(END)) as u16
}
