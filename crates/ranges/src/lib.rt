// What is known of a register's content, as a range and whether it is a multiple of 4, and how the operations of instructions change
// it. Nothing here knows of the code that is checked.
#![tactic(auto)]

ghost use Rattle.std.specs.Prelude.{◌≡◌};
ghost use Rattle.ranges.specs.Ranges.{full, unknown, exact_range, and_range, sum_range, less_range, shifted_range, is_exactly};

use std::marker::Model;

// 01's "known": the range of a register's content, both ends included, and whether it is known to be a multiple of 4.
// The lower end is never above the upper one, so an operation that adds or subtracts ends has to ask only one of them.
#[derive(Clone, Copy)]
pub struct Range {
    pub low: u32,
    pub high: u32,
    pub aligned: bool,
}

// Definitions build ranges with no proof at hand, so the order of the ends stands here and in no ghost field.
impl Model for Range {
    ghost use Rattle.std.specs.Prelude.{◌≤◌};
    ghost use Rattle.ranges.specs.Interval.{Interval};

    ghost Value = { Interval };

    ghost view = { λ x. record { low = x.low; high = x.high; aligned = x.aligned } };

    ghost invariant = { λ x. x.low ≤ x.high };

    ghost inverse = { λ x. record { low = x.low; high = x.high; aligned = x.aligned } };
}

// The highest register content.
const MOST: u32 = u32::MAX;

impl Range {
    // Nothing is known.
    pub fn anything() -> Self
        ensures { result ≡ full }
    {
        Range {
            low: 0,
            high: MOST,
            aligned: false,
        }
    }

    // 01's "exact value and its own yes or no".
    pub fn exact(v: u32) -> Self
        ensures { result ≡ exact_range v }
    {
        Range {
            low: v,
            high: v,
            aligned: v % 4 == 0,
        }
    }

    // 01's AND: "from 0 to the smaller upper end, yes if either is yes".
    pub fn and(self, y: Self) -> Self
        ensures { result ≡ and_range self y }
    {
        Range {
            low: 0,
            high: self.high.min(y.high),
            aligned: self.aligned || y.aligned,
        }
    }

    // The ends added, unless the upper sum would pass 2^32−1; asked before adding, so that no sum overflows.
    pub fn sum(self, y: Self) -> Self
        ensures { result ≡ sum_range self y }
    {
        let aligned = self.aligned && y.aligned;
        if MOST - self.high < y.high {
            Range {
                aligned,
                ..Range::anything()
            }
        } else {
            Range {
                low: self.low + y.low,
                high: self.high + y.high,
                aligned,
            }
        }
    }

    // The ends less n, unless the lower one is below n.
    pub fn less(self, n: u32) -> Self
        ensures { result ≡ less_range self n }
    {
        let aligned = self.aligned && n % 4 == 0;
        if n <= self.low {
            Range {
                low: self.low - n,
                high: self.high - n,
                aligned,
            }
        } else {
            Range {
                aligned,
                ..Range::anything()
            }
        }
    }

    // 01's "SHLQ by 2 or more: full, yes".
    pub fn shifted(n: u32) -> Self
        ensures { result ≡ shifted_range n }
    {
        Range {
            aligned: 2 <= n,
            ..Range::anything()
        }
    }

    pub fn is_exactly(self, n: u32) -> bool
        ensures { result ≡ is_exactly self n }
    {
        self.low == n && self.high == n
    }
}

// Nothing is known of any register.
pub fn unknown_all() -> [Range; 32]
    ensures { result ≡ unknown }
{
    [Range::anything(); 32]
}
