// How a number is written.
ghost use Rattle.std.specs.Prelude.{◌≤◌};

// Its base, which has digits up to 'F', and the least and the largest count of its digits.
#[derive(Clone, Copy)]
pub(crate) struct Digits {
    pub(crate) base: u32,
    pub(crate) least: usize,
    pub(crate) most: usize,
    ghost readable: { base ≤ 16 },
}

impl Digits {
    ghost use Rattle.std.specs.Prelude.{◌≡◌, ◌<◌, MatchOption};
    ghost use Rattle.scanner.specs.Lines.{digit_value};

    pub(crate) const DECIMAL: Digits = Digits {
        base: 10,
        least: 1,
        most: 10,
    };

    pub(crate) const HEXADECIMAL: Digits = Digits {
        base: 16,
        least: 8,
        most: 8,
    };

    // What a digit of the base counts.
    pub(crate) fn value(self, c: u8) -> Option<u32>
        ensures { MatchOption result (self.base ≤ digit_value c) (λ d. (d ≡ digit_value c) × (d < self.base)) }
    {
        let d = match c {
            b'0'..=b'9' => c - b'0',
            b'A'..=b'F' => c - b'A' + 10,
            _ => return None,
        } as u32;
        if d < self.base { Some(d) } else { None }
    }
}
