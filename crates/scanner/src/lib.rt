// Lines of a text: a key, a number and a line feed, read off at a place. A line that was found is told by its number and the
// place behind it.
#![tactic(auto)]

ghost use Rattle.std.specs.Prelude.{◌≡◌, drop};
ghost use Rattle.scanner.specs.Lines.{digits, decimal, hexadecimal, number_in, keyed_in};
ghost use Rattle.scanner.specs.Places.{placed_in};

mod digits;

use digits::Digits;

// The decimal number that a text begins with, and the line feed behind it.
pub fn first_number(s: &[u8]) -> Option<(u32, usize)>
    ensures { result ≡ placed_in s.now (number_in decimal 0 0 s.now) }
{
    number(s, 0, Digits::DECIMAL)
}

// The text and a place in it stay apart, since `placed_in` counts from the start of the whole text.

// The line at a place, with a decimal number.
pub fn decimal_line(s: &[u8], at: usize, key: &[u8]) -> Option<(u32, usize)>
    ensures { result ≡ placed_in s.now (keyed_in decimal key.now (drop at s.now)) }
{
    line(s, at, key, Digits::DECIMAL)
}

// The line at a place, with a number of eight hexadecimal digits.
pub fn hex_line(s: &[u8], at: usize, key: &[u8]) -> Option<(u32, usize)>
    ensures { result ≡ placed_in s.now (keyed_in hexadecimal key.now (drop at s.now)) }
{
    line(s, at, key, Digits::HEXADECIMAL)
}

// The line at a place: the key, then a number that is so written.
#[tactic(auto, using(crate::proofs::Steps::steps))]
fn line(s: &[u8], at: usize, key: &[u8], f: Digits) -> Option<(u32, usize)>
    ensures { result ≡ placed_in s.now (keyed_in (digits f.base f.least f.most) key.now (drop at s.now)) }
{
    let behind = s.get(at..)?.strip_prefix(key)?;
    number(s, s.len() - behind.len(), f)
}

// The number at a place, and the line feed behind it.
#[tactic(auto, using(crate::proofs::Steps::steps))]
fn number(s: &[u8], at: usize, f: Digits) -> Option<(u32, usize)>
    ensures { result ≡ placed_in s.now (number_in (digits f.base f.least f.most) 0 0 (drop at s.now)) }
{
    let text = s.get(at..)?;
    let mut n: u32 = 0;
    for (count, &c) in text.iter().enumerate() {
        if c == b'\n' {
            return if count < f.least {
                None
            } else {
                Some((n, at + count + 1))
            };
        }
        let d = f.value(c)?;
        if f.most <= count {
            return None;
        }
        n = n.checked_mul(f.base)?.checked_add(d)?;
    }
    None
}
