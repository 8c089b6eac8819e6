// Lines of a key and a value. Each function appends one to a text.
#![tactic(auto)]

ghost use Rattle.std.specs.Prelude.{◌≡◌, ◌+◌, ◌++◌, ◌≤◌, length};
ghost use Rattle.arrayvec.specs.ArrayVec.{array_vec_len};
ghost use Rattle.text.specs.Digits.{hex_digits, decimal_of};
ghost use Rattle.lines.specs.Lines.{line_of};

use arrayvec::ArrayVec;
use text::{copy, decimal, hex};

pub mod check;

// A key, n in decimal, a line feed.
pub fn decimal_line<const N: usize>(out: &mut ArrayVec<u8, N>, key: &[u8], n: u32)
    requires { array_vec_len out.old + length key.now + 11 ≤ N }
    ensures wrote { out.new.items ≡ out.old.items ++ line_of key.now (decimal_of n) }
    ensures upper_bound { array_vec_len out.new ≤ array_vec_len out.old + length key.now + 11 }
{
    line(out, key, &decimal(n));
}

// A key, n as eight hexadecimal digits, a line feed.
pub fn hex_line<const N: usize>(out: &mut ArrayVec<u8, N>, key: &[u8], n: u32)
    requires { array_vec_len out.old + length key.now + 9 ≤ N }
    ensures wrote { out.new.items ≡ out.old.items ++ line_of key.now (hex_digits 8 n) }
    ensures upper_bound { array_vec_len out.new ≤ array_vec_len out.old + length key.now + 9 }
{
    line(out, key, &hex::<8>(n));
}

#[tactic(auto, unfolding(crate::specs::Lines::line_of))]
fn line<const N: usize>(out: &mut ArrayVec<u8, N>, key: &[u8], value: &[u8])
    requires { array_vec_len out.old + length key.now + length value.now + 1 ≤ N }
    ensures wrote { out.new.items ≡ out.old.items ++ line_of key.now value.now }
    ensures len { array_vec_len out.new ≡ array_vec_len out.old + length key.now + length value.now + 1 }
{
    copy(out, key);
    copy(out, value);
    out.push(b'\n');
}
