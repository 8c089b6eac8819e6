// Numbers as digits, and bytes appended to a text, in vectors of a fixed capacity.
#![tactic(auto)]

ghost use Rattle.std.specs.Prelude.{◌≡◌, ◌+◌, ◌++◌, ◌<◌, ◌≤◌, length};
ghost use Rattle.arrayvec.specs.ArrayVec.{array_vec_len};
ghost use Rattle.text.specs.Digits.{digit_of, hex_digits, decimal_of};

use arrayvec::ArrayVec;

// The digits of n in decimal, with no leading zeros. std's Display promises them only where it answers Ok, and this always.
pub fn decimal(n: u32) -> ArrayVec<u8, 10>
    ensures { result.items ≡ decimal_of n }
{
    let mut digits = ArrayVec::new();
    let mut rest = n;
    while rest >= 10 {
        digits.push(digit(rest % 10));
        rest /= 10;
    }
    digits.push(digit(rest));
    digits.reverse();
    digits
}

// The last K hexadecimal digits of n.
pub fn hex<const K: usize>(n: u32) -> ArrayVec<u8, K>
    ensures { result.items ≡ hex_digits K n }
{
    let mut digits = ArrayVec::new();
    let mut rest = n;
    for _ in 0..K {
        digits.push(digit(rest % 16));
        rest /= 16;
    }
    digits.reverse();
    digits
}

fn digit(d: u32) -> u8
    requires { d < 16 }
    ensures { result ≡ digit_of d }
{
    if d < 10 { 48 + d as u8 } else { 55 + d as u8 }
}

// Appends the bytes.
pub fn copy<const N: usize>(out: &mut ArrayVec<u8, N>, bytes: &[u8])
    requires { array_vec_len out.old + length bytes.now ≤ N }
    ensures { out.new.items ≡ out.old.items ++ bytes.now }
{
    for &byte in bytes {
        out.push(byte);
    }
}
