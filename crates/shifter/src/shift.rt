// SH, SHA, SHLQ, SHRQ, SHARQ, ROR and RORQ. The quick forms are left, right, right_signed and rotate by a quick number.
ghost use Rattle.std.specs.Prelude.{◌≡◌};
ghost use Rattle.shifter.specs.Shift.{left_of, right_of, right_signed_of, shift_of, rotate_of};

use values::Computed;
use values::signed::{magnitude, signed, unsigned};

// The three shifts differ in their operator and in what 32 places or more leave: no parameter would make one of them plainer.

// Left by k places.
pub fn left(d: u32, k: u32) -> Computed
    ensures { result ≡ left_of d k }
{
    if k < 32 {
        Computed {
            value: d << k,
            carry: d / 2147483648,
        }
    } else {
        Computed {
            value: 0,
            carry: d / 2147483648,
        }
    }
}

// Right by k places.
pub fn right(d: u32, k: u32) -> Computed
    ensures { result ≡ right_of d k }
{
    if k < 32 {
        Computed {
            value: d >> k,
            carry: d % 2,
        }
    } else {
        Computed {
            value: 0,
            carry: d % 2,
        }
    }
}

// Right by k places with sign fill.
pub fn right_signed(d: u32, k: u32) -> Computed
    ensures { result ≡ right_signed_of d k }
{
    if k < 32 {
        Computed {
            value: unsigned(signed(d) >> k),
            carry: d % 2,
        }
    } else {
        Computed {
            value: unsigned(signed(d) >> 31),
            carry: d % 2,
        }
    }
}

// By the signed number s: left where it is negative; else to the right, which the caller has shifted by as many places.
fn shift(d: u32, s: u32, to_right: Computed) -> Computed
    ensures { result ≡ shift_of (λ _ _. to_right) d s }
{
    if signed(s) < 0 {
        left(d, magnitude(s))
    } else {
        to_right
    }
}

pub fn sh(d: u32, s: u32) -> Computed
    ensures { result ≡ shift_of right_of d s }
{
    shift(d, s, right(d, magnitude(s)))
}

pub fn sha(d: u32, s: u32) -> Computed
    ensures { result ≡ shift_of right_signed_of d s }
{
    shift(d, s, right_signed(d, magnitude(s)))
}

// Right by the low five bits of k, the bits that leave coming in at the top.
pub fn rotate(d: u32, k: u32) -> Computed
    ensures { result ≡ rotate_of d k }
{
    let top = d / 2147483648;
    let n = k % 32;
    if n == 0 {
        Computed {
            value: d,
            carry: top,
        }
    } else {
        Computed {
            value: d >> n | d << (32 - n),
            carry: top,
        }
    }
}
