// ADD, ADDC, SUB, SUBC, NEG, ABS, CMP and CMPQ. ADDQ, ADDQT, SUBQ and SUBQT are add and sub of a quick number.
ghost use Rattle.std.specs.Prelude.{◌≡◌};
ghost use Rattle.alu.specs.Add.{add_of, addc_of, sub_of, subc_of, neg_of, abs_of, cmp_of, cmpq_of};

use values::signed::{magnitude, unsigned};
use values::{Computed, Flags};

pub fn add(d: u32, s: u32) -> Computed
    ensures { result ≡ add_of d s }
{
    addc(d, s, 0)
}

pub fn addc(d: u32, s: u32, c: u32) -> Computed
    ensures { result ≡ addc_of d s c }
{
    let sum = d as u64 + s as u64 + (c % 2) as u64;
    Computed {
        value: (sum % 4294967296) as u32,
        carry: (sum / 4294967296) as u32,
    }
}

pub fn sub(d: u32, s: u32) -> Computed
    ensures { result ≡ sub_of d s }
{
    subc(d, s, 0)
}

pub fn subc(d: u32, s: u32, c: u32) -> Computed
    ensures { result ≡ subc_of d s c }
{
    let taken = s as u64 + (c % 2) as u64;
    let difference = d as u64 + 4294967296 - taken;
    Computed {
        value: (difference % 4294967296) as u32,
        carry: u32::from((d as u64) < taken),
    }
}

pub fn neg(d: u32) -> Computed
    ensures { result ≡ neg_of d }
{
    sub(0, d)
}

pub fn abs(d: u32) -> Computed
    ensures { result ≡ abs_of d }
{
    Computed {
        value: magnitude(d),
        carry: d / 2147483648,
    }
}

pub fn cmp(d: u32, s: u32) -> Flags
    ensures { result ≡ cmp_of d s }
{
    sub(d, s).flags()
}

pub fn cmpq(d: u32, immediate: i32) -> Flags
    ensures { result ≡ cmpq_of d immediate }
{
    cmp(d, unsigned(immediate))
}
