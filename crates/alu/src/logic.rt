// AND, OR, XOR, NOT, BTST, BSET and BCLR.
ghost use Rattle.std.specs.Prelude.{◌≡◌};
ghost use Rattle.alu.specs.Logic.{and_of, or_of, xor_of, not_of, btst_of, bset_of, bclr_of};

use values::{Computed, Flags};

// AND, OR and XOR are three operators of the language: a function that took one would be no plainer.
pub fn and(d: u32, s: u32, c: u32) -> Computed
    ensures { result ≡ and_of d s c }
{
    Computed {
        value: d & s,
        carry: c,
    }
}

pub fn or(d: u32, s: u32, c: u32) -> Computed
    ensures { result ≡ or_of d s c }
{
    Computed {
        value: d | s,
        carry: c,
    }
}

pub fn xor(d: u32, s: u32, c: u32) -> Computed
    ensures { result ≡ xor_of d s c }
{
    Computed {
        value: d ^ s,
        carry: c,
    }
}

pub fn not(d: u32, c: u32) -> Computed
    ensures { result ≡ not_of d c }
{
    Computed {
        value: 4294967295 - d,
        carry: c,
    }
}

pub fn btst(d: u32, q: u32, f: Flags) -> Flags
    ensures { result ≡ btst_of d q f }
{
    Flags {
        z: u32::from((d >> (q % 32)) % 2 == 0),
        n: f.n,
        c: f.c,
    }
}

pub fn bset(d: u32, q: u32, c: u32) -> Computed
    ensures { result ≡ bset_of d q c }
{
    Computed {
        value: d | 1 << (q % 32),
        carry: c,
    }
}

pub fn bclr(d: u32, q: u32, c: u32) -> Computed
    ensures { result ≡ bclr_of d q c }
{
    Computed {
        value: d & 4294967295 - (1 << (q % 32)),
        carry: c,
    }
}
