// Two's complement: the signed number that bits stand for, and the bits of a signed number.
ghost use Rattle.std.specs.Prelude.{◌≡◌, ◌<◌, nat_abs};
ghost use Rattle.values.specs.Signed.{signed_of, signed16_of, unsigned_of};

pub fn signed(x: u32) -> i32
    ensures { result ≡ signed_of x }
{
    x.cast_signed()
}

pub fn unsigned(v: i32) -> u32
    ensures { result ≡ unsigned_of v }
{
    v.cast_unsigned()
}

// The signed number of the low 16 bits. Moved up by 2^15 and down again, it has no branch.
pub fn signed16(x: u32) -> i32
    ensures { result ≡ signed16_of x }
{
    ((x % 65536 + 32768) % 65536) as i32 - 32768
}

// How far the signed number of x is from 0.
pub fn magnitude(x: u32) -> u32
    ensures { result ≡ nat_abs (signed_of x) }
{
    signed(x).unsigned_abs()
}
