// SAT8, SAT16 and SAT24. Each is an instruction of its own, with its bound, over `saturated`.
ghost use Rattle.std.specs.Prelude.{◌≡◌};
ghost use Rattle.shifter.specs.Saturate.{clamp_of, saturated_of, sat8_of, sat16_of, sat24_of};

use values::Computed;
use values::signed::signed;

// v clamped to 0 to top.
fn clamp(v: i32, top: u32) -> u32
    ensures { result ≡ clamp_of top v }
{
    if v < 0 {
        return 0;
    }
    let u = v as u32;
    if top < u { top } else { u }
}

fn saturated(d: u32, top: u32, c: u32) -> Computed
    ensures { result ≡ saturated_of top d c }
{
    Computed {
        value: clamp(signed(d), top),
        carry: c,
    }
}

pub fn sat8(d: u32, c: u32) -> Computed
    ensures { result ≡ sat8_of d c }
{
    saturated(d, 255, c)
}

pub fn sat16(d: u32, c: u32) -> Computed
    ensures { result ≡ sat16_of d c }
{
    saturated(d, 65535, c)
}

pub fn sat24(d: u32, c: u32) -> Computed
    ensures { result ≡ sat24_of d c }
{
    saturated(d, 16777215, c)
}
