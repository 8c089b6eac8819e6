// DIV.
ghost use Rattle.std.specs.Prelude.{◌≡◌, ◌<◌};
ghost use Rattle.multiplier.specs.Divide.{divide_of, div_of};

#[derive(Clone, Copy)]
pub struct Divided {
    pub quotient: u32,
    pub remainder: u32,
}

// The low 32 bits of n/s, and the remainder.
fn divide(n: u64, s: u32) -> Divided
    requires { 0 < s }
    ensures { result ≡ divide_of n s }
{
    let quotient = n / s as u64;
    let remainder = n % s as u64;
    Divided {
        quotient: (quotient % 4294967296) as u32,
        remainder: remainder as u32,
    }
}

// d/s in a divide mode, 0 or 1.
pub fn div(d: u32, s: u32, mode: u32) -> Divided
    ensures { result ≡ div_of d s mode }
{
    if s == 0 {
        return Divided {
            quotient: 4294967295,
            remainder: d,
        };
    }
    if mode == 1 {
        divide(d as u64 * 65536, s)
    } else {
        divide(d as u64, s)
    }
}
