// MTOI and NORMI.
ghost use Rattle.std.specs.Prelude.{◌≡◌};
ghost use Rattle.shifter.specs.Normalise.{mtoi_of, normi_of};

use values::Computed;

pub fn mtoi(s: u32, c: u32) -> Computed
    ensures { result ≡ mtoi_of s c }
{
    if s < 2147483648 {
        Computed {
            value: s % 8388608,
            carry: c,
        }
    } else {
        Computed {
            value: 4286578688 + s % 8388608,
            carry: c,
        }
    }
}

pub fn normi(s: u32, c: u32) -> Computed
    ensures { result ≡ normi_of s c }
{
    if s == 0 {
        Computed { value: 0, carry: c }
    } else {
        // The highest one is at place 31 less the leading zeros; less 22 that is 9 less them.
        let zeros = s.leading_zeros() as u64;
        Computed {
            value: ((4294967305 - zeros) % 4294967296) as u32,
            carry: c,
        }
    }
}
