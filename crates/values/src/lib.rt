// Values of 32 bits: results and flags of the operations, and two's complement.
//
// A register is a u32. A flag is a number too, for speed: a bit, which every instruction keeps.
#![tactic(auto)]

ghost use Rattle.std.specs.Prelude.{◌≡◌};
ghost use Rattle.values.specs.Results.{flags_of};

pub mod signed;

// A result and C after it. Z and N follow the result.
#[derive(Clone, Copy)]
pub struct Computed {
    pub value: u32,
    pub carry: u32,
}

#[derive(Clone, Copy)]
pub struct Flags {
    pub z: u32,
    pub n: u32,
    pub c: u32,
}

impl Computed {
    pub fn flags(self) -> Flags
        ensures { result ≡ flags_of self }
    {
        Flags {
            z: u32::from(self.value == 0),
            n: self.value / 2147483648,
            c: self.carry,
        }
    }
}
