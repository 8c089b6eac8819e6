// The GPU: the constants of local RAM and of the built chip registers, as paper 01 gives them, and the offset of an address in RAM.
#![tactic(auto)]

ghost use Rattle.std.specs.Prelude.{◌≡◌, ◌+◌, ◌%◌, ◌^◌, ◌<◌};
ghost use Rattle.processor.specs.Processor.{gpu};

#[derive(Clone, Copy)]
pub struct Gpu {}

impl Gpu {
    // The first address of local RAM, and how many bytes it has.
    pub const BASE: u32 = 0xF03000;

    pub const SIZE: usize = 4096;

    // The built chip registers: flags, control, and remainder or divide mode.
    pub const FLAGS: u32 = 0xF02100;

    pub const CONTROL: u32 = 0xF02114;

    pub const DIVIDE: u32 = 0xF0211C;

    // The address less the base, modulo 2^32: below the size for an address in RAM, and for no other.
    pub fn offset(a: u32) -> u32
        ensures { ((result + gpu.base) % 2 ^ 32 ≡ a) × (result < 2 ^ 32) }
    {
        a.wrapping_sub(Self::BASE)
    }
}
