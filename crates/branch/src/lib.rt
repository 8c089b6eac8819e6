// A jump's condition, and the target of a JR.
#![tactic(auto)]

ghost use Rattle.std.specs.Prelude.{◌≡◌};
ghost use Rattle.branch.specs.Jump.{chosen_of, met_of, taken_of, jr_target_of};

use values::Flags;
use values::signed::unsigned;

// The flag that bit 4 chooses.
fn chosen(bits: u32, f: Flags) -> u32
    ensures { result ≡ chosen_of bits f }
{
    if bits / 16 % 2 == 1 { f.n } else { f.c }
}

// Whether a pair of condition bits is met: the first needs the flag clear, the second needs it set.
fn met(clear: u32, set: u32, flag: u32) -> bool
    ensures { result ≡ met_of clear set flag }
{
    if flag == 1 { clear == 0 } else { set == 0 }
}

// Whether a jump with these condition bits is taken. Condition 0 asks nothing, and is the commonest.
pub fn taken(bits: u32, f: Flags) -> bool
    ensures { result ≡ taken_of bits f }
{
    if bits == 0 {
        return true;
    }
    if met(bits % 2, bits / 2 % 2, f.z) {
        met(bits / 4 % 2, bits / 8 % 2, chosen(bits, f))
    } else {
        false
    }
}

// The target of a JR at pc.
pub fn jr_target(pc: u32, offset: i32) -> u32
    ensures { result ≡ jr_target_of pc offset }
{
    let words = unsigned(offset) as u64;
    ((pc as u64 + 2 + 2 * words) % 4294967296) as u32
}
