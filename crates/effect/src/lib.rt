// What an instruction does, told from what it reads: the view of it that a step takes.
#![tactic(auto)]

ghost use Rattle.std.specs.Prelude.{◌≡◌, ◌<◌, cond, Ok, Err};
ghost use Rattle.alu.specs.Add.{add_of, sub_of};
ghost use Rattle.alu.specs.Logic.{btst_of};
ghost use Rattle.answers.specs.declared.Fault.TheVariants.{NotBuilt};
ghost use Rattle.isa.specs.Words.{decoded_at};
ghost use Rattle.effect.specs.Effects.{operand_flags, address_of, effect_in};

use alu::add::{abs, add, addc, cmp, cmpq, neg, sub, subc};
use alu::logic::{and, bclr, bset, btst, not, or, xor};
use answers::Fault;
use branch::jr_target;
use field::{quick, quick_bytes, signed_field};
use isa::{Condition, Reg};
use multiplier::divide::{Divided, div};
use multiplier::multiply::{imacn, imult, mult};
use shifter::normalise::{mtoi, normi};
use shifter::saturate::{sat8, sat16, sat24};
use shifter::shift::{left, right, right_signed, rotate, sh, sha};
use values::{Computed, Flags};

// What an instruction reads: the contents of the registers that its source and destination fields name,
// its own address, the flags, the accumulator and the divide mode.
#[derive(Clone, Copy)]
pub struct Operands {
    pub s: u32,
    pub d: u32,
    pub pc: u32,
    pub z: u32,
    pub n: u32,
    pub c: u32,
    pub acc: u32,
    pub mode: u32,
}

#[derive(Clone, Copy)]
pub enum Effect {
    Nothing,
    // The register gets the value, and the flags follow it.
    Write(Reg, Computed),
    // The register gets the value; no flag changes.
    Keep(Reg, u32),
    Flags(Flags),
    // The register gets the quotient, and the remainder is kept.
    Divide(Reg, Divided),
    // The accumulator gets the value, and the flags follow it.
    Product(Computed),
    // The accumulator gets the value; no flag changes.
    Accumulate(u32),
    // The register of the other bank gets the value.
    ToOther(Reg, u32),
    // The second register gets the content that the first has in the other bank.
    FromOther(Reg, Reg),
    // The register gets the long that follows the instruction.
    Immediate(Reg),
    // The register gets the instruction's own address.
    Counter(Reg),
    // Where the condition holds, the target becomes pending.
    Jump(Condition, u32),
    // The register gets the long at the address.
    Load(Reg, u32),
    // The long at the address becomes the value.
    Store(u32, u32),
}

fn plus(d: u32, n: u32) -> u32
    ensures { result ≡ (add_of d n).value }
{
    add(d, n).value
}

fn minus(d: u32, n: u32) -> u32
    ensures { result ≡ (sub_of d n).value }
{
    sub(d, n).value
}

fn tested(x: Operands, bit: u32) -> Flags
    ensures { result ≡ btst_of x.d bit (operand_flags x) }
{
    btst(
        x.d,
        bit,
        Flags {
            z: x.z,
            n: x.n,
            c: x.c,
        },
    )
}

// The effect of an instruction that is built only where a field is zero.
fn only(zero: bool, e: Effect) -> Result<Effect, Fault>
    ensures { result ≡ cond zero (Ok e) (Err NotBuilt) }
{
    if zero { Ok(e) } else { Err(Fault::NotBuilt) }
}

// A base register's content plus an offset.
fn indexed(a: &[u32; 32], base: usize, offset: u32) -> u32
    requires { base < 32 }
    ensures { result ≡ address_of a.now base offset }
{
    a[base].wrapping_add(offset)
}

// The effect of a word's three fields, with the active bank beside what it reads. One match takes a word to its operation, with
// no instruction in between; the opcode table that decode is held to holds this too.
#[tactic(auto, unfolding(isa::specs::Words::instruction_at, isa::specs::Words::decoded_at))]
pub fn effect_at(op: u32, s: u32, d: u32, a: &[u32; 32], x: Operands) -> Result<Effect, Fault>
    ensures { result ≡ effect_in (decoded_at op s d) a.now x }
{
    match op {
        0 => Ok(Effect::Write(d, add(x.d, x.s))),
        1 => Ok(Effect::Write(d, addc(x.d, x.s, x.c))),
        2 => Ok(Effect::Write(d, add(x.d, quick(s)))),
        3 => Ok(Effect::Keep(d, plus(x.d, quick(s)))),
        4 => Ok(Effect::Write(d, sub(x.d, x.s))),
        5 => Ok(Effect::Write(d, subc(x.d, x.s, x.c))),
        6 => Ok(Effect::Write(d, sub(x.d, quick(s)))),
        7 => Ok(Effect::Keep(d, minus(x.d, quick(s)))),
        8 => only(s == 0, Effect::Write(d, neg(x.d))),
        9 => Ok(Effect::Write(d, and(x.d, x.s, x.c))),
        10 => Ok(Effect::Write(d, or(x.d, x.s, x.c))),
        11 => Ok(Effect::Write(d, xor(x.d, x.s, x.c))),
        12 => only(s == 0, Effect::Write(d, not(x.d, x.c))),
        13 => Ok(Effect::Flags(tested(x, s))),
        14 => Ok(Effect::Write(d, bset(x.d, s, x.c))),
        15 => Ok(Effect::Write(d, bclr(x.d, s, x.c))),
        16 => Ok(Effect::Write(d, mult(x.d, x.s, x.c))),
        17 => Ok(Effect::Write(d, imult(x.d, x.s, x.c))),
        18 => Ok(Effect::Product(imult(x.d, x.s, x.c))),
        19 => only(s == 0, Effect::Keep(d, x.acc)),
        20 => Ok(Effect::Accumulate(imacn(x.acc, x.d, x.s))),
        21 => Ok(Effect::Divide(d, div(x.d, x.s, x.mode))),
        22 => only(s == 0, Effect::Write(d, abs(x.d))),
        23 => Ok(Effect::Write(d, sh(x.d, x.s))),
        24 => Ok(Effect::Write(d, left(x.d, quick(s)))),
        25 => Ok(Effect::Write(d, right(x.d, quick(s)))),
        26 => Ok(Effect::Write(d, sha(x.d, x.s))),
        27 => Ok(Effect::Write(d, right_signed(x.d, quick(s)))),
        28 => Ok(Effect::Write(d, rotate(x.d, x.s))),
        29 => Ok(Effect::Write(d, rotate(x.d, quick(s)))),
        30 => Ok(Effect::Flags(cmp(x.d, x.s))),
        31 => Ok(Effect::Flags(cmpq(x.d, signed_field(s)))),
        32 => only(s == 0, Effect::Write(d, sat8(x.d, x.c))),
        33 => only(s == 0, Effect::Write(d, sat16(x.d, x.c))),
        34 => Ok(Effect::Keep(d, x.s)),
        35 => Ok(Effect::Keep(d, s % 32)),
        36 => Ok(Effect::ToOther(d, x.s)),
        37 => Ok(Effect::FromOther(s, d)),
        38 => only(s == 0, Effect::Immediate(d)),
        41 => Ok(Effect::Load(d, x.s)),
        43 => Ok(Effect::Load(d, indexed(a, 14, quick_bytes(s)))),
        44 => Ok(Effect::Load(d, indexed(a, 15, quick_bytes(s)))),
        47 => Ok(Effect::Store(x.s, x.d)),
        49 => Ok(Effect::Store(indexed(a, 14, quick_bytes(s)), x.d)),
        50 => Ok(Effect::Store(indexed(a, 15, quick_bytes(s)), x.d)),
        51 => only(s == 0, Effect::Counter(d)),
        52 => Ok(Effect::Jump(d, x.s)),
        53 => Ok(Effect::Jump(d, jr_target(x.pc, signed_field(s)))),
        55 => Ok(Effect::Write(d, mtoi(x.s, x.c))),
        56 => Ok(Effect::Write(d, normi(x.s, x.c))),
        57 => only(s == 0 && d == 0, Effect::Nothing),
        58 => Ok(Effect::Load(d, indexed(a, 14, x.s))),
        59 => Ok(Effect::Load(d, indexed(a, 15, x.s))),
        60 => Ok(Effect::Store(indexed(a, 14, x.s), x.d)),
        61 => Ok(Effect::Store(indexed(a, 15, x.s), x.d)),
        62 => only(s == 0, Effect::Write(d, sat24(x.d, x.c))),
        // Each opcode that is not built has an arm of its own, so that six bits need no test of their range: with one arm for the
        // eight, or with none, a step takes three to six instructions more.
        39 => Err(Fault::NotBuilt),
        40 => Err(Fault::NotBuilt),
        42 => Err(Fault::NotBuilt),
        45 => Err(Fault::NotBuilt),
        46 => Err(Fault::NotBuilt),
        48 => Err(Fault::NotBuilt),
        54 => Err(Fault::NotBuilt),
        63 => Err(Fault::NotBuilt),
        _ => Err(Fault::NotBuilt),
    }
}
