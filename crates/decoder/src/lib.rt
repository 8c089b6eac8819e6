// Words to instructions.
#![tactic(auto)]

ghost use Rattle.std.specs.Prelude.{◌≡◌, cond, Ok};
ghost use Rattle.isa.specs.Words.{no_instruction, decoded_at, decode_of};
ghost use Rattle.isa.specs.RoundTrip.{Decodes};

use answers::Fault;
use isa::Instr;

// An instruction that is built only where a field is zero.
fn only(zero: bool, i: Instr) -> Result<Instr, Fault>
    ensures { result ≡ cond zero (Ok i) no_instruction }
{
    if zero { Ok(i) } else { Err(Fault::NotBuilt) }
}

// What three fields are.
#[tactic(auto, unfolding(isa::specs::Words::instruction_at, isa::specs::Words::decoded_at))]
fn decoded_at(op: u32, s: u32, d: u32) -> Result<Instr, Fault>
    ensures { result ≡ decoded_at op s d }
{
    match op {
        0 => Ok(Instr::Add(s, d)),
        1 => Ok(Instr::Addc(s, d)),
        2 => Ok(Instr::Addq(s, d)),
        3 => Ok(Instr::Addqt(s, d)),
        4 => Ok(Instr::Sub(s, d)),
        5 => Ok(Instr::Subc(s, d)),
        6 => Ok(Instr::Subq(s, d)),
        7 => Ok(Instr::Subqt(s, d)),
        8 => only(s == 0, Instr::Neg(d)),
        9 => Ok(Instr::And(s, d)),
        10 => Ok(Instr::Or(s, d)),
        11 => Ok(Instr::Xor(s, d)),
        12 => only(s == 0, Instr::Not(d)),
        13 => Ok(Instr::Btst(s, d)),
        14 => Ok(Instr::Bset(s, d)),
        15 => Ok(Instr::Bclr(s, d)),
        16 => Ok(Instr::Mult(s, d)),
        17 => Ok(Instr::Imult(s, d)),
        18 => Ok(Instr::Imultn(s, d)),
        19 => only(s == 0, Instr::Resmac(d)),
        20 => Ok(Instr::Imacn(s, d)),
        21 => Ok(Instr::Div(s, d)),
        22 => only(s == 0, Instr::Abs(d)),
        23 => Ok(Instr::Sh(s, d)),
        24 => Ok(Instr::Shlq(s, d)),
        25 => Ok(Instr::Shrq(s, d)),
        26 => Ok(Instr::Sha(s, d)),
        27 => Ok(Instr::Sharq(s, d)),
        28 => Ok(Instr::Ror(s, d)),
        29 => Ok(Instr::Rorq(s, d)),
        30 => Ok(Instr::Cmp(s, d)),
        31 => Ok(Instr::Cmpq(s, d)),
        32 => only(s == 0, Instr::Sat8(d)),
        33 => only(s == 0, Instr::Sat16(d)),
        34 => Ok(Instr::Move(s, d)),
        35 => Ok(Instr::Moveq(s, d)),
        36 => Ok(Instr::Moveta(s, d)),
        37 => Ok(Instr::Movefa(s, d)),
        38 => only(s == 0, Instr::Movei(d)),
        41 => Ok(Instr::Load(s, d)),
        43 => Ok(Instr::LoadR14n(s, d)),
        44 => Ok(Instr::LoadR15n(s, d)),
        47 => Ok(Instr::Store(s, d)),
        49 => Ok(Instr::StoreR14n(s, d)),
        50 => Ok(Instr::StoreR15n(s, d)),
        51 => only(s == 0, Instr::MovePc(d)),
        52 => Ok(Instr::Jump(s, d)),
        53 => Ok(Instr::Jr(s, d)),
        55 => Ok(Instr::Mtoi(s, d)),
        56 => Ok(Instr::Normi(s, d)),
        57 => only(s == 0 && d == 0, Instr::Nop),
        58 => Ok(Instr::LoadR14r(s, d)),
        59 => Ok(Instr::LoadR15r(s, d)),
        60 => Ok(Instr::StoreR14r(s, d)),
        61 => Ok(Instr::StoreR15r(s, d)),
        62 => only(s == 0, Instr::Sat24(d)),
        _ => Err(Fault::NotBuilt),
    }
}

// The instruction that a word is, if it is built.
pub fn decode(word: u16) -> Result<Instr, Fault>
    ensures value { result ≡ decode_of word }
    ensures decodes { Decodes word result }
{
    let w = word as u32;
    decoded_at(w / 1024, w / 32 % 32, w % 32)
}
