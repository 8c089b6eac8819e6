// The instruction words of the graphics processor: one Instr for each built instruction, and its word.
//
// The numbers are those of source document 001, section 5.0; which words are built is paper 01's, "Words".

#![tactic(auto)]

mod form;
mod word;

pub use word::encode;

// A register's number, 0 to 31.
pub type Reg = u32;
// A field where 0 is 32: 01's "quick n".
pub type Quick = u32;
// A bit's number, 0 to 31.
pub type Bit = u32;
// A field that is an unsigned number, 0 to 31.
pub type Unsigned = u32;
// A field that is a signed number, -16 to 15.
pub type Signed = u32;
// The five condition bits of a jump.
pub type Condition = u32;

// The built instructions in the order of their opcodes, each with its operands in the order of the word's fields.
#[derive(Clone, Copy)]
pub enum Instr {
    Add(Reg, Reg),
    Addc(Reg, Reg),
    Addq(Quick, Reg),
    Addqt(Quick, Reg),
    Sub(Reg, Reg),
    Subc(Reg, Reg),
    Subq(Quick, Reg),
    Subqt(Quick, Reg),
    Neg(Reg),
    And(Reg, Reg),
    Or(Reg, Reg),
    Xor(Reg, Reg),
    Not(Reg),
    Btst(Bit, Reg),
    Bset(Bit, Reg),
    Bclr(Bit, Reg),
    Mult(Reg, Reg),
    Imult(Reg, Reg),
    Imultn(Reg, Reg),
    Resmac(Reg),
    Imacn(Reg, Reg),
    Div(Reg, Reg),
    Abs(Reg),
    Sh(Reg, Reg),
    Shlq(Quick, Reg),
    Shrq(Quick, Reg),
    Sha(Reg, Reg),
    Sharq(Quick, Reg),
    Ror(Reg, Reg),
    Rorq(Quick, Reg),
    Cmp(Reg, Reg),
    Cmpq(Signed, Reg),
    Sat8(Reg),
    Sat16(Reg),
    Move(Reg, Reg),
    Moveq(Unsigned, Reg),
    Moveta(Reg, Reg),
    Movefa(Reg, Reg),
    Movei(Reg),
    Load(Reg, Reg),
    LoadR14n(Quick, Reg),
    LoadR15n(Quick, Reg),
    Store(Reg, Reg),
    StoreR14n(Quick, Reg),
    StoreR15n(Quick, Reg),
    MovePc(Reg),
    Jump(Reg, Condition),
    Jr(Signed, Condition),
    Mtoi(Reg, Reg),
    Normi(Reg, Reg),
    Nop,
    LoadR14r(Reg, Reg),
    LoadR15r(Reg, Reg),
    StoreR14r(Reg, Reg),
    StoreR15r(Reg, Reg),
    Sat24(Reg),
}
