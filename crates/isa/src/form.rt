// The opcode table, read from instruction to word.
ghost use Rattle.std.specs.Prelude.{◌≡◌};
ghost use Rattle.isa.specs.Table.{form_of};

use crate::Instr;

// How an instruction is laid out in a word: its opcode and those fields that are operands.
#[derive(Clone, Copy)]
pub enum Form {
    Two(u32, u32, u32),
    One(u32, u32),
    Implied(u32),
}

impl Instr {
    pub(crate) fn form(self) -> Form
        ensures { result ≡ form_of self }
    {
        match self {
            Instr::Add(s, d) => Form::Two(0, s, d),
            Instr::Addc(s, d) => Form::Two(1, s, d),
            Instr::Addq(q, d) => Form::Two(2, q, d),
            Instr::Addqt(q, d) => Form::Two(3, q, d),
            Instr::Sub(s, d) => Form::Two(4, s, d),
            Instr::Subc(s, d) => Form::Two(5, s, d),
            Instr::Subq(q, d) => Form::Two(6, q, d),
            Instr::Subqt(q, d) => Form::Two(7, q, d),
            Instr::Neg(d) => Form::One(8, d),
            Instr::And(s, d) => Form::Two(9, s, d),
            Instr::Or(s, d) => Form::Two(10, s, d),
            Instr::Xor(s, d) => Form::Two(11, s, d),
            Instr::Not(d) => Form::One(12, d),
            Instr::Btst(b, d) => Form::Two(13, b, d),
            Instr::Bset(b, d) => Form::Two(14, b, d),
            Instr::Bclr(b, d) => Form::Two(15, b, d),
            Instr::Mult(s, d) => Form::Two(16, s, d),
            Instr::Imult(s, d) => Form::Two(17, s, d),
            Instr::Imultn(s, d) => Form::Two(18, s, d),
            Instr::Resmac(d) => Form::One(19, d),
            Instr::Imacn(s, d) => Form::Two(20, s, d),
            Instr::Div(s, d) => Form::Two(21, s, d),
            Instr::Abs(d) => Form::One(22, d),
            Instr::Sh(s, d) => Form::Two(23, s, d),
            Instr::Shlq(q, d) => Form::Two(24, q, d),
            Instr::Shrq(q, d) => Form::Two(25, q, d),
            Instr::Sha(s, d) => Form::Two(26, s, d),
            Instr::Sharq(q, d) => Form::Two(27, q, d),
            Instr::Ror(s, d) => Form::Two(28, s, d),
            Instr::Rorq(q, d) => Form::Two(29, q, d),
            Instr::Cmp(s, d) => Form::Two(30, s, d),
            Instr::Cmpq(n, d) => Form::Two(31, n, d),
            Instr::Sat8(d) => Form::One(32, d),
            Instr::Sat16(d) => Form::One(33, d),
            Instr::Move(s, d) => Form::Two(34, s, d),
            Instr::Moveq(u, d) => Form::Two(35, u, d),
            Instr::Moveta(s, d) => Form::Two(36, s, d),
            Instr::Movefa(s, d) => Form::Two(37, s, d),
            Instr::Movei(d) => Form::One(38, d),
            Instr::Load(s, d) => Form::Two(41, s, d),
            Instr::LoadR14n(q, d) => Form::Two(43, q, d),
            Instr::LoadR15n(q, d) => Form::Two(44, q, d),
            Instr::Store(s, d) => Form::Two(47, s, d),
            Instr::StoreR14n(q, d) => Form::Two(49, q, d),
            Instr::StoreR15n(q, d) => Form::Two(50, q, d),
            Instr::MovePc(d) => Form::One(51, d),
            Instr::Jump(s, c) => Form::Two(52, s, c),
            Instr::Jr(n, c) => Form::Two(53, n, c),
            Instr::Mtoi(s, d) => Form::Two(55, s, d),
            Instr::Normi(s, d) => Form::Two(56, s, d),
            Instr::Nop => Form::Implied(57),
            Instr::LoadR14r(s, d) => Form::Two(58, s, d),
            Instr::LoadR15r(s, d) => Form::Two(59, s, d),
            Instr::StoreR14r(s, d) => Form::Two(60, s, d),
            Instr::StoreR15r(s, d) => Form::Two(61, s, d),
            Instr::Sat24(d) => Form::One(62, d),
        }
    }
}
