// An instruction's class: the view of it that the loading rules take.
#![tactic(auto)]

ghost use Rattle.std.specs.Prelude.{◌≡◌};
ghost use Rattle.class.specs.Classes.{class_of};

use field::{quick, quick_bytes};
use isa::{Condition, Instr, Reg, Signed, Unsigned};

// Where a LOAD or STORE reaches: at a register's content, at R14's or R15's plus a number of bytes, or plus a register's content.
#[derive(Clone, Copy)]
pub enum Address {
    At(Reg),
    Offset(Reg, u32),
    Indexed(Reg, Reg),
}

#[derive(Clone, Copy)]
pub enum Class {
    // No register of the active bank is written.
    Quiet,
    // A register is written, with a value that the rules know nothing of.
    Write(Reg),
    Moveq(Unsigned, Reg),
    Movei(Reg),
    Move(Reg, Reg),
    And(Reg, Reg),
    Add(Reg, Reg),
    // ADDQ and ADDQT, with the number that is added.
    AddQuick(u32, Reg),
    // SUBQ and SUBQT, with the number that is subtracted.
    SubQuick(u32, Reg),
    // SHLQ, with the number of places.
    Shlq(u32, Reg),
    Load(Address, Reg),
    // The register is the one whose content is stored.
    Store(Address, Reg),
    MovePc(Reg),
    Jump(Reg, Condition),
    Jr(Signed, Condition),
}

// The class of an instruction.
pub fn class_of(i: Instr) -> Class
    ensures { result ≡ class_of i }
{
    match i {
        Instr::Moveq(u, d) => Class::Moveq(u % 32, d),
        Instr::Movei(d) => Class::Movei(d),
        Instr::Move(s, d) => Class::Move(s, d),
        Instr::And(s, d) => Class::And(s, d),
        Instr::Add(s, d) => Class::Add(s, d),
        Instr::Addq(q, d) | Instr::Addqt(q, d) => Class::AddQuick(quick(q), d),
        Instr::Subq(q, d) | Instr::Subqt(q, d) => Class::SubQuick(quick(q), d),
        Instr::Shlq(q, d) => Class::Shlq(quick(q), d),
        Instr::Load(s, d) => Class::Load(Address::At(s), d),
        Instr::LoadR14n(q, d) => Class::Load(Address::Offset(14, quick_bytes(q)), d),
        Instr::LoadR15n(q, d) => Class::Load(Address::Offset(15, quick_bytes(q)), d),
        Instr::LoadR14r(s, d) => Class::Load(Address::Indexed(14, s), d),
        Instr::LoadR15r(s, d) => Class::Load(Address::Indexed(15, s), d),
        Instr::Store(s, d) => Class::Store(Address::At(s), d),
        Instr::StoreR14n(q, d) => Class::Store(Address::Offset(14, quick_bytes(q)), d),
        Instr::StoreR15n(q, d) => Class::Store(Address::Offset(15, quick_bytes(q)), d),
        Instr::StoreR14r(s, d) => Class::Store(Address::Indexed(14, s), d),
        Instr::StoreR15r(s, d) => Class::Store(Address::Indexed(15, s), d),
        Instr::MovePc(d) => Class::MovePc(d),
        Instr::Jump(s, c) => Class::Jump(s, c),
        Instr::Jr(n, c) => Class::Jr(n, c),
        Instr::Btst(..)
        | Instr::Cmp(..)
        | Instr::Cmpq(..)
        | Instr::Imultn(..)
        | Instr::Imacn(..)
        | Instr::Moveta(..)
        | Instr::Nop => Class::Quiet,
        Instr::Addc(_, d)
        | Instr::Sub(_, d)
        | Instr::Subc(_, d)
        | Instr::Neg(d)
        | Instr::Or(_, d)
        | Instr::Xor(_, d)
        | Instr::Not(d)
        | Instr::Bset(_, d)
        | Instr::Bclr(_, d)
        | Instr::Mult(_, d)
        | Instr::Imult(_, d)
        | Instr::Resmac(d)
        | Instr::Div(_, d)
        | Instr::Abs(d)
        | Instr::Sh(_, d)
        | Instr::Shrq(_, d)
        | Instr::Sha(_, d)
        | Instr::Sharq(_, d)
        | Instr::Ror(_, d)
        | Instr::Rorq(_, d)
        | Instr::Sat8(d)
        | Instr::Sat16(d)
        | Instr::Sat24(d)
        | Instr::Movefa(_, d)
        | Instr::Mtoi(_, d)
        | Instr::Normi(_, d) => Class::Write(d),
    }
}
