// One row: a word, the contents of its two registers, and the divide mode, at F0300Ch with every flag clear.
use answers::Fault;
use effect::{Effect, Operands, effect_at};
use std::fmt;
use values::Flags;

#[derive(Clone, Copy)]
pub(crate) struct Row {
    name: &'static str,
    word: u32,
    s: u32,
    d: u32,
    mode: u32,
}

impl Row {
    pub(crate) fn new(name: &'static str, word: u32, s: u32, d: u32, mode: u32) -> Row {
        Row {
            name,
            word,
            s,
            d,
            mode,
        }
    }

    fn effect(self) -> Result<Effect, Fault> {
        let x = Operands {
            s: self.s,
            d: self.d,
            pc: 0xF0300C,
            z: 0,
            n: 0,
            c: 0,
            acc: 0,
            mode: self.mode,
        };
        effect_at(
            self.word / 1024,
            self.word / 32 % 32,
            self.word % 32,
            &[0; 32],
            x,
        )
    }
}

// The row's name and its result.
impl fmt::Display for Row {
    fn fmt<W: fmt::Write>(&self, f: &mut fmt::Formatter<W>) -> fmt::Result {
        write!(f, "{}:", self.name)?;
        match self.effect() {
            Ok(Effect::Write(_, r)) => write!(f, " {:08x}{}", r.value, Shown(r.flags())),
            Ok(Effect::Flags(flags)) => write!(f, "{}", Shown(flags)),
            Ok(Effect::Divide(_, r)) => {
                write!(
                    f,
                    " quotient={:08x} remainder={:08x}",
                    r.quotient, r.remainder
                )
            }
            Ok(Effect::Jump(_, target)) => write!(f, " target={target:08x}"),
            _ => Ok(()),
        }
    }
}

// Flags as a row shows them.
#[derive(Clone, Copy)]
struct Shown(Flags);

impl fmt::Display for Shown {
    fn fmt<W: fmt::Write>(&self, f: &mut fmt::Formatter<W>) -> fmt::Result {
        write!(f, " z={} n={} c={}", self.0.z, self.0.n, self.0.c)
    }
}
