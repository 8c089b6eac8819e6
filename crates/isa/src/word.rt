// Instructions to words.
ghost use Rattle.std.specs.Prelude.{◌≡◌};
ghost use Rattle.isa.specs.Words.{word_of, word_in, encode_of};
ghost use Rattle.isa.specs.RoundTrip.{Encodes};

use crate::Instr;
use crate::form::Form;

// The word of three fields.
fn assemble(op: u32, s: u32, d: u32) -> u16
    ensures { result ≡ word_of op s d }
{
    (op % 64 * 1024 + s % 32 * 32 + d % 32) as u16
}

// The word of a form: a field that is no operand is zero.
fn word_in(f: Form) -> u16
    ensures { result ≡ word_in f }
{
    match f {
        Form::Two(op, s, d) => assemble(op, s, d),
        Form::One(op, d) => assemble(op, 0, d),
        Form::Implied(op) => assemble(op, 0, 0),
    }
}

// The word that an instruction is. An operand too large for its field counts by its low five bits.
pub fn encode(i: Instr) -> u16
    ensures value { result ≡ encode_of i }
    ensures encodes { Encodes i result }
{
    word_in(i.form())
}
