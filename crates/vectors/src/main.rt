// Runs some hundred thousand vectors through the compiled functions.
//
// They take every instruction through pairs of edge values, and all 65,536 words through decode, class, encode and the
// reading of the loading check; of each family of them a line tells the count and a checksum.
// What this must print is made by the model in tests/vectors.py.
#![tactic(auto)]

mod digest;
mod tables;

use arrayvec::ArrayString;
use digest::{Digest, of_conditions, of_family, of_words};
use std::fmt::Write;
use tables::Family;

// By `io`, which stands on `write` of the C library alone: std's printing stands on two more of its functions.
fn line(name: &str, d: Digest) {
    let mut line = ArrayString::<128>::new();
    if writeln!(line, "{name}: {} vectors, checksum {:08x}", d.count, d.sum).is_ok() {
        io::write_all(1, line.as_str().as_bytes());
    }
}

fn main() {
    line("add and subtract", of_family(Family::AddAndSubtract));
    line("logic and bits", of_family(Family::LogicAndBits));
    line("multiply", of_family(Family::Multiply));
    line("divide", of_family(Family::Divide));
    line("shift and rotate", of_family(Family::ShiftAndRotate));
    line("saturate", of_family(Family::Saturate));
    line("normalise", of_family(Family::Normalise));
    line("jump targets", of_family(Family::Jumps));
    line("moves, loads and stores", of_family(Family::Moves));
    line("not built", of_family(Family::NotBuilt));
    line("conditions", of_conditions());
    line("words", of_words());
}
