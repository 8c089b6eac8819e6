// Runs the published rows of paper 01 through the compiled functions, and prints each with its result.
// What this must print is made by the model in tests/vectors.py.
#![tactic(auto)]

mod row;

use arrayvec::ArrayString;
use row::Row;
use std::fmt::Write;

fn main() {
    let rows = [
        Row::new("ABS 80000000h", 0x5801, 0, 0x80000000, 0),
        Row::new("FFFFFFFFh ADD 1", 0x0041, 1, 0xFFFFFFFF, 0),
        Row::new("CMPQ field 31 with FFFFFFFFh", 0x7FE1, 0, 0xFFFFFFFF, 0),
        Row::new("NEG 0", 0x2001, 0, 0, 0),
        Row::new("NEG 1", 0x2001, 0, 1, 0),
        Row::new("ADDQ field 0 to 0", 0x0801, 0, 0, 0),
        Row::new("IMULT 8000h by 2", 0x4441, 2, 0x8000, 0),
        Row::new("MULT 8000h by 2", 0x4041, 2, 0x8000, 0),
        Row::new("DIV 7 by 2", 0x5441, 2, 7, 0),
        Row::new("DIV 7 by 2, mode 1", 0x5441, 2, 7, 1),
        Row::new("SAT8 of 256", 0x8001, 0, 256, 0),
        Row::new("SAT8 of FFFFFFFFh", 0x8001, 0, 0xFFFFFFFF, 0),
        Row::new("NORMI of 1", 0xE041, 1, 0, 0),
        Row::new("NORMI of 400000h", 0xE041, 0x400000, 0, 0),
        Row::new("NORMI of 80000000h", 0xE041, 0x80000000, 0, 0),
        Row::new("MTOI of BFC00000h", 0xDC41, 0xBFC00000, 0, 0),
        Row::new("SHLQ field 4 on 1", 0x6081, 0, 1, 0),
        Row::new("word D7E0h at F0300Ch", 0xD7E0, 0, 0, 0),
    ];
    for row in rows {
        // By `io`, which stands on `write` of the C library alone: std's printing stands on two more of its functions.
        let mut line = ArrayString::<128>::new();
        if writeln!(line, "{row}").is_ok() {
            io::write_all(1, line.as_str().as_bytes());
        }
    }
}
