// What the vectors are made of.

#[derive(Clone, Copy, PartialEq, Eq)]
pub(crate) enum Family {
    AddAndSubtract,
    LogicAndBits,
    Multiply,
    Divide,
    ShiftAndRotate,
    Saturate,
    Normalise,
    Jumps,
    Moves,
    NotBuilt,
}

impl Family {
    // The family of an opcode.
    pub(crate) fn of_opcode(op: u32) -> Family {
        match op {
            // ADD to NEG, ABS, CMP and CMPQ
            0..=8 | 22 | 30 | 31 => Family::AddAndSubtract,
            // AND to BCLR
            9..=15 => Family::LogicAndBits,
            // MULT to IMACN
            16..=20 => Family::Multiply,
            21 => Family::Divide,
            // SH to RORQ
            23..=29 => Family::ShiftAndRotate,
            // SAT8, SAT16 and SAT24
            32 | 33 | 62 => Family::Saturate,
            // JUMP and JR
            52 | 53 => Family::Jumps,
            // MTOI and NORMI
            55 | 56 => Family::Normalise,
            // MOVE to MOVEI, NOP, and LOADs, STOREs and MOVE PC between words that are not built
            34..=38 | 41 | 43 | 44 | 47 | 49..=51 | 57..=61 => Family::Moves,
            _ => Family::NotBuilt,
        }
    }
}

// Register contents at which something changes.
pub(crate) const EDGES: [u32; 32] = [
    0, 1, 2, 3, 7, 15, 16, 31, 32, 33, 63, 64, 255, 256, 0x7FFF, 0x8000, 0x8001, 0xFFFF, 0x10000,
    0x3FFFFF, 0x400000, 0x7FFFFF, 0x800000, 0xFFFFFF, 0x1000000, 0x7FFFFFFF, 0x80000000,
    0x80000001, 0xBFC00000, 0xFFFFFFE0, 0xFFFFFFE1, 0xFFFFFFFF,
];

pub(crate) fn edge(i: u32) -> u32 {
    EDGES[(i % 32) as usize]
}
