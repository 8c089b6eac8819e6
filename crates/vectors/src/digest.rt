// Many vectors, told by their number and a checksum of what came of them.
use crate::tables::{EDGES, Family, edge};
use branch::taken;
use class::{Address, Class, class_of};
use effect::{Effect, Operands, effect_at};
use items::{item_at, shape_of, size};
use values::{Computed, Flags};

#[derive(Clone, Copy)]
pub(crate) struct Digest {
    pub count: u32,
    pub sum: u32,
}

impl Digest {
    fn new() -> Digest {
        Digest { count: 0, sum: 1 }
    }

    // Goes on with as many vectors, of which the closure adds the one of a number to the checksum.
    fn with<F: Fn(u32, u32) -> u32>(self, total: u32, vector: F) -> Digest
        requires { F.IsAlwaysCallable vector }
    {
        Digest {
            count: self.count.wrapping_add(total),
            sum: (0..total).fold(self.sum, |sum, n| vector(n, sum)),
        }
    }
}

fn mix(sum: u32, numbers: &[u32]) -> u32 {
    numbers.iter().fold(sum, |sum, n| { sum.wrapping_mul(1000003).wrapping_add(*n) })
}

fn flags(sum: u32, f: Flags) -> u32 {
    mix(sum, &[f.z, f.n, f.c])
}

fn computed(sum: u32, r: Computed) -> u32 {
    flags(mix(sum, &[r.value]), r.flags())
}

fn effect(sum: u32, e: Effect) -> u32 {
    match e {
        Effect::Nothing => mix(sum, &[1]),
        Effect::Write(d, r) => computed(mix(sum, &[2, d]), r),
        Effect::Keep(d, v) => mix(sum, &[3, d, v]),
        Effect::Flags(f) => flags(mix(sum, &[4]), f),
        Effect::Divide(d, r) => mix(sum, &[5, d, r.quotient, r.remainder]),
        Effect::Product(r) => computed(mix(sum, &[6]), r),
        Effect::Accumulate(v) => mix(sum, &[7, v]),
        Effect::ToOther(d, v) => mix(sum, &[8, d, v]),
        Effect::FromOther(s, d) => mix(sum, &[9, s, d]),
        Effect::Immediate(d) => mix(sum, &[10, d]),
        Effect::Counter(d) => mix(sum, &[11, d]),
        Effect::Jump(c, t) => mix(sum, &[12, c, t]),
        Effect::Load(d, address) => mix(sum, &[13, d, address]),
        Effect::Store(address, v) => mix(sum, &[14, address, v]),
    }
}

// The n-th vector of an opcode: register i holds the i-th edge value, and C, the flags and the mode are of one bit.
fn vector(op: u32, n: u32, sum: u32) -> u32 {
    let bit = n / 1024 % 2;
    let x = Operands {
        s: edge(n / 32),
        d: edge(n),
        pc: 0xF03000 + n % 2048 * 2,
        z: bit,
        n: 1 - bit,
        c: bit,
        acc: edge(n % 31),
        mode: bit,
    };
    match effect_at(op, n / 32 % 32, n % 32, &EDGES, x) {
        Ok(e) => effect(sum, e),
        Err(_) => mix(sum, &[0]),
    }
}

fn address(sum: u32, a: Address) -> u32 {
    match a {
        Address::At(r) => mix(sum, &[0, r]),
        Address::Offset(r, n) => mix(sum, &[1, r, n]),
        Address::Indexed(r, s) => mix(sum, &[2, r, s]),
    }
}

fn class(sum: u32, c: Class) -> u32 {
    match c {
        Class::Quiet => mix(sum, &[0]),
        Class::Write(d) => mix(sum, &[1, d]),
        Class::Moveq(n, d) => mix(sum, &[2, n, d]),
        Class::Movei(d) => mix(sum, &[3, d]),
        Class::Move(s, d) => mix(sum, &[4, s, d]),
        Class::And(s, d) => mix(sum, &[5, s, d]),
        Class::Add(s, d) => mix(sum, &[6, s, d]),
        Class::AddQuick(n, d) => mix(sum, &[7, n, d]),
        Class::SubQuick(n, d) => mix(sum, &[8, n, d]),
        Class::Shlq(n, d) => mix(sum, &[9, n, d]),
        Class::Load(a, d) => address(mix(sum, &[10, d]), a),
        Class::Store(a, d) => address(mix(sum, &[11, d]), a),
        Class::MovePc(d) => mix(sum, &[12, d]),
        Class::Jump(s, c) => mix(sum, &[13, s, c]),
        Class::Jr(n, c) => mix(sum, &[14, n, c]),
    }
}

// How many bytes the loading check reads where a word stands.
fn bytes_read(n: u32) -> u32 {
    let code = [(n / 256 % 256) as u8, (n % 256) as u8];
    size(shape_of(item_at(&code, 0))) as u32
}

fn word(n: u32, sum: u32) -> u32 {
    let before = mix(sum, &[bytes_read(n)]);
    match decoder::decode((n % 65536) as u16) {
        Err(_) => mix(before, &[0]),
        Ok(i) => class(mix(before, &[1, isa::encode(i) as u32]), class_of(i)),
    }
}

// Condition bits, and the flags as the flag register holds them.
fn condition(n: u32, sum: u32) -> u32 {
    let f = Flags {
        z: n % 2,
        n: n / 4 % 2,
        c: n / 2 % 2,
    };
    mix(sum, &[u32::from(taken(n / 8, f))])
}

// The vectors of a family, 2,048 of each opcode.
pub(crate) fn of_family(f: Family) -> Digest {
    let mut d = Digest::new();
    for op in 0..64 {
        if Family::of_opcode(op) == f {
            d = d.with(2048, |n, sum| vector(op, n, sum));
        }
    }
    d
}

pub(crate) fn of_conditions() -> Digest {
    Digest::new().with(256, condition)
}

pub(crate) fn of_words() -> Digest {
    Digest::new().with(65536, word)
}
