// What stands at an offset of the code, and what the loading rules ask of it. A byte behind the end reads as 0, so that every
// offset has an item.
#![tactic(auto)]

ghost use Rattle.std.specs.Prelude.{◌≡◌, ◌≤◌, ◌<◌, get_or};
ghost use Rattle.memory.specs.Memory.{word_at};
ghost use Rattle.processor.specs.Processor.{gpu};
ghost use Rattle.items.specs.Items.{item_of, shape_in, shape_of, bytes_of, is_jump, always, class_in, long_in};

use class::{Address, Class, class_of};
use decoder::decode;
use isa::{Condition, Reg, Signed};

// An instruction of the code: its class, and the long that follows it.
#[derive(Clone, Copy)]
pub struct Item {
    pub class: Class,
    pub long: u32,
}

// What rules 2 to 6 ask of an instruction. A MOVEI has its register and its value, a JR its field and its condition, a JUMP
// its register and its condition, and an access its address.
#[derive(Clone, Copy)]
pub enum Shape {
    Other,
    Movei(Reg, u32),
    MovePc,
    Jr(Signed, Condition),
    Jump(Reg, Condition),
    Load(Address),
    Store(Address),
}

fn byte(code: &[u8], i: usize) -> u8
    ensures { result ≡ get_or code.now i 0 }
{
    code.get(i).copied().unwrap_or(0)
}

// Both bytes stand behind one test: with a test for each, the loading check takes a tenth longer.
fn word_at(code: &[u8], i: usize) -> u16
    requires { i < 65536 }
    ensures { result ≡ word_at code.now i }
{
    if i + 1 < code.len() {
        u16::from_be_bytes([code[i], code[i + 1]])
    } else {
        u16::from_be_bytes([byte(code, i), 0])
    }
}

// What stands at an offset; nothing, where the word is no built instruction.
#[tactic(auto, unfolding(crate::specs::Items::item_of))]
pub fn item_at(code: &[u8], i: usize) -> Option<Item>
    requires { i < gpu.size }
    ensures { result ≡ item_of gpu code.now i }
{
    let word = word_at(code, i);
    let long = u32::from(word_at(code, i + 4)) * 65536 + u32::from(word_at(code, i + 2));
    let instruction = decode(word).ok()?;
    Some(Item {
        class: class_of(instruction),
        long,
    })
}

pub fn shape_of(t: Option<Item>) -> Shape
    ensures { result ≡ shape_of t }
{
    t.map_or(Shape::Other, |i| shape_in(i.class, i.long))
}

fn shape_in(c: Class, v: u32) -> Shape
    ensures { result ≡ shape_in c v }
{
    match c {
        Class::Movei(d) => Shape::Movei(d, v),
        Class::MovePc(_) => Shape::MovePc,
        Class::Jr(n, c) => Shape::Jr(n, c),
        Class::Jump(s, c) => Shape::Jump(s, c),
        Class::Load(m, _) => Shape::Load(m),
        Class::Store(m, _) => Shape::Store(m),
        _ => Shape::Other,
    }
}

pub fn size(s: Shape) -> usize
    ensures { (result ≡ bytes_of s) × (2 ≤ result) × (result ≤ 6) }
{
    match s {
        Shape::Movei(..) => 6,
        _ => 2,
    }
}

// What rule 4 asks: a JR or JUMP.
pub fn is_jump(s: Shape) -> bool
    ensures { result ≡ is_jump s }
{
    matches!(s, Shape::Jr(..) | Shape::Jump(..))
}

// What rule 5 asks: one with condition 0.
pub fn always_jumps(s: Shape) -> bool
    ensures { result ≡ always s }
{
    matches!(s, Shape::Jr(_, 0) | Shape::Jump(_, 0))
}

// What tells how an item changes the ranges of rule 6: its class, and its long.
pub fn class_in(t: Option<Item>) -> Class
    ensures { result ≡ class_in t }
{
    t.map_or(Class::Quiet, |i| i.class)
}

pub fn long_in(t: Option<Item>) -> u32
    ensures { result ≡ long_in t }
{
    t.map_or(0, |i| i.long)
}
