// Rule 6 at one instruction: what it asks of the ranges of the registers, and how it changes them.
#![tactic(auto)]

ghost use Rattle.std.specs.Prelude.{◌≡◌, slice_set};
ghost use Rattle.processor.specs.Processor.{gpu};
ghost use Rattle.ranges.specs.Ranges.{range_at};
ghost use Rattle.rules.specs.Check.{inside, within};
ghost use Rattle.rules.specs.Known.{address_range, transfer};
ghost use Rattle.transfer.specs.Reached.{access_of};

use class::{Address, Class};
use isa::Reg;
use items::Shape;
use places::is_register;
use processor::Gpu;
use ranges::{Range, unknown_all};

// The first address behind RAM.
const TOP: u32 = Gpu::BASE + Gpu::SIZE as u32;

fn is_inside(from: u32, a: u32) -> bool
    ensures { result ≡ inside gpu from a }
{
    from <= a && a < TOP
}

// Whether an access with an address in x can only reach RAM from an address on, or one built register.
fn allows(from: u32, x: Range) -> bool
    ensures { result ≡ within gpu from x }
{
    let in_ram = is_inside(from, x.low) && is_inside(from, x.high);
    let at_register = x.low == x.high && is_register(x.low);
    x.aligned && (in_ram || at_register)
}

// A number that no register has, which no decoded instruction names, has the full range, and is written in vain.
fn at(known: &[Range; 32], r: Reg) -> Range
    ensures { result ≡ range_at known.now r }
{
    known.get(r as usize).copied().unwrap_or(Range::anything())
}

// With `get_mut` it is not proved what the ranges are afterwards.
fn put(known: &mut [Range; 32], d: Reg, x: Range)
    ensures { known.new ≡ slice_set known.old d x }
{
    let d = d as usize;
    if d < known.len() {
        known[d] = x;
    }
}

// What is known of the address of a LOAD or STORE.
fn reach(known: &[Range; 32], m: Address) -> Range
    ensures { result ≡ address_range known.now m }
{
    match m {
        Address::At(r) => at(known, r),
        Address::Offset(r, n) => at(known, r).sum(Range::exact(n)),
        Address::Indexed(r, s) => at(known, r).sum(at(known, s)),
    }
}

// Rule 6 of an instruction in code that ends at an address: a LOAD reaches RAM or a built register, a STORE the same but the
// code.
pub fn access(end: u32, s: Shape, known: &[Range; 32]) -> bool
    ensures { result ≡ access_of gpu end known.now s }
{
    match s {
        Shape::Load(m) => allows(Gpu::BASE, reach(known, m)),
        Shape::Store(m) => allows(end, reach(known, m)),
        _ => true,
    }
}

// What is known after an instruction, where v is the long that a MOVEI takes. A STORE to the flags may change the bank: nothing is
// known of the other one.
pub fn transfer(c: Class, v: u32, known: &mut [Range; 32])
    ensures { known.new ≡ transfer gpu c v known.old }
{
    match c {
        Class::Quiet | Class::Jump(_, _) | Class::Jr(_, _) => {}
        Class::Write(d) | Class::Load(_, d) | Class::MovePc(d) => put(known, d, Range::anything()),
        Class::Moveq(n, d) => put(known, d, Range::exact(n)),
        Class::Movei(d) => put(known, d, Range::exact(v)),
        Class::Move(s, d) => put(known, d, at(known, s)),
        Class::And(s, d) => put(known, d, at(known, d).and(at(known, s))),
        Class::Add(s, d) => put(known, d, at(known, d).sum(at(known, s))),
        Class::AddQuick(n, d) => put(known, d, at(known, d).sum(Range::exact(n))),
        Class::SubQuick(n, d) => put(known, d, at(known, d).less(n)),
        Class::Shlq(n, d) => put(known, d, Range::shifted(n)),
        Class::Store(m, _) => {
            if reach(known, m).is_exactly(Gpu::FLAGS) {
                *known = unknown_all();
            }
        }
    }
}
