// Rules 1 to 5 at one instruction.
ghost use Rattle.std.specs.Prelude.{◌≡◌, not, ◌&&◌, ◌+◌};
ghost use Rattle.processor.specs.Processor.{gpu};
ghost use Rattle.rules.specs.Reading.{breaks_slot};
ghost use Rattle.rules.specs.Check.{holds, is_start, ok1, ok2, ok3, ok4, ok5};
ghost use Rattle.passes.specs.Passes.{is_rule, lowest_of, test_of};

use branch::jr_target;
use field::signed_field;
use items::{Shape, always_jumps, is_jump, item_at, shape_of, size};
use processor::Gpu;
use reading::{Instruction, Marked};
use verdicts::Rule;

fn breaks_slot(s: Shape) -> bool
    ensures { result ≡ breaks_slot s }
{
    matches!(
        s,
        Shape::Movei(_, _) | Shape::MovePc | Shape::Jr(_, _) | Shape::Jump(_, _)
    )
}

// Whether p is a MOVEI into register r of an instruction start.
fn holds_start(marked: &Marked, p: Shape, r: u32) -> bool
    ensures { result ≡ holds p r (is_start gpu marked.now.code.now) }
{
    match p {
        Shape::Movei(d, v) => d == r && marked.is_start(v),
        _ => false,
    }
}

fn obeys1(at: &Instruction) -> bool
    ensures { result ≡ ok1 gpu at.now.marked.now.code.now (gpu.base + at.now.offset) at.now.before }
{
    at.item.is_some() && at.offset + size(shape_of(at.item)) <= at.marked.code.len()
}

fn obeys2(at: &Instruction) -> bool
    ensures { result ≡ ok2 gpu at.now.marked.now.code.now (gpu.base + at.now.offset) at.now.before }
{
    match shape_of(at.item) {
        Shape::Jr(n, _) => at
            .marked
            .is_start(jr_target(Gpu::BASE + at.offset as u32, signed_field(n))),
        _ => true,
    }
}

fn obeys3(at: &Instruction) -> bool
    ensures { result ≡ ok3 gpu at.now.marked.now.code.now (gpu.base + at.now.offset) at.now.before }
{
    match shape_of(at.item) {
        Shape::Jump(r, _) => holds_start(at.marked, shape_of(at.before), r)
            && !at.marked.is_target(at.offset),
        _ => true,
    }
}

fn obeys4(at: &Instruction) -> bool
    ensures { result ≡ ok4 gpu at.now.marked.now.code.now (gpu.base + at.now.offset) at.now.before }
{
    let s = shape_of(at.item);
    if !is_jump(s) {
        return true;
    }
    let n = at.offset + size(s);
    n < at.marked.code.len() && !breaks_slot(shape_of(item_at(at.marked.code, n)))
}

fn obeys5(at: &Instruction) -> bool
    ensures { result ≡ ok5 gpu at.now.marked.now.code.now (gpu.base + at.now.offset) at.now.before }
{
    if at.offset + size(shape_of(at.item)) != at.marked.code.len() {
        return true;
    }
    always_jumps(shape_of(at.before)) && !at.marked.is_target(at.offset)
}

// Whether an instruction obeys one of the rules 1 to 5; rule 6 is tested as the fifth, and the check does not ask for it here. A match
// on the case and no closures: the test is chosen anew at each instruction, since one reading of the code asks all five.
pub fn obeys(rule: Rule, at: &Instruction) -> bool
    ensures { result ≡ test_of gpu at.now.marked.now.code.now rule (gpu.base + at.now.offset) at.now.before }
{
    match rule {
        Rule::AllBuilt => obeys1(at),
        Rule::JrTarget => obeys2(at),
        Rule::JumpTarget => obeys3(at),
        Rule::DelaySlot => obeys4(at),
        Rule::Ending | Rule::Access => obeys5(at),
    }
}

// Whether a rule was found, and is this one.
fn is_rule(found: Option<Rule>, rule: Rule) -> bool
    ensures { result ≡ is_rule found rule }
{
    found == Some(rule)
}

// The lowest rule that was broken already, or that an instruction breaks.
pub fn lowest_here(lowest: Option<Rule>, at: &Instruction) -> Option<Rule>
    ensures { result ≡ lowest_of (λ rule. not (is_rule lowest rule) && test_of gpu at.now.marked.now.code.now rule (gpu.base + at.now.offset) at.now.before) }
{
    for rule in Rule::FIRST_FIVE {
        if is_rule(lowest, rule) || !obeys(rule, at) {
            return Some(rule);
        }
    }
    None
}
