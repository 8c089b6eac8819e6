// Rules 1 to 5 over the whole code: which is the lowest that is broken, and where.
ghost use Rattle.std.specs.Prelude.{◌≡◌, not, is_some};
ghost use Rattle.processor.specs.Processor.{gpu};
ghost use Rattle.rules.specs.Check.{first_failing};
ghost use Rattle.passes.specs.Passes.{lowest_of, test_of};

use crate::tests::{lowest_here, obeys};
use items::{item_at, shape_of, size};
use processor::Gpu;
use reading::{Instruction, Marked};
use verdicts::Rule;

// The lowest of the rules 1 to 5 that is broken anywhere.
pub fn lowest_broken(marked: &Marked) -> Option<Rule>
    ensures { result ≡ lowest_of (λ rule. not (is_some (first_failing gpu marked.now.code.now (test_of gpu marked.now.code.now rule)))) }
{
    let mut i: usize = 0;
    let mut p = None;
    let mut lowest = None;
    // An instruction's length is the step, so that no counter by one stands here.
    while i < marked.code.len() {
        let t = item_at(marked.code, i);
        let at = Instruction {
            marked,
            offset: i,
            item: t,
            before: p,
        };
        lowest = lowest_here(lowest, &at);
        i += size(shape_of(t));
        p = t;
    }
    lowest
}

// The first address at which the given rule, one of 1 to 5, is broken; rule 6 is taken for rule 5, as in `test_of`.
pub fn first_broken(rule: Rule, marked: &Marked) -> Option<u32>
    ensures { result ≡ first_failing gpu marked.now.code.now (test_of gpu marked.now.code.now rule) }
{
    let mut i: usize = 0;
    let mut p = None;
    // An instruction's length is the step, so that no counter by one stands here.
    while i < marked.code.len() {
        let t = item_at(marked.code, i);
        let at = Instruction {
            marked,
            offset: i,
            item: t,
            before: p,
        };
        if !obeys(rule, &at) {
            return Some(Gpu::BASE + i as u32);
        }
        i += size(shape_of(t));
        p = t;
    }
    None
}
