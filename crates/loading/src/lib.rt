// The loading check: the refusals in their order, each rule over the whole code, lowest address first.
#![tactic(auto)]

ghost use Rattle.std.specs.Prelude.{◌≡◌, ◌≤◌, length};
ghost use Rattle.processor.specs.Processor.{gpu};
ghost use Rattle.rules.specs.Check.{or_else, is_length, rules_of, check_of};
ghost use Rattle.known.specs.KnownRows.{KnownRows};
ghost use Rattle.rules.specs.Safety.{Demand3, Tells, GoesOn};

use accesses::first_access;
use passes::{first_broken, lowest_broken};
use processor::Gpu;
use reading::{MARKS, Marked, mark_code};
use verdicts::{Refusal, Rule};

// A rule is broken where its pass found an instruction.
fn told(rule: Rule, h: Option<u32>) -> Result<(), Refusal>
    ensures { result ≡ or_else h (λ a. Err (Refusal.Broken rule a)) (Ok tt) }
{
    match h {
        None => Ok(()),
        Some(a) => Err(Refusal::Broken(rule, a)),
    }
}

// The six rules, each over the whole code. One pass finds which of the first five is broken, and only then another where.
fn rules(code: &[u8]) -> Result<(), Refusal>
    requires { length code.now ≤ gpu.size }
    ensures { result ≡ rules_of gpu code.now }
{
    let mut starts = [false; MARKS];
    let mut targets = [false; MARKS];
    mark_code(code, &mut starts, &mut targets);
    let marked = Marked::of(code, &starts, &targets);
    match lowest_broken(&marked) {
        Some(rule) => told(rule, first_broken(rule, &marked)),
        None => told(Rule::Access, first_access(&marked)),
    }
}

fn is_length(c: u64) -> bool
    ensures { result ≡ is_length gpu c }
{
    4 <= c && c <= Gpu::SIZE as u64 && c % 4 == 0
}

// The check of the code that is the first code_len bytes of RAM. Demand 3 is part of its promise; so is what each refusal tells,
// that an admitted program goes on safely from run to run, and the rows of what is known.
pub fn check(ram: &[u8], code_len: u64) -> Result<(), Refusal>
    ensures value { result ≡ check_of gpu ram.now code_len }
    ensures demand3 { Demand3 gpu × Tells gpu × GoesOn gpu }
    ensures known_rows { KnownRows }
{
    if ram.len() != Gpu::SIZE {
        return Err(Refusal::RamLength);
    }
    if !is_length(code_len) {
        return Err(Refusal::CodeLength);
    }
    rules(&ram[..code_len as usize])
}
