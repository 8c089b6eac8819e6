// One instruction: fetched, decoded to its effect, and applied.
ghost use Rattle.std.specs.Prelude.{◌≡◌, ◌<◌};
ghost use Rattle.processor.specs.Processor.{gpu};
ghost use Rattle.gpu_core.specs.Machine.{machine_with, lent};
ghost use Rattle.outcome.specs.Outcome.{moved_with, outcome_with};
ghost use Rattle.cpu.specs.Step.{operands_of, execute_of, advance_of};

use crate::apply::apply;
use answers::{End, Fault};
use effect::{Operands, effect_at};
use gpu_core::Core;
use memory::fetch;
use processor::Gpu;
use registers::get;

// What an instruction reads, by its source and destination fields.
fn operands_of(a: &[u32; 32], k: &Core, s: u32, d: u32) -> Operands
    requires { (s < 32) × (d < 32) }
    ensures { result ≡ operands_of a.now k.now s d }
{
    let f = k.flags;
    Operands {
        s: get(a, s),
        d: get(a, d),
        pc: k.pc,
        z: f.z,
        n: f.n,
        c: f.c,
        acc: k.accumulator,
        mode: k.mode,
    }
}

// The instruction of a word that was fetched.
#[tactic(auto, unfolding(crate::specs::Step::execute_of))]
fn execute(
    a: &mut [u32; 32],
    o: &mut [u32; 32],
    k: &mut Core,
    ram: &mut [u8; Gpu::SIZE],
    w: u16,
) -> End
    ensures { outcome_with (moved_with result k.new) a.new o.new (lent ram.new) ≡ execute_of gpu (machine_with a.old o.old k.old (lent ram.old)) w }
{
    // The fields are taken apart once, for the operands and for the effect.
    let n = w as u32;
    let s = n / 32 % 32;
    let d = n % 32;
    let x = operands_of(a, k, s, d);
    let e = effect_at(n / 1024, s, d, a, x)?;
    apply(a, o, k, ram, e)
}

// One whole instruction of a running machine: the active bank and the other one, the core, and RAM after it.
#[tactic(auto, unfolding(crate::specs::Step::advance_of), using(memory::proofs::Refusals::counter_alone))]
pub fn advance(a: &mut [u32; 32], o: &mut [u32; 32], k: &mut Core, ram: &mut [u8; Gpu::SIZE]) -> End
    ensures { outcome_with (moved_with result k.new) a.new o.new (lent ram.new) ≡ advance_of gpu (machine_with a.old o.old k.old (lent ram.old)) }
{
    // The word or the refusal, which is always this one; what follows takes only a word.
    let Ok(w) = fetch(ram, k.pc) else {
        return Err(Fault::BadCounter);
    };
    execute(a, o, k, ram, w)
}
