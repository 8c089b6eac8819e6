// An effect applied: the registers, RAM and the core after it, and the counter moved on.
ghost use Rattle.std.specs.Prelude.{◌≡◌};
ghost use Rattle.processor.specs.Processor.{gpu};
ghost use Rattle.gpu_core.specs.Machine.{machine_with, lent};
ghost use Rattle.outcome.specs.Outcome.{moved_with, outcome_with};
ghost use Rattle.cpu.specs.Step.{apply_of};

use answers::{Activity, End};
use effect::Effect;
use gpu_core::Core;
use jumps::jump;
use loads::{counter, immediate, load};
use outcome::done;
use processor::Gpu;
use registers::{get, put};
use stores::store;

// The effect's changes to the active bank, the other bank, the core and RAM.
#[tactic(auto, unfolding(crate::specs::Step::apply_of))]
pub fn apply(
    a: &mut [u32; 32],
    o: &mut [u32; 32],
    k: &mut Core,
    ram: &mut [u8; Gpu::SIZE],
    e: Effect,
) -> End
    ensures { outcome_with (moved_with result k.new) a.new o.new (lent ram.new) ≡ apply_of gpu (machine_with a.old o.old k.old (lent ram.old)) e }
{
    match e {
        Effect::Nothing => done(k),
        Effect::Write(d, r) => {
            put(a, d, r.value);
            k.flags = r.flags();
            done(k)
        }
        Effect::Keep(d, v) => {
            put(a, d, v);
            done(k)
        }
        Effect::Flags(f) => {
            k.flags = f;
            done(k)
        }
        Effect::Divide(d, q) => {
            put(a, d, q.quotient);
            k.remainder = q.remainder;
            done(k)
        }
        Effect::Product(r) => {
            k.accumulator = r.value;
            k.flags = r.flags();
            done(k)
        }
        Effect::Accumulate(v) => {
            k.accumulator = v;
            done(k)
        }
        Effect::ToOther(d, v) => {
            put(o, d, v);
            done(k)
        }
        Effect::FromOther(s, d) => {
            put(a, d, get(o, s));
            done(k)
        }
        Effect::Immediate(d) => {
            put(a, d, immediate(k, ram)?);
            k.skip();
            Ok(Activity::Running)
        }
        Effect::Counter(d) => {
            put(a, d, counter(k)?);
            done(k)
        }
        Effect::Jump(condition, target) => jump(k, condition, target),
        Effect::Load(d, address) => {
            put(a, d, load(k, ram, address)?);
            done(k)
        }
        Effect::Store(address, v) => store(a, o, k, ram, address, v),
    }
}
