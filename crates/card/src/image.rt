// The card of an image: the run program's whole work.
ghost use Rattle.std.specs.Prelude.{◌≡◌};
ghost use Rattle.processor.specs.Processor.{gpu};
ghost use Rattle.gpu_core.specs.Machine.{lent};
ghost use Rattle.machine.specs.State.{start_state};
ghost use Rattle.card.specs.Image.{card_of, printed, printed_of};

use crate::{Card, write};
use answers::Activity;
use arrayvec::ArrayVec;
use machine::{Ran, State, run};
use processor::Gpu;

// The budget of the run program.
const BUDGET: u64 = 1000000;

// The state in which an image starts.
fn start() -> State
    ensures { result ≡ start_state gpu }
{
    State {
        bank0: [0u32; 32],
        bank1: [0u32; 32],
        second: false,
        z: false,
        n: false,
        c: false,
        pc: Gpu::BASE,
        pending: None,
        remainder: 0,
        mode: false,
        accumulator: 0,
        activity: Activity::Running,
    }
}

// What the card tells of a run.
fn told(r: Ran) -> Card
    ensures { result ≡ card_of r }
{
    let s = r.state;
    Card {
        answer: u32::from(r.answer),
        steps: r.steps,
        pc: s.pc,
        flags: s.flag_register(),
        remainder: s.remainder,
        accumulator: s.accumulator,
    }
}

// Runs an image, which is lent as RAM; its card is the result.
pub fn print(ram: &mut [u8]) -> ArrayVec<u8, 128>
    ensures { printed result.items (lent ram.new) ≡ printed_of (lent ram.old) }
{
    let r = run(ram, start(), BUDGET);
    write(told(r))
}
