// Instructions one after another up to a budget, on registers and RAM that are lent.
#![tactic(auto)]

ghost use Rattle.std.specs.Prelude.{◌≡◌};
ghost use Rattle.processor.specs.Processor.{gpu};
ghost use Rattle.gpu_core.specs.Machine.{active_in, other_in, machine_with, lent};
ghost use Rattle.cycle.specs.Runs.{runs_with, runs_of};

use answers::{Activity, End};
use cpu::advance;
use gpu_core::Core;
use processor::Gpu;
use registers::settle;

// How instructions ended, and how many were completed. The machine after them is the one that was lent.
#[derive(Clone, Copy)]
pub struct Gone {
    pub end: End,
    pub steps: u32,
}

// Instructions one after another, from the active bank and the other one; these change places only by a store to the flag
// register. The machine runs, and the loop is left when it stops.
fn cycle(
    a: &mut [u32; 32],
    o: &mut [u32; 32],
    k: &mut Core,
    ram: &mut [u8; Gpu::SIZE],
    budget: u32,
) -> Gone
    ensures { runs_with result a.new o.new k.new (lent ram.new) ≡ runs_of gpu budget 0 (machine_with a.old o.old k.old (lent ram.old)) }
{
    for steps in 0..budget {
        let end = advance(a, o, k, ram);
        match end {
            Ok(Activity::Running) => {}
            Ok(Activity::Stopped) => {
                return Gone {
                    end,
                    steps: steps + 1,
                };
            }
            Err(_) => return Gone { end, steps },
        }
    }
    Gone {
        end: Ok(Activity::Running),
        steps: budget,
    }
}

// The same on the two banks in their order: the active one goes first, and after it they are in their order again.
pub fn from_banks(
    bank0: &mut [u32; 32],
    bank1: &mut [u32; 32],
    k: &mut Core,
    ram: &mut [u8; Gpu::SIZE],
    budget: u32,
) -> Gone
    ensures { runs_with result (active_in bank0.new bank1.new k.new) (other_in bank0.new bank1.new k.new) k.new (lent ram.new) ≡ runs_of gpu budget 0 (machine_with (active_in bank0.old bank1.old k.old) (other_in bank0.old bank1.old k.old) k.old (lent ram.old)) }
{
    settle(bank0, bank1, k.bank % 2 != 1);
    let g = cycle(bank0, bank1, k, ram, budget);
    settle(bank0, bank1, k.bank % 2 != 1);
    g
}
