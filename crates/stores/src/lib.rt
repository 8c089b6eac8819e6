// A STORE: into RAM, or to a chip register, on registers and RAM that are lent.
#![tactic(auto)]

ghost use Rattle.std.specs.Prelude.{◌≡◌};
ghost use Rattle.processor.specs.Processor.{gpu};
ghost use Rattle.places.specs.Places.{place_of};
ghost use Rattle.gpu_core.specs.Machine.{machine_with, lent};
ghost use Rattle.outcome.specs.Outcome.{moved_with, outcome_with};
ghost use Rattle.stores.specs.Stores.{control_of, store_of};

use answers::{Activity, End};
use gpu_core::Core;
use memory::put_long;
use outcome::done;
use places::{Place, locate};
use processor::Gpu;
use registers::settle;

// A write of v to the control register.
fn control(k: &mut Core, v: u32) -> End
    ensures { moved_with result k.new ≡ control_of k.old v }
{
    k.move_on(None);
    if v % 2 == 0 {
        Ok(Activity::Stopped)
    } else {
        Ok(Activity::Running)
    }
}

pub fn store(
    a: &mut [u32; 32],
    o: &mut [u32; 32],
    k: &mut Core,
    ram: &mut [u8; Gpu::SIZE],
    address: u32,
    v: u32,
) -> End
    ensures { outcome_with (moved_with result k.new) a.new o.new (lent ram.new) ≡ store_of (machine_with a.old o.old k.old (lent ram.old)) v (place_of gpu address) }
{
    match locate(address)? {
        Place::Ram(at) => {
            put_long(ram, at, v);
            done(k)
        }
        Place::Flags => {
            settle(a, o, k.bank % 2 == v / 16384 % 2);
            k.set_flag_register(v);
            done(k)
        }
        Place::Control => control(k, v),
        Place::Divide => {
            k.mode = v % 2;
            done(k)
        }
    }
}
