// What a register receives, by a MOVEI, a MOVE PC or a LOAD.
#![tactic(auto)]

ghost use Rattle.std.specs.Prelude.{◌≡◌};
ghost use Rattle.processor.specs.Processor.{gpu};
ghost use Rattle.places.specs.Places.{place_of};
ghost use Rattle.gpu_core.specs.Machine.{lent};
ghost use Rattle.loads.specs.Loads.{immediate_in, counter_in, load_of};

use answers::Fault;
use gpu_core::Core;
use memory::{fetch_long, long_at};
use places::{Place, locate};
use processor::Gpu;

// The long of a MOVEI.
pub fn immediate(k: &Core, ram: &[u8; Gpu::SIZE]) -> Result<u32, Fault>
    ensures { result ≡ immediate_in gpu k.now (lent ram.now) k.now.pending }
{
    match k.pending {
        Some(_) => Err(Fault::JumpPending),
        None => fetch_long(ram, k.pc),
    }
}

// The address of a MOVE PC.
pub fn counter(k: &Core) -> Result<u32, Fault>
    ensures { result ≡ counter_in k.now k.now.pending }
{
    match k.pending {
        Some(_) => Err(Fault::JumpPending),
        None => Ok(k.pc),
    }
}

// What a LOAD finds.
pub fn load(k: &Core, ram: &[u8; Gpu::SIZE], address: u32) -> Result<u32, Fault>
    ensures { result ≡ load_of k.now (lent ram.now) (place_of gpu address) }
{
    let p = locate(address)?;
    Ok(match p {
        Place::Ram(at) => long_at(ram, at),
        Place::Flags => k.flag_register(),
        Place::Control => 0x2001,
        Place::Divide => k.remainder,
    })
}
