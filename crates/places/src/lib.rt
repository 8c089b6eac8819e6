// The address map: where the address of a LOAD or STORE leads.
#![tactic(auto)]

ghost use Rattle.std.specs.Prelude.{◌≡◌};
ghost use Rattle.processor.specs.Processor.{gpu};
ghost use Rattle.places.specs.Places.{register_of, is_register, place_of};

use answers::Fault;
use processor::Gpu;

// Where an address leads: to a byte of local RAM, or to one of the built chip registers.
#[derive(Clone, Copy)]
pub enum Place {
    Ram(usize),
    Flags,
    Control,
    Divide,
}

pub fn locate(a: u32) -> Result<Place, Fault>
    ensures { result ≡ place_of gpu a }
{
    if a % 4 != 0 {
        return Err(Fault::Misaligned);
    }
    let at = Gpu::offset(a) as usize;
    if at < Gpu::SIZE {
        Ok(Place::Ram(at))
    } else {
        register_at(a)
    }
}

// Whether an address is a built register's.
pub fn is_register(a: u32) -> bool
    ensures { result ≡ is_register gpu a }
{
    register_at(a).is_ok()
}

fn register_at(a: u32) -> Result<Place, Fault>
    ensures { result ≡ register_of gpu a }
{
    match a {
        Gpu::FLAGS => Ok(Place::Flags),
        Gpu::CONTROL => Ok(Place::Control),
        Gpu::DIVIDE => Ok(Place::Divide),
        _ => Err(Fault::Unmapped),
    }
}
