// Local RAM, lent as bytes. Words and longs are stored high byte first.
#![tactic(auto)]

ghost use Rattle.std.specs.Prelude.{◌≡◌, ◌+◌, ◌<◌, ◌≤◌, length};
ghost use Rattle.processor.specs.Processor.{gpu};
ghost use Rattle.memory.specs.Memory.{word_at, long_at, put_long, fetch_of, immediate_of};

use answers::Fault;
use processor::Gpu;

fn word_at(ram: &[u8], at: usize) -> u32
    requires { at + 2 ≤ length ram.now }
    ensures { (result ≡ word_at ram.now at) × (result < 65536) }
{
    u32::from(ram[at]) * 256 + u32::from(ram[at + 1])
}

// The word at a counter, or the refusal.
pub fn fetch(ram: &[u8; Gpu::SIZE], pc: u32) -> Result<u16, Fault>
    ensures { result ≡ fetch_of gpu ram.now pc }
{
    let at = Gpu::offset(pc) as usize;
    // Even, and below the size, by one test of its bits: the size is a power of two.
    if at - at % Gpu::SIZE + at % 2 == 0 {
        Ok(word_at(ram, at) as u16)
    } else {
        Err(Fault::BadCounter)
    }
}

// The long of a MOVEI at pc: the low word behind it, then the high word. One test does for both.
pub fn fetch_long(ram: &[u8; Gpu::SIZE], pc: u32) -> Result<u32, Fault>
    ensures { result ≡ immediate_of gpu ram.now pc }
{
    let at = Gpu::offset(pc.wrapping_add(2)) as usize;
    if at % 2 == 1 {
        return Err(Fault::BadCounter);
    }
    if at + 3 < Gpu::SIZE {
        let low = word_at(ram, at);
        let high = word_at(ram, at + 2);
        Ok(high * 65536 + low)
    } else {
        Err(Fault::BadCounter)
    }
}

// The long at a place in RAM.
pub fn long_at(ram: &[u8], at: usize) -> u32
    requires { at + 4 ≤ length ram.now }
    ensures { result ≡ long_at ram.now at }
{
    u32::from(ram[at]) * 16777216
        + u32::from(ram[at + 1]) * 65536
        + u32::from(ram[at + 2]) * 256
        + u32::from(ram[at + 3])
}

// The long at a place in RAM becomes v.
pub fn put_long(ram: &mut [u8], at: usize, v: u32)
    requires { at + 4 ≤ length ram.old }
    ensures { ram.new ≡ put_long ram.old at v }
{
    ram[at] = (v / 16777216 % 256) as u8;
    ram[at + 1] = (v / 65536 % 256) as u8;
    ram[at + 2] = (v / 256 % 256) as u8;
    ram[at + 3] = (v % 256) as u8;
}
