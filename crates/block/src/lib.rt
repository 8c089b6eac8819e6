// The state block: bank 0, bank 1, counter, pending target, remainder, accumulator, status.
#![tactic(auto)]

ghost use Rattle.std.specs.Prelude.{◌≡◌, ◌+◌, ◌*◌, ◌<◌, ◌≤◌, length};
ghost use Rattle.values.specs.Results.{bit_of};
ghost use Rattle.block.specs.Block.{block_length, pc_index, longs, put_longs, is_valid, pending_in, activity_in, state_at, activity_bit, status_of, rest_of, put_state};
ghost use Rattle.block.specs.RoundTrip.{RestoresBlock, RestoresState};

use answers::Activity;
use machine::State;
use memory::{long_at, put_long};

pub const BLOCK_LENGTH: usize = 4 * 69;

// The byte at which bank 1 starts, and each long behind the banks.
const BANK1: usize = 4 * 32;

const PC: usize = 4 * 64;

const TARGET: usize = 4 * 65;

const REMAINDER: usize = 4 * 66;

const ACCUMULATOR: usize = 4 * 67;

const STATUS: usize = 4 * 68;

// Whether the status and the pending target obey the bit and target rules.
pub fn is_valid(block: &[u8]) -> bool
    requires { block_length ≤ length block.now }
    ensures { result ≡ is_valid block.now }
{
    let status = long_at(block, STATUS);
    if status / 8 % 2048 != 0 {
        return false;
    }
    if status / 32768 % 2 != 0 {
        return false;
    }
    if status / 524288 != 0 {
        return false;
    }
    if status / 131072 % 2 == 1 {
        return true;
    }
    long_at(block, TARGET) == 0
}

fn read_bank(block: &[u8], at: usize) -> [u32; 32]
    requires { at + 128 ≤ length block.now }
    ensures { result ≡ longs block.now at 32 }
{
    let mut b = [0u32; 32];
    for i in 0..32 {
        b[i] = long_at(block, at + 4 * i);
    }
    b
}

fn pending(status: u32, target: u32) -> Option<u32>
    ensures { result ≡ pending_in status target }
{
    (status / 131072 % 2 == 1).then_some(target)
}

fn activity(status: u32) -> Activity
    ensures { result ≡ activity_in status }
{
    if status / 65536 % 2 == 1 {
        Activity::Running
    } else {
        Activity::Stopped
    }
}

// The second promise: a valid block, read and written back, is the same block.
pub fn read(block: &[u8]) -> State
    requires { block_length ≤ length block.now }
    ensures value { result ≡ state_at block.now }
    ensures restores_block { RestoresBlock block.now result }
{
    let b0 = read_bank(block, 0);
    let b1 = read_bank(block, BANK1);
    let status = long_at(block, STATUS);
    let s = State {
        bank0: b0,
        bank1: b1,
        second: status / 16384 % 2 == 1,
        z: false,
        n: false,
        c: false,
        pc: long_at(block, PC),
        pending: pending(status, long_at(block, TARGET)),
        remainder: long_at(block, REMAINDER),
        mode: status / 262144 % 2 == 1,
        accumulator: long_at(block, ACCUMULATOR),
        activity: activity(status),
    };
    s.with_z(status % 2 == 1)
        .with_c(status / 2 % 2 == 1)
        .with_n(status / 4 % 2 == 1)
}

fn write_longs(block: &mut [u8], at: usize, l: &[u32])
    requires { at + 4 * length l.now ≤ length block.old }
    ensures { block.new ≡ put_longs block.old at l.now }
{
    for i in 0..l.len() {
        put_long(block, at + 4 * i, l[i]);
    }
}

fn activity_bit(a: Activity) -> u32
    ensures { (result ≡ activity_bit a) × (result < 2) }
{
    match a {
        Activity::Stopped => 0,
        Activity::Running => 1,
    }
}

// A truth value at its place in the status.
fn bit_at(place: u32, on: bool) -> u32
    ensures { (result ≡ place * bit_of on) × (result ≤ place) }
{
    place * u32::from(on)
}

fn status(s: State) -> u32
    ensures { result ≡ status_of s }
{
    bit_at(1, s.z)
        + bit_at(2, s.c)
        + bit_at(4, s.n)
        + bit_at(16384, s.second)
        + 65536 * activity_bit(s.activity)
        + 131072 * u32::from(s.pending.is_some())
        + bit_at(262144, s.mode)
}

fn write_rest(block: &mut [u8], s: State)
    requires { block_length ≤ length block.old }
    ensures { block.new ≡ put_longs block.old (4 * pc_index) (rest_of s) }
{
    put_long(block, PC, s.pc);
    put_long(block, TARGET, s.pending.unwrap_or(0));
    put_long(block, REMAINDER, s.remainder);
    put_long(block, ACCUMULATOR, s.accumulator);
    put_long(block, STATUS, status(s));
}

// The second promise: a state, written and read back, is the same state.
pub fn write(block: &mut [u8], s: State)
    requires { block_length ≤ length block.old }
    ensures block_after { block.new ≡ put_state block.old s }
    ensures restores_state { RestoresState s block.new }
{
    write_longs(block, 0, &s.bank0);
    write_longs(block, BANK1, &s.bank1);
    write_rest(block, s);
}
