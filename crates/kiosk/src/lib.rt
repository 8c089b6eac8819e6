// The run and the loading check as the kiosk's C program calls them. A run takes RAM, a state block of 69 longs, high byte
// first, and a budget.
#![tactic(auto)]

ghost use Rattle.std.specs.Prelude.{◌≡◌, length, OnOk};
ghost use Rattle.processor.specs.Processor.{gpu};
ghost use Rattle.rules.specs.Check.{check_of};
ghost use Rattle.rules.specs.Safety.{Demand3, Tells, GoesOn};
ghost use Rattle.gpu_core.specs.Machine.{lent};
ghost use Rattle.gpu_core.specs.Types.{IsBytes, HoldsBytes};
ghost use Rattle.calls.specs.Call.{called, call_of, check_reply};
ghost use Rattle.calls.specs.Display.{Display};
ghost use Rattle.block.specs.Block.{block_length};
ghost use Rattle.kiosk.specs.Refusals.{admitted_of};

use answers::Answer;
use block::{BLOCK_LENGTH, is_valid, read, write};
use loading::check;
use machine::{BUDGET_LIMIT, State, run};
use processor::Gpu;

// The refusals of a run in their order, or the state in the block.
fn admitted(ram: &[u8], block: &[u8], budget: u64) -> Result<State, Answer>
    ensures value { result ≡ admitted_of ram.now block.now budget }
    ensures whole_block { OnOk result (length block.now ≡ block_length) }
{
    if ram.len() != Gpu::SIZE {
        return Err(Answer::RamLength);
    }
    if block.len() != BLOCK_LENGTH {
        return Err(Answer::BlockLength);
    }
    if !is_valid(block) {
        return Err(Answer::BlockRule);
    }
    if BUDGET_LIMIT < budget {
        return Err(Answer::BudgetLimit);
    }
    Ok(read(block))
}

// The second promise: what `Display` assumes of the buffers is so in every call.
#[unsafe(no_mangle)]
pub extern "C" fn gpu_run(ram: &mut [u8], block: &mut [u8], budget: u64) -> u64
    ensures block_after { called result (lent ram.new) block.new ≡ call_of (lent ram.old) block.old budget }
    ensures holds_bytes { HoldsBytes (lent ram.old) × IsBytes block.old }
{
    match admitted(ram, block, budget) {
        Err(refused) => u32::from(refused) as u64,
        Ok(s) => {
            let r = run(ram, s, budget);
            write(block, r.state);
            u32::from(r.answer) as u64 + 256 * r.steps as u64
        }
    }
}

// The second promise is demand 3, with what each refusal tells and how an admitted program goes on. The third says what a reply
// of 0 means for every call of gpu_run after it.
#[unsafe(no_mangle)]
pub extern "C" fn gpu_check(ram: &[u8], code_len: u64) -> u64
    ensures value { result ≡ check_reply (check_of gpu ram.now code_len) }
    ensures demand3 { Demand3 gpu × Tells gpu × GoesOn gpu }
    ensures display { Display }
{
    let answer = check(ram, code_len);
    verdicts::number(answer) as u64 + 256 * verdicts::address(answer) as u64
}
