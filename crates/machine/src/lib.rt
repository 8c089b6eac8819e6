// The machine: a step, and a run of instructions one after another up to a budget.
#![tactic(auto)]

ghost use Rattle.std.specs.Prelude.{◌≡◌};
ghost use Rattle.processor.specs.Processor.{gpu};
ghost use Rattle.rows.specs.Rows.{RowsHold};
ghost use Rattle.gpu_core.specs.Core.{flag_register_of};
ghost use Rattle.gpu_core.specs.Machine.{lent};
ghost use Rattle.gpu_core.specs.Types.{HoldsBytes};
ghost use Rattle.machine.specs.State.{with_z, with_n, with_c, core_of, state_with, IsState};
ghost use Rattle.machine.specs.Run.{activity_of, ran_with, run_of, step_of};
ghost use Rattle.machine.specs.Laws.{Laws};

use answers::{Activity, Answer, End};
use cycle::from_banks;
use gpu_core::Core;
use processor::Gpu;
use values::Flags;

// The most instructions that a run may be asked for.
pub const BUDGET_LIMIT: u64 = 1000000;

// The whole state, as paper 01 lists it.
#[derive(Clone, Copy)]
pub struct State {
    pub bank0: [u32; 32],
    pub bank1: [u32; 32],
    // Whether bank 1 is the active one.
    pub second: bool,
    pub z: bool,
    pub n: bool,
    pub c: bool,
    pub pc: u32,
    // The target of a taken jump whose following instruction has not run yet.
    pub pending: Option<u32>,
    pub remainder: u32,
    // Whether the divide mode is 1.
    pub mode: bool,
    pub accumulator: u32,
    pub activity: Activity,
}

// What a run gives.
#[derive(Clone, Copy)]
pub struct Ran {
    pub answer: Answer,
    pub steps: u32,
    pub state: State,
}

// The state of two banks and the rest.
fn state_with(bank0: [u32; 32], bank1: [u32; 32], k: Core, activity: Activity) -> State
    ensures { result ≡ state_with bank0 bank1 k activity }
{
    State {
        bank0,
        bank1,
        second: k.bank % 2 == 1,
        z: k.flags.z % 2 == 1,
        n: k.flags.n % 2 == 1,
        c: k.flags.c % 2 == 1,
        pc: k.pc,
        pending: k.pending,
        remainder: k.remainder,
        mode: k.mode % 2 == 1,
        accumulator: k.accumulator,
        activity,
    }
}

// Whether the machine still runs.
fn activity(end: End) -> Activity
    ensures { result ≡ activity_of end }
{
    end.unwrap_or(Activity::Running)
}

// A run of at most budget instructions. A refused run changes nothing. The second promise: what the laws and demand 3 assume of
// RAM and of a state is so wherever a run is called. The third: the laws of runs, and that the rows of paper 01 that are marked p hold
// of the effects that a run is made of.
#[tactic(auto, unfolding(crate::specs::Run::run_of))]
pub fn run(ram: &mut [u8], state: State, budget: u64) -> Ran
    ensures ram_after { ran_with result (lent ram.new) ≡ run_of gpu (lent ram.old) state budget }
    ensures holds_bytes { HoldsBytes (lent ram.old) × IsState state }
    ensures laws { Laws gpu × RowsHold }
{
    let Some(ram) = ram.as_mut_array::<{ Gpu::SIZE }>() else {
        return Ran {
            answer: Answer::RamLength,
            steps: 0,
            state,
        };
    };
    if BUDGET_LIMIT < budget {
        return Ran {
            answer: Answer::BudgetLimit,
            steps: 0,
            state,
        };
    }
    match state.activity {
        Activity::Stopped => Ran {
            answer: Answer::Stopped,
            steps: 0,
            state,
        },
        Activity::Running => {
            let mut a = state.bank0;
            let mut b = state.bank1;
            let mut k = state.core();
            let g = from_banks(&mut a, &mut b, &mut k, ram, budget as u32);
            let end = g.end;
            Ran {
                answer: Answer::from(end),
                steps: g.steps,
                state: state_with(a, b, k, activity(end)),
            }
        }
    }
}

impl State {
    // The rest beside the banks, in numbers.
    fn core(self) -> Core
        ensures { result ≡ core_of self }
    {
        Core {
            bank: u32::from(self.second),
            flags: Flags {
                z: u32::from(self.z),
                n: u32::from(self.n),
                c: u32::from(self.c),
            },
            pc: self.pc,
            pending: self.pending,
            remainder: self.remainder,
            mode: u32::from(self.mode),
            accumulator: self.accumulator,
        }
    }

    // What the flag register reads.
    pub fn flag_register(self) -> u32
        ensures { result ≡ flag_register_of (core_of self) }
    {
        self.core().flag_register()
    }

    // The setters of the flags: each names a field, which no parameter can.
    pub fn with_z(mut self, on: bool) -> State
        ensures { result ≡ with_z self on }
    {
        self.z = on;
        self
    }

    pub fn with_n(mut self, on: bool) -> State
        ensures { result ≡ with_n self on }
    {
        self.n = on;
        self
    }

    pub fn with_c(mut self, on: bool) -> State
        ensures { result ≡ with_c self on }
    {
        self.c = on;
        self
    }

    // One step; it answers as a run of budget 1.
    pub fn step(self, ram: &mut [u8]) -> Ran
        ensures ram_after { ran_with result (lent ram.new) ≡ step_of gpu (lent ram.old) self }
        ensures holds_bytes { HoldsBytes (lent ram.old) × IsState self }
    {
        run(ram, self, 1)
    }
}
