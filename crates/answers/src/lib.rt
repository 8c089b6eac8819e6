// How an instruction ends, how a run ends, and how a call is refused: the numbers of paper 01 are those of the definition.
#![tactic(auto)]

ghost use Rattle.std.specs.Prelude.{◌≡◌};
ghost use Rattle.answers.specs.Answers.{fault_of, number_of, answer_of};

// Why an instruction was not completed.
#[derive(Clone, Copy)]
pub enum Fault {
    NotBuilt,
    BadCounter,
    Misaligned,
    Unmapped,
    JumpPending,
}

#[derive(Clone, Copy)]
pub enum Activity {
    Running,
    Stopped,
}

// How an instruction ended, and so how instructions one after another did: completed, and whether the machine runs on; or why not.
pub type End = Result<Activity, Fault>;

// What a run answers. A stop, a fault and a refusal are answers alike, each with its number, and no errors of one another.
#[derive(Clone, Copy)]
pub enum Answer {
    Running,
    Stopped,
    Faulted(Fault),
    RamLength,
    BudgetLimit,
    BlockRule,
    BlockLength,
}

impl From<Fault> for u32 {
    ghost from_gives = { λ fault number. number ≡ fault_of fault };

    fn from(fault: Fault) -> u32 {
        match fault {
            Fault::NotBuilt => 11,
            Fault::BadCounter => 12,
            Fault::Misaligned => 13,
            Fault::Unmapped => 14,
            Fault::JumpPending => 15,
        }
    }
}

// The answer of a run whose instructions ended so.
impl From<End> for Answer {
    ghost from_gives = { λ end answer. answer ≡ answer_of end };

    fn from(end: End) -> Answer {
        match end {
            Ok(Activity::Running) => Answer::Running,
            Ok(Activity::Stopped) => Answer::Stopped,
            Err(f) => Answer::Faulted(f),
        }
    }
}

// Paper 01's number.
impl From<Answer> for u32 {
    ghost from_gives = { λ answer number. number ≡ number_of answer };

    fn from(answer: Answer) -> u32 {
        match answer {
            Answer::Running => 0,
            Answer::Stopped => 1,
            Answer::Faulted(f) => u32::from(f),
            Answer::RamLength => 31,
            Answer::BudgetLimit => 32,
            Answer::BlockRule => 34,
            Answer::BlockLength => 35,
        }
    }
}
