// The loading rules, and what the loading check answers: the numbers of paper 01 are those of the definition.
#![tactic(auto)]

ghost use Rattle.std.specs.Prelude.{◌≡◌, ◌<◌};
ghost use Rattle.verdicts.specs.Verdicts.{rule_number, verdict_number, verdict_address};

// The loading rules, in the order of their numbers.
#[derive(Clone, Copy, PartialEq)]
pub enum Rule {
    AllBuilt,
    JrTarget,
    JumpTarget,
    DelaySlot,
    Ending,
    Access,
}

// Why the check does not admit a program. A broken rule is told with the address of the instruction at fault.
#[derive(Clone, Copy)]
pub enum Refusal {
    RamLength,
    CodeLength,
    Broken(Rule, u32),
}

impl Rule {
    // The rules that ask of an instruction and the one before it.
    pub const FIRST_FIVE: [Rule; 5] = [
        Rule::AllBuilt,
        Rule::JrTarget,
        Rule::JumpTarget,
        Rule::DelaySlot,
        Rule::Ending,
    ];
}

// Paper 01's number of the rule.
impl From<Rule> for u32 {
    ghost from_gives = { λ rule number. (number ≡ rule_number rule) × (number < 7) };

    fn from(rule: Rule) -> u32 {
        match rule {
            Rule::AllBuilt => 1,
            Rule::JrTarget => 2,
            Rule::JumpTarget => 3,
            Rule::DelaySlot => 4,
            Rule::Ending => 5,
            Rule::Access => 6,
        }
    }
}

// Paper 01's number of an answer of the check. This and the next are functions and no From, since Result is not a type of this crate.
pub fn number(answer: Result<(), Refusal>) -> u32
    ensures { result ≡ verdict_number answer }
{
    match answer {
        Ok(()) => 0,
        Err(Refusal::RamLength) => 31,
        Err(Refusal::CodeLength) => 33,
        Err(Refusal::Broken(rule, _)) => 20 + u32::from(rule),
    }
}

// The address told.
pub fn address(answer: Result<(), Refusal>) -> u32
    ensures { result ≡ verdict_address answer }
{
    match answer {
        Err(Refusal::Broken(_, address)) => address,
        _ => 0,
    }
}
