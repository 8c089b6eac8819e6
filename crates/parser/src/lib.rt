// Reads what the run program or the loading check printed.
#![tactic(auto)]

ghost use Rattle.std.specs.Prelude.{◌≡◌, drop};
ghost use Rattle.parser.specs.Readings.{check_reading, card_reading, reading_of};

use scanner::{decimal_line, hex_line};

#[derive(Clone, Copy, Debug, PartialEq, Eq)]
pub enum Reading {
    // The card of a run; pc is its counter.
    Card { answer: u32, steps: u32, pc: u32 },
    // The answer of the loading check.
    Check { answer: u32, address: u32 },
}

// Why a text is no reading.
#[derive(Clone, Copy, Debug, PartialEq, Eq)]
pub enum NotRead {
    // The line, counted from 1, is missing, damaged or too many.
    Damaged { line: u32 },
    NotACard,
}

// Reads a whole text.
pub fn read(s: &[u8]) -> Result<Reading, NotRead>
    ensures { result ≡ reading_of s.now }
{
    let (answer, second) = decimal_line(s, 0, b"answer=").ok_or(NotRead::NotACard)?;
    match decimal_line(s, second, b"steps=") {
        Some((steps, third)) => rest_of_card(s, third, answer, steps),
        None => rest_of_check(s, second, answer),
    }
}

fn rest_of_check(s: &[u8], at: usize, answer: u32) -> Result<Reading, NotRead>
    ensures { result ≡ check_reading answer (drop at s.now) }
{
    let (address, end) = hex_line(s, at, b"address=").ok_or(NotRead::Damaged { line: 2 })?;
    if end < s.len() {
        return Err(NotRead::Damaged { line: 3 });
    }
    Ok(Reading::Check { answer, address })
}

fn rest_of_card(s: &[u8], at: usize, answer: u32, steps: u32) -> Result<Reading, NotRead>
    ensures { result ≡ card_reading answer steps (drop at s.now) }
{
    let (pc, fourth) = hex_line(s, at, b"pc=").ok_or(NotRead::Damaged { line: 3 })?;
    let (_, fifth) = hex_line(s, fourth, b"flags=").ok_or(NotRead::Damaged { line: 4 })?;
    let (_, sixth) = hex_line(s, fifth, b"remain=").ok_or(NotRead::Damaged { line: 5 })?;
    match hex_line(s, sixth, b"acc=") {
        None => Err(NotRead::Damaged { line: 6 }),
        Some((_, end)) if end < s.len() => Err(NotRead::Damaged { line: 7 }),
        Some(_) => Ok(Reading::Card { answer, steps, pc }),
    }
}
