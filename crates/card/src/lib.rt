// The text of the run card: what the run program prints of a run.
#![tactic(auto)]

ghost use Rattle.std.specs.Prelude.{◌≡◌};
ghost use Rattle.card.specs.Text.{card_text};

use arrayvec::ArrayVec;
use lines::{decimal_line, hex_line};

pub mod image;

// What the card tells of a run: its answer and its steps, and the state after them.
#[derive(Clone, Copy)]
pub struct Card {
    pub answer: u32,
    pub steps: u32,
    pub pc: u32,
    pub flags: u32,
    pub remainder: u32,
    pub accumulator: u32,
}

// The card's text.
#[tactic(auto, unfolding(crate::specs::Text::card_text, text::specs::Bytes::bytes))]
pub fn write(card: Card) -> ArrayVec<u8, 128>
    ensures { result.items ≡ card_text card }
{
    let mut text = ArrayVec::new();
    decimal_line(&mut text, b"answer=", card.answer);
    decimal_line(&mut text, b"steps=", card.steps);
    hex_line(&mut text, b"pc=", card.pc);
    hex_line(&mut text, b"flags=", card.flags);
    hex_line(&mut text, b"remain=", card.remainder);
    hex_line(&mut text, b"acc=", card.accumulator);
    text
}
