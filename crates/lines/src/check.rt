// The text of the loading check's answer: what the program loadcheck prints.
ghost use Rattle.std.specs.Prelude.{◌≡◌};
ghost use Rattle.lines.specs.Lines.{check_lines};

use crate::{decimal_line, hex_line};
use arrayvec::ArrayVec;

#[tactic(auto, unfolding(crate::specs::Lines::check_lines, text::specs::Bytes::bytes))]
pub fn write(answer: u32, address: u32) -> ArrayVec<u8, 64>
    ensures { result.items ≡ check_lines answer address }
{
    let mut text = ArrayVec::new();
    decimal_line(&mut text, b"answer=", answer);
    hex_line(&mut text, b"address=", address);
    text
}
