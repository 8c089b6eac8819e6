// What a number that comes back means, in sentences to be read aloud.
#![tactic(auto)]

ghost use Rattle.std.specs.Prelude.{◌≡◌};
ghost use Rattle.advice.specs.Explanation.{explanation_of};

use arrayvec::ArrayVec;
use parser::{NotRead, Reading, read};
use sentences::{check_text, run_text};
use template::fill;

// Explains, in sentences, what the run program or the loading check printed. Any other text gets sentences too, which say what is
// wrong with it.
pub fn explain(text: &[u8]) -> ArrayVec<u8, 1024>
    ensures { result.items ≡ explanation_of text.now }
{
    match read(text) {
        Ok(Reading::Card { answer, steps, pc }) => run_text(answer, pc, steps),
        Ok(Reading::Check { answer, address }) => check_text(answer, address, 0),
        Err(NotRead::Damaged { line }) => fill(
            b"This text is damaged.\n\
              What happened: line # is missing, is damaged, or should not be there.\n\
              Where to look: at line # of the text. A card has six lines, and an answer of the check has two.\n\
              What to do: run the command again and explain its whole output, from the first line to the last.\n",
            0,
            line,
        ),
        Err(NotRead::NotACard) => fill(
            b"This is no card.\n\
              What happened: the text does not begin with a line that says answer, an equals sign and a number.\n\
              Where to look: at the first line of the text.\n\
              What to do: run gpu run or gpu check and explain its whole output, from the first line to the last.\n",
            0,
            0,
        ),
    }
}
