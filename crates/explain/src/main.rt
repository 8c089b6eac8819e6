// The program that explains a number: what `run` or `loadcheck` printed on standard input, sentences on standard output.
#![tactic(auto)]

ghost use Rattle.std.specs.Prelude.{◌≡◌};
ghost use Rattle.advice.specs.Explanation.{explanation_of};
ghost use Rattle.explain.specs.ReadsBack.{ReadsBack};

use arrayvec::ArrayVec;

// The explanation of a text. The second promise: what the two programs print is explained as it was meant.
fn explained(text: &[u8]) -> ArrayVec<u8, 1024>
    ensures text { result.items ≡ explanation_of text.now }
    ensures reads_back { ReadsBack }
{
    advice::explain(text)
}

fn main() {
    // A card has at most 91 bytes, so that a text which fills this array is seen to be too long.
    let mut text = [0u8; 128];
    // `io` reads to the end of the input into an array; std does so only into a Vec, and memory is fixed here.
    let n = io::read_full(0, &mut text);
    io::write_all(1, &explained(&text[..n]));
}
