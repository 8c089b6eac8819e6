// The loading check as a program. Standard input is an image of 4,096 bytes, and behind it the length of the code in decimal
// digits; what is no such number counts as the length 0, which is refused.
#![tactic(auto)]

ghost use Rattle.std.specs.Prelude.{◌≡◌};
ghost use Rattle.loadcheck.specs.Length.{length_of};

use loading::check;
use processor::Gpu;
use scanner::first_number;

fn length_in(text: &[u8]) -> u64
    ensures { result ≡ length_of text.now }
{
    match first_number(text) {
        Some((n, _)) => n as u64,
        None => 0,
    }
}

fn main() {
    let mut image = [0u8; Gpu::SIZE];
    // `io` reads to the end of the input into an array; std does so only into a Vec, and memory is fixed here.
    let n = io::read_full(0, &mut image);
    // A length has at most four digits. Line feeds stand behind what is read, so that the end of the input ends it too.
    let mut digits = [b'\n'; 16];
    io::read_full(0, &mut digits);
    let answer = check(&image[..n], length_in(&digits));
    io::write_all(
        1,
        &lines::check::write(verdicts::number(answer), verdicts::address(answer)),
    );
}
