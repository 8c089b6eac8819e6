// The run program: an image on standard input, its card on standard output.
#![tactic(auto)]

use processor::Gpu;

fn main() {
    // One byte more than an image has, so that an input which is too long is seen to be.
    let mut input = [0u8; Gpu::SIZE + 1];
    // `io` reads to the end of the input into an array; std does so only into a Vec, and memory is fixed here.
    let n = io::read_full(0, &mut input);
    io::write_all(1, &card::image::print(&mut input[..n]));
}
