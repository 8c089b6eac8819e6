// Rule 6 over the whole code. The ranges of the registers are read and written where they stand.
#![tactic(auto)]

ghost use Rattle.std.specs.Prelude.{◌≡◌};
ghost use Rattle.processor.specs.Processor.{gpu};
ghost use Rattle.rules.specs.Check.{first_access};

use items::{class_in, item_at, long_in, shape_of, size};
use processor::Gpu;
use ranges::unknown_all;
use reading::Marked;
use transfer::{access, transfer};

// The first address at which rule 6 is broken.
pub fn first_access(marked: &Marked) -> Option<u32>
    ensures { result ≡ first_access gpu marked.now.code.now }
{
    let code = marked.code;
    let end = Gpu::BASE + code.len() as u32;
    let mut i: usize = 0;
    let mut known = unknown_all();
    // An instruction's length is the step, so that no counter by one stands here.
    while i < code.len() {
        let t = item_at(code, i);
        let s = shape_of(t);
        if !access(end, s, &known) {
            return Some(Gpu::BASE + i as u32);
        }
        let n = i + size(s);
        if marked.is_target(n) {
            known = unknown_all();
        } else {
            transfer(class_in(t), long_in(t), &mut known);
        }
        i = n;
    }
    None
}
