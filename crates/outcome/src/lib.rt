// How a completed instruction ends. The definitions say what an instruction tells, and the machine that comes of it.
#![tactic(auto)]

ghost use Rattle.std.specs.Prelude.{◌≡◌};
ghost use Rattle.outcome.specs.Outcome.{moved_with, done_of};

use answers::{Activity, End};
use gpu_core::Core;

// A whole instruction of one word is done, with nothing pending after it.
pub fn done(k: &mut Core) -> End
    ensures { moved_with result k.new ≡ done_of k.old }
{
    k.move_on(None);
    Ok(Activity::Running)
}
