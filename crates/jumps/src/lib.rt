// A jump: a fault while one is pending; else its target becomes pending where its condition holds.
#![tactic(auto)]

ghost use Rattle.std.specs.Prelude.{◌≡◌};
ghost use Rattle.outcome.specs.Outcome.{moved_with};
ghost use Rattle.jumps.specs.Jumps.{jump_of};

use answers::{Activity, End, Fault};
use branch::taken;
use gpu_core::Core;
use outcome::done;

pub fn jump(k: &mut Core, condition: u32, target: u32) -> End
    ensures { moved_with result k.new ≡ jump_of k.old k.old.pending condition target }
{
    if k.pending.is_some() {
        Err(Fault::JumpPending)
    } else if taken(condition, k.flags) {
        k.move_on(Some(target));
        Ok(Activity::Running)
    } else {
        done(k)
    }
}
