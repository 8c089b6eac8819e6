// Marks of addresses: which are instruction starts, and which are targets. A mark for each address of RAM, and a few
// behind it, where the last instruction may end.
#![tactic(auto)]

ghost use Rattle.std.specs.Prelude.{◌≡◌, ◌+◌, ◌≤◌, ◌<◌, length};
ghost use Rattle.processor.specs.Processor.{gpu};
ghost use Rattle.rules.specs.Check.{is_start, is_target};
ghost use Rattle.reading.specs.Marks.{mark_count, unmarked, mark_at, mark, MovedInto, Targets, MarksStarts, MarksTargets};
ghost use Rattle.reading.specs.Offsets.{Here};

use branch::jr_target;
use field::signed_field;
use items::{Item, Shape, item_at, shape_of, size};
use processor::Gpu;

// How many addresses have a mark: those of RAM, and a few behind it, where the last instruction may end.
pub const MARKS: usize = Gpu::SIZE + 8;

fn is_marked(marks: &[bool; MARKS], t: u32) -> bool
    ensures { result ≡ mark_at gpu marks.now t }
{
    if t < Gpu::BASE {
        return false;
    }
    let i = (t - Gpu::BASE) as usize;
    if i < MARKS { marks[i] } else { false }
}

fn set_mark(marks: &mut [bool; MARKS], t: u32)
    ensures { marks.new ≡ mark gpu marks.old t }
{
    if Gpu::BASE <= t {
        let i = (t - Gpu::BASE) as usize;
        if i < MARKS {
            marks[i] = true;
        }
    }
}

// The value of a MOVEI into the register of a JUMP.
fn moved_into(p: Shape, r: u32) -> Option<u32>
    ensures { MovedInto p r result }
{
    match p {
        Shape::Movei(d, v) if d == r => Some(v),
        _ => None,
    }
}

// The target of an instruction of the shape s at a, after one of the shape p.
fn target(a: u32, p: Shape, s: Shape) -> Option<u32>
    ensures { Targets a p s result }
{
    match s {
        Shape::Jr(n, _) => Some(jr_target(a, signed_field(n))),
        Shape::Jump(r, _) => moved_into(p, r),
        _ => None,
    }
}

// Marks the instruction starts and the targets in one reading of the code. The marks that are lent are clear.
pub fn mark_code(code: &[u8], starts: &mut [bool; MARKS], targets: &mut [bool; MARKS])
    requires { (length code.now ≤ gpu.size) × (starts.old ≡ unmarked gpu) × (targets.old ≡ unmarked gpu) }
    ensures { MarksStarts gpu code.now starts.new × MarksTargets gpu code.now targets.new }
{
    let mut i: usize = 0;
    let mut p = None;
    // An instruction's length is the step, so that no counter by one stands here.
    while i < code.len() {
        let a = Gpu::BASE + i as u32;
        let t = item_at(code, i);
        let s = shape_of(t);
        set_mark(starts, a);
        if let Some(to) = target(a, shape_of(p), s) {
            set_mark(targets, to);
        }
        i += size(s);
        p = t;
    }
}

// The code, with the marks of its instruction starts and of its targets. The marks are lent: if they stood in here they would be
// copied, and for that alone the archive would need `memcpy` of the C library.
#[derive(Clone, Copy)]
pub struct Marked<'a> {
    pub code: &'a [u8],
    starts: &'a [bool; MARKS],
    targets: &'a [bool; MARKS],
    pub ghost fits: { length code.now ≤ gpu.size },
    pub ghost marks_starts: { MarksStarts gpu code.now starts.now },
    pub ghost marks_targets: { MarksTargets gpu code.now targets.now },
}

impl<'a> Marked<'a> {
    // The code with the marks that were made of it.
    pub fn of(code: &'a [u8], starts: &'a [bool; MARKS], targets: &'a [bool; MARKS]) -> Marked<'a>
        requires { (length code.now ≤ gpu.size) × MarksStarts gpu code.now starts.now × MarksTargets gpu code.now targets.now }
        ensures { result.code.now ≡ code.now }
    {
        Marked {
            code,
            starts,
            targets,
        }
    }

    pub fn is_start(&self, t: u32) -> bool
        ensures { result ≡ is_start gpu self.now.code.now t }
    {
        is_marked(self.starts, t)
    }

    // Whether the instruction at an offset is a target.
    pub fn is_target(&self, i: usize) -> bool
        requires { i < mark_count gpu }
        ensures { result ≡ is_target gpu self.now.code.now (gpu.base + i) }
    {
        is_marked(self.targets, Gpu::BASE + i as u32)
    }
}

// An instruction of the code, as a pass comes to it: the item at an offset, and the item before it.
#[derive(Clone, Copy)]
pub struct Instruction<'m, 'c> {
    pub marked: &'m Marked<'c>,
    pub offset: usize,
    pub item: Option<Item>,
    pub before: Option<Item>,
    pub ghost here: { Here gpu marked.now.code.now offset item },
}
