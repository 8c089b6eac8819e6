// The core of the machine: its state beside the banks, in numbers, which an instruction changes.
#![tactic(auto)]

ghost use Rattle.std.specs.Prelude.{◌≡◌};
ghost use Rattle.gpu_core.specs.Core.{moved_of, skipped_of, with_flag_register, flag_register_of};

use values::Flags;

#[derive(Clone, Copy)]
pub struct Core {
    // The active bank, a bit.
    pub bank: u32,
    // Each is a bit, which every step keeps.
    pub flags: Flags,
    pub pc: u32,
    // The target of a taken jump whose following instruction has not run yet.
    pub pending: Option<u32>,
    pub remainder: u32,
    // The divide mode, a bit.
    pub mode: u32,
    pub accumulator: u32,
}

impl Core {
    // A whole instruction of one word is done, and p is pending after it.
    pub fn move_on(&mut self, p: Option<u32>)
        ensures { self.new ≡ moved_of self.old p }
    {
        self.pc = self.pending.unwrap_or(self.pc.wrapping_add(2));
        self.pending = p;
    }

    // A MOVEI is done, of three words, before which nothing can be pending.
    pub fn skip(&mut self)
        ensures { self.new ≡ skipped_of self.old }
    {
        self.pc = self.pc.wrapping_add(6);
        self.pending = None;
    }

    // A write of v to the flag register.
    pub fn set_flag_register(&mut self, v: u32)
        ensures { self.new ≡ with_flag_register self.old v }
    {
        self.bank = v / 16384 % 2;
        self.flags = Flags {
            z: v % 2,
            n: v / 4 % 2,
            c: v / 2 % 2,
        };
    }

    // What the flag register reads.
    pub fn flag_register(&self) -> u32
        ensures { result ≡ flag_register_of self.now }
    {
        let f = self.flags;
        f.z % 2 + 2 * (f.c % 2) + 4 * (f.n % 2) + 16384 * (self.bank % 2)
    }
}
