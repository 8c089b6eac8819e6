// The registers of a bank, and the two banks changing places.
#![tactic(auto)]

ghost use Rattle.std.specs.Prelude.{◌≡◌, cond, ◌%◌, get_or, set};

pub fn get(bank: &[u32; 32], i: u32) -> u32
    ensures { result ≡ get_or bank.now (i % 32) 0 }
{
    let j = (i % 32) as usize;
    bank[j]
}

pub fn put(bank: &mut [u32; 32], i: u32, v: u32)
    ensures { bank.new ≡ set bank.old (i % 32) v }
{
    let j = (i % 32) as usize;
    bank[j] = v;
}

// The two banks change places, unless the same one stays first.
pub fn settle(a: &mut [u32; 32], b: &mut [u32; 32], same: bool)
    ensures { (a.new ≡ cond same a.old b.old) × (b.new ≡ cond same b.old a.old) }
{
    if !same {
        std::mem::swap(a, b);
    }
}
