// What a field of five bits says where it is no register.
#![tactic(auto)]

ghost use Rattle.std.specs.Prelude.{◌≡◌, ◌*◌};
ghost use Rattle.field.specs.Fields.{quick_of, signed_field_of};

// 01's "quick n": a field where 0 is 32.
pub fn quick(q: u32) -> u32
    ensures { result ≡ quick_of q }
{
    let n = q % 32;
    if n == 0 { 32 } else { n }
}

// The bytes that "4 × quick n" adds to R14 or R15.
pub fn quick_bytes(q: u32) -> u32
    ensures { result ≡ 4 * quick_of q }
{
    4 * quick(q)
}

// The signed number of a field, -16 to 15.
pub fn signed_field(n: u32) -> i32
    ensures { result ≡ signed_field_of n }
{
    let k = n % 32;
    if k < 16 { k as i32 } else { k as i32 - 32 }
}
