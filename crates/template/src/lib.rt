// Writes a text of the table, with the address for '@' and the count for '#'. These two stay apart: they are told independently, and a
// struct of them would be made and taken apart here alone.
#![tactic(auto)]

ghost use Rattle.std.specs.Prelude.{◌≡◌, ◌+◌, ◌++◌, ◌≤◌};
ghost use Rattle.arrayvec.specs.ArrayVec.{array_vec_len};
ghost use Rattle.template.specs.Fill.{substituted, filled, width_of, room_of};

use arrayvec::ArrayVec;
use text::{copy, decimal, hex};

pub fn fill(text: &[u8], address: u32, count: u32) -> ArrayVec<u8, 1024>
    requires { room_of text.now ≤ 1024 }
    ensures { result.items ≡ filled text.now address count }
{
    let mut out = ArrayVec::new();
    for &byte in text {
        write_byte(&mut out, byte, address, count);
    }
    out
}

fn write_byte<const N: usize>(out: &mut ArrayVec<u8, N>, byte: u8, address: u32, count: u32)
    requires { array_vec_len out.old + width_of byte ≤ N }
    ensures { out.new.items ≡ out.old.items ++ substituted byte address count }
{
    match byte {
        b'@' => copy(out, &hex::<8>(address)),
        b'#' => copy(out, &decimal(count)),
        _ => out.push(byte),
    }
}
