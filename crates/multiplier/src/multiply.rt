// MULT, IMULT and IMACN. IMULTN is imult with another destination.
ghost use Rattle.std.specs.Prelude.{◌≡◌};
ghost use Rattle.multiplier.specs.Multiply.{mult_of, product_of, imult_of, imacn_of};

use values::Computed;
use values::signed::{signed16, unsigned};

pub fn mult(d: u32, s: u32, c: u32) -> Computed
    ensures { result ≡ mult_of d s c }
{
    Computed {
        value: d % 65536 * (s % 65536),
        carry: c,
    }
}

// The bits of the signed product.
fn product(d: u32, s: u32) -> u32
    ensures { result ≡ product_of d s }
{
    unsigned(signed16(d) * signed16(s))
}

pub fn imult(d: u32, s: u32, c: u32) -> Computed
    ensures { result ≡ imult_of d s c }
{
    Computed {
        value: product(d, s),
        carry: c,
    }
}

// The accumulator after an IMACN.
pub fn imacn(acc: u32, d: u32, s: u32) -> u32
    ensures { result ≡ imacn_of acc d s }
{
    acc.wrapping_add(product(d, s))
}
