// The transpose byte: a signed number that is added to a note's key byte.
ghost use Rattle.std.specs.Prelude.{◌≡◌};
ghost use Rattle.mother_format.specs.Transpose.{amount_of, is_odd, transposed_of};

// The key byte that is a rest, before and after transposing.
pub const REST: u8 = 0x02;

// The last key byte of the period table.
pub const LAST_KEY: u8 = 0x84;

// +m, or -1 - m where the top bit is set.
#[tactic(auto, unfolding(crate::specs::Transpose::amount_of))]
fn amount(b: u8) -> i16
    ensures { result ≡ amount_of b }
{
    if b < 0x80 {
        i16::from(b)
    } else {
        -1 - i16::from(b - 0x80)
    }
}

// Whether the amount is odd.
#[tactic(auto, unfolding(crate::specs::Transpose::is_odd))]
pub fn is_odd(b: u8) -> bool
    ensures { result ≡ is_odd b }
{
    amount(b).unsigned_abs() % 2 == 1
}

// A key byte under a transpose byte, or none outside the table.
#[tactic(auto, unfolding(crate::specs::Transpose::transposed_of))]
pub fn transposed(b: u8, transpose: u8) -> Option<u8>
    ensures { result ≡ transposed_of b transpose }
{
    if b == REST {
        return Some(REST);
    }
    match u8::try_from(i16::from(b) + amount(transpose)) {
        Ok(sum) if sum <= LAST_KEY => Some(sum),
        _ => None,
    }
}
