// The fields of a byte: what masks keep of it. A high field is the byte shifted down.
ghost use Rattle.std.specs.Prelude.{◌≡◌, ◌%◌, ◌^◌};

// The lowest bits of a byte, so many of them; from 8 on all.
pub fn low<const BITS: u32>(b: u8) -> u8
    ensures { result ≡ b % 2 ^ BITS }
{
    if u8::BITS <= BITS {
        return b;
    }
    b & ((1 << BITS) - 1)
}
