// Lent bytes by offset.
ghost use Rattle.std.specs.Prelude.{◌≡◌, get_or, take, drop};
ghost use Rattle.engine_base.specs.Bytes.{word_at};

// The byte at an offset, 0 where there is none.
pub fn byte(bytes: &[u8], at: usize) -> u8
    ensures { result ≡ get_or bytes.now at 0 }
{
    bytes.get(at).copied().unwrap_or(0)
}

// The little-endian word at an offset, its bytes 0 where there are none.
pub fn word(bytes: &[u8], at: usize) -> u16
    ensures { result ≡ word_at bytes.now at }
{
    if bytes.len() <= at {
        return 0;
    }
    u16::from_le_bytes([byte(bytes, at), byte(bytes, at + 1)])
}

// n bytes from an offset, or to the end, whichever is sooner.
pub fn part(bytes: &[u8], at: usize, n: usize) -> &[u8]
    ensures { result.now ≡ take n (drop at bytes.now) }
{
    let rest = bytes.get(at..).unwrap_or(&[]);
    rest.get(..n).unwrap_or(rest)
}
