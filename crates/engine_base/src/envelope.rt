// The envelopes of the squares.
ghost use Rattle.std.specs.Prelude.{◌≡◌};
ghost use Rattle.engine_base.specs.Envelope.{shows_end};

// F0 or FF stands in this many bytes of an envelope.
pub const REACH: usize = 64;

// Whether F0 or FF stands in an envelope.
pub fn shows_end(bytes: &[u8]) -> bool
    ensures { result ≡ shows_end bytes.now }
{
    for i in 0..bytes.len() {
        if matches!(bytes[i], 0xf0 | 0xff) {
            return true;
        }
    }
    false
}
