// Loops of one level.
ghost use Rattle.std.specs.Prelude.{◌≡◌};
ghost use Rattle.engine_base.specs.Loops.{counter_of};

// The counter of a begin: the plays after the first.
pub fn counter_of(n: u8) -> u8
    ensures { result ≡ counter_of n }
{
    if n == 0 { 255 } else { n - 1 }
}
