// How long a triangle note sounds: the linear counter byte, Fnnn nnnn.
ghost use Rattle.std.specs.Prelude.{◌≡◌};
ghost use Rattle.mother_player.specs.Release.{linear_of, release_of};

use engine_base::release::Release;
use engine_base::time::{Frames, QuarterFrames};
use engine_base::{field, release};

// F and n set: no release.
const FOREVER: u8 = 0xff;

// The byte that BL sets, from the timbre, pppx xxxx, and the length that it has just set.
#[tactic(auto, unfolding(crate::specs::Release::linear_of))]
pub(crate) fn linear_of(timbre: u8, length: Frames) -> u8
    ensures { result ≡ linear_of timbre length }
{
    let x = field::low::<5>(timbre);
    match timbre >> 5 {
        _ if x != 0 => x,
        2..=5 => FOREVER,
        _ => release::dynamic_of(length).count,
    }
}

// A note's release by the byte in force.
#[tactic(auto, unfolding(crate::specs::Release::release_of))]
pub(crate) fn release_of(linear: u8) -> Release
    ensures { result ≡ release_of linear }
{
    let n = field::low::<7>(linear);
    if linear >> 7 == 0 || n == 0 {
        Release::After(QuarterFrames { count: n })
    } else {
        Release::Never
    }
}
