// How long a triangle note sounds, by the header.
ghost use Rattle.std.specs.Prelude.{◌≡◌};
ghost use Rattle.metroid_player.specs.Release.{release_of};

use engine_base::release::Release;
use engine_base::time::{Frames, QuarterFrames};
use engine_base::{field, release};

// The header's release byte FFFF LLLL, and the note's length.
#[tactic(auto, unfolding(crate::specs::Release::release_of))]
pub(crate) fn release_of(byte: u8, length: Frames) -> Release
    ensures { result ≡ release_of byte length }
{
    let low = field::low::<4>(byte);
    if low != 0 {
        Release::After(QuarterFrames { count: low })
    } else if byte >> 4 != 0 {
        Release::Never
    } else {
        Release::After(release::dynamic_of(length))
    }
}
