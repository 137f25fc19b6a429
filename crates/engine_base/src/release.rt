// How long a triangle note sounds.
ghost use Rattle.std.specs.Prelude.{◌≡◌};
ghost use Rattle.engine_base.specs.Release.{dynamic, told_release};

use crate::time::{Frames, QuarterFrames};

// Never, where a release is told as a number.
const NEVER: u32 = 255;

// Not an Option: never is a rule of the format and no absence, and is told as a number.
#[derive(Clone, Copy)]
pub enum Release {
    After(QuarterFrames),
    Never,
}

// One frame before the note's end or after 15 frames, whichever is sooner.
pub fn dynamic_of(length: Frames) -> QuarterFrames
    ensures { result ≡ dynamic length }
{
    QuarterFrames {
        count: 4 * length.count.saturating_sub(1).min(15),
    }
}

// A release as a number of quarter-frames.
pub fn quarter_frames(release: Release) -> u32
    ensures { result ≡ told_release release }
{
    match release {
        Release::After(after) => u32::from(after.count),
        Release::Never => NEVER,
    }
}
