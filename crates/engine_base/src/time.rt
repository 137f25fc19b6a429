// Lengths of time. Neither is handed over for the other.
ghost use Rattle.std.specs.Prelude.{◌≡◌, ◌-◌};

// Note lengths count frames.
#[repr(C)]
#[derive(Clone, Copy, PartialEq, Eq)]
pub struct Frames {
    pub count: u8,
}

// The triangle's release counts quarter-frames.
#[derive(Clone, Copy, PartialEq, Eq)]
pub struct QuarterFrames {
    pub count: u8,
}

// The index of a frame in its note, whose frames left still count it.
pub fn index_of(length: Frames, left: Frames) -> Frames
    ensures { result.count ≡ length.count - left.count }
{
    Frames {
        count: length.count.saturating_sub(left.count),
    }
}
