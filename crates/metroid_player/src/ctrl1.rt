// Ctrl 1 of a square, from its envelope.
ghost use Rattle.std.specs.Prelude.{◌≡◌};
ghost use Rattle.metroid_player.specs.Ctrl1.{ctrl1_at};

use engine_base::ctrl1;
use engine_base::time::Frames;

// Ctrl 1 in the frame of that index, from the bytes of the envelope (none: no envelope).
pub(crate) fn ctrl1_at(default: u8, envelope: &[u8], index: Frames) -> u8
    ensures { result ≡ ctrl1_at default envelope.now index.count }
{
    let last = usize::from(index.count);
    for (i, v) in envelope.iter().enumerate() {
        match *v {
            0xf0 => return ctrl1::SILENT,
            0xff => return ctrl1::default_ctrl1(default),
            v if last <= i => return ctrl1::combine(v, default),
            _ => {}
        }
    }
    ctrl1::default_ctrl1(default)
}
