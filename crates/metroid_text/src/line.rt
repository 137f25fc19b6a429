// A line is put together of texts, each from the index behind the one before.
ghost use Rattle.std.specs.Prelude.{◌+◌, ◌<◌, ◌^◌, length};
ghost use Rattle.metroid_text.specs.Line.{Writes};

use engine_base::buffer;

// A buffer of this length holds every line whole.
pub const LINE_MOST: usize = 644;

// A line in a lent buffer, and the index behind what it has so far.
#[derive(Drop)]
pub(crate) struct Line<'a> {
    pub(crate) out: &'a mut [u8],
    pub(crate) at: usize,
}

impl Line<'_> {
    pub(crate) fn text(&mut self, text: &[u8])
        requires { self.old.at + length text.now < 2 ^ 64 }
        ensures { Writes (length text.now) text.now self.old self.new }
    {
        buffer::fill(self.out, self.at, text);
        self.at += text.len();
    }
}
