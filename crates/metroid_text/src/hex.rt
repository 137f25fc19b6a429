// Numbers in hex.
ghost use Rattle.std.specs.Prelude.{◌+◌, ◌<◌, ◌^◌};
ghost use Rattle.metroid_text.specs.Hex.{hex_digits, hex};
ghost use Rattle.metroid_text.specs.Line.{Writes};

use crate::line::Line;

impl Line<'_> {
    // The last four digits of a number.
    pub(crate) fn hex(&mut self, number: u32)
        requires { self.old.at + hex_digits < 2 ^ 64 }
        ensures { Writes hex_digits (hex number) self.old self.new }
    {
        // Digits in a lent array and how many there are: the library's call gives them so, and there is no heap.
        let mut digits = [0u8; 16];
        let count = io::hex(u64::from(number % 65536), 4, &mut digits);
        self.text(&digits[..count]);
    }
}
