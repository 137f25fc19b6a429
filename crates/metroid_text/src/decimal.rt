// Numbers in decimal.
ghost use Rattle.std.specs.Prelude.{◌+◌, ◌*◌, ◌<◌, ◌^◌, length};
ghost use Rattle.metroid_text.specs.Decimal.{decimal, digits_most};
ghost use Rattle.metroid_text.specs.Line.{after_space, spaced, spaced_most, Writes};

use crate::line::Line;

impl Line<'_> {
    pub(crate) fn decimal(&mut self, number: u64)
        requires { self.old.at + digits_most < 2 ^ 64 }
        ensures { Writes digits_most (decimal number) self.old self.new }
    {
        // Digits in a lent array and how many there are: the library's call gives them so, and there is no heap.
        let mut digits = [0u8; 20];
        let count = io::decimal(number, &mut digits);
        self.text(&digits[..count]);
    }

    fn after_space(&mut self, number: u64)
        requires { self.old.at + spaced_most < 2 ^ 64 }
        ensures { Writes spaced_most (after_space number) self.old self.new }
    {
        self.text(b" ");
        self.decimal(number);
    }

    // Numbers, each after a space.
    pub(crate) fn spaced(&mut self, numbers: &[u64])
        requires { self.old.at + spaced_most * length numbers.now < 2 ^ 64 }
        ensures { Writes (spaced_most * length numbers.now) (spaced numbers.now) self.old self.new }
    {
        for number in numbers {
            self.after_space(*number);
        }
    }
}
