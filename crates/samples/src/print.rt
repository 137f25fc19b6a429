// Verdicts, answers and numbers on standard output.
use metroid_check::verdict::Verdict;
use metroid_player::frame::Framed;
use metroid_text::line::LINE_MOST;

// Prints the line that `put` puts into a buffer.
fn line<F: FnOnce(&mut [u8]) -> usize>(put: F)
    requires { F.IsAlwaysCallable put }
{
    let mut out = [0; LINE_MOST];
    let n = put(&mut out);
    io::write_all(1, out.get(..n).unwrap_or(&out));
}

pub(crate) fn verdict(verdict: Verdict) {
    line(|out| metroid_text::verdict::text(verdict, out));
}

pub(crate) fn answer(framed: Framed) {
    line(|out| metroid_text::answer::line(framed, out));
}

// A number after a space.
pub(crate) fn number(number: u64) {
    io::write_all(1, b" ");
    io::print_decimal(1, number);
}

// In at least so many hexadecimal digits.
pub(crate) fn hex(number: u64, digits: usize) {
    io::write_all(1, b" ");
    io::print_hex(1, number, digits);
}
