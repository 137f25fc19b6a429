// Reads two banks, one after the other, and prints the verdict of each low track and then of each high one, with the
// published places.
#![tactic(auto)]

ghost use Rattle.std.specs.Prelude.{◌≡◌};
ghost use Rattle.metroid_text.specs.Mother.{mother_text, mother_line};
ghost use Rattle.mothercheck.specs.Input.{input_verdict};

use engine_base::bytes;
use metroid_text::line::LINE_MOST;
use mother_check::verdict;
use mother_check::verdict::Verdict;
use mother_format::bank;
use mother_format::bank::{Banks, Tracks};

fn verdict_of(input: &[u8], tracks: Tracks, track: u32) -> Verdict
    ensures { result ≡ input_verdict input.now tracks track }
{
    let banks = Banks {
        bank8: bytes::part(input, 0, bank::BANK_SIZE),
        banka: bytes::part(input, bank::BANK_SIZE, input.len()),
    };
    verdict::check(banks, bank::published_places(tracks), track)
}

// The line of a track, in a lent buffer.
// Like cuecheck's, over another verdict and its lines.
fn line_of<'a>(input: &[u8], tracks: Tracks, track: u32, out: &'a mut [u8; LINE_MOST]) -> &'a [u8]
    ensures { result.now ≡ mother_line tracks track (input_verdict input.now tracks track) }
{
    let verdict = verdict_of(input, tracks, track);
    let n = metroid_text::mother::line(tracks, track, verdict, out);
    &out[..n]
}

// The verdict without a track: no track of an input of another length is looked at.
fn text_of<'a>(input: &[u8], out: &'a mut [u8; LINE_MOST]) -> &'a [u8]
    ensures { result.now ≡ mother_text (input_verdict input.now Tracks.Low 0) }
{
    let verdict = verdict_of(input, Tracks::Low, 0);
    let n = metroid_text::mother::text(verdict, out);
    &out[..n]
}

fn print_lines(input: &[u8], tracks: Tracks) {
    for track in 0..bank::published_places(tracks).track_count {
        io::write_all(1, line_of(input, tracks, track, &mut [0; LINE_MOST]));
    }
}

fn main() {
    // one byte more than two banks, to know that the input is too long
    let mut bytes = [0; 2 * bank::BANK_SIZE + 1];
    let n = io::read_full(0, &mut bytes);
    let input = &bytes[..n];
    if n == 2 * bank::BANK_SIZE {
        print_lines(input, Tracks::Low);
        print_lines(input, Tracks::High);
    } else {
        io::write_all(1, text_of(input, &mut [0; LINE_MOST]));
    }
}
