// Reads a bank and prints the verdict of each track, with the published places.
#![tactic(auto)]

ghost use Rattle.std.specs.Prelude.{◌≡◌};
ghost use Rattle.metroid_format.specs.Bank.{published};
ghost use Rattle.metroid_check.specs.Verdict.{verdict_of};
ghost use Rattle.metroid_text.specs.Verdict.{verdict_text, verdict_line};

use metroid_check::verdict;
use metroid_check::verdict::Verdict;
use metroid_format::bank;
use metroid_text::line::LINE_MOST;

const TRACKS: u32 = 12;

fn verdict_of(bytes: &[u8], track: u32) -> Verdict
    ensures { result ≡ verdict_of bytes.now (published 0 0) track }
{
    verdict::check(bytes, bank::published_places(0, 0), track)
}

// The line of a track, in a lent buffer.
fn line_of<'a>(bytes: &[u8], track: u32, out: &'a mut [u8; LINE_MOST]) -> &'a [u8]
    ensures { result.now ≡ verdict_line track (verdict_of bytes.now (published 0 0) track) }
{
    let verdict = verdict_of(bytes, track);
    let n = metroid_text::verdict::line(track, verdict, out);
    &out[..n]
}

// The verdict without a track: no track of an input of another length is looked at.
fn text_of<'a>(bytes: &[u8], out: &'a mut [u8; LINE_MOST]) -> &'a [u8]
    ensures { result.now ≡ verdict_text (verdict_of bytes.now (published 0 0) 0) }
{
    let verdict = verdict_of(bytes, 0);
    let n = metroid_text::verdict::text(verdict, out);
    &out[..n]
}

fn main() {
    // one byte more than a bank, to know that the input is too long
    let mut bytes = [0; bank::BANK_SIZE + 1];
    let n = io::read_full(0, &mut bytes);
    let input = &bytes[..n];
    if n == bank::BANK_SIZE {
        for track in 0..TRACKS {
            io::write_all(1, line_of(input, track, &mut [0; LINE_MOST]));
        }
    } else {
        io::write_all(1, text_of(input, &mut [0; LINE_MOST]));
    }
}
