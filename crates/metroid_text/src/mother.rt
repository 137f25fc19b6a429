// A verdict of the later engine as text.
ghost use Rattle.std.specs.Prelude.{◌+◌, ◌<◌, ◌^◌, ◌≡◌};
ghost use Rattle.metroid_text.specs.Line.{Spells, Writes};
ghost use Rattle.metroid_text.specs.Mother.{track_words, names_address, fault_words, mother_words, mother_text, mother_line, track_most, mother_words_most, mother_text_most};

use crate::line::Line;
use crate::verdict::put_sentence;
use engine_base::refusal::Refusal;
use mother_check::faults::Fault;
use mother_check::verdict::Verdict;
use mother_format::bank::Tracks;

fn put_track(tracks: Tracks, track: u32, line: &mut Line)
    requires { line.old.at + track_most < 2 ^ 64 }
    ensures { Writes track_most (track_words tracks track) line.old line.new }
{
    let word: &[u8] = match tracks {
        Tracks::Low => b"low",
        Tracks::High => b"high",
    };
    put_sentence(word, &[u64::from(track)], line);
}

// The refusals that the later format's `address_of` names an address for: each follows a definition of its own.
#[tactic(auto, unfolding(crate::specs::Mother::names_address))]
fn names_address(refusal: Refusal) -> bool
    ensures { result ≡ names_address refusal }
{
    matches!(
        refusal,
        Refusal::InvalidCommand
            | Refusal::InvalidNote
            | Refusal::PastLengths
            | Refusal::ZeroLength
            | Refusal::NoLength
            | Refusal::PastData
    )
}

#[tactic(auto, unfolding(crate::specs::Mother::fault_words), using(crate::proofs::line::Laws::writes_within))]
fn put_fault(fault: Fault, line: &mut Line)
    requires { line.old.at + mother_words_most < 2 ^ 64 }
    ensures { Writes mother_words_most (fault_words fault) line.old line.new }
{
    let columns = [
        u64::from(fault.refusal.number()),
        u64::from(fault.channel),
        u64::from(fault.at),
        u64::from(fault.place),
    ];
    put_sentence(b"refuse", &columns, line);
    if names_address(fault.refusal) {
        line.text(b" ");
        line.hex(fault.address);
    }
}

#[tactic(auto, using(crate::proofs::line::Laws::writes_within))]
fn put_words(verdict: Verdict, line: &mut Line)
    requires { line.old.at + mother_words_most < 2 ^ 64 }
    ensures { Writes mother_words_most (mother_words verdict) line.old line.new }
{
    match verdict {
        Verdict::Pass => line.text(b"pass"),
        Verdict::Refused(refusal) => {
            put_sentence(b"refuse", &[u64::from(refusal.number())], line);
        }
        Verdict::Fault(fault) => put_fault(fault, line),
    }
}

// Like the old engine's, over types and definitions of its own: a trait for both would be longer than the two.
fn put(verdict: Verdict, line: &mut Line)
    requires { line.old.at + mother_text_most < 2 ^ 64 }
    ensures { Writes mother_text_most (mother_text verdict) line.old line.new }
{
    put_words(verdict, line);
    line.text(b"\n");
}

// `pass`, `refuse NO`, `refuse NO CHANNEL OFFSET PLACE`, or of 10 to 15 `refuse NO CHANNEL OFFSET PLACE ADDRESS`, the address
// in hex, and a newline.
pub fn text(verdict: Verdict, out: &mut [u8]) -> usize
    ensures { Spells (mother_text verdict) out.old result out.new }
{
    let mut whole = Line { out, at: 0 };
    put(verdict, &mut whole);
    whole.at
}

// The line of a track: behind `low N` or `high N`.
pub fn line(tracks: Tracks, track: u32, verdict: Verdict, out: &mut [u8]) -> usize
    ensures { Spells (mother_line tracks track verdict) out.old result out.new }
{
    let mut whole = Line { out, at: 0 };
    put_track(tracks, track, &mut whole);
    whole.text(b" ");
    put(verdict, &mut whole);
    whole.at
}
