// A verdict as text.
ghost use Rattle.std.specs.Prelude.{◌+◌, ◌<◌, ◌^◌, length};
ghost use Rattle.metroid_text.specs.Line.{Spells, Writes};
ghost use Rattle.metroid_text.specs.Verdict.{sentence, verdict_words, verdict_text, verdict_line, sentence_most, words_most, text_most};

use crate::line::Line;
use metroid_check::verdict::Verdict;

// A word and numbers.
pub(crate) fn put_sentence(word: &[u8], values: &[u64], line: &mut Line)
    requires { line.old.at + sentence_most word.now (length values.now) < 2 ^ 64 }
    ensures { Writes (sentence_most word.now (length values.now)) (sentence word.now values.now) line.old line.new }
{
    line.text(word);
    line.spaced(values);
}

// Casts stay here: they narrow what is known to fit, have no `From`, or `From` would want its equation cited in each proof.
#[tactic(auto, using(crate::proofs::line::Laws::writes_within))]
fn put_words(verdict: Verdict, line: &mut Line)
    requires { line.old.at + words_most < 2 ^ 64 }
    ensures { Writes words_most (verdict_words verdict) line.old line.new }
{
    match verdict {
        Verdict::Pass(frame, channel) => {
            put_sentence(b"pass", &[u64::from(frame), channel as u64], line);
        }
        Verdict::Refused(refusal) => {
            put_sentence(b"refuse", &[u64::from(refusal.number())], line);
        }
        Verdict::Fault(refusal, channel, offset, frame, address) => {
            let columns = [
                u64::from(refusal.number()),
                channel as u64,
                u64::from(offset),
                u64::from(frame),
            ];
            put_sentence(b"refuse", &columns, line);
            line.text(b" ");
            line.hex(address);
        }
    }
}

fn put(verdict: Verdict, line: &mut Line)
    requires { line.old.at + text_most < 2 ^ 64 }
    ensures { Writes text_most (verdict_text verdict) line.old line.new }
{
    put_words(verdict, line);
    line.text(b"\n");
}

// `pass FRAME CHANNEL`, `refuse NO`, or `refuse NO CHANNEL OFFSET FRAME ADDRESS`, the address in hex, and a newline.
pub fn text(verdict: Verdict, out: &mut [u8]) -> usize
    ensures { Spells (verdict_text verdict) out.old result out.new }
{
    let mut whole = Line { out, at: 0 };
    put(verdict, &mut whole);
    whole.at
}

// The line of a track.
pub fn line(track: u32, verdict: Verdict, out: &mut [u8]) -> usize
    ensures { Spells (verdict_line track verdict) out.old result out.new }
{
    let mut whole = Line { out, at: 0 };
    whole.decimal(u64::from(track));
    whole.text(b" ");
    put(verdict, &mut whole);
    whole.at
}
