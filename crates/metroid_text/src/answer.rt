// A frame's answer as a line.
ghost use Rattle.std.specs.Prelude.{◌≡◌, ◌+◌, ◌<◌, ◌^◌, length};
ghost use Rattle.engine_base.specs.Answer.{answer_place};
ghost use Rattle.metroid_text.specs.Line.{each, Spells, Writes};
ghost use Rattle.metroid_text.specs.Answer.{after_bar, refusal_and_kind, place_and_left, event_text, answer_line, kind_most, group_most, place_most, events_most};

use crate::line::Line;
use engine_base::answer;
use engine_base::answer::Answer;
use metroid_player::event;
use metroid_player::event::Event;
use metroid_player::frame::Framed;

// Casts stay here: they narrow what is known to fit, have no `From`, or `From` would want its equation cited in each proof.
fn place_of(answer: Answer) -> [u64; 3]
    ensures { result ≡ answer_place answer }
{
    match answer {
        Answer::Fault(_, channel, offset, address) => [
            channel as u64,
            u64::from(offset),
            u64::from(address),
        ],
        _ => [0; 3],
    }
}

// Numbers after a bar.
fn put_group(numbers: &[u64], line: &mut Line)
    requires { line.old.at + group_most (length numbers.now) < 2 ^ 64 }
    ensures { Writes (group_most (length numbers.now)) (after_bar numbers.now) line.old line.new }
{
    line.text(b" |");
    line.spaced(numbers);
}

fn put_kind(answer: Answer, line: &mut Line)
    requires { line.old.at + kind_most < 2 ^ 64 }
    ensures { Writes kind_most (refusal_and_kind answer) line.old line.new }
{
    line.decimal(u64::from(answer::number_of(answer)));
    line.spaced(&[u64::from(answer::kind_of(answer))]);
}

// The place, then the frames left.
fn put_place(answer: Answer, frames_left: u32, line: &mut Line)
    requires { line.old.at + place_most < 2 ^ 64 }
    ensures { Writes place_most (place_and_left answer frames_left) line.old line.new }
{
    put_group(&place_of(answer), line);
    put_group(&[u64::from(frames_left)], line);
}

fn put_events(events: [Event; 4], line: &mut Line)
    requires { line.old.at + events_most < 2 ^ 64 }
    ensures { Writes events_most (each event_text events) line.old line.new }
{
    for event in events {
        put_group(&event::told(event).map(u64::from), line);
    }
}

// The refusal or 0 and the kind (0 events, 1 end, 2 stopped, 3 refused), the commands read by each channel, channel,
// offset and address of a refusal 10 to 15 or 0 0 0, the frames left, then five numbers for each channel, with bars between,
// and a newline.
pub fn line(framed: Framed, out: &mut [u8]) -> usize
    ensures { Spells (answer_line framed) out.old result out.new }
{
    let mut whole = Line { out, at: 0 };
    put_kind(framed.answer, &mut whole);
    put_group(&framed.counts.map(u64::from), &mut whole);
    put_place(framed.answer, framed.frames_left, &mut whole);
    put_events(framed.events, &mut whole);
    whole.text(b"\n");
    whole.at
}
