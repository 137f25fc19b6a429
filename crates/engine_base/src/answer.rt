// What a frame answers.
ghost use Rattle.std.specs.Prelude.{◌≡◌};
ghost use Rattle.engine_base.specs.Answer.{answer_number, answer_kind};

use crate::refusal::Refusal;

// No Result of the other cases: the definitions and laws go by all of them side by side.
#[derive(Clone, Copy)]
pub enum Answer {
    Events,
    End,
    Stopped,
    // what has no place in a channel
    Refused(Refusal),
    // the channel, the offset of the byte and its address
    Fault(Refusal, usize, u16, u32),
}

// What a used channel does in a frame.
// No Result of the other cases: the definitions and laws go by all of them side by side.
#[derive(Clone, Copy)]
pub enum Turned {
    Plays,
    End,
    // the offset of the byte, and its address
    Refused(Refusal, u16, u32),
}

// The number of an answer's refusal, or 0.
// A code or a number of the C interface, not a type of the library's.
pub fn number_of(answer: Answer) -> u32
    ensures { result ≡ answer_number answer }
{
    match answer {
        Answer::Refused(refusal) | Answer::Fault(refusal, ..) => refusal.number(),
        _ => 0,
    }
}

// 0 events, 1 end, 2 stopped, 3 refused.
// A code or a number of the C interface, not a type of the library's.
pub fn kind_of(answer: Answer) -> u32
    ensures { result ≡ answer_kind answer }
{
    match answer {
        Answer::Events => 0,
        Answer::End => 1,
        Answer::Stopped => 2,
        Answer::Refused(_) | Answer::Fault(..) => 3,
    }
}
