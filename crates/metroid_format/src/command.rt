// The bytes of a channel, taken apart into commands.
ghost use Rattle.std.specs.Prelude.{ℕ, ◌+◌, ◌/◌, ◌<◌, ◌≡◌, Ok, Err, length, get_or, MatchResult};
ghost use Rattle.metroid_format.specs.Command.{command_at, is_key, is_preset, is_note, note_after, is_end, told};
ghost use Rattle.engine_base.specs.Told.{Answers};

use engine_base::field;
use engine_base::refusal::Refusal;

// The bytes of one channel's data.
pub const DATA_LIMIT: usize = 256;

// Squares and triangle play keys, the noise channel presets.
#[derive(Clone, Copy)]
pub enum Kind {
    Melodic,
    Noise,
}

// A note is its byte: a key, a preset or a rest.
#[derive(Clone, Copy)]
pub enum Command {
    End,
    EndLoop,
    // n of 11nn nnnn
    BeginLoop(u8),
    // L of BL and the note in the next byte
    Length(u8, u8),
    Note(u8),
}

// What a byte says where a command stands.
#[derive(Clone, Copy)]
pub(crate) enum Rule {
    End,
    EndLoop,
    // n of 11nn nnnn
    BeginLoop(u8),
    // L of BL, whose note stands in the next byte
    Length(u8),
    Note(u8),
}

// How straight reading of channel data comes to a stop: at its end, or at the byte at an offset, which is refused.
pub type Finish = Result<(), (Refusal, usize)>;

// The command and the offset after it, or the refusal and the offset of the byte.
pub type Decoded = Result<(Command, usize), (Refusal, usize)>;

// 00 too: directly after BL it is key 0.
#[tactic(auto, unfolding(crate::specs::Command::is_key))]
fn is_key(b: u8) -> bool
    ensures { result ≡ is_key b }
{
    b % 2 == 0 && b <= 0x7e
}

// 01 is the rest.
#[tactic(auto, unfolding(crate::specs::Command::is_preset))]
fn is_preset(b: u8) -> bool
    ensures { result ≡ is_preset b }
{
    matches!(b, 0x01 | 0x04 | 0x07 | 0x0a)
}

// Whether b is a key, a preset or a rest of the kind.
pub fn is_note(kind: Kind, b: u8) -> bool
    ensures { result ≡ is_note kind b }
{
    match kind {
        Kind::Melodic => is_key(b),
        Kind::Noise => is_preset(b),
    }
}

// The byte at an offset as a key or preset, what stands directly after BL: 15 where there is none, 11 where it names neither.
#[tactic(auto, unfolding(crate::specs::Command::note_after))]
pub(crate) fn note_at(kind: Kind, bytes: &[u8], at: usize) -> Result<u8, Refusal>
    ensures { MatchResult result
        (λ note. (at < length bytes.now) × ((l : ℕ) → note_after kind bytes.now at l ≡ Ok (Command.Length l note, at + 1)))
        (λ refusal. (l : ℕ) → note_after kind bytes.now at l ≡ Err (refusal, at)) }
{
    let b = *bytes.get(at).ok_or(Refusal::PastData)?;
    if is_note(kind, b) {
        Ok(b)
    } else {
        Err(Refusal::InvalidNote)
    }
}

// Document 01's list for the byte at an offset, where a command stands: the first rule that fits decides.
#[tactic(auto, unfolding(crate::specs::Command::command_at, crate::specs::Command::command_of))]
pub(crate) fn rule_at(kind: Kind, bytes: &[u8], at: usize) -> Result<Rule, Refusal>
    ensures { MatchResult result
        (λ rule. elim rule as (λ _. Type 0) [
          | Rule.End ↦ command_at kind bytes.now at ≡ Ok (Command.End, at + 1)
          | Rule.EndLoop ↦ command_at kind bytes.now at ≡ Ok (Command.EndLoop, at + 1)
          | Rule.BeginLoop n ↦ command_at kind bytes.now at ≡ Ok (Command.BeginLoop n, at + 1)
          | Rule.Length l ↦ (at < length bytes.now) × (l < 16) × (get_or bytes.now at 0 ≡ 0xb0 + l)
          | Rule.Note b ↦ command_at kind bytes.now at ≡ Ok (Command.Note b, at + 1)
        ])
        (λ refusal. (get_or bytes.now at 0 / 16 ≡ 0x0b → ⊥) × (command_at kind bytes.now at ≡ Err (refusal, at))) }
{
    let b = *bytes.get(at).ok_or(Refusal::PastData)?;
    match b {
        0x00 => Ok(Rule::End),
        0xff => Ok(Rule::EndLoop),
        0xc0.. => Ok(Rule::BeginLoop(field::low::<6>(b))),
        0xb0.. => Ok(Rule::Length(field::low::<4>(b))),
        0x80.. => Err(Refusal::InvalidCommand),
        _ if is_note(kind, b) => Ok(Rule::Note(b)),
        _ => Err(Refusal::InvalidNote),
    }
}

// BL's command, with the note in the next byte.
fn note_after(kind: Kind, bytes: &[u8], at: usize, length: u8) -> Decoded
    ensures { result ≡ note_after kind bytes.now at length }
{
    let note = note_at(kind, bytes, at).map_err(|refusal| (refusal, at))?;
    Ok((Command::Length(length, note), at + 1))
}

// The command at an offset.
#[tactic(auto, using(crate::proofs::command::Laws::within, crate::proofs::command::Laws::after_length))]
pub(crate) fn command_at(kind: Kind, bytes: &[u8], at: usize) -> Decoded
    ensures { Answers told result (command_at kind bytes.now at) }
{
    let rule = rule_at(kind, bytes, at).map_err(|refusal| (refusal, at))?;
    match rule {
        Rule::End => Ok((Command::End, at + 1)),
        Rule::EndLoop => Ok((Command::EndLoop, at + 1)),
        Rule::BeginLoop(n) => Ok((Command::BeginLoop(n), at + 1)),
        Rule::Length(l) => note_after(kind, bytes, at + 1, l),
        Rule::Note(b) => Ok((Command::Note(b), at + 1)),
    }
}

pub(crate) fn is_end(command: Command) -> bool
    ensures { result ≡ is_end command }
{
    matches!(command, Command::End)
}
