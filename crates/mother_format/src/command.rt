// The bytes of a block, sorted into commands.
ghost use Rattle.std.specs.Prelude.{◌≡◌, ◌<◌, length, Ok};
ghost use Rattle.engine_base.specs.Told.{Answers};
ghost use Rattle.mother_format.specs.Command.{is_key, is_preset, is_note, melodic_rule, noise_rule, rule_of, needed, note_after, timbre_after, command_by, command_at, told};

use engine_base::field;
use engine_base::refusal::Refusal;

// Squares and triangle play keys, the noise channel presets.
#[derive(Clone, Copy)]
pub enum Kind {
    Square,
    Triangle,
    Noise,
}

// What a command's first byte says.
#[derive(Clone, Copy)]
pub enum Rule {
    End,
    Transpose,
    Window,
    EndLoop,
    // L of BL
    Length(u8),
    // n of 11nn nnnn
    BeginLoop(u8),
    Timbre,
    Note,
}

// A note is its byte: a key byte, a preset or a rest.
#[derive(Clone, Copy)]
pub enum Command {
    End,
    // nmmm mmmm
    Transpose(u8),
    Window(u8),
    EndLoop,
    // L of BL and the note in the next byte
    Length(u8, u8),
    // n of 11nn nnnn
    BeginLoop(u8),
    // pppx xxxx and C
    Timbre(u8, u8),
    Note(u8),
}

// The command and the offset after it, or the refusal and the offset of the byte.
pub type Decoded = Result<(Command, usize), (Refusal, usize)>;

#[tactic(auto, unfolding(crate::specs::Command::is_key))]
fn is_key(b: u8) -> bool
    ensures { result ≡ is_key b }
{
    b % 2 == 0
}

// Of DDpp pppp the rest 1 or a preset.
#[tactic(auto, unfolding(crate::specs::Command::is_preset))]
fn is_preset(b: u8) -> bool
    ensures { result ≡ is_preset b }
{
    matches!(
        field::low::<6>(b),
        0x01 | 0x02 | 0x04 | 0x07 | 0x0a | 0x0d | 0x10 | 0x13 | 0x16 | 0x19 | 0x1c
    )
}

// Whether b names a key, a preset or a rest of the kind, under some transpose.
pub fn is_note(kind: Kind, b: u8) -> bool
    ensures { result ≡ is_note kind b }
{
    match kind {
        Kind::Square | Kind::Triangle => is_key(b),
        Kind::Noise => is_preset(b),
    }
}

#[tactic(auto, unfolding(crate::specs::Command::melodic_rule))]
fn melodic_rule(b: u8) -> Result<Rule, Refusal>
    ensures { result ≡ melodic_rule b }
{
    match b {
        0x9f => Ok(Rule::Timbre),
        _ if is_key(b) => Ok(Rule::Note),
        0..=0x7f => Err(Refusal::InvalidNote),
        _ => Err(Refusal::InvalidCommand),
    }
}

#[tactic(auto, unfolding(crate::specs::Command::noise_rule))]
fn noise_rule(b: u8) -> Result<Rule, Refusal>
    ensures { result ≡ noise_rule b }
{
    match b {
        0x9f => Err(Refusal::InvalidCommand),
        _ if is_preset(b) => Ok(Rule::Note),
        _ => Err(Refusal::InvalidNote),
    }
}

// The first rule that fits a byte where a command stands.
#[tactic(auto, unfolding(crate::specs::Command::rule_of))]
pub fn rule_of(kind: Kind, b: u8) -> Result<Rule, Refusal>
    ensures { result ≡ rule_of kind b }
{
    match b {
        0x00 => Ok(Rule::End),
        0x9c => Ok(Rule::Transpose),
        0x9e => Ok(Rule::Window),
        0xff => Ok(Rule::EndLoop),
        0xb0..=0xbf => Ok(Rule::Length(field::low::<4>(b))),
        0xc0..=0xfe => Ok(Rule::BeginLoop(field::low::<6>(b))),
        _ => {
            match kind {
                Kind::Square | Kind::Triangle => melodic_rule(b),
                Kind::Noise => noise_rule(b),
            }
        }
    }
}

// The byte at an offset, which a command needs.
fn needed(bytes: &[u8], at: usize) -> Result<u8, (Refusal, usize)>
    ensures { result ≡ needed bytes.now at Ok }
{
    bytes.get(at).copied().ok_or((Refusal::PastData, at))
}

// The note in the byte after BL, which is a key byte or preset whatever it is.
#[tactic(auto, unfolding(crate::specs::Command::note_after))]
fn note_after(kind: Kind, bytes: &[u8], at: usize, length: u8) -> Decoded
    ensures { result ≡ note_after kind bytes.now at length }
{
    let b = needed(bytes, at)?;
    if is_note(kind, b) {
        Ok((Command::Length(length, b), at + 1))
    } else {
        Err((Refusal::InvalidNote, at))
    }
}

// The two bytes after 9f.
#[tactic(auto, unfolding(crate::specs::Command::timbre_after))]
fn timbre_after(bytes: &[u8], at: usize) -> Decoded
    ensures { result ≡ timbre_after bytes.now at }
{
    let x = needed(bytes, at)?;
    let next = at + 1;
    let c = needed(bytes, next)?;
    Ok((Command::Timbre(x, c), next + 1))
}

// The command at an offset, whose first byte's rule is known.
pub(crate) fn command_by(kind: Kind, bytes: &[u8], at: usize, rule: Rule) -> Decoded
    requires { at < length bytes.now }
    ensures { result ≡ command_by kind bytes.now at (Ok rule) }
{
    let next = at + 1;
    match rule {
        Rule::End => Ok((Command::End, next)),
        Rule::Transpose => {
            let m = needed(bytes, next)?;
            Ok((Command::Transpose(m), next + 1))
        }
        Rule::Window => {
            let t = needed(bytes, next)?;
            Ok((Command::Window(t), next + 1))
        }
        Rule::EndLoop => Ok((Command::EndLoop, next)),
        Rule::Length(l) => note_after(kind, bytes, next, l),
        Rule::BeginLoop(n) => Ok((Command::BeginLoop(n), next)),
        Rule::Timbre => timbre_after(bytes, next),
        Rule::Note => Ok((Command::Note(bytes[at]), next)),
    }
}

// The command at an offset.
#[tactic(auto, unfolding(crate::specs::Command::command_at))]
pub fn command_at(kind: Kind, bytes: &[u8], at: usize) -> Decoded
    ensures { Answers told result (command_at kind bytes.now at) }
{
    let b = needed(bytes, at)?;
    let rule = rule_of(kind, b).map_err(|refusal| (refusal, at))?;
    command_by(kind, bytes, at, rule)
}
