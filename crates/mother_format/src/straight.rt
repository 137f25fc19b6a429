// A block read straight, which runs no loop.
ghost use Rattle.engine_base.specs.Told.{Answers};
ghost use Rattle.std.specs.Prelude.{◌≡◌};
ghost use Rattle.mother_format.specs.Straight.{is_end, notes_of, reading_of, straight, told_reading};

use crate::command;
use crate::command::{Command, Kind};
use engine_base::refusal::Refusal;

// Where reading stops: the offset of the 00, or 10, 11 or 15 and the offset of the byte.
pub type Finish = Result<usize, (Refusal, usize)>;

// The notes and rests up to there.
#[derive(Clone, Copy)]
pub struct Reading {
    pub notes: usize,
    pub finish: Finish,
}

// Whether a command ends its block.
pub fn is_end(command: Command) -> bool
    ensures { result ≡ is_end command }
{
    matches!(command, Command::End)
}

// 1 for a note or rest, else 0.
fn notes_of(command: Command) -> usize
    ensures { result ≡ notes_of command }
{
    match command {
        Command::Length(_, _) | Command::Note(_) => 1,
        _ => 0,
    }
}

// The commands of a block up to where reading stops.
// The check goes over a block by the same steps twice more, each with another body and stop: one loop for all takes closures that answer when to stop, and is no plainer.
pub fn read(kind: Kind, bytes: &[u8]) -> Reading
    ensures { Answers told_reading result (reading_of (straight kind bytes.now)) }
{
    let mut at = 0;
    let mut notes = 0;
    for _ in 0..bytes.len() {
        match command::command_at(kind, bytes, at) {
            Err(fault) => {
                return Reading {
                    notes,
                    finish: Err(fault),
                };
            }
            Ok((command, next)) => {
                if is_end(command) {
                    return Reading {
                        notes,
                        finish: Ok(at),
                    };
                }
                notes += notes_of(command);
                at = next;
            }
        }
    }
    Reading {
        notes,
        finish: Err((Refusal::PastData, at)),
    }
}
