// What stands before a command when its block is read straight.
ghost use Rattle.std.specs.Prelude.{◌≡◌};
ghost use Rattle.mother_check.specs.Reading.{passed};

use mother_format::command::Command;

#[derive(Clone, Copy)]
pub struct Progress {
    // a note or rest, in the block
    pub noted: bool,
    // a length, in the channel's playing order
    pub sized: bool,
}

// Past a command.
pub(crate) fn past(progress: Progress, command: Command) -> Progress
    ensures { result ≡ passed progress command }
{
    match command {
        Command::Length(_, _) => Progress {
            noted: true,
            sized: true,
        },
        Command::Note(_) => Progress {
            noted: true,
            ..progress
        },
        _ => progress,
    }
}
