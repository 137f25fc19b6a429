// Where a track ends or is refused, found from its bytes: no frame is run.
ghost use Rattle.std.specs.Prelude.{◌≡◌};
ghost use Rattle.metroid_check.specs.Verdict.{verdict_by};
ghost use Rattle.metroid_check.specs.Demand3.{Foreseen};

use engine_base::refusal::Refusal;
use metroid_format::bank::Places;
use metroid_format::timeline::Soonest;
use metroid_format::{header, timeline};

// No Result of the other cases: the definitions and laws go by all of them side by side.
#[derive(Clone, Copy)]
pub enum Verdict {
    // the frame of the first end, and the channel that meets it
    Pass(u32, usize),
    // 1 to 9
    Refused(Refusal),
    // 10 to 15, the channel, the offset of the byte, the frame and the byte's address
    Fault(Refusal, usize, u16, u32, u32),
}

fn verdict_of(soonest: Option<Soonest>) -> Verdict
    ensures { result ≡ verdict_by soonest }
{
    let Some(stop) = soonest else {
        return Verdict::Refused(Refusal::NoChannel);
    };
    match stop.finish {
        Ok(()) => Verdict::Pass(stop.frame, stop.channel),
        Err((refusal, at, address)) => {
            Verdict::Fault(refusal, stop.channel, at, stop.frame, address)
        }
    }
}

pub fn check(bank: &[u8], places: Places, track: u32) -> Verdict
    ensures { Foreseen bank.now places track result }
{
    match header::open(bank, places, track) {
        Ok(track) => verdict_of(timeline::soonest_of(bank, track)),
        Err(refusal) => Verdict::Refused(refusal),
    }
}
