// Whether a track can be played through, found from its bytes: no frame is run.
ghost use Rattle.std.specs.Prelude.{◌≡◌};
ghost use Rattle.mother_check.specs.Verdict.{verdict_of};
ghost use Rattle.mother_check.specs.Run.{Judged};

use crate::faults::Fault;
use crate::{faults, settings};
use engine_base::refusal::Refusal;
use mother_format::bank::{Banks, Places};
use mother_format::header;

// No Result of the other cases: the definitions and laws go by all of them side by side.
#[derive(Clone, Copy)]
pub enum Verdict {
    Pass,
    // 1 to 4, 8, 9 and 19, of banks, places, track number and header
    Refused(Refusal),
    // a playlist or a block
    Fault(Fault),
}

// Two slices in place of `Banks`: of a slice parameter a proof has that its elements are bytes (below 256), of a struct's field not.
fn verdict_of(bank8: &[u8], banka: &[u8], places: Places, track: u32) -> Verdict
    ensures { result ≡ verdict_of bank8.now banka.now places track }
{
    let banks = Banks { bank8, banka };
    let found = match header::open(banks, places, track) {
        Ok(found) => found,
        Err(refusal) => return Verdict::Refused(refusal),
    };
    let extremes = settings::extremes_of(banks, places, found);
    match faults::track_first(banks, places, found.voices, extremes) {
        Ok(()) => Verdict::Pass,
        Err(fault) => Verdict::Fault(fault),
    }
}

#[tactic(auto, using(crate::proofs::verdict::Laws::judged))]
pub fn check(banks: Banks, places: Places, track: u32) -> Verdict
    ensures { Judged banks.entry.bank8.now banks.entry.banka.now places track result }
{
    verdict_of(banks.bank8, banks.banka, places, track)
}
