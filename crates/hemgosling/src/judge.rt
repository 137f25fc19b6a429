// The check, for a host.
ghost use Rattle.std.specs.Prelude.{ℕ};
ghost use Rattle.metroid_check.specs.Verdict.{told_verdict, VerdictWithin};
ghost use Rattle.hemgosling.specs.Places.{places_of};
ghost use Rattle.hemgosling.specs.Tell.{Tells};
ghost use Rattle.hemgosling.specs.Judge.{Judges};

use crate::places;
use crate::tell::tell;
use metroid_check::verdict;
use metroid_check::verdict::Verdict;

// Casts stay here: they narrow what is known to fit, have no `From`, or `From` would want its equation cited in each proof.
fn tell_verdict(verdict: Verdict, out: &mut [u32]) -> u32
    requires { (start : ℕ → ℕ) × VerdictWithin start verdict }
    ensures { Tells (told_verdict verdict) out.old result out.new }
{
    match verdict {
        Verdict::Pass(frame, channel) => tell(0, &[frame, channel as u32], out),
        Verdict::Refused(refusal) => refusal.number(),
        Verdict::Fault(refusal, channel, at, frame, address) => {
            let values = [channel as u32, u32::from(at), frame, address];
            tell(refusal.number(), &values, out)
        }
    }
}

#[unsafe(no_mangle)]
pub extern "C" fn hem_check(
    bank: &[u8],
    header_offsets: u32,
    header_block: u32,
    note_lengths: u32,
    key_periods: u32,
    noise_presets: u32,
    envelope_addresses: u32,
    track_count: u32,
    track: u32,
    default1: u8,
    default2: u8,
    verdict: &mut [u32],
) -> u32
    ensures { Judges bank.now
        (places_of header_offsets header_block note_lengths key_periods noise_presets envelope_addresses track_count default1 default2)
        track verdict.old result verdict.new }
{
    let places = places::places_of(
        header_offsets,
        header_block,
        note_lengths,
        key_periods,
        noise_presets,
        envelope_addresses,
        track_count,
        default1,
        default2,
    );
    tell_verdict(verdict::check(bank, places, track), verdict)
}
