// The later engine's check, for a host.
ghost use Rattle.mother_check.specs.Verdict.{told_verdict};
ghost use Rattle.hemgosling.specs.MotherPlaces.{mother_places_of};
ghost use Rattle.hemgosling.specs.Tell.{Tells};
ghost use Rattle.hemgosling.specs.MotherJudge.{MotherJudges};

use crate::mother_places;
use crate::tell::tell;
use mother_check::verdict;
use mother_check::verdict::Verdict;
use mother_format::bank::Banks;

// Like the old engine's, over types and definitions of its own: a trait for both would be longer than the two.
fn tell_verdict(verdict: Verdict, out: &mut [u32]) -> u32
    ensures { Tells (told_verdict verdict) out.old result out.new }
{
    match verdict {
        Verdict::Pass => 0,
        Verdict::Refused(refusal) => refusal.number(),
        Verdict::Fault(fault) => {
            let offset = u32::from(fault.at);
            let values = [fault.channel, offset, fault.place, fault.address];
            tell(fault.refusal.number(), &values, out)
        }
    }
}

#[tactic(auto, using(mother_check::proofs::verdict::Place::verdict_within, mother_check::proofs::verdict::Place::passes))]
#[unsafe(no_mangle)]
pub extern "C" fn hem_mother_check<'a>(
    bank8: &'a [u8],
    banka: &'a [u8],
    header_offsets: u32,
    header_block: u32,
    note_lengths: u32,
    key_periods: u32,
    noise_presets: u32,
    envelope_addresses: u32,
    track_count: u32,
    track: u32,
    verdict: &mut [u32],
) -> u32
    ensures { MotherJudges bank8.now banka.now
        (mother_places_of header_offsets header_block note_lengths key_periods noise_presets envelope_addresses track_count)
        track verdict.old result verdict.new }
{
    let places = mother_places::places_of(
        header_offsets,
        header_block,
        note_lengths,
        key_periods,
        noise_presets,
        envelope_addresses,
        track_count,
    );
    let banks = Banks { bank8, banka };
    tell_verdict(verdict::check(banks, places, track), verdict)
}
