// The first fault of a track: channel by channel, place by place, command by command.
ghost use Rattle.std.specs.Prelude.{◌≡◌};
ghost use Rattle.mother_check.specs.Faults.{fault_at, end_fault, sized_after, first_of};
ghost use Rattle.mother_check.specs.First.{block_first, read_of, unless_found, channel_first, voices_first};

use crate::command_faults::Visit;
use crate::reading::Progress;
use crate::settings::Extremes;
use crate::walk::Word;
use crate::{command_faults, reading, walk};
use engine_base::refusal::Refusal;
use mother_format::bank::{Banks, Places};
use mother_format::channel::Source;
use mother_format::header::Voice;
use mother_format::{command, straight};

// Where a fault stands: the channel, and the playlist's place.
#[derive(Clone, Copy)]
pub struct Site {
    pub channel: u32,
    pub place: u32,
}

#[derive(Clone, Copy)]
pub struct Fault {
    pub refusal: Refusal,
    pub channel: u32,
    pub place: u32,
    // the offset in the block, 0 of 20
    pub at: u16,
    // of 10 to 15
    pub address: u32,
}

pub(crate) fn fault_at(site: Site, refusal: Refusal, at: u16, address: u32) -> Fault
    ensures { result ≡ fault_at site refusal at address }
{
    Fault {
        refusal,
        channel: site.channel,
        place: site.place,
        at,
        address,
    }
}

// A block that ends without a note or rest, at its 00.
#[tactic(auto, unfolding(crate::specs::Faults::first_of))]
fn end_fault(site: Site, noted: bool, at: u16) -> Result<(), Fault>
    ensures { result ≡ unless_found (first_of (end_fault site noted at)) }
{
    if noted {
        Ok(())
    } else {
        Err(fault_at(site, Refusal::NoNote, at, 0))
    }
}

// A block read straight: its first fault, or whether a length stands before its end in playing order.
// Casts stay here: they narrow what is known to fit, have no `From`, or `From` would want its equation cited in each proof.
#[tactic(auto, using(crate::proofs::faults::Laws::midblock_none, crate::proofs::faults::Laws::offset_fits, crate::proofs::faults::Laws::block_found, crate::proofs::faults::Laws::block_past))]
fn block_read(visit: Visit, sized: bool) -> Result<bool, Fault>
    ensures { result ≡ read_of
        (block_first visit.entry.source.banks.bank8.now visit.entry.source.banks.banka.now visit.entry.source.places
        visit.entry.source.kind visit.entry.source.start visit.entry.site visit.entry.extremes sized)
        (sized_after visit.entry.source.banks.bank8.now visit.entry.source.banks.banka.now visit.entry.source.kind visit.entry.source.start sized) }
{
    let data = visit.source.block();
    let mut progress = Progress {
        noted: false,
        sized,
    };
    let mut at = 0;
    for _ in 0..data.len() {
        command_faults::first_tried(&visit, progress.sized, at as u16)?;
        let Ok((command, next)) = command::command_at(visit.source.kind, data, at) else {
            return Ok(progress.sized);
        };
        if straight::is_end(command) {
            end_fault(visit.site, progress.noted, at as u16)?;
            return Ok(progress.sized);
        }
        progress = reading::past(progress, command);
        at = next;
    }
    command_faults::first_tried(&visit, progress.sized, at as u16)?;
    Ok(progress.sized)
}

// A channel's playlist in playing order, to its first fault.
#[tactic(auto, using(crate::proofs::faults::Lists::list_past, crate::proofs::faults::Lists::list_done, crate::proofs::faults::Lists::list_bad))]
fn channel_first(
    banks: Banks,
    places: Places,
    voice: Voice,
    channel: u32,
    extremes: Extremes,
) -> Result<(), Fault>
    ensures { result ≡ unless_found (channel_first banks.entry.bank8.now banks.entry.banka.now places voice.kind voice.list channel extremes) }
{
    let mut marks = [false; walk::ADDRESSES];
    let mut spot = walk::first(voice.list);
    let mut sized = false;
    for n in 0..walk::MOST_WORDS {
        let site = Site { channel, place: n };
        match walk::word_at(banks, spot, &mut marks) {
            Word::Done => return Ok(()),
            Word::Bad => return Err(fault_at(site, Refusal::BadPlaylist, 0, 0)),
            Word::Goto(next) => spot = next,
            Word::Block(start, next) => {
                let source = Source {
                    banks,
                    places,
                    kind: voice.kind,
                    start,
                };
                let visit = Visit {
                    source,
                    site,
                    extremes,
                };
                sized = block_read(visit, sized)?;
                spot = next;
            }
        }
    }
    Ok(())
}

// The channels in order, to the first fault.
#[tactic(auto, using(crate::proofs::faults::Lists::track_past, crate::proofs::faults::Lists::track_unused, crate::proofs::faults::Lists::track_found, crate::proofs::faults::Lists::track_clean))]
pub(crate) fn track_first(
    banks: Banks,
    places: Places,
    voices: [Option<Voice>; 4],
    extremes: Extremes,
) -> Result<(), Fault>
    ensures { result ≡ unless_found (voices_first banks.entry.bank8.now banks.entry.banka.now places 0 extremes voices) }
{
    for (i, voice) in voices.iter().enumerate() {
        let Some(voice) = *voice else {
            continue;
        };
        channel_first(banks, places, voice, i as u32, extremes)?;
    }
    Ok(())
}
