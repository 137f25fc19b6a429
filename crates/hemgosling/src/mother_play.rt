// Start and frame of the later engine, for a host that lends its one record.
ghost use Rattle.std.specs.Prelude.{◌≡◌};
ghost use Rattle.std.proofs.lemmas.List.Edits.{sets};
ghost use Rattle.mother_player.specs.Frame.{told_framed};
ghost use Rattle.hemgosling.specs.MotherPlaces.{mother_places_of};
ghost use Rattle.hemgosling.specs.Tell.{Placed};
ghost use Rattle.hemgosling.specs.MotherPlay.{MotherStarts, MotherSteps};

use crate::{mother_places, tell};
use engine_base::refusal::Refusal;
use engine_base::{answer, buffer};
use mother_format::bank::Banks;
use mother_player::event;
use mother_player::frame::Framed;
use mother_player::record::Player;

// Where the words of the first channel stand.
const EVENTS: usize = 8;

// The kind of the answer, the commands read, the place and the events.
// Like the old engine's, over types and definitions of its own: a trait for both would be longer than the two.
fn put_answer(out: &mut [u32], framed: Framed)
    requires { Placed framed.answer }
    ensures { out.new ≡ sets out.old 0 (told_framed framed).values }
{
    tell::put_head(out, framed.answer, framed.counts);
    buffer::fill(out, EVENTS, framed.events.map(event::told).as_flattened());
}

#[unsafe(no_mangle)]
pub extern "C" fn hem_mother_start(
    player: &mut Player,
    bank8: &[u8],
    banka: &[u8],
    header_offsets: u32,
    header_block: u32,
    note_lengths: u32,
    key_periods: u32,
    noise_presets: u32,
    envelope_addresses: u32,
    track_count: u32,
    track: u32,
) -> u32
    ensures { MotherStarts bank8.now banka.now
        (mother_places_of header_offsets header_block note_lengths key_periods noise_presets envelope_addresses track_count)
        track result player.new }
{
    let places = mother_places::places_of(
        header_offsets,
        header_block,
        note_lengths,
        key_periods,
        noise_presets,
        envelope_addresses,
        track_count,
    );
    let started = Player::start(Banks { bank8, banka }, places, track);
    *player = started.player;
    started.refusal.map_or(0, Refusal::number)
}

#[tactic(auto, using(crate::proofs::tell::Within::mother_frame_placed))]
#[unsafe(no_mangle)]
pub extern "C" fn hem_mother_frame<'a>(
    player: &mut Player,
    bank8: &'a [u8],
    banka: &'a [u8],
    header_offsets: u32,
    header_block: u32,
    note_lengths: u32,
    key_periods: u32,
    noise_presets: u32,
    envelope_addresses: u32,
    track_count: u32,
    track: u32,
    answer: &mut [u32],
) -> u32
    ensures { MotherSteps bank8.now banka.now
        (mother_places_of header_offsets header_block note_lengths key_periods noise_presets envelope_addresses track_count)
        track player.old answer.old result player.new answer.new }
{
    let places = mother_places::places_of(
        header_offsets,
        header_block,
        note_lengths,
        key_periods,
        noise_presets,
        envelope_addresses,
        track_count,
    );
    let framed = player.frame(Banks { bank8, banka }, places, track);
    *player = framed.player;
    put_answer(answer, framed);
    answer::number_of(framed.answer)
}
