// Start and frame, for a host that lends its one record.
ghost use Rattle.std.specs.Prelude.{◌≡◌};
ghost use Rattle.std.proofs.lemmas.List.Edits.{sets};
ghost use Rattle.metroid_player.specs.Frame.{told_framed};
ghost use Rattle.hemgosling.specs.Places.{places_of};
ghost use Rattle.hemgosling.specs.Tell.{Placed};
ghost use Rattle.hemgosling.specs.Play.{Starts, Steps};

use crate::{places, tell};
use engine_base::refusal::Refusal;
use engine_base::{answer, buffer};
use metroid_player::event;
use metroid_player::frame::Framed;
use metroid_player::record::Player;

// Where the frames left stand.
const LEFT: usize = 8;

// Where the words of the first channel stand.
const EVENTS: usize = 9;

// The kind of the answer, the commands read, the place, the frames left and the events.
fn put_answer(out: &mut [u32], framed: Framed)
    requires { Placed framed.answer }
    ensures { out.new ≡ sets out.old 0 (told_framed framed).values }
{
    tell::put_head(out, framed.answer, framed.counts);
    buffer::fill(out, LEFT, &[framed.frames_left]);
    buffer::fill(out, EVENTS, framed.events.map(event::told).as_flattened());
}

#[tactic(auto, using(metroid_check::proofs::Countdown::countdown))]
#[unsafe(no_mangle)]
pub extern "C" fn hem_start(
    player: &mut Player,
    bank: &[u8],
    header_offsets: u32,
    header_block: u32,
    note_lengths: u32,
    key_periods: u32,
    noise_presets: u32,
    envelope_addresses: u32,
    track_count: u32,
    track: u32,
    default1: u8,
    default2: u8,
) -> u32
    ensures { Starts bank.now
        (places_of header_offsets header_block note_lengths key_periods noise_presets envelope_addresses track_count default1 default2)
        track result player.new }
{
    let places = places::places_of(
        header_offsets,
        header_block,
        note_lengths,
        key_periods,
        noise_presets,
        envelope_addresses,
        track_count,
        default1,
        default2,
    );
    let started = Player::start(bank, places, track);
    *player = started.player;
    started.refusal.map_or(0, Refusal::number)
}

#[tactic(auto, using(crate::proofs::tell::Within::frame_placed))]
#[unsafe(no_mangle)]
pub extern "C" fn hem_frame(
    player: &mut Player,
    bank: &[u8],
    header_offsets: u32,
    header_block: u32,
    note_lengths: u32,
    key_periods: u32,
    noise_presets: u32,
    envelope_addresses: u32,
    track_count: u32,
    track: u32,
    default1: u8,
    default2: u8,
    answer: &mut [u32],
) -> u32
    ensures { Steps bank.now
        (places_of header_offsets header_block note_lengths key_periods noise_presets envelope_addresses track_count default1 default2)
        track player.old answer.old result player.new answer.new }
{
    let places = places::places_of(
        header_offsets,
        header_block,
        note_lengths,
        key_periods,
        noise_presets,
        envelope_addresses,
        track_count,
        default1,
        default2,
    );
    let framed = player.frame(bank, places, track);
    *player = framed.player;
    put_answer(answer, framed);
    answer::number_of(framed.answer)
}
