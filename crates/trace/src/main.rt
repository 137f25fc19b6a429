// Plays the stored banks: for each its name, then for each track a line with its number and verdict, one with the number that
// start answers, and one for each frame's answer (metroid_text::answer).
#![tactic(auto)]

ghost use Rattle.std.specs.Prelude.{◌≤◌, ◌≡◌, length, IfOk};
ghost use Rattle.metroid_text.specs.Verdict.{verdict_line};
ghost use Rattle.metroid_text.specs.Answer.{answer_line};

use engine_base::refusal::Refusal;
use metroid_check::verdict;
use metroid_check::verdict::Verdict;
use metroid_format::bank;
use metroid_format::bank::Places;
use metroid_player::frame::Framed;
use metroid_player::record::Player;
use metroid_text::line::LINE_MOST;
use std::fs::File;
use std::io::Read;

const TRACKS: u32 = 6;

const FRAMES: u32 = 10;

// The line of a track's verdict, in a lent buffer.
// Like cuecheck's, with the track's number in front of the verdict.
fn line_of<'a>(track: u32, verdict: Verdict, out: &'a mut [u8; LINE_MOST]) -> &'a [u8]
    ensures { result.now ≡ verdict_line track verdict }
{
    let n = metroid_text::verdict::line(track, verdict, out);
    &out[..n]
}

// The line of a frame's answer, in a lent buffer.
fn answer_of<'a>(framed: Framed, out: &'a mut [u8; LINE_MOST]) -> &'a [u8]
    ensures { result.now ≡ answer_line framed }
{
    let n = metroid_text::answer::line(framed, out);
    &out[..n]
}

fn print_start(refusal: Option<Refusal>) {
    let number = refusal.map_or(0, |refusal| refusal.number());
    io::write_all(1, b"start ");
    io::print_decimal(1, u64::from(number));
    io::write_all(1, b"\n");
}

fn show_frames(bytes: &[u8], places: Places, track: u32, mut player: Player) {
    for _ in 0..FRAMES {
        let framed = player.frame(bytes, places, track);
        player = framed.player;
        io::write_all(1, answer_of(framed, &mut [0; LINE_MOST]));
    }
}

fn show_track(bytes: &[u8], track: u32) {
    let places = bank::published_places(0xb3, 0);
    let verdict = verdict::check(bytes, places, track);
    io::write_all(1, line_of(track, verdict, &mut [0; LINE_MOST]));
    let started = Player::start(bytes, places, track);
    print_start(started.refusal);
    show_frames(bytes, places, track, started.player);
}

fn show_tracks(bytes: &[u8]) {
    for track in 0..TRACKS {
        show_track(bytes, track);
    }
}

// Fills the buffer as far as the file has bytes; how many it put there. A `while`, since a read says how far it came.
fn read_full(file: &mut File, out: &mut [u8]) -> std::io::Result<usize>
    ensures { IfOk result (λ n. n ≤ length out.new) }
{
    let mut done = 0;
    while done < out.len() {
        let n = file.read(&mut out[done..])?;
        if n == 0 {
            break;
        }
        done += n;
    }
    Ok(done)
}

fn show_bank(rt: &HostRuntime, name: &str) -> std::io::Result<()> {
    io::write_all(1, name.as_bytes());
    io::write_all(1, b"\n");
    let mut bytes = [0; bank::BANK_SIZE];
    let mut file = File::open(rt, name)?;
    let n = read_full(&mut file, &mut bytes)?;
    show_tracks(&bytes[..n]);
    Ok(())
}

fn main(rt: HostRuntime) -> std::io::Result<()> {
    for name in ["plays", "faults", "headers", "silent"] {
        show_bank(&rt, name)?;
    }
    Ok(())
}
