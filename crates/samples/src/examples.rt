// The published examples of document 001, and the most commands in a frame. Each bank has one track.
use crate::{print, tables};
use engine_base::release;
use metroid_check::verdict;
use metroid_check::verdict::Verdict;
use metroid_format::bank::Places;
use metroid_format::header::Track;
use metroid_format::{bank, header};
use metroid_player::event::Sound;
use metroid_player::frame::Framed;
use metroid_player::record::Player;

const HEADER: usize = 0xbd31;

// Where the channel data is put.
const DATA: usize = 0x9000;

fn new_line() {
    io::write_all(1, b"\n");
}

fn show_verdict(bytes: &[u8]) {
    let places = bank::published_places(0, 0);
    print::verdict(verdict::check(bytes, places, 0));
}

// Offsets in the bank of both envelopes, then of the four channels, 0 for none.
fn show_offsets(track: Track) {
    for square in &track.voices[..2] {
        let envelope = square.and_then(|voice| voice.envelope);
        print::hex(u64::from(envelope.unwrap_or(0)), 4);
    }
    for voice in &track.voices {
        let data = voice.map(|voice| voice.data);
        print::hex(u64::from(data.unwrap_or(0)), 4);
    }
}

// The window, whether it restarts, the release byte, and the offsets.
fn show_track(track: Track) {
    print::hex(u64::from(track.window), 2);
    print::number(u64::from(track.restart));
    print::hex(u64::from(track.release), 2);
    show_offsets(track);
    new_line();
}

pub(crate) fn header() {
    let mut bytes = [0; bank::BANK_SIZE];
    tables::put_tables(&mut bytes);
    tables::put(
        &mut bytes,
        HEADER,
        b"\x0b\xff\x00\x02\x03\x00\xb0\x57\xb0\xc1\xb0\x2b\xb1",
    );
    if let Ok(track) = header::open(&bytes, bank::published_places(0, 0), 0) {
        show_track(track);
    }
}

fn show_frames(verdict: Verdict) {
    match verdict {
        Verdict::Pass(frames, _) => print::number(u64::from(frames)),
        _ => print::verdict(verdict),
    }
}

// A bank whose track is a triangle's.
fn put_triangle(bytes: &mut [u8], window: u8, release: u8, data: &[u8]) {
    let header = [window, 0, release, 0, 0, 0, 0, 0, 0, 0x00, 0x90, 0, 0];
    tables::put_tables(bytes);
    tables::put(bytes, HEADER, &header);
    tables::put(bytes, DATA, data);
}

// The frames of a note of length l.
fn show_length(window: u8, l: u8) {
    let mut bytes = [0; bank::BANK_SIZE];
    let data = [0xb0 | l, 0x2a, 0x00];
    put_triangle(&mut bytes, window, 0, &data);
    show_frames(verdict::check(&bytes, bank::published_places(0, 0), 0));
}

fn show_window(window: u8) {
    for l in 0..16 {
        show_length(window, l);
    }
    new_line();
}

// The lengths of the three tempos.
pub(crate) fn tempos() {
    show_window(0x00);
    show_window(0x0b);
    show_window(0x17);
}

fn show_note(frame: u32, key: u8, release: u32) {
    print::number(u64::from(frame));
    print::hex(u64::from(key), 2);
    print::number(u64::from(release));
    new_line();
}

fn show_rest(frame: u32) {
    print::number(u64::from(frame));
    io::write_all(1, b" rest\n");
}

// The frame, the key and the release in quarter-frames.
fn show_sound(frame: u32, sound: Sound) {
    match sound {
        Sound::SquareRest(_) | Sound::TriangleRest(_) | Sound::NoiseRest => show_rest(frame),
        Sound::Triangle(key, _, release) => show_note(frame, key, release::quarter_frames(release)),
        _ => new_line(),
    }
}

fn ctrl1_of(sound: Sound) -> Option<u8> {
    match sound {
        Sound::SquareRest(ctrl1) | Sound::Square(_, _, ctrl1) => Some(ctrl1),
        _ => None,
    }
}

// Shows frames first to end of a run, each with its number.
fn show_run<F: FnMut(u32, Framed)>(bytes: &[u8], places: Places, first: u32, end: u32, mut show: F)
    requires { F.IsAlwaysCallable show }
{
    let mut player = Player::start(bytes, places, 0).player;
    for frame in 0..end {
        let framed = player.frame(bytes, places, 0);
        player = framed.player;
        if first <= frame {
            show(frame, framed);
        }
    }
}

// The notes and rests of the triangle where they begin.
fn show_beginnings(bytes: &[u8], first: u32, end: u32) {
    let places = bank::published_places(0, 0);
    show_run(bytes, places, first, end, |frame, framed| {
        let triangle = framed.events[2];
        if triangle.began {
            show_sound(frame, triangle.sound);
        }
    });
}

pub(crate) fn triangle_at_128() {
    let mut bytes = [0; bank::BANK_SIZE];
    put_triangle(
        &mut bytes,
        0x17,
        0,
        b"\xca\xb0\x2a\x2a\x2a\x02\x02\xff\xb2\x34\x34\x00",
    );
    show_verdict(&bytes);
    show_beginnings(&bytes, 0, 42);
    show_beginnings(&bytes, 343, 406);
}

pub(crate) fn triangle_at_150() {
    let mut bytes = [0; bank::BANK_SIZE];
    put_triangle(&mut bytes, 0x0b, 5, b"\xb0\x38\x3a\x00");
    show_verdict(&bytes);
    show_beginnings(&bytes, 0, 12);
}

// As printed, with C0 for B0: a begin, and no length before the note.
pub(crate) fn triangle_as_printed() {
    let mut bytes = [0; bank::BANK_SIZE];
    put_triangle(&mut bytes, 0x0b, 5, b"\xc0\x38\x3a\x00");
    show_verdict(&bytes);
}

// A note of 96 frames with an envelope and a default ctrl 1 byte.
fn show_envelope(number: u8, default: u8, end: u32) {
    let mut bytes = [0; bank::BANK_SIZE];
    let header = [0x0b, 0, 0, number, 0, 0x00, 0x90, 0, 0, 0, 0, 0, 0];
    tables::put_tables(&mut bytes);
    tables::put(&mut bytes, HEADER, &header);
    tables::put(&mut bytes, DATA, b"\xb4\x18\x00");
    let places = bank::published_places(default, 0);
    show_run(&bytes, places, 0, end, |_, framed| {
        let square1 = framed.events[0];
        print::hex(u64::from(ctrl1_of(square1.sound).unwrap_or(0)), 2);
    });
    new_line();
}

// The envelopes with defaults of the track table, to two frames past their end.
pub(crate) fn envelopes() {
    show_envelope(1, 0xb3, 12);
    show_envelope(2, 0xf4, 11);
    show_envelope(3, 0x34, 12);
    show_envelope(4, 0x34, 42);
    show_envelope(5, 0xf6, 47);
    show_envelope(0, 0x92, 2);
}

fn put_loops(bytes: &mut [u8]) {
    for i in 0..128 {
        tables::put(bytes, DATA + 2 * i, b"\xc0\xff");
    }
}

fn show_first_frame(bytes: &[u8]) {
    let places = bank::published_places(0, 0);
    let player = Player::start(bytes, places, 0).player;
    print::answer(player.frame(bytes, places, 0));
}

// 128 times C0 FF in square 1.
pub(crate) fn loops() {
    let mut bytes = [0; bank::BANK_SIZE];
    tables::put_tables(&mut bytes);
    tables::put(
        &mut bytes,
        HEADER,
        b"\x0b\x00\x00\x00\x00\x00\x90\x00\x00\x00\x00\x00\x00",
    );
    put_loops(&mut bytes);
    show_verdict(&bytes);
    show_first_frame(&bytes);
}
