// A track's header, and what is refused of a bank, its places and a header.
ghost use Rattle.std.specs.Prelude.{◌≡◌, None, take, drop};
ghost use Rattle.engine_base.specs.Address.{offset_of};
ghost use Rattle.metroid_format.specs.Header.{
  tables_fit,
  places_fit,
  header_address,
  header_size,
  window_fits,
  envelope_numbers_fit,
  square_ends,
  squares_end,
  addresses,
  address_fits,
  addresses_fit,
  all_unused,
  header_number,
  header_of,
  voice_of,
  voices_of,
  track_of,
  open_track,
  told_opened,
};
ghost use Rattle.engine_base.specs.Told.{Answers};

use crate::bank::Places;
use crate::command::Kind;
use crate::{bank, envelope};
use engine_base::refusal::Refusal;
use engine_base::{address, bytes};

const HEADER_SIZE: usize = 13;

const LAST_ENVELOPE: u8 = 5;

// A used channel as the header has it, with offsets in the bank.
#[derive(Clone, Copy)]
pub struct Voice {
    pub kind: Kind,
    // ctrl 1 of a square
    pub default: u8,
    pub data: u16,
    pub envelope: Option<u16>,
}

// A header, and the offsets of the tables in the bank.
#[derive(Clone, Copy)]
pub struct Track {
    pub window: u8,
    pub restart: bool,
    // the triangle's, FFFF LLLL
    pub release: u8,
    pub lengths: usize,
    pub periods: usize,
    pub presets: usize,
    // square 1, square 2, triangle, noise
    pub voices: [Option<Voice>; 4],
}

// The tables that all tracks share.
// Casts stay here: they narrow what is known to fit, have no `From`, or `From` would want its equation cited in each proof.
#[tactic(auto, unfolding(crate::specs::Header::tables_fit))]
fn tables_fit(p: Places) -> bool
    ensures { result ≡ tables_fit p }
{
    address::fits(p.note_lengths as usize, bank::LENGTHS_SIZE)
        && address::fits(p.key_periods as usize, bank::PERIODS_SIZE)
        && address::fits(p.noise_presets as usize, bank::PRESETS_SIZE)
        && address::fits(p.envelope_addresses as usize, bank::ENVELOPES_SIZE)
}

#[tactic(auto, unfolding(crate::specs::Header::places_fit))]
fn places_fit(p: Places) -> bool
    ensures { result ≡ places_fit p }
{
    1 <= p.track_count
        && p.track_count <= 255
        && address::fits(p.header_offsets as usize, p.track_count as usize)
        && address::fits(p.header_block as usize, 1)
        && tables_fit(p)
}

#[tactic(auto, unfolding(crate::specs::Header::header_address))]
fn header_address(bank: &[u8], places: Places, track: u32) -> usize
    ensures { result ≡ header_address bank.now places track }
{
    let entry = address::offset_of(places.header_offsets as usize + track as usize);
    places.header_block as usize + bytes::byte(bank, entry) as usize
}

// The header at an address.
fn header_at(bank: &[u8], address: usize) -> &[u8]
    ensures { result.now ≡ take header_size (drop (offset_of address) bank.now) }
{
    bytes::part(bank, address::offset_of(address), HEADER_SIZE)
}

// The top three bits of +0 are 0.
#[tactic(auto, unfolding(crate::specs::Header::window_fits))]
fn window_fits(header: &[u8]) -> bool
    ensures { result ≡ window_fits header.now }
{
    bytes::byte(header, 0) >> 5 == 0
}

#[tactic(auto, unfolding(crate::specs::Header::envelope_numbers_fit))]
fn envelope_numbers_fit(header: &[u8]) -> bool
    ensures { result ≡ envelope_numbers_fit header.now }
{
    bytes::byte(header, 3) <= LAST_ENVELOPE && bytes::byte(header, 4) <= LAST_ENVELOPE
}

// The envelope of a square by its number and the square's address.
#[tactic(auto, unfolding(crate::specs::Header::square_ends))]
fn square_ends(bank: &[u8], table: u32, number: u8, address: u16) -> bool
    ensures { result ≡ square_ends bank.now table number address }
{
    address == 0 || envelope::ends(bank, table, number)
}

#[tactic(auto, unfolding(crate::specs::Header::squares_end))]
fn squares_end(bank: &[u8], table: u32, header: &[u8]) -> bool
    ensures { result ≡ squares_end bank.now table header.now }
{
    square_ends(bank, table, bytes::byte(header, 3), bytes::word(header, 5))
        && square_ends(bank, table, bytes::byte(header, 4), bytes::word(header, 7))
}

// The channels' addresses of a header.
fn addresses_at(header: &[u8]) -> [u16; 4]
    ensures { result ≡ addresses header.now }
{
    [5usize, 7, 9, 11].map(|at| bytes::word(header, at))
}

#[tactic(auto, unfolding(crate::specs::Header::address_fits))]
fn address_fits(address: u16) -> bool
    ensures { result ≡ address_fits address }
{
    address == 0 || address::fits(usize::from(address), 1)
}

#[tactic(auto, unfolding(crate::specs::Header::addresses_fit))]
fn addresses_fit(header: &[u8]) -> bool
    ensures { result ≡ addresses_fit header.now }
{
    addresses_at(header)
        .iter()
        .all(|address| address_fits(*address))
}

#[tactic(auto, unfolding(crate::specs::Header::all_unused))]
fn all_unused(header: &[u8]) -> bool
    ensures { result ≡ all_unused header.now }
{
    addresses_at(header).iter().all(|address| *address == 0)
}

// The first refusal of 5 to 9 that a header shows.
#[tactic(auto, unfolding(crate::specs::Header::header_number))]
fn check_header(bank: &[u8], table: u32, header: &[u8]) -> Result<(), Refusal>
    ensures { result ≡ header_number bank.now table header.now }
{
    if !window_fits(header) {
        return Err(Refusal::WindowTooHigh);
    }
    if !envelope_numbers_fit(header) {
        return Err(Refusal::EnvelopeTooHigh);
    }
    if !squares_end(bank, table, header) {
        return Err(Refusal::NoEnvelopeEnd);
    }
    if !addresses_fit(header) {
        return Err(Refusal::ChannelOutside);
    }
    if all_unused(header) {
        return Err(Refusal::NoChannel);
    }
    Ok(())
}

fn offset_word(address: u16) -> u16
    ensures { result ≡ offset_of address }
{
    address::offset_of(address as usize) as u16
}

// A channel by its address, its envelope number (0 for none) and its default ctrl 1 byte.
#[tactic(auto, unfolding(crate::specs::Header::voice_of))]
fn voice_of(
    bank: &[u8],
    table: u32,
    kind: Kind,
    address: u16,
    number: u8,
    default: u8,
) -> Option<Voice>
    ensures { result ≡ voice_of bank.now table kind address number default }
{
    if address == 0 {
        return None;
    }
    let envelope = if number == 0 {
        None
    } else {
        Some(offset_word(envelope::address_of(bank, table, number)))
    };
    Some(Voice {
        kind,
        default,
        data: offset_word(address),
        envelope,
    })
}

#[tactic(auto, unfolding(crate::specs::Header::voices_of))]
fn voices_of(bank: &[u8], places: Places, header: &[u8]) -> [Option<Voice>; 4]
    ensures { result ≡ voices_of bank.now places header.now }
{
    let table = places.envelope_addresses;
    let square1 = voice_of(
        bank,
        table,
        Kind::Melodic,
        bytes::word(header, 5),
        bytes::byte(header, 3),
        places.default1,
    );
    let square2 = voice_of(
        bank,
        table,
        Kind::Melodic,
        bytes::word(header, 7),
        bytes::byte(header, 4),
        places.default2,
    );
    let triangle = voice_of(bank, table, Kind::Melodic, bytes::word(header, 9), 0, 0);
    let noise = voice_of(bank, table, Kind::Noise, bytes::word(header, 11), 0, 0);
    [square1, square2, triangle, noise]
}

#[tactic(auto, unfolding(crate::specs::Header::track_of))]
fn track_of(bank: &[u8], places: Places, header: &[u8]) -> Track
    ensures { result ≡ track_of bank.now places header.now }
{
    let voices = voices_of(bank, places, header);
    Track {
        window: bytes::byte(header, 0),
        restart: bytes::byte(header, 1) != 0,
        release: bytes::byte(header, 2),
        lengths: address::offset_of(places.note_lengths as usize),
        periods: address::offset_of(places.key_periods as usize),
        presets: address::offset_of(places.noise_presets as usize),
        voices,
    }
}

// A track of a bank, or the first refusal of 1 to 9.
// Bank, places and track are what each call is asked about, as the C interface has them: a struct would be built to be taken apart.
#[tactic(auto, unfolding(crate::specs::Header::open_track, crate::specs::Header::number_of, crate::specs::Header::header_of))]
pub fn open(bank: &[u8], places: Places, track: u32) -> Result<Track, Refusal>
    ensures { Answers told_opened result (open_track bank.now places track) }
{
    if bank.len() != bank::BANK_SIZE {
        return Err(Refusal::WrongSize);
    }
    if !places_fit(places) {
        return Err(Refusal::TableOutside);
    }
    if places.track_count <= track {
        return Err(Refusal::NoTrack);
    }
    let address = header_address(bank, places, track);
    if !address::fits(address, HEADER_SIZE) {
        return Err(Refusal::HeaderOutside);
    }
    let header = header_at(bank, address);
    check_header(bank, places.envelope_addresses, header)?;
    Ok(track_of(bank, places, header))
}
