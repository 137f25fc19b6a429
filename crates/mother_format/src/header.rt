// A track's header, and what is refused of banks, their places and a header.
ghost use Rattle.std.specs.Prelude.{ℕ, ◌≡◌, List};
ghost use Rattle.engine_base.specs.Told.{Answers};
ghost use Rattle.mother_format.specs.Bank.{bytes_of};
ghost use Rattle.mother_format.specs.Header.{
  places_fit,
  header_address,
  places_number,
  addresses_at,
  is_unused,
  address_fits,
  addresses_fit,
  all_unused,
  header_number,
  voice_of,
  voices_of,
  track_of,
  open_track,
  told_opened,
};

use crate::bank::{Banks, Places};
use crate::command::Kind;
use crate::{bank, transpose};
use engine_base::address;
use engine_base::refusal::Refusal;

const HEADER_SIZE: usize = 10;

// A used channel as the header has it.
#[derive(Clone, Copy)]
pub struct Voice {
    pub kind: Kind,
    // the address of its playlist
    pub list: u16,
}

#[derive(Clone, Copy)]
pub struct Track {
    // nmmm mmmm
    pub transpose: u8,
    pub window: u8,
    // square 1, square 2, triangle, noise, as far as they are used
    pub voices: [Option<Voice>; 4],
}

// Casts stay here: they narrow what is known to fit, have no `From`, or `From` would want its equation cited in each proof.
#[tactic(auto, unfolding(crate::specs::Header::places_fit))]
fn places_fit(p: Places) -> bool
    ensures { result ≡ places_fit p }
{
    let addresses = [
        p.header_offsets as usize,
        p.header_block as usize,
        p.note_lengths as usize,
        p.key_periods as usize,
        p.noise_presets as usize,
        p.envelope_addresses as usize,
    ];
    let sizes = [
        p.track_count as usize,
        1,
        bank::LENGTHS_SIZE,
        bank::PERIODS_SIZE,
        bank::PRESETS_SIZE,
        bank::ENVELOPES_SIZE,
    ];
    (1..=255).contains(&p.track_count) && address::all_fit(&addresses, &sizes)
}

#[tactic(auto, unfolding(crate::specs::Header::header_address))]
fn header_address(banks: Banks, places: Places, track: u32) -> usize
    ensures { result ≡ header_address (bytes_of banks.entry) places track }
{
    let entry = address::offset_of(places.header_offsets as usize + track as usize);
    places.header_block as usize + usize::from(banks.byte(entry))
}

// Tests 1 to 4.
#[tactic(auto, unfolding(crate::specs::Header::places_number))]
fn check_places(banks: Banks, places: Places, track: u32) -> Result<(), Refusal>
    ensures { result ≡ places_number banks.entry.bank8.now banks.entry.banka.now places track }
{
    if banks.bank8.len() != bank::BANK_SIZE || banks.banka.len() != bank::BANK_SIZE {
        return Err(Refusal::WrongSize);
    }
    if !places_fit(places) {
        return Err(Refusal::TableOutside);
    }
    if places.track_count <= track {
        return Err(Refusal::NoTrack);
    }
    if !address::fits(header_address(banks, places, track), HEADER_SIZE) {
        return Err(Refusal::HeaderOutside);
    }
    Ok(())
}

// Of the header at an offset from $8000 on, the playlists' addresses.
fn addresses_at(banks: Banks, header: u16) -> [u16; 4]
    ensures { result ≡ addresses_at (bytes_of banks.entry) header }
{
    [2u8, 4, 6, 8].map(|field| banks.word(usize::from(header) + usize::from(field)))
}

// The high byte is $ff.
#[tactic(auto, unfolding(crate::specs::Header::is_unused))]
fn is_unused(address: u16) -> bool
    ensures { result ≡ is_unused address }
{
    address >> 8 == 0xff
}

#[tactic(auto, unfolding(crate::specs::Header::address_fits))]
fn address_fits(address: u16) -> bool
    ensures { result ≡ address_fits address }
{
    is_unused(address) || address::fits(usize::from(address), 1)
}

#[tactic(auto, unfolding(crate::specs::Header::addresses_fit))]
fn addresses_fit(addresses: [u16; 4]) -> bool
    ensures { (bank : List ℕ) (header : ℕ) → addresses ≡ addresses_at bank header → result ≡ addresses_fit bank header }
{
    addresses.iter().all(|address| address_fits(*address))
}

#[tactic(auto, unfolding(crate::specs::Header::all_unused))]
fn all_unused(addresses: [u16; 4]) -> bool
    ensures { (bank : List ℕ) (header : ℕ) → addresses ≡ addresses_at bank header → result ≡ all_unused bank header }
{
    addresses.iter().all(|address| is_unused(*address))
}

// Tests 8, 9 and 19.
#[tactic(auto, unfolding(crate::specs::Header::header_number))]
fn check_header(banks: Banks, header: u16, addresses: [u16; 4]) -> Result<(), Refusal>
    requires { addresses ≡ addresses_at (bytes_of banks) header }
    ensures { result ≡ header_number (bytes_of banks.entry) header }
{
    if !addresses_fit(addresses) {
        return Err(Refusal::ChannelOutside);
    }
    if all_unused(addresses) {
        return Err(Refusal::NoChannel);
    }
    if transpose::is_odd(banks.byte(usize::from(header))) {
        return Err(Refusal::OddTranspose);
    }
    Ok(())
}

// A channel by its playlist's address, or none.
#[tactic(auto, unfolding(crate::specs::Header::voice_of))]
fn voice_of(kind: Kind, address: u16) -> Option<Voice>
    ensures { result ≡ voice_of kind address }
{
    if is_unused(address) {
        return None;
    }
    Some(Voice {
        kind,
        list: address,
    })
}

#[tactic(auto, unfolding(crate::specs::Header::voices_of))]
fn voices_of(addresses: [u16; 4]) -> [Option<Voice>; 4]
    ensures { (bank : List ℕ) (header : ℕ) → addresses ≡ addresses_at bank header → result ≡ voices_of bank header }
{
    let [square1, square2, triangle, noise] = addresses;
    [
        voice_of(Kind::Square, square1),
        voice_of(Kind::Square, square2),
        voice_of(Kind::Triangle, triangle),
        voice_of(Kind::Noise, noise),
    ]
}

#[tactic(auto, unfolding(crate::specs::Header::track_of))]
fn track_of(banks: Banks, header: u16, addresses: [u16; 4]) -> Track
    requires { addresses ≡ addresses_at (bytes_of banks) header }
    ensures { result ≡ track_of (bytes_of banks.entry) header }
{
    let header_at = usize::from(header);
    Track {
        transpose: banks.byte(header_at),
        window: banks.byte(header_at + 1),
        voices: voices_of(addresses),
    }
}

// A track of two banks, or the first of 1, 2, 3, 4, 8, 9 and 19.
#[tactic(auto, unfolding(crate::specs::Header::open_track, crate::specs::Header::number_of))]
pub fn open(banks: Banks, places: Places, track: u32) -> Result<Track, Refusal>
    ensures { Answers told_opened result (open_track banks.entry.bank8.now banks.entry.banka.now places track) }
{
    check_places(banks, places, track)?;
    let address = header_address(banks, places, track);
    let header = address::offset_of(address) as u16;
    let addresses = addresses_at(banks, header);
    check_header(banks, header, addresses)?;
    Ok(track_of(banks, header, addresses))
}
