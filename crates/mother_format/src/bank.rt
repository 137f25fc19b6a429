// Two lent banks, $8000 to $9fff and $a000 to $bfff, and the places that the caller names.
ghost use Rattle.std.specs.Prelude.{◌≡◌, get_or};
ghost use Rattle.engine_base.specs.Bytes.{word_at};
ghost use Rattle.mother_format.specs.Bank.{bytes_of, block_of, published};

use engine_base::{address, bytes};

pub const BANK_SIZE: usize = 8192;

pub const BLOCK_LIMIT: usize = 256;

// The sizes of the tables that all tracks share.
pub const LENGTHS_SIZE: usize = 104;

pub const PERIODS_SIZE: usize = 134;

pub const PRESETS_SIZE: usize = 31;

pub const ENVELOPES_SIZE: usize = 54;

// The two banks, as they are lent.
#[derive(Clone, Copy)]
pub struct Banks<'a> {
    pub bank8: &'a [u8],
    pub banka: &'a [u8],
}

// Addresses, and a number of tracks.
// Like the old format's but for the default ctrl 1 bytes: the C calls of each engine fix its places.
#[derive(Clone, Copy)]
pub struct Places {
    pub header_offsets: u32,
    pub header_block: u32,
    pub note_lengths: u32,
    pub key_periods: u32,
    pub noise_presets: u32,
    pub envelope_addresses: u32,
    pub track_count: u32,
}

// The cartridge's two sets of tracks.
#[derive(Clone, Copy)]
pub enum Tracks {
    Low,
    High,
}

// The published addresses of a set.
pub fn published_places(tracks: Tracks) -> Places
    ensures { result ≡ published tracks }
{
    let low = Places {
        header_offsets: 0x903e,
        header_block: 0x906f,
        note_lengths: 0x8fd6,
        key_periods: 0x8f4c,
        noise_presets: 0x8928,
        envelope_addresses: 0x8ded,
        track_count: 24,
    };
    match tracks {
        Tracks::Low => low,
        Tracks::High => {
            Places {
                header_offsets: 0x9056,
                header_block: 0x915f,
                track_count: 25,
                ..low
            }
        }
    }
}

impl<'a> Banks<'a> {
    // The byte at an offset from $8000 on, 0 where there is none.
    pub fn byte(self, at: usize) -> u8
        ensures { result ≡ get_or (bytes_of self.entry) at 0 }
    {
        match self.bank8.get(at) {
            Some(b) => *b,
            None => bytes::byte(self.banka, at - self.bank8.len()),
        }
    }

    // The little-endian word at an offset from $8000 on, its bytes 0 where there are none.
    #[tactic(auto, using(crate::proofs::bank::Joined::word_left, crate::proofs::bank::Joined::word_right, crate::proofs::bank::Joined::word_across))]
    pub(crate) fn word(self, at: usize) -> u16
        ensures { result ≡ word_at (bytes_of self.entry) at }
    {
        if self.bank8.len() <= at {
            return bytes::word(self.banka, at - self.bank8.len());
        }
        if at + 1 < self.bank8.len() {
            return bytes::word(self.bank8, at);
        }
        u16::from_le_bytes([bytes::byte(self.bank8, at), bytes::byte(self.banka, 0)])
    }

    // The block at an address: a part of the bank that holds it.
    #[tactic(auto, unfolding(crate::specs::Bank::block_of))]
    pub fn block(self, address: u16) -> &'a [u8]
        ensures { result.now ≡ block_of self.entry.bank8.now self.entry.banka.now address }
    {
        let at = address::offset_of(usize::from(address));
        if at < self.bank8.len() {
            return bytes::part(self.bank8, at, BLOCK_LIMIT);
        }
        bytes::part(self.banka, at - self.bank8.len(), BLOCK_LIMIT)
    }
}
