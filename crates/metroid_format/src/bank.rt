// The places that the caller names, and the sizes of what stands there.
ghost use Rattle.std.specs.Prelude.{◌≡◌};
ghost use Rattle.metroid_format.specs.Bank.{published};

pub const BANK_SIZE: usize = 16384;

// The sizes of the tables that all tracks share.
pub const LENGTHS_SIZE: usize = 40;

pub const PERIODS_SIZE: usize = 128;

pub const PRESETS_SIZE: usize = 13;

pub const ENVELOPES_SIZE: usize = 10;

// Addresses, a number of tracks, and the default ctrl 1 byte of squares 1 and 2.
#[derive(Clone, Copy)]
pub struct Places {
    pub header_offsets: u32,
    pub header_block: u32,
    pub note_lengths: u32,
    pub key_periods: u32,
    pub noise_presets: u32,
    pub envelope_addresses: u32,
    pub track_count: u32,
    pub default1: u8,
    pub default2: u8,
}

// The published addresses of the cartridge's 12 tracks, with the default ctrl 1 byte of squares 1 and 2.
pub fn published_places(default1: u8, default2: u8) -> Places
    ensures { result ≡ published default1 default2 }
{
    Places {
        header_offsets: 0xbbfa,
        header_block: 0xbd31,
        note_lengths: 0xbef7,
        key_periods: 0xbe77,
        noise_presets: 0xb200,
        envelope_addresses: 0xbcb0,
        track_count: 12,
        default1,
        default2,
    }
}
