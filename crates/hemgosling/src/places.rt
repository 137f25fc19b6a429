// The places of a bank, from plain numbers.
ghost use Rattle.std.specs.Prelude.{◌≡◌};
ghost use Rattle.hemgosling.specs.Places.{places_of};

use metroid_format::bank::Places;

pub(crate) fn places_of(
    header_offsets: u32,
    header_block: u32,
    note_lengths: u32,
    key_periods: u32,
    noise_presets: u32,
    envelope_addresses: u32,
    track_count: u32,
    default1: u8,
    default2: u8,
) -> Places
    ensures { result ≡ places_of header_offsets header_block note_lengths key_periods noise_presets envelope_addresses track_count default1 default2 }
{
    Places {
        header_offsets,
        header_block,
        note_lengths,
        key_periods,
        noise_presets,
        envelope_addresses,
        track_count,
        default1,
        default2,
    }
}
