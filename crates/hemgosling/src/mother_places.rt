// The places of the later engine's banks, from plain numbers.
ghost use Rattle.std.specs.Prelude.{◌≡◌};
ghost use Rattle.hemgosling.specs.MotherPlaces.{mother_places_of};

use mother_format::bank::Places;

// Like the old engine's: the C calls hand the places over one by one.
pub(crate) fn places_of(
    header_offsets: u32,
    header_block: u32,
    note_lengths: u32,
    key_periods: u32,
    noise_presets: u32,
    envelope_addresses: u32,
    track_count: u32,
) -> Places
    ensures { result ≡ mother_places_of header_offsets header_block note_lengths key_periods noise_presets envelope_addresses track_count }
{
    Places {
        header_offsets,
        header_block,
        note_lengths,
        key_periods,
        noise_presets,
        envelope_addresses,
        track_count,
    }
}
