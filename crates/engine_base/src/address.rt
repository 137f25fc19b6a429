// Addresses $8000 to $bfff, where a bank stands.
ghost use Rattle.std.specs.Prelude.{◌≡◌};
ghost use Rattle.engine_base.specs.Address.{offset_of, within, all_within};

pub const BANK_START: usize = 0x8000;

// The address after the last.
pub const BANK_END: usize = 0xc000;

// The offset of an address from the first.
pub fn offset_of(address: usize) -> usize
    ensures { result ≡ offset_of address }
{
    address.saturating_sub(BANK_START)
}

// Whether n bytes from an address stand wholly there.
pub fn fits(address: usize, n: usize) -> bool
    ensures { result ≡ within address n }
{
    BANK_START <= address && address <= BANK_END && n <= BANK_END - address
}

// Whether each of a row of places stands wholly there, the first by the first size and so on.
// Two rows side by side, as the definition takes them: addresses and sizes are two lists there.
pub fn all_fit(addresses: &[usize], sizes: &[usize]) -> bool
    ensures { result ≡ all_within addresses.now sizes.now }
{
    addresses
        .iter()
        .zip(sizes)
        .all(|(address, size)| fits(*address, *size))
}
