// Values into a lent buffer, as far as they fit: what lies outside it is not written.
ghost use Rattle.std.specs.Prelude.{◌≡◌, set};
ghost use Rattle.std.proofs.lemmas.List.Edits.{sets};

// A value at an index.
pub fn put<T: Copy>(out: &mut [T], at: usize, value: T)
    ensures { out.new ≡ set out.old at value }
{
    if at < out.len() {
        out[at] = value;
    }
}

// Values from an index on. One by one, since they are few: a copy of a length not known beforehand is a call of memcpy each time.
pub fn fill<T: Copy>(out: &mut [T], at: usize, values: &[T])
    ensures { out.new ≡ sets out.old at values.now }
{
    if out.len() <= at {
        return;
    }
    let room = out.len() - at;
    for i in 0..values.len() {
        if i < room {
            out[at + i] = values[i];
        }
    }
}
