// Buffers: their words, what stands in one before a run, and what a run has to leave there.
ghost use Rattle.std.specs.Prelude.{◌≡◌, ◌*◌, take};

// A number as a word: its last 16 bits.
pub(crate) fn word(number: usize) -> u16 {
    (number % 65536) as u16
}

// The word that stands at a place before.
fn before(place: usize) -> u16 {
    word(place % 50000).saturating_add(15000)
}

// Fills a buffer with these.
pub(crate) fn fill<T: Copy + From<u16>>(buffer: &mut [T]) {
    for (place, item) in buffer.iter_mut().enumerate() {
        *item = T::from(before(place));
    }
}

// Whether a buffer begins with what was to be written, and is else as before.
pub(crate) fn has_only<T: Copy + From<u16> + PartialEq>(buffer: &[T], wanted: &[T]) -> bool {
    buffer.starts_with(wanted)
        && buffer
            .iter()
            .enumerate()
            .skip(wanted.len())
            .all(|(place, item)| *item == T::from(before(place)))
}

// The first items of a size, so many, or all where there are fewer.
pub(crate) fn front<T>(items: &[T], size: usize, count: usize) -> &[T]
    ensures { result.now ≡ take (size * count) items.now }
{
    &items[..size.saturating_mul(count).min(items.len())]
}
