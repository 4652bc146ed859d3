// Buffers as the test programs lend them.
ghost use Rattle.std.specs.Prelude.{◌≡◌, ◌≤◌, length, take};

/// The first `count` entries, or all where there are fewer.
pub fn first<T>(entries: &[T], count: usize) -> &[T]
    ensures { result.now ≡ take count entries.now }
{
    &entries[..count.min(entries.len())]
}

pub fn first_of<T>(entries: &mut [T], count: usize) -> &mut [T] {
    let end = count.min(entries.len());
    &mut entries[..end]
}

/// The same entries with another at a place, if there is one.
pub fn with<T: Copy, const N: usize>(entries: [T; N], place: usize, entry: T) -> [T; N] {
    let mut changed = entries;
    if let Some(old) = changed.get_mut(place) {
        *old = entry;
    }
    changed
}

/// One entry at the even places and another at the odd ones.
pub fn alternating<T: Copy, const N: usize>(even: T, odd: T) -> [T; N] {
    let mut entries = [odd; N];
    for entry in entries.iter_mut().step_by(2) {
        *entry = even;
    }
    entries
}

/// How many entries are not those of the other buffer: all of them where that has another length.
pub fn differing<T: PartialEq>(entries: &[T], others: &[T]) -> usize
    ensures { result ≤ length entries.now }
{
    if entries.len() != others.len() {
        return entries.len();
    }
    entries.iter().zip(others).filter(|(a, b)| a != b).count()
}
