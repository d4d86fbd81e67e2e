//! Entries whose values are added up.
ghost use Rattle.std.specs.Prelude.{◌≡◌, ℕ, ◌+◌, ◌%◌, ◌^◌, ◌≤◌, ◌++◌, length, take, drop};
ghost use Rattle.std.specs.List.{sum_by};
ghost use Rattle.page_layout.specs.Summed.{raised_first};

use arrayvec::ArrayVec;

/// An entry of which the value is one of those that are added up, modulo `2^128`.
pub trait Summed: Copy + Default {
    /// The value.
    ghost value_of: { Self → ℕ };

    /// The entry with so much more.
    ghost raised: { Self → ℕ → Self };

    /// The value.
    fn value(&self) -> u128
        ensures { result ≡ value_of self.now };

    /// Adds to the value.
    fn raise(&mut self, more: u128)
        ensures { self.new ≡ raised self.old more };
}

// The total of the values, modulo `2^128`.
fn total_of<T: Summed>(entries: &[T]) -> u128
    ensures { result ≡ sum_by T.value_of entries.now % 2 ^ 128 }
{
    let mut total: u128 = 0;
    for e in entries {
        total = total.wrapping_add(e.value());
    }
    total
}

/// Adds to the value of the entry at the index, where there is one.
pub fn raise_at<T: Summed, const CAP: usize>(
    entries: &mut ArrayVec<T, CAP>,
    index: usize,
    more: u128,
)
    requires { index ≤ length entries.old.items }
    ensures items { entries.new.items ≡ take index entries.old.items ++ raised_first T.raised (drop index entries.old.items) more }
    ensures len { length entries.new.items ≡ length entries.old.items }
{
    if let Some(entry) = entries.get_mut(index) {
        entry.raise(more);
    }
}

/// Takes the entries from the index on out of those of a node, with the total of the values before them
/// on top of the first of them: what they add up to stays at each of them.
pub fn split_off<T: Summed, const CAP: usize>(
    entries: &mut ArrayVec<T, CAP>,
    index: usize,
) -> ArrayVec<T, CAP>
    requires { index ≤ length entries.old.items }
    ensures first { entries.new.items ≡ take index entries.old.items }
    ensures second { result.items ≡ raised_first T.raised (drop index entries.old.items) (sum_by T.value_of (take index entries.old.items) % 2 ^ 128) }
    ensures len { index + length result.items ≡ length entries.old.items }
{
    let all = entries.as_slice();
    let total = total_of(&all[..index]);
    let mut second = ArrayVec::new();
    for entry in &all[index..] {
        second.push(*entry);
    }
    raise_at(&mut second, 0, total);
    entries.truncate(index);
    second
}
