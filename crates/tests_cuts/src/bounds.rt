//! The most gets of a sum in a tree of cuts, and the most pages that an addition gives out, worked out beside the code.

/// The most gets of a sum among so many points over three dimensions, or over two.
pub(crate) fn most_gets(three: bool, count: u32) -> u64 {
    if three {
        gets_in_three(count)
    } else {
        gets_in_two(count)
    }
}

/// How many digits the number has in the base.
fn digits(base: u32, count: u32) -> u64 {
    let mut digits: u64 = 0;
    let mut rest = count;
    for _ in 0..32 {
        if rest > 0 {
            digits = digits.saturating_add(1);
        }
        rest /= base.max(2);
    }
    digits
}

/// The most gets of a sum among so many points over one dimension.
fn gets_in_one(count: u32) -> u64 {
    digits(32, count).saturating_add(digits(24, count))
}

/// The most over two: one for the leaf, and at each cut on the way one for its page, and those of a border of three fifths of the
/// points.
fn gets_in_two(count: u32) -> u64 {
    let mut gets = u64::from(count.min(1));
    let mut rest = count;
    for _ in 0..64 {
        if rest > 64 {
            rest = three_fifths(rest);
            gets = gets.saturating_add(1).saturating_add(gets_in_one(rest));
        }
    }
    gets
}

/// The most over three.
fn gets_in_three(count: u32) -> u64 {
    let mut gets = u64::from(count.min(1));
    let mut rest = count;
    for _ in 0..64 {
        if rest > 64 {
            rest = three_fifths(rest);
            gets = gets.saturating_add(1).saturating_add(gets_in_two(rest));
        }
    }
    gets
}

fn three_fifths(count: u32) -> u32 {
    count.saturating_mul(3) / 5
}

/// How many cuts there are at most on a way to a leaf.
fn depth(count: u32) -> u64 {
    let mut depth: u64 = 0;
    let mut rest = count;
    for _ in 0..64 {
        if rest > 64 {
            rest = three_fifths(rest);
            depth = depth.saturating_add(1);
        }
    }
    depth
}

const IN_ONE: u64 = 24;

/// The most pages a point of a tree that is built: two for leaves and cuts, and at each depth those of a border.
fn share(three: bool, count: u32) -> u64 {
    let in_two = depth(count).saturating_mul(IN_ONE).saturating_add(2);
    if three {
        depth(count).saturating_mul(in_two).saturating_add(2)
    } else {
        in_two
    }
}

/// The most pages of an addition: a leaf and a root; at each cut a page and those of a border; a border that is built of 65 points;
/// and a part that is made anew.
fn added(three: bool, count: u32, border: u64, border_share: u64) -> u64 {
    let more = count.saturating_add(1);
    depth(more)
        .saturating_mul(border.saturating_add(1))
        .saturating_add(border_share.saturating_mul(65))
        .saturating_add(share(three, more).saturating_mul(u64::from(more)))
        .saturating_add(3)
}

/// The most pages that an addition to so many points gives out, over three dimensions, or over two.
pub(crate) fn most_added(three: bool, count: u32) -> u64 {
    let in_two = added(false, count, IN_ONE, IN_ONE);
    if three {
        added(true, count, in_two, share(false, 65))
    } else {
        in_two
    }
}
