//! Names that are spelled nearly alike.

/// Whether two names are spelled alike but for case, or for one letter that one of them has more or otherwise, or for two letters in a row
/// that change places.
pub fn are_near(one: &str, other: &str) -> bool {
    if one.len() < 3 || other.len() < 3 {
        return one.eq_ignore_ascii_case(other);
    }
    let (one, other) = (one.as_bytes(), other.as_bytes());
    let front = alike_in_front(one, other);
    let (Some(one), Some(other)) = (one.get(front..), other.get(front..)) else {
        return false;
    };
    match (one, other) {
        ([], rest) | (rest, []) => rest.len() <= 1,
        ([_, ones @ ..], [_, others @ ..]) => {
            are_alike(ones, others)
                || are_alike(ones, other)
                || are_alike(one, others)
                || are_swapped(one, other)
        }
    }
}

// Whether they are alike but for the first two bytes, which change places.
fn are_swapped(one: &[u8], other: &[u8]) -> bool {
    match (one, other) {
        ([a, b, ones @ ..], [c, d, others @ ..]) => {
            a.eq_ignore_ascii_case(d) && b.eq_ignore_ascii_case(c) && are_alike(ones, others)
        }
        _ => false,
    }
}

// How many bytes are alike in front, but for case.
fn alike_in_front(one: &[u8], other: &[u8]) -> usize {
    let mut count = 0usize;
    for (a, b) in one.iter().zip(other.iter()) {
        if !a.eq_ignore_ascii_case(b) {
            return count;
        }
        count = count.saturating_add(1);
    }
    count
}

fn are_alike(one: &[u8], other: &[u8]) -> bool {
    one.eq_ignore_ascii_case(other)
}

// The first of these names that is spelled nearly so.
pub(crate) fn near_among(names: &[&'static str], name: &str) -> Option<&'static str> {
    for &other in names {
        if are_near(other, name) {
            return Some(other);
        }
    }
    None
}
