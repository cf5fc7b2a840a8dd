//! Where two texts differ.
ghost use Rattle.std.specs.Prelude.{◌≡◌, ◌≤◌, ◌+◌, ◌-◌, ◌++◌, IsCharBoundary, drop, length, take};
ghost use Rattle.std.specs.Prelude.{true};
ghost use Rattle.pieced_text.specs.Changes.{Changes};

/// Where a text differs from an older one: from a start up to an end of each.
#[derive(Clone, Copy)]
pub(crate) struct Change {
    pub(crate) start: usize,
    pub(crate) old_end: usize,
    pub(crate) new_end: usize,
}

// Whether a list begins with another one.
fn begins_with(list: &[u8], first: &[u8]) -> bool
    ensures { result ≡ true → list.now ≡ first.now ++ drop (length first.now) list.now }
{
    list.starts_with(first)
}

// Whether two lists have the same `count` bytes from two places on.
fn are_same(old: &[u8], new: &[u8], at: usize, other: usize, count: usize) -> bool
    requires old { at + count ≤ length old.now }
    requires new { other + count ≤ length new.now }
    ensures { result ≡ true → take count (drop at old.now) ≡ take count (drop other new.now) }
{
    begins_with(new.split_at(other).1, &old[at..at + count])
}

// More bytes that two lists begin with in common, `step` at once.
fn more_front(old: &[u8], new: &[u8], front: usize, step: usize) -> usize
    requires step { 1 ≤ step }
    requires old { front ≤ length old.now }
    requires new { front ≤ length new.now }
    requires same { take front old.now ≡ take front new.now }
    ensures old { result ≤ length old.now }
    ensures new { result ≤ length new.now }
    ensures same { take result old.now ≡ take result new.now }
{
    let most = old.len().min(new.len());
    let mut at = front;
    while step <= most - at && are_same(old, new, at, at, step) {
        at += step;
    }
    at
}

// How many bytes two lists begin with in common.
fn common_front(old: &[u8], new: &[u8]) -> usize
    ensures old { result ≤ length old.now }
    ensures new { result ≤ length new.now }
    ensures same { take result old.now ≡ take result new.now }
{
    let blocks = more_front(old, new, 0, 4096);
    let parts = more_front(old, new, blocks, 64);
    more_front(old, new, parts, 1)
}

// Whether two lists have the same `count` bytes from so many before their ends on.
fn ends_same(old: &[u8], new: &[u8], back: usize, count: usize) -> bool
    requires old { back ≤ length old.now }
    requires new { back ≤ length new.now }
    requires count { count ≤ back }
    ensures { result ≡ true → take count (drop (length old.now - back) old.now)
        ≡ take count (drop (length new.now - back) new.now) }
{
    are_same(old, new, old.len() - back, new.len() - back, count)
}

// More bytes that two lists end with in common, of at most so many, `step` at once.
fn more_back(old: &[u8], new: &[u8], back: usize, most: usize, step: usize) -> usize
    requires step { 1 ≤ step }
    requires old { most ≤ length old.now }
    requires new { most ≤ length new.now }
    requires few { back ≤ most }
    requires same { drop (length old.now - back) old.now
        ≡ drop (length new.now - back) new.now }
    ensures few { result ≤ most }
    ensures same { drop (length old.now - result) old.now
        ≡ drop (length new.now - result) new.now }
{
    let mut count = back;
    while step <= most - count && ends_same(old, new, count + step, step) {
        count += step;
    }
    count
}

// How many bytes two lists end with in common, of at most so many.
fn common_back(old: &[u8], new: &[u8], most: usize) -> usize
    requires old { most ≤ length old.now }
    requires new { most ≤ length new.now }
    ensures few { result ≤ most }
    ensures same { drop (length old.now - result) old.now
        ≡ drop (length new.now - result) new.now }
{
    let blocks = more_back(old, new, 0, most, 4096);
    let parts = more_back(old, new, blocks, most, 64);
    more_back(old, new, parts, most, 1)
}

// Whether a place is between characters of both texts.
fn is_between(old: &str, new: &str, at: usize) -> bool
    ensures old { result ≡ true → IsCharBoundary old.now at }
    ensures new { result ≡ true → IsCharBoundary new.now at }
{
    old.is_char_boundary(at) && new.is_char_boundary(at)
}

// The last place up to this one that is between characters of both texts.
fn boundary_before(old: &str, new: &str, front: usize) -> usize
    ensures near { result ≤ front }
    ensures old { IsCharBoundary old.now result }
    ensures new { IsCharBoundary new.now result }
{
    let mut at = front;
    while at > 0 {
        if is_between(old, new, at) {
            return at;
        }
        at -= 1;
    }
    0
}

// The most bytes up to so many at the ends of both texts that begin between characters.
fn boundary_behind(old: &str, new: &str, back: usize) -> usize
    requires old { back ≤ length old.now }
    requires new { back ≤ length new.now }
    ensures near { result ≤ back }
    ensures old { IsCharBoundary old.now (length old.now - result) }
    ensures new { IsCharBoundary new.now (length new.now - result) }
{
    let mut count = back;
    while count > 0 && !are_boundaries(old, new, count) {
        count -= 1;
    }
    count
}

// Whether so many bytes before the ends of both texts are between characters.
fn are_boundaries(old: &str, new: &str, back: usize) -> bool
    requires old { back ≤ length old.now }
    requires new { back ≤ length new.now }
    ensures old { result ≡ true → IsCharBoundary old.now (length old.now - back) }
    ensures new { result ≡ true → IsCharBoundary new.now (length new.now - back) }
{
    old.is_char_boundary(old.len() - back) && new.is_char_boundary(new.len() - back)
}

/// Where a text differs from an older one.
pub(crate) fn change_of(old: &str, new: &str) -> Change
    ensures { Changes old.now new.now result }
{
    let front = common_front(old.as_bytes(), new.as_bytes());
    let start = boundary_before(old, new, front);
    let most = old.len().min(new.len()) - start;
    let back = common_back(old.as_bytes(), new.as_bytes(), most);
    let back = boundary_behind(old, new, back);
    Change {
        start,
        old_end: old.len() - back,
        new_end: new.len() - back,
    }
}
