// The words of an area by docs/LAYOUT.md: a second reading of them, which asks the library nothing. Any words are read:
// a word past the end counts as 0, and so does a count, a capacity or a cell that is too large for any area.
#![tactic(auto)]

ghost use Rattle.std.specs.Prelude.{◌≡◌, ◌≤◌, ◌<◌, ◌+◌, ◌*◌, slice_index};

// The largest capacity.
const MOST_FRAMES: u64 = 1024;

// No list has so many cells.
const CELLS: usize = 32768;

// A word.
pub fn word(area: &[u64], i: usize) -> u64
    ensures { result ≡ slice_index area.now i }
{
    area.get(i).copied().unwrap_or(0)
}

// The word so far behind another.
pub fn behind(area: &[u64], start: usize, i: usize) -> u64
    ensures { result ≡ slice_index area.now (start + i) }
{
    word(area, start.saturating_add(i))
}

// A count, at most the largest capacity.
pub fn count(area: &[u64], i: usize) -> usize
    ensures limit { result ≤ 1024 }
    ensures value { slice_index area.now i ≤ 1024 → result ≡ slice_index area.now i }
{
    let n = word(area, i);
    if n <= MOST_FRAMES { n as usize } else { 0 }
}

// The capacity.
pub fn capacity(area: &[u64]) -> usize
    ensures limit { result ≤ 1024 }
    ensures value { slice_index area.now 1 ≤ 1024 → result ≡ slice_index area.now 1 }
{
    count(area, 1)
}

// The cell after a cell, links starting at a word.
pub fn next(area: &[u64], links: usize, cell: usize) -> usize
    ensures { cell < 32768
        → slice_index area.now (links + 2 * cell) < 32768
        → result ≡ slice_index area.now (links + 2 * cell) }
{
    if cell < CELLS {
        let n = behind(area, links, 2 * cell);
        if n < 32768 {
            return n as usize;
        }
    }
    0
}

// The page of a place of the lookup.
pub fn page_of(area: &[u64], c: usize, place: usize) -> u64
    requires { c ≤ 1024 }
    ensures { result ≡ slice_index area.now (9 * c + 62 + place) }
{
    behind(area, 9 * c + 62, place)
}
