// The test program `hostile`: areas of any words on standard input, each a count of words in two bytes and the words
// in eight bytes each, low bytes first. On each area it writes a line: what `len` answers for ARC and for CAR, `3`
// where the area is refused and else `ok` and the number. Where an area is refused, `get`, `insert`, `remove` and
// `clear` are called too: ` answered` is added where one of them is not refused, and ` changed` where the area is no
// longer what was read. Areas and lines are made by tools/hostile_areas, from docs/LAYOUT.md alone.
#![tactic(auto)]

ghost use Rattle.std.specs.Prelude.{◌≡◌, ◌<◌, length};

use refusals::Refusal;
use rules::Kind;

// ---- words

// The words that were read into an area of as many.
fn fill(area: &mut [u64], bytes: &[u8]) {
    let (words, _) = bytes.as_chunks::<8>();
    for (w, low_first) in area.iter_mut().zip(words) {
        *w = u64::from_le_bytes(*low_first);
    }
}

// Whether the area is what was read.
fn unchanged(area: &[u64], bytes: &[u8]) -> bool {
    let (words, _) = bytes.as_chunks::<8>();
    area.iter()
        .zip(words)
        .all(|(w, low_first)| *w == u64::from_le_bytes(*low_first))
}

// ---- the calls

// Whether each of the calls that change an area is refused.
fn all_refused(area: &mut [u64], kind: Kind) -> bool {
    public_calls::get(area, kind, 5).is_err()
        && public_calls::insert(area, kind, 5, 7).is_err()
        && public_calls::remove(area, kind, 5).is_err()
        && public_calls::clear(area, kind).is_err()
}

// ---- the lines

fn put_answered(area: &mut [u64], kind: Kind) {
    if !all_refused(area, kind) {
        test_text::word(b" answered");
    }
}

fn put_changed(area: &[u64], bytes: &[u8]) {
    if !unchanged(area, bytes) {
        test_text::word(b" changed");
    }
}

fn put_refused(area: &mut [u64], kind: Kind, bytes: &[u8], refusal: Refusal) {
    test_text::number(u64::from(refusal.number()));
    put_answered(area, kind);
    put_changed(area, bytes);
}

fn put_kind(area: &mut [u64], kind: Kind, bytes: &[u8]) {
    match public_calls::len(area, kind) {
        Ok(n) => test_text::field(b"ok ", n),
        Err(refusal) => put_refused(area, kind, bytes, refusal),
    }
}

fn put_area(area: &mut [u64], bytes: &[u8]) {
    fill(area, bytes);
    test_text::word(b"arc ");
    put_kind(area, Kind::Arc, bytes);
    test_text::word(b" car ");
    put_kind(area, Kind::Car, bytes);
    test_text::word(b"\n");
}

// ---- standard input

// An area of n words; whether another may follow.
fn read_area(area: &mut [u64], bytes: &mut [u8], n: usize) -> bool {
    if n <= area.len() {
        if n < 8192 {
            if test_text::read(bytes, 8 * n) {
                put_area(&mut area[..n], bytes);
                return true;
            }
        }
    }
    false
}

fn read_case(area: &mut [u64], bytes: &mut [u8]) -> bool {
    if test_text::read(bytes, 2) {
        let n = test_text::pair_at(bytes, 0);
        return read_area(area, bytes, n);
    }
    false
}

// A proved loop has to end, and nothing says that the input does: the turns have a bound, which no run uses up.
fn run(area: &mut [u64], bytes: &mut [u8]) {
    for _ in 0..u64::MAX {
        if !read_case(area, bytes) {
            return;
        }
    }
}

fn words() -> [u64; 4096]
    ensures { 4096 ≡ length result }
{
    [0; 4096]
}

fn main() {
    let mut area = words();
    let mut bytes = io::large_buffer();
    run(&mut area, &mut bytes);
}
