// The exact test of a lookup, for any words with room for it: whether every bucket is a ring in strictly rising order
// of pages, with every page in the bucket that it belongs to, and the buckets together hold so many places. Apart from
// `lookup` so that both check quickly.
//
// Each bucket is walked once. Each link is held against the link back, and there is a budget of places for all buckets
// together, so that the test is linear in m + k whatever the words are.
//
// Branch mispredictions would dominate: whether a bucket is empty, and how long it is. After a run the lengths come in
// no order, and with cold branch predictors nearly half of the time went there (5.8 and 6.7 sums, of which 3.8 to 4.5
// are left). So a bucket of one place or none has no branch of its own (`alone`), and whether it has more is told by
// its sentinel alone, which the loop reads in order: its first cell is then not its last. A longer walk ends at the
// place before the sentinel, which is known from the start; it can end well nowhere else, since pages rise
// (`last_strays`).
//
// Tried, as programs in C, and left: every place tested for itself by its links both ways (no faster: as many branches,
// more steps); buckets of two places without a branch too (more steps than the mispredictions saved); the longer
// buckets put aside and walked after the others (6 % faster where lengths are random, slower elsewhere). D67.
#![tactic(auto)]

ghost use Rattle.std.specs.Prelude.{◌≡◌, ◌≤◌};
ghost use Rattle.lookup.specs.Part.{Room};
ghost use Rattle.lookup_check.specs.Check.{walk_from, walk_of, lookup_test, shown_page, places_at, alone_test, CanWalk, CanPass, CanGoOn};

use lookup::Divisor;

// The walk of bucket b after its place a, with a budget of so many places: how much of it is left, or none where the
// words are no lookup or the budget is too small. z is the cell before the sentinel: the walk ends well only there. p
// is the page of `cur`. d has the number k of buckets, here and below. A `while`, since it walks links and counts no
// index.
fn walk_on(
    w: &[u64],
    m: usize,
    d: Divisor,
    b: usize,
    z: usize,
    most: usize,
    a: usize,
) -> Option<usize>
    requires { CanGoOn w.now m d b z a }
    ensures { result ≡ walk_from w.now m d.k b most a }
{
    let s = m + b;
    let mut left = most;
    let mut cur = a;
    let mut p = lookup::page_of(w, a);
    let mut x = lookup::next_of(w, m, a);
    while x < m {
        if left == 0 {
            return None;
        }
        if lookup::prev_of(w, m, x) != cur {
            return None;
        }
        let q = lookup::page_of(w, x);
        if q <= p {
            return None;
        }
        if !lookup::belongs(d, b, q) {
            return None;
        }
        left = left - 1;
        let y = lookup::next_of(w, m, x);
        if x == z {
            if y == s {
                return Some(left);
            }
            return None;
        }
        cur = x;
        p = q;
        x = y;
    }
    None
}

// The walk of bucket b with a budget of so many places, where the cell x stands first in it and another, z, last.
fn walk(w: &[u64], m: usize, d: Divisor, b: usize, most: usize, x: usize, z: usize) -> Option<usize>
    requires { CanPass w.now m d b x z }
    ensures { result ≡ walk_of w.now m d.k b most }
{
    let s = m + b;
    if m <= x {
        return None;
    }
    if most == 0 {
        return None;
    }
    if lookup::prev_of(w, m, x) != s {
        return None;
    }
    let p = lookup::page_of(w, x);
    if !lookup::belongs(d, b, p) {
        return None;
    }
    walk_on(w, m, d, b, z, most - 1, x)
}

// The page to test for cell x, p being its page where it is a place; for a sentinel, its bucket's number.
fn shown(m: usize, x: usize, p: u64) -> u64
    ensures { result ≡ shown_page m x p }
{
    if x < m { p } else { (x - m) as u64 }
}

// 1 where the cell x is a place, 0 where it is a sentinel.
fn places(m: usize, x: usize) -> usize
    ensures { result ≡ places_at m x }
{
    if x < m { 1 } else { 0 }
}

// Whether x, the cell that stands both first and last in bucket b, is alone in it: a place of the bucket, or the
// sentinel itself. All is read before anything is tested, so that whether x is a place makes no branch: the words of x
// can be read either way, since a sentinel's number is an index of the part too, and a sentinel of another bucket does
// not belong to this one (`sentinel_home`).
fn alone(w: &[u64], m: usize, d: Divisor, b: usize, x: usize) -> bool
    requires { CanWalk w.now m d b }
    ensures { result ≡ alone_test w.now m d.k b x }
{
    let s = m + b;
    if m + d.k <= x {
        return false;
    }
    let y = lookup::next_of(w, m, x);
    let z = lookup::prev_of(w, m, x);
    let v = lookup::page_of(w, x);
    let p = shown(m, x, v);
    if y != s {
        return false;
    }
    if z != s {
        return false;
    }
    lookup::belongs(d, b, p)
}

// Whether the words are a lookup that holds exactly `live` places.
pub fn check(w: &[u64], m: usize, k: usize, live: usize) -> bool
    requires { Room w.now m k × (k ≤ 4096) }
    ensures { result ≡ lookup_test w.now m k live }
{
    let d = lookup::divisor_of(k);
    let mut rest = live;
    for b in 0..k {
        let s = m + b;
        let x = lookup::next_of(w, m, s);
        let z = lookup::prev_of(w, m, s);
        if x == z {
            let n = places(m, x);
            if rest < n {
                return false;
            }
            if !alone(w, m, d, b, x) {
                return false;
            }
            rest = rest - n;
        } else {
            let Some(n) = walk(w, m, d, b, rest, x, z) else {
                return false;
            };
            rest = n;
        }
    }
    rest == 0
}
