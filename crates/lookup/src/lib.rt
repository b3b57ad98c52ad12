// The lookup from pages to places: which place, of m, has a page. It is the only holder of page numbers. Its part is
//
//     | page 0 | .. | page m - 1 | next 0 | prev 0 | next 1 | prev 1 | .. |
//
// with links of m + k cells: the cells below m are the places, the cells from m on the sentinels of k buckets. A bucket
// is a ring whose places stand in strictly rising order of their pages. It keeps no count: a walk ends at a cell that
// is no place. A place in no bucket is dead: it stands before itself.
//
// Callers know of `look` (specs/Lookup.antt) and of the laws of proofs/Look.antt: that it is a plain search of the
// places held. No answer shows a bucket.
#![tactic(auto)]

ghost use Rattle.std.specs.Prelude.{◌≡◌, ◌+◌, ◌*◌, ◌<◌, ◌≤◌, length, ◌==◌};
ghost use Rattle.cells.specs.Cells.{In, next_of, prev_of};
ghost use Rattle.rings.specs.Rings.{CanDetach, CanReplace};
ghost use Rattle.lookup.specs.Buckets.{bucket_of, inverse_of, buckets_of};
ghost use Rattle.lookup.specs.Dividing.{Divides, DivisorOf, Folded};
ghost use Rattle.lookup.specs.Part.{page_of, links_of, Room};
ghost use Rattle.lookup.specs.Lookup.{find_of, look, answered, CanFind};
ghost use Rattle.lookup.specs.Changes.{unlinked, handed_over, deadened, cleared, blank, put_in, taken, renamed, made, CanPut, CanTake, CanRename, CanReach, CanBlank};

// About how often k goes into x, where `inverse` is about 2^32 / k. The contract only bounds it; callers verify the
// quotient.
fn quotient(inverse: usize, x: usize) -> usize
    requires { x < 4294967296 }
    ensures { result < 4294967296 }
{
    x * (inverse % 4294967296) / 4294967296
}

// The bucket of the page p, one of k. `inverse` is a hint, 2^32 / k: where p and k are below 2^32, `quotient` is then
// the quotient or one less, and the remainder comes without a division. Any other number gives the same answer, only
// slower.
//
// The difference may wrap, and one test, r < k, then tells both that the multiple was not past the page and that r is
// the remainder, since r + q k stays below 2^64 (`no_wrap`): two branches fewer than a test of each, 2 to 4 % of a hit
// (D66). Without the hint each lookup had a 64-bit division: 6 to 15 % of a batch's time (D60).
pub fn bucket_of(k: usize, inverse: usize, p: u64) -> usize
    requires { 0 < k }
    ensures { result ≡ bucket_of k p }
{
    let x = p as usize;
    if x < 4294967296 && k < 4294967296 {
        let t = quotient(inverse, x) * k;
        let r = std::num::wrapping_sub_usize(x, t);
        if r < k {
            return r;
        }
        let s = r - k;
        if s < k {
            return s;
        }
    }
    x % k
}

// A number of buckets, and what `belongs` needs to do without a division: the remainders of 2^22 and 2^44 by k, and how
// often k goes into 2^40.
#[derive(Clone, Copy)]
pub struct Divisor {
    pub k: usize,
    pub near: usize,
    pub far: usize,
    pub part: usize,
}

pub fn divisor_of(k: usize) -> Divisor
    requires { (0 < k) × (k ≤ 4096) }
    ensures { DivisorOf k result }
{
    let near = 4194304 % k;
    let far = 17592186044416 % k;
    let part = 1099511627776 / k;
    Divisor { k, near, far, part }
}

// A smaller number with the bucket of x: x in three digits of 22 bits, with `near` for 2^22 and `far` for 2^44. It is
// so small that a product with 2^40 / k gives the quotient for all but a few pages.
fn fold(d: Divisor, x: usize) -> usize
    requires { Divides d }
    ensures { Folded d x result }
{
    let upper = x / 4194304;
    let a = upper / 4194304 * d.far;
    let b = upper % 4194304 * d.near;
    a + b + x % 4194304
}

// Whether the page p belongs to bucket b. No remainder is computed: a guessed quotient q is held against q * k + b. It
// takes the same steps for any page; on the few pages where the guess is wrong it divides.
//
// For the state check (D68). With `bucket_of` in its place the check takes 4.4 to 5.5 sums where it now takes 3.8 to
// 3.9: more steps, and a division for pages of 2^32 or more. A shorter way for pages below 2^32 beside this one was a
// tenth faster for these and a tenth slower for the others. An inverse modulo 2^64 needs a product that wraps: the
// language has none.
pub fn belongs(d: Divisor, b: usize, p: u64) -> bool
    requires { Divides d × (b < d.k) }
    ensures { result ≡ (bucket_of d.k p == b) }
{
    let x = p as usize;
    let y = fold(d, x);
    let q = y * d.part / 1099511627776;
    let t = q * d.k;
    if t + b == y {
        return true;
    }
    x % d.k == b
}

// The hint for k buckets.
pub fn inverse_of(k: usize) -> usize
    requires { 0 < k }
    ensures { result ≡ inverse_of k }
{
    4294967296 / k
}

// How many buckets a lookup of capacity c has.
pub fn buckets_of(c: usize) -> usize
    requires { c ≤ 1024 }
    ensures { result ≡ buckets_of c }
{
    3 * c + 1
}

// The page of the place x.
pub fn page_of(w: &[u64], x: usize) -> u64
    requires { x < length w.now }
    ensures { result ≡ page_of w.now x }
{
    w[x]
}

// The cell after e.
pub fn next_of(w: &[u64], m: usize, e: usize) -> usize
    requires { CanReach w.now m e }
    ensures { result ≡ next_of (links_of m w.now) e }
{
    cells::next(&w[m..], e)
}

// The cell before e.
pub fn prev_of(w: &[u64], m: usize, e: usize) -> usize
    requires { CanReach w.now m e }
    ensures { result ≡ prev_of (links_of m w.now) e }
{
    cells::prev(&w[m..], e)
}

// Whether the place x is in no bucket.
pub fn dead(w: &[u64], m: usize, x: usize) -> bool
    requires { CanReach w.now m x }
    ensures { result ≡ (prev_of (links_of m w.now) x == x) }
{
    prev_of(w, m, x) == x
}

// The first place of p's bucket whose page is not below p, or the bucket's sentinel: where p is, or before which it
// belongs. A `while`, since it walks links and counts no index.
pub fn find(w: &[u64], m: usize, k: usize, inverse: usize, p: u64) -> usize
    requires { CanFind w.now m k p }
    ensures { result ≡ find_of w.now m k p }
{
    let s = m + bucket_of(k, inverse, p);
    let mut cur = next_of(w, m, s);
    while cur < m {
        if w[cur] < p {
            cur = next_of(w, m, cur);
        } else {
            return cur;
        }
    }
    s
}

// The place that has the page p, if one has it.
pub fn place_of(w: &[u64], m: usize, k: usize, inverse: usize, p: u64) -> Option<usize>
    requires { CanFind w.now m k p }
    ensures { result ≡ answered (look w.now m k p) }
{
    let f = find(w, m, k, inverse, p);
    if f < m && w[f] == p { Some(f) } else { None }
}

// The dead place y gets the page p and comes before f, which `find` gave. No bucket is computed.
pub fn put(w: &mut [u64], m: usize, f: usize, y: usize, p: u64)
    requires { CanPut w.old m f y }
    ensures { w.new ≡ put_in m f y p w.old }
{
    w[y] = p;
    rings::insert(&mut w[m..], f, y);
}

// Of the links: e leaves its ring and stands before itself.
fn unlink(l: &mut [u64], e: usize)
    requires { CanDetach l.old e }
    ensures { l.new ≡ unlinked e l.old }
{
    rings::detach(l, e);
    cells::set_prev(l, e, e);
}

// The place x leaves its bucket and is dead.
pub fn take(w: &mut [u64], m: usize, x: usize)
    requires { CanTake w.old m x }
    ensures { w.new ≡ taken m x w.old }
{
    unlink(&mut w[m..], x);
}

// Of the links: y takes the place of x in its ring, and x stands before itself.
fn hand_over(l: &mut [u64], x: usize, y: usize)
    requires { CanReplace l.old x y }
    ensures { l.new ≡ handed_over x y l.old }
{
    rings::replace(l, x, y);
    cells::set_prev(l, x, x);
}

// The page of the place x is now at the dead place y, where x stood; x is dead. There is no walk, and no bucket is
// computed.
pub fn rename(w: &mut [u64], m: usize, x: usize, y: usize)
    requires { CanRename w.old m x y }
    ensures { w.new ≡ renamed m x y w.old }
{
    w[y] = w[x];
    hand_over(&mut w[m..], x, y);
}

// Of the links: every cell below m stands before itself. The cell m, a sentinel, is there.
fn deaden(l: &mut [u64], m: usize)
    requires { In l.old m }
    ensures { l.new ≡ deadened m l.old }
{
    for i in 0..m {
        cells::set_prev(l, i, i);
    }
}

// Of the links: the rings of the k sentinels from m on have no members.
fn clear(l: &mut [u64], m: usize, k: usize)
    requires { CanBlank l.old m k }
    ensures { l.new ≡ cleared m k l.old }
{
    for i in 0..k {
        rings::empty(l, m + i);
    }
}

// Of the links: every cell below m stands before itself, and the k rings have no members.
fn wipe(l: &mut [u64], m: usize, k: usize)
    requires { CanBlank l.old m k }
    ensures { l.new ≡ blank m k l.old }
{
    deaden(l, m);
    clear(l, m, k);
}

// Every place is dead and every bucket empty, whatever the words were. The pages stay as they are: nothing reads the
// page of a dead place.
pub fn make(w: &mut [u64], m: usize, k: usize)
    requires { Room w.old m k }
    ensures { w.new ≡ made m k w.old }
{
    wipe(&mut w[m..], m, k);
}
