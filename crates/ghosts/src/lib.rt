// One ghost list of capacity c in its part of the area: the count, then the links of c cells and of two sentinels.
//
//     | count | cell 0 | .. | cell c-1 | list | spare |
//
// The cells of the list, newest first, are one ring; the cells that are free are another. Pages stand elsewhere: whoever calls
// keeps the page of each cell. How a change of the words changes the two lists is said by the laws of proofs/Laws.antt.
#![tactic(auto)]

ghost use Rattle.std.specs.Prelude.{◌≡◌};
ghost use Rattle.cells.specs.Cells.{prev_of};
ghost use Rattle.ghosts.specs.Ghosts.{Room, Counted, count_of, links_of, CanRecord, CanForget, record_cell, Recorded, forgotten, made, ghosts_test};

// How many cells the list has.
pub fn count(w: &[u64], c: usize) -> usize
    requires { Room w.now c }
    ensures { result ≡ count_of w.now }
{
    w[0] as usize
}

// The oldest cell of the list, where it has one.
pub fn oldest(w: &[u64], c: usize) -> usize
    requires { Room w.now c }
    ensures { result ≡ prev_of (links_of w.now) c }
{
    tails::prev(w, 1, c)
}

// The cell that is given next, where the list has n cells: the oldest where it is full, else a spare one.
fn pick(w: &[u64], c: usize, n: u64) -> usize
    requires { Counted w.now c n }
    ensures { result ≡ record_cell c w.now }
{
    if c as u64 <= n {
        return tails::prev(w, 1, c);
    }
    let s = c + 1;
    tails::next(w, 1, s)
}

// A cell for a page that is recorded. It comes to the front of the list; where it was a spare one the list has one more.
// One `to_front` for both, so that the compiler takes it in (D64).
pub fn record(w: &mut [u64], c: usize) -> usize
    requires { CanRecord w.old c }
    ensures { Recorded w.old w.new c result }
{
    let n = w[0];
    let e = pick(w, c, n);
    tails::to_front(w, 1, c, e);
    if n < c as u64 {
        w[0] = n + 1;
        return e;
    }
    e
}

// The cell e of the list goes to the spares.
pub fn forget(w: &mut [u64], c: usize, e: usize)
    requires { CanForget w.old c e }
    ensures { w.new ≡ forgotten c e w.old }
{
    let n = w[0];
    let s = c + 1;
    tails::to_front(w, 1, s, e);
    w[0] = n - 1;
}

// An empty list, whatever the words were.
pub fn make(w: &mut [u64], c: usize)
    requires { Room w.old c }
    ensures { w.new ≡ made c w.old }
{
    let s = c + 1;
    tails::empty(w, 1, c);
    tails::fill(w, 1, c, s);
    w[0] = 0;
}

// Whether the words, whatever they are, hold a ghost list of capacity c.
pub fn check(w: &[u64], c: usize) -> bool
    requires { Room w.now c }
    ensures { result ≡ ghosts_test w.now c }
{
    let n = w[0] as usize;
    if c < n {
        return false;
    }
    if tails::check(w, 1, c, c, n) {
        let s = c + 1;
        tails::check(w, 1, c, s, c - n)
    } else {
        false
    }
}
