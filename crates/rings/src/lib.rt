// Rings: circular doubly linked lists over the cells of a lent part of words. The cells below m are members of at most
// one ring each, the cells from m on are the rings' sentinels. A ring starts and ends at its sentinel, so that no
// change has a branch. A ring keeps no count: who needs one keeps it beside the cells.
//
// A change is stated as a function of the words (specs/Rings.antt). What it means for the rings is said by the laws:
// for one ring and for another beside it in proofs/Ring.antt and Moves.antt, for a family of rings in Family.antt.
#![tactic(auto)]

ghost use Rattle.std.specs.Prelude.{◌≡◌, Bool, true, ℕ, ◌<◌};
ghost use Rattle.cells.specs.Cells.{In, next_of, prev_of};
ghost use Rattle.rings.specs.Rings.{placed, inserted, detached, fronted, ended, replaced, emptied, linked, filled, CanPlace, CanInsert, CanDetach, CanFront, CanEnd, CanReplace, CanFill};
ghost use Rattle.rings.specs.Walks.{joined, ahead, behind, between, ring_test, CanWalk, CanStep, Tells};

// e, which is in no ring, comes between p and f. Nothing is read: a move to the front of a ring knows its sentinel, and
// waits for no load of it.
fn place(w: &mut [u64], p: usize, f: usize, e: usize)
    requires { CanPlace w.old p f e }
    ensures { w.new ≡ placed p f e w.old }
{
    cells::set_next(w, e, f);
    cells::set_prev(w, e, p);
    cells::set_prev(w, f, e);
    cells::set_next(w, p, e);
}

// e, which is in no ring, comes before f, a member or a sentinel: before the sentinel is the end.
pub fn insert(w: &mut [u64], f: usize, e: usize)
    requires { CanInsert w.old f e }
    ensures { w.new ≡ inserted f e w.old }
{
    let p = cells::prev(w, f);
    place(w, p, f, e);
}

// e leaves its ring. Its own two numbers stay.
pub fn detach(w: &mut [u64], e: usize)
    requires { CanDetach w.old e }
    ensures { w.new ≡ detached e w.old }
{
    let p = cells::prev(w, e);
    let n = cells::next(w, e);
    cells::set_next(w, p, n);
    cells::set_prev(w, n, p);
}

// e leaves its ring and comes to the front of the ring of s, which may be its own. `insert` would read the cell before
// the first member, which is s: each move then waited for two loads of words that the move before it had stored. That
// the two are one is `first_back`. Worth a quarter of ARC's time where every page is hit, 1 % on the trace of git
// (D69).
pub fn to_front(w: &mut [u64], s: usize, e: usize)
    requires { CanFront w.old s e }
    ensures { w.new ≡ fronted s e w.old }
{
    detach(w, e);
    let f = cells::next(w, s);
    place(w, s, f, e);
}

// e leaves its ring and comes to the end of the ring of s, which may be its own. Not one function with `to_front`: the
// two ask other things (CanFront, CanEnd), and of two short bodies one reads what the other need not.
pub fn to_end(w: &mut [u64], s: usize, e: usize)
    requires { CanEnd w.old s e }
    ensures { w.new ≡ ended s e w.old }
{
    detach(w, e);
    insert(w, s, e);
}

// y, which is in no ring, takes the place of x in its ring. Four stores would do; by the two calls the proof is theirs.
pub fn replace(w: &mut [u64], x: usize, y: usize)
    requires { CanReplace w.old x y }
    ensures { w.new ≡ replaced x y w.old }
{
    let n = cells::next(w, x);
    detach(w, x);
    insert(w, n, y);
}

// The ring of s has no members.
pub fn empty(w: &mut [u64], s: usize)
    requires { In w.old s }
    ensures { w.new ≡ emptied s w.old }
{
    cells::set_next(w, s, s);
    cells::set_prev(w, s, s);
}

// b now stands after a.
fn link(w: &mut [u64], a: usize, b: usize)
    requires { In w.old a × In w.old b }
    ensures { w.new ≡ linked a b w.old }
{
    cells::set_next(w, a, b);
    cells::set_prev(w, b, a);
}

// The ring of s has all members, in rising order. Any words may lie there before. p is the cell before i.
pub fn fill(w: &mut [u64], m: usize, s: usize)
    requires { CanFill w.old m s }
    ensures { w.new ≡ filled s m w.old }
{
    let mut p = s;
    for i in 0..m {
        link(w, p, i);
        p = i;
    }
    link(w, p, s);
}

// Whether b stands after a, by both links.
pub fn joins(w: &[u64], a: usize, b: usize) -> bool
    requires { In w.now a × In w.now b }
    ensures { result ≡ joined w.now a b }
{
    cells::next(w, a) == b && cells::prev(w, b) == a
}

// Whether a member of the ring of s that passes the test stands after a, and whether one stands before b, by both
// links.
fn leads<F: Fn(usize) -> bool>(w: &[u64], m: usize, s: usize, a: usize, test: &F) -> bool
    requires step { CanStep w.now m s a }
    requires asked { (e : ℕ) → e < m → F.pre test.now e }
    ensures member { result ≡ true → next_of w.now a < m }
    ensures told { (T : ℕ → Bool) → Tells (F.post test.now) m T → result ≡ ahead w.now m T a }
{
    let x = cells::next(w, a);
    x < m && cells::prev(w, x) == a && test(x)
}

fn trails<F: Fn(usize) -> bool>(w: &[u64], m: usize, s: usize, b: usize, test: &F) -> bool
    requires step { CanStep w.now m s b }
    requires asked { (e : ℕ) → e < m → F.pre test.now e }
    ensures member { result ≡ true → prev_of w.now b < m }
    ensures told { (T : ℕ → Bool) → Tells (F.post test.now) m T → result ≡ behind w.now m T b }
{
    let y = cells::prev(w, b);
    y < m && cells::next(w, y) == b && test(y)
}

// Whether the ring of s has exactly n members, and each passes the test, for any words. It is walked from both ends at
// once, a from the front and b from the end: a step waits for the one before it, and so two walks of half the members
// take half the time. Each link is held against the link back, so that no cell is passed twice.
pub fn walk<F: Fn(usize) -> bool>(w: &[u64], m: usize, s: usize, n: usize, test: F) -> bool
    requires walk { CanWalk w.now m s }
    requires asked { (e : ℕ) → e < m → F.pre test e }
    ensures { (T : ℕ → Bool) → Tells (F.post test) m T → result ≡ between w.now m T n s s }
{
    let mut a = s;
    let mut b = s;
    for k in 0..n / 2 {
        if leads(w, m, s, a, &test) && trails(w, m, s, b, &test) {
            a = cells::next(w, a);
            b = cells::prev(w, b);
        } else {
            return false;
        }
    }
    if n % 2 == 0 {
        return joins(w, a, b);
    }
    if leads(w, m, s, a, &test) {
        let x = cells::next(w, a);
        joins(w, x, b)
    } else {
        false
    }
}

// Whether the ring of s has exactly n members, for any words.
pub fn check(w: &[u64], m: usize, s: usize, n: usize) -> bool
    requires { CanWalk w.now m s }
    ensures { result ≡ ring_test w.now m s n }
{
    walk(w, m, s, n, |_| true)
}
