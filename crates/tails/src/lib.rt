// Cells and rings in the words of a part from word a on. A part keeps other words (counts, arrays) before its links, and each of
// these functions lends the links alone to `cells` or `rings`: the words before a stay as they were.
#![tactic(auto)]

ghost use Rattle.std.specs.Prelude.{◌≡◌, Bool, ℕ, ◌<◌};
ghost use Rattle.cells.specs.Cells.{In, next_of, prev_of, with_prev, CanLink};
ghost use Rattle.rings.specs.Rings.{inserted, detached, fronted, ended, replaced, emptied, filled, CanInsert, CanDetach, CanFront, CanEnd, CanReplace, CanFill};
ghost use Rattle.rings.specs.Walks.{between, ring_test, CanWalk, Tells};
ghost use Rattle.tails.specs.Tails.{tail_of, with_tail, Tail};

// The cell after e.
pub fn next(w: &[u64], a: usize, e: usize) -> usize
    requires { Tail w.now a (In (tail_of a w.now) e) }
    ensures { result ≡ next_of (tail_of a w.now) e }
{
    cells::next(&w[a..], e)
}

// The cell before e.
pub fn prev(w: &[u64], a: usize, e: usize) -> usize
    requires { Tail w.now a (In (tail_of a w.now) e) }
    ensures { result ≡ prev_of (tail_of a w.now) e }
{
    cells::prev(&w[a..], e)
}

// The cell before e is now x.
pub fn set_prev(w: &mut [u64], a: usize, e: usize, x: usize)
    requires { Tail w.old a (CanLink (tail_of a w.old) e x) }
    ensures { w.new ≡ with_tail a (with_prev (tail_of a w.old) e x) w.old }
{
    cells::set_prev(&mut w[a..], e, x);
}

// e, which is in no ring, comes before f.
pub fn insert(w: &mut [u64], a: usize, f: usize, e: usize)
    requires { Tail w.old a (CanInsert (tail_of a w.old) f e) }
    ensures { w.new ≡ with_tail a (inserted f e (tail_of a w.old)) w.old }
{
    rings::insert(&mut w[a..], f, e);
}

// e leaves its ring.
pub fn detach(w: &mut [u64], a: usize, e: usize)
    requires { Tail w.old a (CanDetach (tail_of a w.old) e) }
    ensures { w.new ≡ with_tail a (detached e (tail_of a w.old)) w.old }
{
    rings::detach(&mut w[a..], e);
}

// e leaves its ring and comes to the front of the ring of s.
pub fn to_front(w: &mut [u64], a: usize, s: usize, e: usize)
    requires { Tail w.old a (CanFront (tail_of a w.old) s e) }
    ensures { w.new ≡ with_tail a (fronted s e (tail_of a w.old)) w.old }
{
    rings::to_front(&mut w[a..], s, e);
}

// e leaves its ring and comes to the end of the ring of s.
pub fn to_end(w: &mut [u64], a: usize, s: usize, e: usize)
    requires { Tail w.old a (CanEnd (tail_of a w.old) s e) }
    ensures { w.new ≡ with_tail a (ended s e (tail_of a w.old)) w.old }
{
    rings::to_end(&mut w[a..], s, e);
}

// y, which is in no ring, takes the place of x.
pub fn replace(w: &mut [u64], a: usize, x: usize, y: usize)
    requires { Tail w.old a (CanReplace (tail_of a w.old) x y) }
    ensures { w.new ≡ with_tail a (replaced x y (tail_of a w.old)) w.old }
{
    rings::replace(&mut w[a..], x, y);
}

// The ring of s has no members.
pub fn empty(w: &mut [u64], a: usize, s: usize)
    requires { Tail w.old a (In (tail_of a w.old) s) }
    ensures { w.new ≡ with_tail a (emptied s (tail_of a w.old)) w.old }
{
    rings::empty(&mut w[a..], s);
}

// The ring of s has all members, in rising order.
pub fn fill(w: &mut [u64], a: usize, m: usize, s: usize)
    requires { Tail w.old a (CanFill (tail_of a w.old) m s) }
    ensures { w.new ≡ with_tail a (filled s m (tail_of a w.old)) w.old }
{
    rings::fill(&mut w[a..], m, s);
}

// Whether the ring of s has exactly n members, for any words.
pub fn check(w: &[u64], a: usize, m: usize, s: usize, n: usize) -> bool
    requires { Tail w.now a (CanWalk (tail_of a w.now) m s) }
    ensures { result ≡ ring_test (tail_of a w.now) m s n }
{
    rings::check(&w[a..], m, s, n)
}

// Whether the ring of s has exactly n members, and each passes the test, for any words.
pub fn walk<F: Fn(usize) -> bool>(
    w: &[u64],
    a: usize,
    m: usize,
    s: usize,
    n: usize,
    test: F,
) -> bool
    requires walk { Tail w.now a (CanWalk (tail_of a w.now) m s) }
    requires asked { (e : ℕ) → e < m → F.pre test e }
    ensures { (T : ℕ → Bool) → Tells (F.post test) m T → result ≡ between (tail_of a w.now) m T n s s }
{
    rings::walk(&w[a..], m, s, n, test)
}
