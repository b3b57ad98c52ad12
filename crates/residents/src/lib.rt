// The residents of a cache of capacity c in their part of the area. A slot holds a resident or is free.
//
//     | count T1 | count T2 | count free | frame 0 .. | list 0 .. | bit 0 .. | slot 0 .. slot c-1 | T1 | T2 | free |
//
// After three counts and three arrays of c words come the links of the slots and of the sentinels of three rings. Lists
// are numbered, 0 for T1, 1 for T2 and 2 for the free slots, so that T1 and T2 are served by the same code. Pages stand
// elsewhere: whoever calls keeps the page of each slot. How a change of the words changes the three lists is said by
// the laws of proofs/Moves.antt.
#![tactic(auto)]

ghost use Rattle.std.specs.Prelude.{◌≡◌, ◌+◌, ◌*◌, ◌<◌};
ghost use Rattle.tails.specs.Tails.{with_tail};
ghost use Rattle.cells.specs.Cells.{next_of, prev_of};
ghost use Rattle.rings.specs.Rings.{CanFront, CanEnd};
ghost use Rattle.residents.specs.Residents.{links_of, count_of, frame_of, list_of, bit_of, Room};
ghost use Rattle.residents.specs.Changes.{with_frame, with_list, with_bit, with_slot, recounted, shifted_front, shifted_end, CanRecount, CanShift, promoted, sent_back, freed, added_front, added_end, Added, fresh_links, made, IsResident, CanAdd, CanExchange, HasSlot, HasList};
ghost use Rattle.residents.specs.Tests.{counts_test, ring_at, slot_test, side_test, residents_test};

// How many slots list i has.
pub fn count(w: &[u64], c: usize, i: usize) -> usize
    requires { HasList w.now c i }
    ensures { result ≡ count_of w.now i }
{
    w[i] as usize
}

// The first slot of list i, where it has one: of T1 and T2 the newest, or that at the hand; of the free slots the one
// taken next.
pub fn first(w: &[u64], c: usize, i: usize) -> usize
    requires { HasList w.now c i }
    ensures { result ≡ next_of (links_of c w.now) (c + i) }
{
    let a = 3 + 3 * c;
    let s = c + i;
    tails::next(w, a, s)
}

// The last slot of list i, where it has one.
pub fn last(w: &[u64], c: usize, i: usize) -> usize
    requires { HasList w.now c i }
    ensures { result ≡ prev_of (links_of c w.now) (c + i) }
{
    let a = 3 + 3 * c;
    let s = c + i;
    tails::prev(w, a, s)
}

// The cell after slot e: the next slot of its list, or, past the last, the sentinel of the list.
pub fn next(w: &[u64], c: usize, e: usize) -> usize
    requires { HasSlot w.now c e }
    ensures { result ≡ next_of (links_of c w.now) e }
{
    let a = 3 + 3 * c;
    tails::next(w, a, e)
}

// The frame, the list number and the reference bit of slot e.
pub fn frame(w: &[u64], c: usize, e: usize) -> u64
    requires { HasSlot w.now c e }
    ensures { result ≡ frame_of w.now e }
{
    w[3 + e]
}

pub fn list(w: &[u64], c: usize, e: usize) -> usize
    requires { HasSlot w.now c e }
    ensures { result ≡ list_of w.now c e }
{
    w[3 + c + e] as usize
}

pub fn bit(w: &[u64], c: usize, e: usize) -> u64
    requires { HasSlot w.now c e }
    ensures { result ≡ bit_of w.now c e }
{
    w[3 + 2 * c + e]
}

pub fn set_frame(w: &mut [u64], c: usize, e: usize, f: u64)
    requires { HasSlot w.old c e }
    ensures { w.new ≡ with_frame e f w.old }
{
    w[3 + e] = f;
}

fn set_list(w: &mut [u64], c: usize, e: usize, i: usize)
    requires { HasSlot w.old c e }
    ensures { w.new ≡ with_list c e i w.old }
{
    w[3 + c + e] = i as u64;
}

pub fn set_bit(w: &mut [u64], c: usize, e: usize, b: u64)
    requires { HasSlot w.old c e }
    ensures { w.new ≡ with_bit c e b w.old }
{
    w[3 + 2 * c + e] = b;
}

fn set_slot(w: &mut [u64], c: usize, e: usize, f: u64, i: usize, b: u64)
    requires { HasSlot w.old c e }
    ensures { w.new ≡ with_slot c e f i b w.old }
{
    set_frame(w, c, e, f);
    set_list(w, c, e, i);
    set_bit(w, c, e, b);
}

// The counts, where a slot goes from list i to list j. Where it stays in its list, as most that are hit do, they stay
// too: a hit in T2 took one from a count and put it back, two stores to one word, each waiting for the one before.
// Worth a seventh of a hit where all pages are in T2, and nothing measurable elsewhere (D61).
fn recount(w: &mut [u64], c: usize, i: usize, j: usize)
    requires { CanRecount w.old c i j }
    ensures { w.new ≡ recounted i j w.old }
{
    if i == j {
        return;
    }
    w[i] = w[i] - 1;
    w[j] = w[j] + 1;
}

// Slot e goes from list i to the front of list j. Its words stay. Front and end stay two functions, here and in those
// built on these: each asks and promises by words of its own (CanFront and fronted, CanEnd and ended), which area and
// store cite, and a caller always knows the end: a parameter would have each contract ask which end it is.
fn shift_front(w: &mut [u64], c: usize, i: usize, j: usize, e: usize)
    requires { CanShift w.old c i j (CanFront (links_of c w.old) (c + j) e) }
    ensures { w.new ≡ shifted_front c i j e w.old }
{
    let a = 3 + 3 * c;
    let s = c + j;
    recount(w, c, i, j);
    tails::to_front(w, a, s, e);
}

// Slot e goes from list i to the end of list j. Its words stay.
fn shift_end(w: &mut [u64], c: usize, i: usize, j: usize, e: usize)
    requires { CanShift w.old c i j (CanEnd (links_of c w.old) (c + j) e) }
    ensures { w.new ≡ shifted_end c i j e w.old }
{
    let a = 3 + 3 * c;
    let s = c + j;
    recount(w, c, i, j);
    tails::to_end(w, a, s, e);
}

// The resident of slot e comes to the front of T2. Where it is there already, nothing is written (`promote_stays`):
// worth 8 to 12 % of ARC's time on hits (D65).
pub fn promote(w: &mut [u64], c: usize, e: usize)
    requires { IsResident w.old c e }
    ensures { w.new ≡ promoted c e w.old }
{
    if first(w, c, 1) == e {
        return;
    }
    let i = list(w, c, e);
    shift_front(w, c, i, 1, e);
    set_list(w, c, e, 1);
}

// The resident of slot e goes to the end of T2, and its bit is cleared.
pub fn send_back(w: &mut [u64], c: usize, e: usize)
    requires { IsResident w.old c e }
    ensures { w.new ≡ sent_back c e w.old }
{
    let i = list(w, c, e);
    shift_end(w, c, i, 1, e);
    set_list(w, c, e, 1);
    set_bit(w, c, e, 0);
}

// The resident of slot e leaves: the slot comes to the top of the free ones.
pub fn free(w: &mut [u64], c: usize, e: usize)
    requires { IsResident w.old c e }
    ensures { w.new ≡ freed c e w.old }
{
    let i = list(w, c, e);
    shift_front(w, c, i, 2, e);
}

// A new resident at the front of list j, in the top free slot, which is the answer.
pub fn add_front(w: &mut [u64], c: usize, j: usize, f: u64, b: u64) -> usize
    requires { CanAdd w.old c j }
    ensures { Added w.old w.new c result (added_front c j f b w.old) }
{
    let e = first(w, c, 2);
    shift_front(w, c, 2, j, e);
    set_slot(w, c, e, f, j, b);
    e
}

// A new resident at the end of list j, in the top free slot, which is the answer.
pub fn add_end(w: &mut [u64], c: usize, j: usize, f: u64, b: u64) -> usize
    requires { CanAdd w.old c j }
    ensures { Added w.old w.new c result (added_end c j f b w.old) }
{
    let e = first(w, c, 2);
    shift_end(w, c, 2, j, e);
    set_slot(w, c, e, f, j, b);
    e
}

// The resident of slot e leaves, and a new one comes in its slot, at the front of list j: what `free` and then
// `add_front` leave, word for word (`shifted_through`), without the way through the free slots.
pub fn exchange_front(w: &mut [u64], c: usize, e: usize, j: usize, f: u64, b: u64)
    requires { CanExchange w.old c e j }
    ensures { w.new ≡ added_front c j f b (freed c e w.old) }
{
    let i = list(w, c, e);
    shift_front(w, c, i, j, e);
    set_slot(w, c, e, f, j, b);
}

// The same at the end of list j: what `free` and then `add_end` leave.
pub fn exchange_end(w: &mut [u64], c: usize, e: usize, j: usize, f: u64, b: u64)
    requires { CanExchange w.old c e j }
    ensures { w.new ≡ added_end c j f b (freed c e w.old) }
{
    let i = list(w, c, e);
    shift_end(w, c, i, j, e);
    set_slot(w, c, e, f, j, b);
}

// The links of no residents: the free slots are 0, 1, 2 and so on.
fn make_links(w: &mut [u64], c: usize)
    requires { Room w.old c }
    ensures { w.new ≡ with_tail (3 + 3 * c) (fresh_links c (links_of c w.old)) w.old }
{
    let a = 3 + 3 * c;
    let s = c + 1;
    let t = c + 2;
    tails::empty(w, a, c);
    tails::empty(w, a, s);
    tails::fill(w, a, c, t);
}

// No residents, whatever the words were. The words of the slots stay.
pub fn make(w: &mut [u64], c: usize)
    requires { Room w.old c }
    ensures { w.new ≡ made c w.old }
{
    make_links(w, c);
    w[0] = 0;
    w[1] = 0;
    w[2] = c as u64;
}

fn check_counts(w: &[u64], c: usize) -> bool
    requires { Room w.now c }
    ensures { result ≡ counts_test w.now c }
{
    let t1 = w[0] as usize;
    let t2 = w[1] as usize;
    let free = w[2] as usize;
    if c < t1 {
        return false;
    }
    if c < t2 {
        return false;
    }
    if c < free {
        return false;
    }
    t1 + t2 + free == c
}

fn check_ring(w: &[u64], c: usize, i: usize) -> bool
    requires { HasList w.now c i }
    ensures { result ≡ ring_at w.now c i }
{
    let a = 3 + 3 * c;
    let s = c + i;
    let n = w[i] as usize;
    tails::check(w, a, c, s, n)
}

fn check_slot(w: &[u64], c: usize, i: usize, e: usize) -> bool
    requires { HasSlot w.now c e }
    ensures { result ≡ slot_test w.now c i e }
{
    if list(w, c, e) != i {
        return false;
    }
    if frame(w, c, e) < 4294967296 {
        bit(w, c, e) < 2
    } else {
        false
    }
}

// Whether list i is a ring with as many slots as counted, each of which holds a resident of it.
fn check_side(w: &[u64], c: usize, i: usize) -> bool
    requires { HasList w.now c i × (i < 2) }
    ensures { result ≡ side_test w.now c i }
{
    let a = 3 + 3 * c;
    let s = c + i;
    let n = w[i] as usize;
    tails::walk(w, a, c, s, n, |e| check_slot(w, c, i, e))
}

// Whether the words, whatever they are, hold the residents of a cache of capacity c.
pub fn check(w: &[u64], c: usize) -> bool
    requires { Room w.now c }
    ensures { result ≡ residents_test w.now c }
{
    check_counts(w, c) && check_side(w, c, 0) && check_side(w, c, 1) && check_ring(w, c, 2)
}
