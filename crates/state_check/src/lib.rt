// The exact check of an area, for any words of any length: whether they are a writing of a well-formed state of that kind (1 ARC, 2 CAR).
//
// Each ring is walked from both ends, each bucket of the lookup once. A place of the lookup that belongs to a free slot or to a spare cell has to be
// dead: then the lookup, which holds as many places as the lists have, holds exactly theirs. All is linear in the capacity whatever the
// words are.
#![tactic(auto)]

ghost use Rattle.std.specs.Prelude.{◌≡◌, ◌+◌, ◌*◌, ◌<◌};
ghost use Rattle.rings.specs.Rings.{members_of};
ghost use Rattle.tails.specs.Tails.{tail_of};
ghost use Rattle.residents.specs.Residents.{count_of as resident_count, lists_of, IsResidents};
ghost use Rattle.residents.specs.Tests.{residents_test};
ghost use Rattle.ghosts.specs.Ghosts.{count_of as ghost_count, spare_of, ghosts_test};
ghost use Rattle.lookup.specs.Buckets.{buckets_of, places_of};
ghost use Rattle.lookup_check.specs.Check.{lookup_test};
ghost use Rattle.area_state.specs.Parts.{number_of};
ghost use Rattle.area.specs.Area.{residents_in, ghosts_in, lookup_in, parts_of, Fit};
ghost use Rattle.state_check.specs.Check.{Fits, Listed, Few, CanTellAll, CanSpare, deads_test, live_count, row_count, lists_test, held_test, dead_test, sums_test, parts_test, state_test};

use rules::Side;

// Whether each of the n members of the ring of s, in the words of w from a on, is a dead place of the lookup k, once
// `from` is added to it.
fn ring_dead(w: &[u64], a: usize, k: &[u64], c: usize, s: usize, from: usize, n: usize) -> bool
    requires { CanTellAll w.now a k.now c s from n }
    ensures { result ≡ deads_test k.now (places_of c) from (members_of (tail_of a w.now) c s) }
{
    let m = 3 * c;
    tails::walk(w, a, c, s, n, |x| lookup::dead(k, m, from + x))
}

// Whether the places of the free slots are dead.
fn free_dead(area: &[u64], c: usize) -> bool
    requires { Fit c area.now (IsResidents (residents_in c area.now) c) }
    ensures { result ≡ deads_test (lookup_in c area.now) (places_of c) 0 (lists_of (residents_in c area.now) c 2) }
{
    let b = area::B1_PER_FRAME * c + area::B1_BASE;
    let l = area::LOOKUP_PER_FRAME * c + area::LOOKUP_BASE;
    let e = area::AREA_PER_FRAME * c + area::AREA_BASE;
    let a = 3 + 3 * c;
    let s = c + 2;
    let n = area::resident_part::count(area, c, 2);
    ring_dead(&area[area::HEADER..b], a, &area[l..e], c, s, 0, n)
}

// Whether the places of the spare cells of a ghost list are dead; `from` is the place of its first cell.
fn spare_dead(area: &[u64], c: usize, side: Side, from: usize) -> bool
    requires { CanSpare c area.now side from }
    ensures { result ≡ deads_test (lookup_in c area.now) (places_of c) from (spare_of (ghosts_in side c area.now) c) }
{
    let a = area::ghosts_at(c, side);
    let b = a + area::GHOSTS_PER_FRAME * c + area::GHOSTS_BASE;
    let l = area::LOOKUP_PER_FRAME * c + area::LOOKUP_BASE;
    let e = area::AREA_PER_FRAME * c + area::AREA_BASE;
    let s = c + 1;
    let n = area::ghost_parts::count(area, c, side);
    let m = c - n;
    ring_dead(&area[a..b], 1, &area[l..e], c, s, from, m)
}

// Whether the words of one part are what they have to be.
fn check_residents(area: &[u64], c: usize) -> bool
    requires { Fits c area.now }
    ensures { result ≡ residents_test (residents_in c area.now) c }
{
    let b = area::B1_PER_FRAME * c + area::B1_BASE;
    residents::check(&area[area::HEADER..b], c)
}

fn check_ghosts(area: &[u64], c: usize, side: Side) -> bool
    requires { Fits c area.now }
    ensures { result ≡ ghosts_test (ghosts_in side c area.now) c }
{
    let a = area::ghosts_at(c, side);
    let b = a + area::GHOSTS_PER_FRAME * c + area::GHOSTS_BASE;
    ghosts::check(&area[a..b], c)
}

fn check_lookup(area: &[u64], c: usize, live: usize) -> bool
    requires { Fits c area.now }
    ensures { result ≡ lookup_test (lookup_in c area.now) (places_of c) (buckets_of c) live }
{
    let a = area::LOOKUP_PER_FRAME * c + area::LOOKUP_BASE;
    let b = area::AREA_PER_FRAME * c + area::AREA_BASE;
    let m = 3 * c;
    let k = lookup::buckets_of(c);
    lookup_check::check(&area[a..b], m, k, live)
}

// The residents and both ghost lists.
fn check_lists(area: &[u64], c: usize) -> bool
    requires { Fits c area.now }
    ensures { result ≡ lists_test c (parts_of c area.now) }
{
    check_residents(area, c)
        && check_ghosts(area, c, Side::First)
        && check_ghosts(area, c, Side::Second)
}

// How many slots T1 or T2 has, and how many cells a ghost list.
fn slots(area: &[u64], c: usize, side: Side) -> usize
    requires { Listed c area.now }
    ensures { Few (resident_count (residents_in c area.now) (number_of side)) result }
{
    let l = area::resident_part::number(side);
    area::resident_part::count(area, c, l)
}

fn cells(area: &[u64], c: usize, side: Side) -> usize
    requires { Listed c area.now }
    ensures { Few (ghost_count (ghosts_in side c area.now)) result }
{
    area::ghost_parts::count(area, c, side)
}

// How many pages T1 and B1 have together, and how many all four lists.
fn row(area: &[u64], c: usize) -> usize
    requires { Listed c area.now }
    ensures { result ≡ row_count (parts_of c area.now) }
{
    let t1 = slots(area, c, Side::First);
    let b1 = cells(area, c, Side::First);
    t1 + b1
}

fn live(area: &[u64], c: usize) -> usize
    requires { Listed c area.now }
    ensures { result ≡ live_count (parts_of c area.now) }
{
    let t1 = slots(area, c, Side::First);
    let t2 = slots(area, c, Side::Second);
    let b1 = cells(area, c, Side::First);
    let b2 = cells(area, c, Side::Second);
    t1 + t2 + b1 + b2
}

// The lookup, which holds as many places as the four lists have.
fn check_held(area: &[u64], c: usize) -> bool
    requires { Listed c area.now }
    ensures { result ≡ held_test c (parts_of c area.now) }
{
    let n = live(area, c);
    check_lookup(area, c, n)
}

// The places of free slots and spare cells are dead.
fn check_dead(area: &[u64], c: usize) -> bool
    requires { Listed c area.now }
    ensures { result ≡ dead_test c (parts_of c area.now) }
{
    let from = 2 * c;
    free_dead(area, c)
        && spare_dead(area, c, Side::First, c)
        && spare_dead(area, c, Side::Second, from)
}

// What ARC asks of the lengths besides.
fn check_sums(area: &[u64], c: usize) -> bool
    requires { Listed c area.now }
    ensures { result ≡ sums_test 1 c (parts_of c area.now) }
{
    let n = row(area, c);
    if c + 1 < n {
        return false;
    }
    live(area, c) <= 2 * c + 1
}

// The parts together. The lookup comes last: nothing then has to be kept over the loop that takes the longest. It is called in two places, so that the compiler keeps it a function of its own,
// with all registers for that loop.
fn check_parts(area: &[u64], kind: u64, c: usize) -> bool
    requires { Fits c area.now }
    ensures { result ≡ parts_test kind c (parts_of c area.now) }
{
    if !check_lists(area, c) {
        return false;
    }
    if !check_dead(area, c) {
        return false;
    }
    if kind != 1 {
        return check_held(area, c);
    }
    check_sums(area, c) && check_held(area, c)
}

// Whether the words, whatever they are, are a writing of a well-formed state of that kind.
pub fn check(area: &[u64], kind: u64) -> bool
    ensures { result ≡ state_test kind area.now }
{
    let n = area.len();
    if n < 64 {
        return false;
    }
    if area[0] != kind {
        return false;
    }
    let c = area[1] as usize;
    if area::MAX_CAPACITY < c {
        return false;
    }
    let need = area::AREA_PER_FRAME * c + area::AREA_BASE;
    if n < need {
        return false;
    }
    let t = area[2] as usize;
    if c < t {
        return false;
    }
    check_parts(area, kind, c)
}
