// One area as a store of residents and ghosts: the operations that both policies are made of. Each asks that the area
// holds a cache of capacity c, and leaves one; what it does to the state that the area reads as is said in the rules'
// own words (area_state/specs/States.antt). No policy is known here, and no link.
#![tactic(auto)]

ghost use Rattle.std.specs.Prelude.{◌≡◌, ◌+◌, ◌<◌, ◌≤◌, ltb, length, get_or};
ghost use Rattle.rules.specs.State.{list, ghosts};
ghost use Rattle.rules.specs.Car.{taken as slot_taken};
ghost use Rattle.area_state.specs.States.{resident_at, framed_at, marked_at, aimed_at, fronted_at, ended_at, removed_at, evicted_at, forgot_at, entered_at_front, entered_at_end};
ghost use Rattle.area_state.specs.Parts.{number_of, ghost_place};
ghost use Rattle.area.specs.Stored.{Stored, state_in, Left};
ghost use Rattle.store.specs.Store.{IsSlot, AnySlot, HasGhost, FoundIs, Evicts, CanEnter, HasSome, FirstIs, LastIs, slots_at, NextIs, HasOldest, dropped_at, Names, GivesPlace, CanExchange};

use rules::Side;

// Where a page is: a resident by its slot, a ghost of B1 or of B2 by its cell, or in no list. Flat, and no Option of
// three cases: an enum inside an enum is kept in memory (D64).
#[derive(Clone, Copy)]
pub enum Found {
    Resident(usize),
    InB1(usize),
    InB2(usize),
    Nowhere,
}

// A resident that is put out, by its page and its frame.
#[derive(Clone, Copy)]
pub struct Out {
    pub page: u64,
    pub frame: u32,
}

// Where the page x is.
pub fn find(area: &[u64], c: usize, x: u64) -> Found
    requires { Stored c area.now }
    ensures { FoundIs c area.now x result }
{
    let Some(y) = area::lookup_part::place_of(area, c, x) else {
        return Found::Nowhere;
    };
    if y < c {
        return Found::Resident(y);
    }
    let d = 2 * c;
    if y < d {
        return Found::InB1(y - c);
    }
    Found::InB2(y - d)
}

// The lengths of T1 or T2, and of the ghost list of a side.
pub fn listed(area: &[u64], c: usize, i: Side) -> usize
    requires { Stored c area.now }
    ensures { result ≡ length (list i (state_in c area.now).lists) }
{
    let l = area::resident_part::number(i);
    area::resident_part::count(area, c, l)
}

pub fn recorded(area: &[u64], c: usize, i: Side) -> usize
    requires { Stored c area.now }
    ensures { result ≡ length (ghosts i (state_in c area.now).lists) }
{
    area::ghost_parts::count(area, c, i)
}

// The frame, the bit and the page of the resident of slot e.
pub fn frame(area: &[u64], c: usize, e: usize) -> u32
    requires { IsSlot c area.now e }
    ensures { result ≡ (resident_at e (state_in c area.now)).frame }
{
    area::resident_part::frame(area, c, e) as u32
}

pub fn referenced(area: &[u64], c: usize, e: usize) -> bool
    requires { IsSlot c area.now e }
    ensures { result ≡ (resident_at e (state_in c area.now)).more.bit }
{
    area::resident_part::bit(area, c, e) == 1
}

pub fn page(area: &[u64], c: usize, e: usize) -> u64
    requires { IsSlot c area.now e }
    ensures { result ≡ (resident_at e (state_in c area.now)).page }
{
    area::lookup_part::page(area, c, e)
}

// The first slot of T1 or T2, and the last, where the list has one.
pub fn first(area: &[u64], c: usize, i: Side) -> usize
    requires { HasSome c area.now i }
    ensures { FirstIs c area.now i result }
{
    let l = area::resident_part::number(i);
    area::resident_part::first(area, c, l)
}

pub fn last(area: &[u64], c: usize, i: Side) -> usize
    requires { HasSome c area.now i }
    ensures { LastIs c area.now i result }
{
    let l = area::resident_part::number(i);
    area::resident_part::last(area, c, l)
}

// The slots of a list one after the other: the first, and the one after e; past the last comes c and the number of
// the list, which is no slot.
pub fn start(area: &[u64], c: usize, i: Side) -> usize
    requires { Stored c area.now }
    ensures { result ≡ get_or (slots_at i c area.now) 0 (c + number_of i) }
{
    let l = area::resident_part::number(i);
    area::resident_part::first(area, c, l)
}

pub fn next(area: &[u64], c: usize, e: usize) -> usize
    requires { IsSlot c area.now e }
    ensures { NextIs c area.now e result }
{
    area::resident_part::next(area, c, e)
}

// Whether slot e holds a resident.
pub fn taken(area: &[u64], c: usize, e: usize) -> bool
    requires { Stored c area.now × (e < c) }
    ensures { result ≡ ltb 0 (slot_taken e (state_in c area.now).lists) }
{
    !area::lookup_part::dead(area, c, e)
}

// The target is t.
pub fn set_target(area: &mut [u64], c: usize, t: u64)
    requires { Stored c area.old × (t ≤ c) }
    ensures { Left c area.old area.new (aimed_at t (state_in c area.old)) }
{
    area::set_target(area, c, t);
}

// The resident of slot e gets the frame f.
pub fn set_frame(area: &mut [u64], c: usize, e: usize, f: u32)
    requires { IsSlot c area.old e }
    ensures { Left c area.old area.new (framed_at e f (state_in c area.old)) }
{
    area::resident_part::set_frame(area, c, e, f as u64);
}

// Its reference bit is set to b.
pub fn set_bit(area: &mut [u64], c: usize, e: usize, b: bool)
    requires { IsSlot c area.old e }
    ensures { Left c area.old area.new (marked_at e b (state_in c area.old)) }
{
    area::resident_part::set_bit(area, c, e, b as u64);
}

// It comes to the front of T2.
pub fn to_front(area: &mut [u64], c: usize, e: usize)
    requires { IsSlot c area.old e }
    ensures { Left c area.old area.new (fronted_at e (state_in c area.old)) }
{
    area::resident_part::promote(area, c, e);
}

// It goes to the end of T2, its bit cleared.
pub fn to_end(area: &mut [u64], c: usize, e: usize)
    requires { IsSlot c area.old e }
    ensures { Left c area.old area.new (ended_at e (state_in c area.old)) }
{
    area::resident_part::send_back(area, c, e);
}

// It leaves, and its slot is the top free one. Ghost lists are unchanged.
pub fn remove(area: &mut [u64], c: usize, e: usize)
    requires { IsSlot c area.old e }
    ensures { Left c area.old area.new (removed_at e (state_in c area.old)) }
{
    area::resident_part::free(area, c, e);
    area::lookup_part::take(area, c, e);
}

// The place in the lookup of cell g of a side's ghost list.
pub fn ghost_place(c: usize, i: Side, g: usize) -> usize
    requires { (c ≤ 1024) × (g < c) }
    ensures { result ≡ ghost_place i c g }
{
    match i {
        Side::First => c + g,
        Side::Second => 2 * c + g,
    }
}

// The page of cell g of a side's ghost list leaves it.
pub fn forget(area: &mut [u64], c: usize, i: Side, g: usize, x: u64)
    requires { HasGhost c area.old i g x }
    ensures { Left c area.old area.new (forgot_at i x (state_in c area.old)) }
{
    area::ghost_parts::forget(area, c, i, g);
    let y = ghost_place(c, i, g);
    area::lookup_part::take(area, c, y);
}

// The oldest page of a side's ghost list leaves it.
pub fn drop_oldest(area: &mut [u64], c: usize, i: Side)
    requires { HasOldest c area.old i }
    ensures { Left c area.old area.new (dropped_at i (state_in c area.old)) }
{
    let g = area::ghost_parts::oldest(area, c, i);
    area::ghost_parts::forget(area, c, i, g);
    let y = ghost_place(c, i, g);
    area::lookup_part::take(area, c, y);
}

// A new resident of page x, in the top free slot: at the front, or at the end, of the list of side j. Two functions,
// here and in `exchange_front` and `exchange_end`: one with the end as an argument would need an enum, a match on it in a
// hot call and the states by cases, to spare three lines.
pub fn enter_front(area: &mut [u64], c: usize, j: Side, x: u64, f: u32, b: bool)
    requires { CanEnter c area.old x }
    ensures { Left c area.old area.new (entered_at_front j x f b (state_in c area.old)) }
{
    let place = area::lookup_part::find(area, c, x);
    let l = area::resident_part::number(j);
    let e = area::resident_part::add_front(area, c, l, f as u64, b as u64);
    area::lookup_part::put(area, c, place, e, x);
}

pub fn enter_end(area: &mut [u64], c: usize, j: Side, x: u64, f: u32, b: bool)
    requires { CanEnter c area.old x }
    ensures { Left c area.old area.new (entered_at_end j x f b (state_in c area.old)) }
{
    let place = area::lookup_part::find(area, c, x);
    let l = area::resident_part::number(j);
    let e = area::resident_part::add_end(area, c, l, f as u64, b as u64);
    area::lookup_part::put(area, c, place, e, x);
}

// The resident of slot e, as one that is put out.
fn name(area: &[u64], c: usize, e: usize) -> Out
    requires { IsSlot c area.now e }
    ensures { Names c area.now e result }
{
    let page = area::lookup_part::page(area, c, e);
    let frame = area::resident_part::frame(area, c, e) as u32;
    Out { page, frame }
}

// The ghost list of side i gives a cell for a page that is to be recorded. The answer is the cell's place. Where the
// list was full it is that of its oldest page, which leaves the lookup.
fn make_place(area: &mut [u64], c: usize, i: Side) -> usize
    requires { AnySlot c area.old i }
    ensures { GivesPlace c area.old area.new i result }
{
    let n = area::ghost_parts::count(area, c, i);
    let g = area::ghost_parts::record(area, c, i);
    let y = ghost_place(c, i, g);
    if n == c {
        area::lookup_part::take(area, c, y);
        return y;
    }
    y
}

// The resident of slot e, which stands in the list of side i, is put out, and its page is recorded in the ghost list of
// that side; page and frame are the answer. The page x takes the slot: at the front, or at the end, of the list of side j.
//
// It leaves what an eviction and then an entry would leave, word for word (`front_through` in rings, `shifted_through`
// in residents), without the way of the slot through the free ring: eight stores and two counts. Worth 5 to 17 % of a
// batch that evicts (D63).
pub fn exchange_front(
    area: &mut [u64],
    c: usize,
    i: Side,
    e: usize,
    j: Side,
    x: u64,
    f: u32,
    b: bool,
) -> Out
    requires { CanExchange c area.old i e x }
    ensures { Evicts c area.old area.new e result (entered_at_front j x f b (evicted_at i e (state_in c area.old))) }
{
    let out = name(area, c, e);
    let y = make_place(area, c, i);
    area::lookup_part::rename(area, c, e, y);
    let place = area::lookup_part::find(area, c, x);
    let l = area::resident_part::number(j);
    area::resident_part::exchange_front(area, c, e, l, f as u64, b as u64);
    area::lookup_part::put(area, c, place, e, x);
    out
}

pub fn exchange_end(
    area: &mut [u64],
    c: usize,
    i: Side,
    e: usize,
    j: Side,
    x: u64,
    f: u32,
    b: bool,
) -> Out
    requires { CanExchange c area.old i e x }
    ensures { Evicts c area.old area.new e result (entered_at_end j x f b (evicted_at i e (state_in c area.old))) }
{
    let out = name(area, c, e);
    let z = make_place(area, c, i);
    area::lookup_part::rename(area, c, e, z);
    let place = area::lookup_part::find(area, c, x);
    let l = area::resident_part::number(j);
    area::resident_part::exchange_end(area, c, e, l, f as u64, b as u64);
    area::lookup_part::put(area, c, place, e, x);
    out
}
