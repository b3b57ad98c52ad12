// The residents' part of an area. A list is a number here, 0, 1 or 2: a slot's word holds it, its sentinel is cell
// c + i, and list 2, of the free slots, is no side's.
ghost use Rattle.std.specs.Prelude.{◌≡◌, ◌+◌, ◌*◌, ◌<◌, ◌≤◌};
ghost use Rattle.cells.specs.Cells.{next_of, prev_of};
ghost use Rattle.residents.specs.Residents.{links_of, count_of, frame_of, list_of, bit_of};
ghost use Rattle.residents.specs.Changes.{with_frame, with_bit, promoted, sent_back, freed, top_of, added_front, added_end, IsResident, CanAdd, CanExchange};
ghost use Rattle.area_state.specs.Parts.{number_of, set_residents};
ghost use Rattle.area.specs.Area.{residents_in, residents_words, parts_of, Fit, Became, Answered};

use rules::Side;
use std::ops::Range;

// Where the part lies.
pub fn words(c: usize) -> Range<usize>
    requires { c ≤ 1024 }
    ensures { result ≡ residents_words c }
{
    super::HEADER..super::B1_PER_FRAME * c + super::B1_BASE
}

// The number of the list of a side: 0 for T1, 1 for T2.
pub fn number(s: Side) -> usize
    ensures { result ≡ number_of s }
{
    match s {
        Side::First => 0,
        Side::Second => 1,
    }
}

// How many slots list i has.
pub fn count(area: &[u64], c: usize, i: usize) -> usize
    requires { Fit c area.now (i < 3) }
    ensures { result ≡ count_of (residents_in c area.now) i }
{
    residents::count(&area[words(c)], c, i)
}

// The first slot of list i, and the last, where it has one.
pub fn first(area: &[u64], c: usize, i: usize) -> usize
    requires { Fit c area.now (i < 3) }
    ensures { result ≡ next_of (links_of c (residents_in c area.now)) (c + i) }
{
    residents::first(&area[words(c)], c, i)
}

pub fn last(area: &[u64], c: usize, i: usize) -> usize
    requires { Fit c area.now (i < 3) }
    ensures { result ≡ prev_of (links_of c (residents_in c area.now)) (c + i) }
{
    residents::last(&area[words(c)], c, i)
}

// The cell after slot e: the next slot of its list, or, past the last of list i, c + i.
pub fn next(area: &[u64], c: usize, e: usize) -> usize
    requires { Fit c area.now (e < c) }
    ensures { result ≡ next_of (links_of c (residents_in c area.now)) e }
{
    residents::next(&area[words(c)], c, e)
}

// The frame, the list number and the reference bit of slot e.
pub fn frame(area: &[u64], c: usize, e: usize) -> u64
    requires { Fit c area.now (e < c) }
    ensures { result ≡ frame_of (residents_in c area.now) e }
{
    residents::frame(&area[words(c)], c, e)
}

pub fn list(area: &[u64], c: usize, e: usize) -> usize
    requires { Fit c area.now (e < c) }
    ensures { result ≡ list_of (residents_in c area.now) c e }
{
    residents::list(&area[words(c)], c, e)
}

pub fn bit(area: &[u64], c: usize, e: usize) -> u64
    requires { Fit c area.now (e < c) }
    ensures { result ≡ bit_of (residents_in c area.now) c e }
{
    residents::bit(&area[words(c)], c, e)
}

// The frame, or the bit, of slot e is set.
pub fn set_frame(area: &mut [u64], c: usize, e: usize, f: u64)
    requires { Fit c area.old (e < c) }
    ensures { Became c area.old area.new (set_residents (with_frame e f (residents_in c area.old)) (parts_of c area.old)) }
{
    residents::set_frame(&mut area[words(c)], c, e, f);
}

pub fn set_bit(area: &mut [u64], c: usize, e: usize, bit: u64)
    requires { Fit c area.old (e < c) }
    ensures { Became c area.old area.new (set_residents (with_bit c e bit (residents_in c area.old)) (parts_of c area.old)) }
{
    residents::set_bit(&mut area[words(c)], c, e, bit);
}

// The resident of slot e comes to the front of T2.
pub fn promote(area: &mut [u64], c: usize, e: usize)
    requires { Fit c area.old (IsResident (residents_in c area.old) c e) }
    ensures { Became c area.old area.new (set_residents (promoted c e (residents_in c area.old)) (parts_of c area.old)) }
{
    residents::promote(&mut area[words(c)], c, e);
}

// The resident of slot e goes to the end of T2, and its bit is cleared.
pub fn send_back(area: &mut [u64], c: usize, e: usize)
    requires { Fit c area.old (IsResident (residents_in c area.old) c e) }
    ensures { Became c area.old area.new (set_residents (sent_back c e (residents_in c area.old)) (parts_of c area.old)) }
{
    residents::send_back(&mut area[words(c)], c, e);
}

// The resident of slot e leaves: its slot is the top free one.
pub fn free(area: &mut [u64], c: usize, e: usize)
    requires { Fit c area.old (IsResident (residents_in c area.old) c e) }
    ensures { Became c area.old area.new (set_residents (freed c e (residents_in c area.old)) (parts_of c area.old)) }
{
    residents::free(&mut area[words(c)], c, e);
}

// A new resident at the front, or at the end, of list j, in the top free slot, which is the answer.
pub fn add_front(area: &mut [u64], c: usize, j: usize, f: u64, bit: u64) -> usize
    requires { Fit c area.old (CanAdd (residents_in c area.old) c j) }
    ensures { Answered c area.old area.new result (top_of c (residents_in c area.old)) (set_residents (added_front c j f bit (residents_in c area.old)) (parts_of c area.old)) }
{
    residents::add_front(&mut area[words(c)], c, j, f, bit)
}

pub fn add_end(area: &mut [u64], c: usize, j: usize, f: u64, bit: u64) -> usize
    requires { Fit c area.old (CanAdd (residents_in c area.old) c j) }
    ensures { Answered c area.old area.new result (top_of c (residents_in c area.old)) (set_residents (added_end c j f bit (residents_in c area.old)) (parts_of c area.old)) }
{
    residents::add_end(&mut area[words(c)], c, j, f, bit)
}

// The resident of slot e leaves, and a new one comes in its slot, at the front, or at the end, of list j.
pub fn exchange_front(area: &mut [u64], c: usize, e: usize, j: usize, f: u64, bit: u64)
    requires { Fit c area.old (CanExchange (residents_in c area.old) c e j) }
    ensures { Became c area.old area.new (set_residents (added_front c j f bit (freed c e (residents_in c area.old))) (parts_of c area.old)) }
{
    residents::exchange_front(&mut area[words(c)], c, e, j, f, bit);
}

pub fn exchange_end(area: &mut [u64], c: usize, e: usize, j: usize, f: u64, bit: u64)
    requires { Fit c area.old (CanExchange (residents_in c area.old) c e j) }
    ensures { Became c area.old area.new (set_residents (added_end c j f bit (freed c e (residents_in c area.old))) (parts_of c area.old)) }
{
    residents::exchange_end(&mut area[words(c)], c, e, j, f, bit);
}
