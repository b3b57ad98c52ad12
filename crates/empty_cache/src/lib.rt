// An empty cache in an area: made where any words may lie, and made again where a cache was. ARC's `new` and CAR's call this one with
// the kind 1 and 2. Each part is lent to the crate that it belongs to.
#![tactic(auto)]

ghost use Rattle.std.specs.Prelude.{◌≡◌, ◌/◌};
ghost use Rattle.rules.specs.Car.{new as new_state};
ghost use Rattle.residents.specs.Changes.{made as made_residents};
ghost use Rattle.ghosts.specs.Ghosts.{made as made_ghosts};
ghost use Rattle.lookup.specs.Buckets.{buckets_of, places_of};
ghost use Rattle.lookup.specs.Changes.{made as made_lookup};
ghost use Rattle.area_state.specs.Parts.{set_residents, set_ghosts, set_lookup};
ghost use Rattle.area_state.specs.Changes.{made as made_parts};
ghost use Rattle.area.specs.Area.{residents_in, ghosts_in, lookup_in, parts_of, Became};
ghost use Rattle.area.specs.Stored.{Stored, Left};
ghost use Rattle.empty_cache.specs.Fresh.{Fits, headed, Empty, New};

use refusals::Refusal;
use rules::Side;

// No residents: the free slots are 0, 1, 2 and so on.
fn make_residents(area: &mut [u64], c: usize)
    requires { Fits c area.old }
    ensures { Became c area.old area.new (set_residents (made_residents c (residents_in c area.old)) (parts_of c area.old)) }
{
    let b = area::B1_PER_FRAME * c + area::B1_BASE;
    residents::make(&mut area[area::HEADER..b], c);
}

// No ghosts of a side.
fn make_ghosts(area: &mut [u64], c: usize, s: Side)
    requires { Fits c area.old }
    ensures { Became c area.old area.new (set_ghosts s (made_ghosts c (ghosts_in s c area.old)) (parts_of c area.old)) }
{
    let a = area::ghosts_at(c, s);
    let b = a + area::GHOSTS_PER_FRAME * c + area::GHOSTS_BASE;
    ghosts::make(&mut area[a..b], c);
}

// A lookup that holds no place.
fn make_lookup(area: &mut [u64], c: usize)
    requires { Fits c area.old }
    ensures { Became c area.old area.new (set_lookup (made_lookup (places_of c) (buckets_of c) (lookup_in c area.old)) (parts_of c area.old)) }
{
    let a = area::LOOKUP_PER_FRAME * c + area::LOOKUP_BASE;
    let b = area::AREA_PER_FRAME * c + area::AREA_BASE;
    let m = 3 * c;
    let k = lookup::buckets_of(c);
    lookup::make(&mut area[a..b], m, k);
}

// All parts of an empty cache, and the target c / 2. Kind and capacity stay.
fn make_parts(area: &mut [u64], c: usize)
    requires { Fits c area.old }
    ensures { Became c area.old area.new (made_parts c (parts_of c area.old)) }
{
    make_residents(area, c);
    make_ghosts(area, c, Side::First);
    make_ghosts(area, c, Side::Second);
    make_lookup(area, c);
    let t = c / 2;
    area::set_target(area, c, t as u64);
}

// The kind and the capacity, and the hint for the lookup's buckets.
fn set_header(area: &mut [u64], kind: u64, c: usize)
    requires { Fits c area.old }
    ensures { area.new ≡ headed kind c area.old }
{
    area[0] = kind;
    area[1] = c as u64;
    let k = lookup::buckets_of(c);
    let inverse = lookup::inverse_of(k);
    area[3] = inverse as u64;
}

// The header, and an empty cache.
fn write(area: &mut [u64], kind: u64, c: usize)
    requires { Fits c area.old }
    ensures { Empty kind c area.old area.new }
{
    set_header(area, kind, c);
    make_parts(area, c);
}

// An empty cache of that kind and of capacity c, whatever the words are; refused are a capacity above 1,024, and then an area of fewer than 24c + 64 words.
pub fn new(area: &mut [u64], kind: u64, c: u64) -> Result<(), Refusal>
    ensures { New kind c area.old area.new result }
{
    if (area::MAX_CAPACITY as u64) < c {
        return Err(Refusal::Capacity);
    }
    let n = c as usize;
    let need = area::AREA_PER_FRAME * n + area::AREA_BASE;
    if area.len() < need {
        return Err(Refusal::Area);
    }
    write(area, kind, n);
    Ok(())
}

// The cache is empty again. Kind and capacity stay.
pub fn clear(area: &mut [u64], c: usize)
    requires { Stored c area.old }
    ensures { Left c area.old area.new (new_state c) }
{
    make_parts(area, c);
}
