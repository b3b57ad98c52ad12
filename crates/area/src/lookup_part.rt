// The lookup's part of an area. Word 3 of the header has the hint for its buckets, which no answer depends on.
ghost use Rattle.std.specs.Prelude.{◌≡◌, ◌+◌, ◌*◌, ◌<◌, ◌≤◌, eqb};
ghost use Rattle.cells.specs.Cells.{prev_of};
ghost use Rattle.lookup.specs.Buckets.{buckets_of, places_of};
ghost use Rattle.lookup.specs.Part.{page_of, links_of};
ghost use Rattle.lookup.specs.Lookup.{find_of, look, answered, CanFind};
ghost use Rattle.lookup.specs.Changes.{put_in, taken, renamed, CanPut, CanTake, CanRename};
ghost use Rattle.area_state.specs.Parts.{set_lookup};
ghost use Rattle.area.specs.Area.{lookup_in, lookup_words, parts_of, Fit, Became};

use std::ops::Range;

// Where the part lies.
pub fn words(c: usize) -> Range<usize>
    requires { c ≤ 1024 }
    ensures { result ≡ lookup_words c }
{
    super::LOOKUP_PER_FRAME * c + super::LOOKUP_BASE..super::AREA_PER_FRAME * c + super::AREA_BASE
}

// Where the page x is, or before which it belongs.
pub fn find(area: &[u64], c: usize, x: u64) -> usize
    requires { Fit c area.now (CanFind (lookup_in c area.now) (places_of c) (buckets_of c) x) }
    ensures { result ≡ find_of (lookup_in c area.now) (places_of c) (buckets_of c) x }
{
    let m = 3 * c;
    let k = lookup::buckets_of(c);
    let inverse = area[3] as usize;
    lookup::find(&area[words(c)], m, k, inverse, x)
}

// The place of the page x, if it has one.
pub fn place_of(area: &[u64], c: usize, x: u64) -> Option<usize>
    requires { Fit c area.now (CanFind (lookup_in c area.now) (places_of c) (buckets_of c) x) }
    ensures { result ≡ answered (look (lookup_in c area.now) (places_of c) (buckets_of c) x) }
{
    let m = 3 * c;
    let k = lookup::buckets_of(c);
    let inverse = area[3] as usize;
    lookup::place_of(&area[words(c)], m, k, inverse, x)
}

// The page of the place y.
pub fn page(area: &[u64], c: usize, y: usize) -> u64
    requires { Fit c area.now (y < 3 * c) }
    ensures { result ≡ page_of (lookup_in c area.now) y }
{
    lookup::page_of(&area[words(c)], y)
}

// Whether the place y is dead: it stands before itself.
pub fn dead(area: &[u64], c: usize, y: usize) -> bool
    requires { Fit c area.now (y < 3 * c) }
    ensures { result ≡ eqb (prev_of (links_of (places_of c) (lookup_in c area.now)) y) y }
{
    lookup::dead(&area[words(c)], 3 * c, y)
}

// The dead place y gets the page x and comes before f, which `find` gave.
pub fn put(area: &mut [u64], c: usize, f: usize, y: usize, x: u64)
    requires { Fit c area.old (CanPut (lookup_in c area.old) (places_of c) f y) }
    ensures { Became c area.old area.new (set_lookup (put_in (places_of c) f y x (lookup_in c area.old)) (parts_of c area.old)) }
{
    lookup::put(&mut area[words(c)], 3 * c, f, y, x);
}

// The place y is dead.
pub fn take(area: &mut [u64], c: usize, y: usize)
    requires { Fit c area.old (CanTake (lookup_in c area.old) (places_of c) y) }
    ensures { Became c area.old area.new (set_lookup (taken (places_of c) y (lookup_in c area.old)) (parts_of c area.old)) }
{
    lookup::take(&mut area[words(c)], 3 * c, y);
}

// The page of the place y is at the dead place z; y is dead.
pub fn rename(area: &mut [u64], c: usize, y: usize, z: usize)
    requires { Fit c area.old (CanRename (lookup_in c area.old) (places_of c) y z) }
    ensures { Became c area.old area.new (set_lookup (renamed (places_of c) y z (lookup_in c area.old)) (parts_of c area.old)) }
{
    lookup::rename(&mut area[words(c)], 3 * c, y, z);
}
