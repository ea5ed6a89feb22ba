// Octets of an area of the page by their counts. They may fall into two parts: up to the area's end, and on from its start.
// Reading and writing lend the page in two ways, `&` and `&mut`, so each has its own function for the parts and for a run.
#![tactic(auto)]

ghost use Rattle.std.specs.Prelude.{◌≡◌, ◌+◌, ◌≤◌};
ghost use Rattle.octets.specs.Prelude.{length, take, drop, sets};
ghost use Rattle.page.specs.Page.{area_size, octets_in, put};

use page::AREA;

// Fills `into` with the octets of the area that stands at `area`, from `count` on.
pub fn read_area(page: &[u8], area: usize, count: u32, into: &mut [u8])
    requires { (area + area_size ≤ length page.now) × (length into.old ≤ area_size) }
    ensures { into.new ≡ octets_in area page.now count (length into.old) }
{
    let n = into.len();
    let place = (count % AREA) as usize;
    let room = AREA as usize - place;
    if n <= room {
        read_run(page, area + place, into);
    } else {
        read_run(page, area + place, &mut into[0..room]);
        read_run(page, area, &mut into[room..n]);
    }
}

// Fills `into` with the octets of the page from `at` on.
fn read_run(page: &[u8], at: usize, into: &mut [u8])
    requires { at + length into.old ≤ length page.now }
    ensures { into.new ≡ take (length into.old) (drop at page.now) }
{
    let n = into.len();
    octets::copy(into, &page[at..at + n]);
}

// Puts `from` into the area that stands at `area`, from `count` on.
pub fn write_area(page: &mut [u8], area: usize, count: u32, from: &[u8])
    requires { (area + area_size ≤ length page.old) × (length from.now ≤ area_size) }
    ensures { page.new ≡ put area page.old count from.now }
{
    let n = from.len();
    let place = (count % AREA) as usize;
    let room = AREA as usize - place;
    if n <= room {
        write_run(page, area + place, from);
    } else {
        write_run(page, area + place, &from[0..room]);
        write_run(page, area, &from[room..n]);
    }
}

// Puts `from` into the page from `at` on.
fn write_run(page: &mut [u8], at: usize, from: &[u8])
    requires { at + length from.now ≤ length page.old }
    ensures { page.new ≡ sets page.old at from.now }
{
    let n = from.len();
    octets::copy(&mut page[at..at + n], from);
}
