// The items of an input: each two octets of length, the low one first, and that many octets.
ghost use Rattle.std.specs.Prelude.{◌<◌, ◌≤◌};

// A number of two octets, the low one first, and 0 past the end.
pub fn pair(octets: &[u8], at: usize) -> u16 {
    if octets.len() <= at {
        return 0;
    }
    octets::double(octets::octet(octets, at + 1), octets::octet(octets, at))
}

pub fn size(octets: &[u8], at: usize) -> usize
    ensures { result ≤ 65535 }
{
    usize::from(pair(octets, at))
}

// The octets of a part, and none where it is not there.
pub fn part(octets: &[u8], start: usize, len: usize) -> &[u8] {
    octets.get(start..start.saturating_add(len)).unwrap_or(&[])
}

// Where the first item is, and how many works are to be done on the items in turn.
#[derive(Clone, Copy)]
pub struct Works {
    pub first: usize,
    pub count: u64,
}

// Where the octets of the item at hand begin and end.
#[derive(Clone, Copy)]
struct Place {
    start: usize,
    end: usize,
}

// The next item; past the last, the first again.
fn next(items: &[u8], first: usize, place: Place) -> Place {
    let at = if place.end < items.len() {
        place.end
    } else {
        first
    };
    let len = size(items, at);
    if items.len() <= at || items.len() - at < len + 2 {
        return Place {
            start: items.len(),
            end: items.len(),
        };
    }
    Place {
        start: at + 2,
        end: at + 2 + len,
    }
}

// Changes an octet of an item, where it is there: the one at a place, or the last.
fn change(items: &mut [u8], place: Place, at: Option<usize>, acc: u64) {
    let at = match at {
        Some(at) => place.start.saturating_add(at),
        None => place.end.saturating_sub(1),
    };
    if place.start <= at && at < place.end && at < items.len() {
        items[at] = crate::fold::low(acc);
    }
}

fn octets_of(items: &[u8], place: Place) -> &[u8] {
    if place.end < place.start || items.len() < place.end {
        return &items[..0];
    }
    &items[place.start..place.end]
}

// What the works make of the items, folded.
pub fn each<W: FnMut(u64, &[u8]) -> u64>(items: &[u8], works: Works, mut work: W) -> u64
    requires { (w : _) (acc : _) (item : _) → W.pre w acc item }
{
    let mut acc = crate::fold::FIRST;
    let mut place = Place {
        start: works.first,
        end: works.first,
    };
    for _ in 0..works.count {
        place = next(items, works.first, place);
        acc = work(acc, octets_of(items, place));
    }
    acc
}

// The same, where an octet of each item is changed first, so that no work is like the one before.
pub fn each_changed<W: FnMut(u64, &[u8]) -> u64>(
    items: &mut [u8],
    works: Works,
    at: Option<usize>,
    mut work: W,
) -> u64
    requires { (w : _) (acc : _) (item : _) → W.pre w acc item }
{
    let mut acc = crate::fold::FIRST;
    let mut place = Place {
        start: works.first,
        end: works.first,
    };
    for _ in 0..works.count {
        place = next(items, works.first, place);
        change(items, place, at, acc);
        acc = work(acc, octets_of(items, place));
    }
    acc
}
