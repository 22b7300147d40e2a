// Places in order: by file, then by byte.
ghost use Rattle.std.specs.Prelude.{◌≡◌};
ghost use Rattle.cdl_classes.specs.Places as spec;

use cdl_source::Place;

// Whether the first does not stand behind the second.
fn not_after(a: Place, b: Place) -> bool
    ensures { result ≡ spec.not_after a b }
{
    a.file < b.file || (a.file == b.file && a.byte <= b.byte)
}

// The one that stands first.
pub fn soonest(a: Place, b: Place) -> Place
    ensures { result ≡ spec.soonest a b }
{
    if not_after(a, b) { a } else { b }
}

// The one that stands last.
pub fn latest(a: Place, b: Place) -> Place
    ensures { result ≡ spec.latest a b }
{
    if not_after(a, b) { b } else { a }
}

// The first place so far.
pub fn sooner(first: Option<Place>, place: Place) -> Option<Place>
    ensures { result ≡ spec.sooner first place }
{
    match first {
        None => Some(place),
        Some(known) => Some(soonest(known, place)),
    }
}
