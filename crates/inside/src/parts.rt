// What the records of both attributes share: a place, and an extension's name and value.
ghost use Rattle.std.specs.Prelude.{◌≡◌, ◌&&◌};
ghost use Rattle.meaning.specs.Inside.{inside, value_inside};

use text::Place;

// Whether a place lies inside the value. The two are compared without a sum, which could overflow.
pub(crate) fn is_inside(value: &[u8], p: Place) -> bool
    ensures { result ≡ inside value.now p }
{
    let n = value.len();
    p.start <= n && p.len <= n - p.start
}

fn is_value_inside(value: &[u8], given: Option<Place>) -> bool
    ensures { result ≡ value_inside value.now given }
{
    given.is_none_or(|p| is_inside(value, p))
}

pub(crate) fn is_extension_inside(value: &[u8], name: Place, given: Option<Place>) -> bool
    ensures { result ≡ (inside value.now name && value_inside value.now given) }
{
    is_inside(value, name) && is_value_inside(value, given)
}
