// An extension of either attribute, a name and perhaps a value: read from a text, and put as text into lent room.
#![tactic(auto)]

ghost use Rattle.std.specs.Prelude.{◌≡◌, ◌++◌, ◌+◌, ◌*◌, length};
ghost use Rattle.text.specs.Place.{bytes_at};
ghost use Rattle.meaning.specs.Answer.{extension_of};
ghost use Rattle.meaning.specs.Meaning.{value_means};
ghost use Rattle.meaning.specs.Text.{value_text};
ghost use Rattle.room.specs.Put.{Put};
ghost use Rattle.extension.specs.Parts.{extension_of_parts};

use clock::Refusal;
use part::Part;
use text::Place;

// The parts of an extension, of which each attribute makes its own record.
#[derive(Clone, Copy)]
pub struct Extension {
    pub name: Place,
    pub value: Option<Place>,
}

// The name before the first `=`, the value after it. The text starts at the place `at` of the whole value, and an empty name is refused with `number`.
#[tactic(auto, using(crate::proofs::Laws::laws))]
pub fn read_extension(p: &[u8], at: u32, number: u8) -> Result<Extension, Refusal>
    ensures { result ≡ extension_of extension_of_parts number at p.now }
{
    let p = Part {
        text: p,
        at: at as usize,
    };
    let (name, value) = match p.split_once(b'=') {
        Some((name, value)) => (name, Some(value.place())),
        None => (p, None),
    };
    if name.text.is_empty() {
        return Err(name.refused(number));
    }
    Ok(Extension {
        name: name.place(),
        value,
    })
}

// `=` and the value, where there is one.
fn put_value(room: &mut [u8], at: usize, value: &[u8], given: Option<Place>) -> usize
    ensures { Put (length value.now + 1) room.old at (value_text (value_means value.now given)) result room.new }
{
    match given {
        None => at,
        Some(p) => {
            let to = room::put_byte(room, at, b'=');
            room::put_part(room, to, value, p)
        }
    }
}

// The name, and the value where there is one: at most all of the text twice, and the `=`.
pub fn put_extension(
    room: &mut [u8],
    at: usize,
    value: &[u8],
    name: Place,
    given: Option<Place>,
) -> usize
    ensures { Put (2 * length value.now + 1) room.old at
        (bytes_at name value.now ++ value_text (value_means value.now given)) result room.new }
{
    let to = room::put_part(room, at, value, name);
    put_value(room, to, value, given)
}
