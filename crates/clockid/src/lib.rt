// What follows `id=` in a mediaclk value, up to the first space: a tag, and whether `src:` stands before it.
#![tactic(auto)]

ghost use Rattle.std.specs.Prelude.{◌≡◌};
ghost use Rattle.meaning.specs.MediaClock.{tag_of, id_of};

use clock::Refusal;
use mediarecord::MediaClockId;
use part::Part;

// The tag must not be empty.
#[tactic(auto, using(crate::proofs::Laws::laws))]
fn read_tag(src: bool, p: Part) -> Result<MediaClockId, Refusal>
    ensures { result ≡ tag_of src p.entry.at p.entry.text.now }
{
    if p.text.is_empty() {
        return Err(p.refused(13));
    }
    Ok(MediaClockId {
        src,
        tag: p.place(),
    })
}

// `src:` sets the flag. The text starts at the place `at` of the whole value, which has 32 bits, so that no place overflows.
#[tactic(auto, using(crate::proofs::Laws::laws))]
pub fn read_id(p: &[u8], at: u32) -> Result<MediaClockId, Refusal>
    ensures { result ≡ id_of at p.now }
{
    let p = Part {
        text: p,
        at: at as usize,
    };
    match p.strip_prefix(b"src:") {
        Some(tag) => read_tag(true, tag),
        None => read_tag(false, p),
    }
}
