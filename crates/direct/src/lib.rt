// What follows `direct` in a mediaclk value: the clock, or the refusal of the first rule that is broken.
#![tactic(auto)]

ghost use Rattle.std.specs.Prelude.{◌≡◌};
ghost use Rattle.meaning.specs.Answer.{number_at};
ghost use Rattle.meaning.specs.MediaClock.{most32, denominator_of, ratio_of, rate_of, offset_of, direct_of};

use clock::Refusal;
use mediarecord::{Direct, Rate};
use part::Part;

// A number of 32 bits, or the refusal of all of its text.
#[tactic(auto, using(crate::proofs::Laws::laws))]
fn read_u32(p: Part, number: u8) -> Result<u32, Refusal>
    ensures { result ≡ number_at most32 number p.entry.at p.entry.text.now }
{
    let refusal = p.refused(number);
    number::read_number(p.text, u32::MAX).map_err(|_| refusal)
}

// A number, and not 0.
#[tactic(auto, using(crate::proofs::Laws::laws))]
fn read_denominator(p: Part) -> Result<u32, Refusal>
    ensures { result ≡ denominator_of p.entry.at p.entry.text.now }
{
    let denominator = read_u32(p, 18)?;
    if denominator == 0 {
        return Err(p.refused(18));
    }
    Ok(denominator)
}

// Behind `rate=`: the numerator up to the first `/`, then the denominator.
#[tactic(auto, using(crate::proofs::Laws::laws))]
fn read_ratio(p: Part) -> Result<Option<Rate>, Refusal>
    ensures { result ≡ ratio_of p.entry.at p.entry.text.now }
{
    let Some((numerator, denominator)) = p.split_once(b'/') else {
        return Err(p.refused(16));
    };
    let numerator = read_u32(numerator, 17)?;
    let denominator = read_denominator(denominator)?;
    Ok(Some(Rate {
        numerator,
        denominator,
    }))
}

// What is left of a direct clock: nothing, or `rate=`.
#[tactic(auto, using(crate::proofs::Laws::laws))]
fn read_rate(p: Part) -> Result<Option<Rate>, Refusal>
    ensures { result ≡ rate_of p.entry.at p.entry.text.now }
{
    if p.text.is_empty() {
        return Ok(None);
    }
    match p.strip_prefix(b"rate=") {
        Some(ratio) => read_ratio(ratio),
        None => Err(p.refused(15)),
    }
}

// Behind `direct=`: the offset up to the first space, and what is left behind that.
#[tactic(auto, using(crate::proofs::Laws::laws))]
fn read_offset(p: Part) -> Result<Direct, Refusal>
    ensures { result ≡ offset_of p.entry.at p.entry.text.now }
{
    let Some((offset, rate)) = p.split_once(b' ') else {
        let offset = Some(read_u32(p, 14)?);
        return Ok(Direct { offset, rate: None });
    };
    let offset = Some(read_u32(offset, 14)?);
    let rate = read_rate(rate)?;
    Ok(Direct { offset, rate })
}

// Nothing; or `=` and an offset; or a space. From a place of 32 bits on no place overflows, however long the text is.
#[tactic(auto, using(crate::proofs::Laws::laws))]
pub fn read_direct(p: &[u8], at: u32) -> Result<Direct, Refusal>
    ensures { result ≡ direct_of at p.now }
{
    let p = Part {
        text: p,
        at: at as usize,
    };
    if p.text.is_empty() {
        return Ok(Direct {
            offset: None,
            rate: None,
        });
    }
    if let Some(offset) = p.strip_prefix(b"=") {
        return read_offset(offset);
    }
    if let Some(rate) = p.strip_prefix(b" ") {
        let rate = read_rate(rate)?;
        return Ok(Direct { offset: None, rate });
    }
    Err(p.refused(15))
}
