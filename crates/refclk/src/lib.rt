// What a ts-refclk value reads as: the reading rules in their order.
#![tactic(auto)]

ghost use Rattle.std.specs.Prelude.{◌≡◌, false};
ghost use Rattle.text.specs.Word.{word, starts};
ghost use Rattle.meaning.specs.Domain.{bare};
ghost use Rattle.meaning.specs.ReferenceClock.{extension_clock_of, clock_of, read_reference_clock};

use clock::{ClockSourceExt, PrivateSource, ReferenceClock, Refusal};

// An extension: a name, and a value where there is one.
#[tactic(auto, using(crate::proofs::Laws::laws))]
fn read_extension(v: &[u8]) -> Result<ReferenceClock, Refusal>
    ensures { result ≡ extension_clock_of v.now }
{
    let e = extension::read_extension(v, 0, 11)?;
    Ok(ReferenceClock::Ext(ClockSourceExt {
        name: e.name,
        value: e.value,
    }))
}

// The whole words, else an extension: of a value that begins with neither `ntp=` nor `ptp=`.
fn read_word(v: &[u8]) -> Result<ReferenceClock, Refusal>
    requires { (starts (word "ntp=") v.now ≡ false) × (starts (word "ptp=") v.now ≡ false) }
    ensures { result ≡ clock_of bare v.now }
{
    if text::is_word(v, b"gps") {
        return Ok(ReferenceClock::Gps);
    }
    if text::is_word(v, b"gal") {
        return Ok(ReferenceClock::Gal);
    }
    if text::is_word(v, b"glonass") {
        return Ok(ReferenceClock::Glonass);
    }
    if text::is_word(v, b"local") {
        return Ok(ReferenceClock::Local);
    }
    if text::is_word(v, b"private") {
        return Ok(ReferenceClock::Private(PrivateSource::Standard));
    }
    if text::is_word(v, b"private:traceable") {
        return Ok(ReferenceClock::Private(PrivateSource::Traceable));
    }
    read_extension(v)
}

#[tactic(auto, using(crate::proofs::Laws::laws))]
fn read_clock(v: &[u8]) -> Result<ReferenceClock, Refusal>
    ensures { result ≡ clock_of bare v.now }
{
    if text::has_prefix(v, b"ntp=") {
        let server = ntp::read_ntp(&v[4..])?;
        return Ok(ReferenceClock::Ntp(clock::Ntp { server }));
    }
    if text::has_prefix(v, b"ptp=") {
        let source = ptp::read_ptp(&v[4..])?;
        return Ok(ReferenceClock::Ptp(source));
    }
    read_word(v)
}

// The guard first, then the rules.
#[tactic(auto, using(crate::proofs::Laws::laws))]
pub fn read_reference_clock(value: &[u8]) -> Result<ReferenceClock, Refusal>
    ensures { result ≡ read_reference_clock value.now }
{
    guard::check_value(value)?;
    read_clock(value)
}
