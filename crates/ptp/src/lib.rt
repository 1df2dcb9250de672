// What follows `ptp=` in a ts-refclk value: the source, or the refusal of the first rule that is broken.
#![tactic(auto)]

ghost use Rattle.std.specs.Prelude.{◌≡◌, false};
ghost use Rattle.text.specs.Word.{word, same};
ghost use Rattle.meaning.specs.Answer.{empty};
ghost use Rattle.meaning.specs.Domain.{bare};
ghost use Rattle.meaning.specs.ReferenceClock.{version_of, gmid_of, server_of, ptp_of};

use clock::{Eui64, Ptp, PtpDomain, PtpServer, PtpVersion, Refusal};
use part::Part;

// What AES67 and SMPTE ST 2110 name is asked for first.
fn read_version(p: Part) -> Result<PtpVersion, Refusal>
    ensures { result ≡ version_of p.entry.at p.entry.text.now }
{
    if p.text.is_empty() {
        return Err(p.refused(7));
    }
    if text::is_word(p.text, b"IEEE1588-2008") {
        return Ok(PtpVersion::Ieee1588_2008);
    }
    if text::is_word(p.text, b"IEEE1588-2002") {
        return Ok(PtpVersion::Ieee1588_2002);
    }
    if text::is_word(p.text, b"IEEE802.1AS-2011") {
        return Ok(PtpVersion::Ieee8021As_2011);
    }
    Ok(PtpVersion::Ext(p.place()))
}

// Of exactly 16 bytes a name, else a number. The one place where a domain is read.
#[tactic(auto, using(crate::proofs::Laws::laws))]
fn read_domain(p: Part) -> Result<PtpDomain, Refusal>
    ensures { result ≡ bare.read p.entry.at p.entry.text.now }
{
    if p.text.len() == 16 {
        return Ok(PtpDomain::DomainName { name: p.place() });
    }
    let refusal = p.refused(10);
    let number = number::read_number(p.text, 127).map_err(|_| refusal)?;
    Ok(PtpDomain::DomainNumber(number as u8))
}

#[tactic(auto, using(crate::proofs::Laws::laws))]
fn read_gmid(p: Part) -> Result<Eui64, Refusal>
    ensures { result ≡ gmid_of p.entry.at p.entry.text.now }
{
    let refusal = p.refused(9);
    let id = eui64::read_eui64(p.text).map_err(|_| refusal)?;
    Ok(Eui64 { id })
}

// The GMID up to the next `:`, and the domain behind that: of a text that is neither empty nor `traceable`.
#[tactic(auto, using(crate::proofs::Laws::laws))]
fn read_gmid_domain(p: Part) -> Result<PtpServer, Refusal>
    requires { (empty p.text.now ≡ false) × (same p.text.now (word "traceable") ≡ false) }
    ensures { result ≡ server_of bare p.entry.at p.entry.text.now }
{
    let Some((gmid, domain)) = p.split_once(b':') else {
        let gmid = read_gmid(p)?;
        return Ok(PtpServer::GmidDomain { gmid, domain: None });
    };
    let gmid = read_gmid(gmid)?;
    let domain = Some(read_domain(domain)?);
    Ok(PtpServer::GmidDomain { gmid, domain })
}

// `traceable`, or a GMID.
fn read_server(p: Part) -> Result<PtpServer, Refusal>
    ensures { result ≡ server_of bare p.entry.at p.entry.text.now }
{
    if p.text.is_empty() {
        return Err(p.refused(8));
    }
    if text::is_word(p.text, b"traceable") {
        return Ok(PtpServer::Traceable);
    }
    read_gmid_domain(p)
}

// The version up to the first `:`, then the server. The text stands at the place 4, behind the `ptp=`.
#[inline(never)]
#[tactic(auto, using(crate::proofs::Laws::laws))]
pub fn read_ptp(p: &[u8]) -> Result<Ptp, Refusal>
    ensures { result ≡ ptp_of bare 4 p.now }
{
    let p = Part { text: p, at: 4 };
    let Some((version, server)) = p.split_once(b':') else {
        return Err(Refusal::new(7, p.at, 0));
    };
    let version = read_version(version)?;
    let server = read_server(server)?;
    Ok(Ptp { version, server })
}
