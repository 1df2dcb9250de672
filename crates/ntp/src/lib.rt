// What follows `ntp=` in a ts-refclk value: the server, or the refusal of the first rule that is broken.
#![tactic(auto)]

ghost use Rattle.std.specs.Prelude.{◌≡◌, ◌≤◌, length};
ghost use Rattle.meaning.specs.ReferenceClock.{port_of, address_of, bracket_of, host_of, ntp_of};

use clock::{NtpServerAddr, Refusal};
use part::Part;

// A port, or the refusal that its caller gives.
#[tactic(auto, using(crate::proofs::Laws::laws))]
fn read_port(p: &[u8], refusal: Refusal) -> Result<Option<u16>, Refusal>
    ensures { result ≡ port_of refusal p.now }
{
    let port = number::read_number(p, 65535).map_err(|_| refusal)?;
    Ok(Some(port as u16))
}

// What stands inside the brackets must itself be an IP address: it is the host.
#[tactic(auto, using(crate::proofs::Laws::laws))]
fn read_address(p: Part, port: Option<u16>, broken: Refusal) -> Result<NtpServerAddr, Refusal>
    ensures { result ≡ address_of broken p.entry.at p.entry.text.now port }
{
    if !ipaddr::is_ip_address(p.text) {
        return Err(broken);
    }
    Ok(NtpServerAddr::HostPort {
        hostname: p.place(),
        port,
    })
}

// The bracket rule: the port behind the first `]:` is read first; without one the last byte must be `]`.
#[tactic(auto, using(crate::proofs::Laws::laws))]
fn read_bracket(p: Part) -> Result<NtpServerAddr, Refusal>
    requires { 1 ≤ length p.text.now }
    ensures { result ≡ bracket_of p.entry.at p.entry.text.now }
{
    let broken = p.refused(4);
    let inside = p.behind(1);
    let n = inside.text.len();
    let i = search::find_pair(inside.text, b']', b':');
    if i < n {
        let port = read_port(inside.behind(i + 2).text, broken)?;
        return read_address(inside.front(i), port, broken);
    }
    if !text::ends_in(inside.text, b']') {
        return Err(broken);
    }
    read_address(inside.front(n - 1), None, broken)
}

// A host, and the port behind the last `:` where there is one.
#[tactic(auto, using(crate::proofs::Laws::laws))]
fn read_host(p: Part) -> Result<NtpServerAddr, Refusal>
    ensures { result ≡ host_of p.entry.at p.entry.text.now }
{
    let d = search::through_last(p.text, b':');
    if d == 0 {
        return Ok(NtpServerAddr::HostPort {
            hostname: p.place(),
            port: None,
        });
    }
    if d == 1 {
        return Err(Refusal::new(5, p.at, 0));
    }
    let port = p.behind(d);
    let port = read_port(port.text, port.refused(6))?;
    Ok(NtpServerAddr::HostPort {
        hostname: p.front(d - 1).place(),
        port,
    })
}

// The rules in their order. The text stands at the place 4, behind the `ntp=`.
#[tactic(auto, using(crate::proofs::Laws::laws))]
pub fn read_ntp(p: &[u8]) -> Result<NtpServerAddr, Refusal>
    ensures { result ≡ ntp_of 4 p.now }
{
    let p = Part { text: p, at: 4 };
    if p.text.is_empty() {
        return Err(p.refused(3));
    }
    if text::is_word(p.text, b"/traceable/") {
        return Ok(NtpServerAddr::Traceable);
    }
    if ipaddr::is_ip_address(p.text) {
        return Ok(NtpServerAddr::HostPort {
            hostname: p.place(),
            port: None,
        });
    }
    if text::has_prefix(p.text, b"[") {
        return read_bracket(p);
    }
    read_host(p)
}
