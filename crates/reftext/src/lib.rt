// The text of a ts-refclk record. A local that holds a place in the room is named by what is put there. The bound in a contract is the sum of what is
// put: the bytes of the words, 10 for a number, 23 for an EUI-64, and all of the value for each place.
#![tactic(auto, using(room::proofs::Laws::puts))]

ghost use Rattle.std.specs.Prelude.{[], ◌∷◌, ◌++◌, ◌+◌, ◌*◌, length};
ghost use Rattle.text.specs.Word.{word};
ghost use Rattle.number.specs.Decimal.{decimal};
ghost use Rattle.meaning.specs.Domain.{bare};
ghost use Rattle.meaning.specs.Meaning.{ptp, version_means, domain_means, opt_domain_means, server_means, port_means, ntp_means, private_means};
ghost use Rattle.meaning.specs.Text.{version_text, domain_text, server_text, host_text, ref_meaning_text, reference_clock_text};
ghost use Rattle.room.specs.Put.{Put};

use clock::{NtpServerAddr, PrivateSource, PtpDomain, PtpServer, PtpVersion, ReferenceClock};

fn put_port(room: &mut [u8], at: usize, port: u16) -> usize
    ensures { Put 11 room.old at (58 ∷ decimal port) result room.new }
{
    let to = room::put_byte(room, at, b':');
    digits::put_decimal(room, to, u32::from(port))
}

// A host that has a colon stands in brackets before a port.
fn put_host_and_port(room: &mut [u8], at: usize, host: &[u8], port: u16) -> usize
    ensures { Put (length host.now + 13) room.old at (host_text host.now (Some port)) result room.new }
{
    if search::find(host, b':') < host.len() {
        let inner = room::put_byte(room, at, b'[');
        let close = room::put_bytes(room, inner, host);
        let colon = room::put_byte(room, close, b']');
        return put_port(room, colon, port);
    }
    let colon = room::put_bytes(room, at, host);
    put_port(room, colon, port)
}

// `port_means` and `private_means` take a value and do not look at it.
fn put_host(room: &mut [u8], at: usize, host: &[u8], port: Option<u16>) -> usize
    ensures { Put (length host.now + 13) room.old at
        (host_text host.now (port_means host.now port)) result room.new }
{
    match port {
        None => room::put_bytes(room, at, host),
        Some(n) => put_host_and_port(room, at, host, n),
    }
}

#[tactic(auto, using(room::proofs::Laws::puts, text::proofs::Cuts::bytes_short), unfolding(meaning::specs::Text::ref_meaning_text))]
fn put_ntp(room: &mut [u8], at: usize, value: &[u8], server: NtpServerAddr) -> usize
    ensures { Put (length value.now + 17) room.old at
        (ref_meaning_text bare (ntp_means value.now server)) result room.new }
{
    match server {
        NtpServerAddr::HostPort { hostname, port } => {
            let to = room::put_bytes(room, at, b"ntp=");
            put_host(room, to, text::part(value, hostname), port)
        }
        NtpServerAddr::Traceable => room::put_bytes(room, at, b"ntp=/traceable/"),
    }
}

// The two versions of IEEE 1588, which differ in their last byte. Of two whole words the compiler makes a store for each byte.
fn put_ieee1588(room: &mut [u8], at: usize, last: u8) -> usize
    ensures { Put 13 room.old at (word "IEEE1588-200" ++ last ∷ []) result room.new }
{
    let to = room::put_bytes(room, at, b"IEEE1588-200");
    room::put_byte(room, to, last)
}

fn put_version(room: &mut [u8], at: usize, value: &[u8], version: PtpVersion) -> usize
    ensures { Put (length value.now + 16) room.old at
        (version_text (version_means value.now version)) result room.new }
{
    match version {
        PtpVersion::Ieee1588_2002 => put_ieee1588(room, at, b'2'),
        PtpVersion::Ieee1588_2008 => put_ieee1588(room, at, b'8'),
        PtpVersion::Ieee8021As_2011 => room::put_bytes(room, at, b"IEEE802.1AS-2011"),
        PtpVersion::Ext(p) => room::put_part(room, at, value, p),
    }
}

// The one place where a domain is written.
#[tactic(auto, using(room::proofs::Laws::puts), unfolding(meaning::specs::Domain::bare_text))]
fn put_domain(room: &mut [u8], at: usize, value: &[u8], domain: PtpDomain) -> usize
    ensures { Put (length value.now + 10) room.old at
        (bare.text (domain_means value.now domain)) result room.new }
{
    match domain {
        PtpDomain::DomainName { name } => room::put_part(room, at, value, name),
        PtpDomain::DomainNumber(n) => digits::put_decimal(room, at, u32::from(n)),
    }
}

fn put_opt_domain(room: &mut [u8], at: usize, value: &[u8], domain: Option<PtpDomain>) -> usize
    ensures { Put (length value.now + 11) room.old at
        (domain_text bare (opt_domain_means value.now domain)) result room.new }
{
    match domain {
        None => at,
        Some(d) => {
            let to = room::put_byte(room, at, b':');
            put_domain(room, to, value, d)
        }
    }
}

fn put_server(room: &mut [u8], at: usize, value: &[u8], server: PtpServer) -> usize
    ensures { Put (length value.now + 34) room.old at
        (server_text bare (server_means value.now server)) result room.new }
{
    match server {
        PtpServer::GmidDomain { gmid, domain } => {
            let to = digits::put_eui64(room, at, gmid.id);
            put_opt_domain(room, to, value, domain)
        }
        PtpServer::Traceable => room::put_bytes(room, at, b"traceable"),
    }
}

fn put_ptp(
    room: &mut [u8],
    at: usize,
    value: &[u8],
    version: PtpVersion,
    server: PtpServer,
) -> usize
    ensures { Put (2 * length value.now + 55) room.old at
        (ref_meaning_text bare (ptp (version_means value.now version) (server_means value.now server))) result room.new }
{
    let first = room::put_bytes(room, at, b"ptp=");
    let colon = put_version(room, first, value, version);
    let second = room::put_byte(room, colon, b':');
    put_server(room, second, value, server)
}

#[tactic(auto, using(room::proofs::Laws::puts), unfolding(meaning::specs::Text::ref_meaning_text))]
fn put_private(room: &mut [u8], at: usize, source: PrivateSource) -> usize
    ensures { Put 17 room.old at (ref_meaning_text bare (private_means [] source)) result room.new }
{
    match source {
        PrivateSource::Standard => room::put_bytes(room, at, b"private"),
        PrivateSource::Traceable => room::put_bytes(room, at, b"private:traceable"),
    }
}

// No text is longer than that of a PTP source: `ptp=`, a version of 16 bytes or a place, `:`, and a server of 34 bytes and a place.
#[tactic(auto, using(room::proofs::Laws::puts), unfolding(meaning::specs::Text::reference_clock_text, meaning::specs::Text::ref_meaning_text, meaning::specs::Meaning::ref_meaning))]
pub fn put_clock(room: &mut [u8], at: usize, value: &[u8], clock: ReferenceClock) -> usize
    ensures { Put (2 * length value.now + 55) room.old at (reference_clock_text value.now clock) result room.new }
{
    match clock {
        ReferenceClock::Ntp(n) => put_ntp(room, at, value, n.server),
        ReferenceClock::Ptp(p) => put_ptp(room, at, value, p.version, p.server),
        ReferenceClock::Gps => room::put_bytes(room, at, b"gps"),
        ReferenceClock::Gal => room::put_bytes(room, at, b"gal"),
        ReferenceClock::Glonass => room::put_bytes(room, at, b"glonass"),
        ReferenceClock::Local => room::put_bytes(room, at, b"local"),
        ReferenceClock::Private(p) => put_private(room, at, p),
        ReferenceClock::Ext(e) => extension::put_extension(room, at, value, e.name, e.value),
    }
}
