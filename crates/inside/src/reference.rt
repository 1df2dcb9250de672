// Whether the places of a ts-refclk record lie inside the value.
ghost use Rattle.std.specs.Prelude.{◌≡◌, ◌&&◌};
ghost use Rattle.meaning.specs.Inside.{version_inside, domain_inside, opt_domain_inside, server_inside, ntp_inside, reference_clock_inside};

use crate::parts;
use clock::{NtpServerAddr, PtpDomain, PtpServer, PtpVersion, ReferenceClock};

fn is_version_inside(value: &[u8], version: PtpVersion) -> bool
    ensures { result ≡ version_inside value.now version }
{
    match version {
        PtpVersion::Ieee1588_2002 | PtpVersion::Ieee1588_2008 | PtpVersion::Ieee8021As_2011 => true,
        PtpVersion::Ext(p) => parts::is_inside(value, p),
    }
}

fn is_domain_inside(value: &[u8], domain: PtpDomain) -> bool
    ensures { result ≡ domain_inside value.now domain }
{
    match domain {
        PtpDomain::DomainName { name } => parts::is_inside(value, name),
        PtpDomain::DomainNumber(_) => true,
    }
}

fn is_opt_domain_inside(value: &[u8], domain: Option<PtpDomain>) -> bool
    ensures { result ≡ opt_domain_inside value.now domain }
{
    domain.is_none_or(|d| is_domain_inside(value, d))
}

fn is_server_inside(value: &[u8], server: PtpServer) -> bool
    ensures { result ≡ server_inside value.now server }
{
    match server {
        PtpServer::GmidDomain { domain, .. } => is_opt_domain_inside(value, domain),
        PtpServer::Traceable => true,
    }
}

fn is_ptp_inside(value: &[u8], version: PtpVersion, server: PtpServer) -> bool
    ensures { result ≡ (version_inside value.now version && server_inside value.now server) }
{
    is_version_inside(value, version) && is_server_inside(value, server)
}

fn is_ntp_inside(value: &[u8], server: NtpServerAddr) -> bool
    ensures { result ≡ ntp_inside value.now server }
{
    match server {
        NtpServerAddr::HostPort { hostname, .. } => parts::is_inside(value, hostname),
        NtpServerAddr::Traceable => true,
    }
}

#[tactic(auto, unfolding(meaning::specs::Inside::reference_clock_inside))]
pub fn is_clock_inside(value: &[u8], clock: ReferenceClock) -> bool
    ensures { result ≡ reference_clock_inside value.now clock }
{
    match clock {
        ReferenceClock::Ntp(n) => is_ntp_inside(value, n.server),
        ReferenceClock::Ptp(p) => is_ptp_inside(value, p.version, p.server),
        ReferenceClock::Gps
        | ReferenceClock::Gal
        | ReferenceClock::Glonass
        | ReferenceClock::Local
        | ReferenceClock::Private(_) => true,
        ReferenceClock::Ext(e) => parts::is_extension_inside(value, e.name, e.value),
    }
}
