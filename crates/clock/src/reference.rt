// Constructors and setters of the records of ts-refclk, in the Rust module's order.
ghost use Rattle.std.specs.Prelude.{◌≡◌};
ghost use Rattle.clock.specs.Records.{ntp, ptp, eui64, clock_source_ext};
ghost use Rattle.clock.specs.Domain.{version_for, tried_ptp_domain, tried_ptp_server, tried_ptp, tried_reference_clock};
ghost use Rattle.clock.specs.Setters.{with_source_value};
ghost use Rattle.clock.specs.declared.ReferenceClock.TheVariants as clock;

use crate::{
    ClockSourceExt, Eui64, Ntp, NtpServerAddr, PrivateSource, Ptp, PtpDomain, PtpServer,
    PtpVersion, ReferenceClock, Unmade,
};
use text::Place;

impl ReferenceClock {
    // An NTP server by its host, without a port.
    pub fn from_ntp_hostname(hostname: Place) -> ReferenceClock
        ensures { result ≡ ReferenceClock.Ntp (ntp (NtpServerAddr.HostPort hostname None)) }
    {
        ReferenceClock::Ntp(Ntp::from_hostname(hostname))
    }

    // An NTP server by its host, with a port.
    pub fn from_ntp_hostname_with_port(hostname: Place, port: u16) -> ReferenceClock
        ensures { result ≡ ReferenceClock.Ntp (ntp (NtpServerAddr.HostPort hostname (Some port))) }
    {
        ReferenceClock::Ntp(Ntp::from_hostname_with_port(hostname, port))
    }

    // NTP, traceable: no host and no port.
    pub fn new_ntp_traceable() -> ReferenceClock
        ensures { result ≡ ReferenceClock.Ntp (ntp NtpServerAddr.Traceable) }
    {
        ReferenceClock::Ntp(Ntp::new_traceable())
    }

    // PTP of this version and this GMID, without a domain.
    pub fn from_ptp_gmid(version: PtpVersion, gmid: Eui64) -> ReferenceClock
        ensures { result ≡ ReferenceClock.Ptp (ptp version (PtpServer.GmidDomain gmid None)) }
    {
        ReferenceClock::Ptp(Ptp::from_gmid(version, gmid))
    }

    // PTP of this GMID and domain: the domain's kind settles the version.
    pub fn from_ptp_gmid_with_domain(gmid: Eui64, domain: PtpDomain) -> ReferenceClock
        ensures { result ≡ ReferenceClock.Ptp (ptp (version_for domain) (PtpServer.GmidDomain gmid (Some domain))) }
    {
        ReferenceClock::Ptp(Ptp::from_gmid_with_domain(gmid, domain))
    }

    // PTP of this GMID and a domain by name, so of IEEE 1588-2002; the name may have any length.
    pub fn from_ptp_gmid_with_domain_name(gmid: Eui64, name: Place) -> ReferenceClock
        ensures { result ≡ ReferenceClock.Ptp (ptp PtpVersion.Ieee1588_2002
            (PtpServer.GmidDomain gmid (Some (PtpDomain.DomainName name)))) }
    {
        ReferenceClock::Ptp(Ptp::from_gmid_with_domain_name(gmid, name))
    }

    // PTP of this GMID and a domain by number, so of IEEE 1588-2008; a number over 127 is refused.
    #[tactic(auto, unfolding(crate::specs::Domain::tried))]
    pub fn try_from_ptp_gmid_with_domain_number(
        gmid: Eui64,
        number: u8,
    ) -> Result<ReferenceClock, Unmade>
        ensures { result ≡ tried_reference_clock gmid number }
    {
        let domain = PtpDomain::try_from_number(number)?;
        Ok(ReferenceClock::from_ptp_gmid_with_domain(gmid, domain))
    }

    // PTP of this version, traceable: no GMID and no domain.
    pub fn new_ptp_traceable(version: PtpVersion) -> ReferenceClock
        ensures { result ≡ ReferenceClock.Ptp (ptp version PtpServer.Traceable) }
    {
        ReferenceClock::Ptp(Ptp::new_traceable(version))
    }

    // A private clock that is not traceable.
    pub fn new_private_source_standard() -> ReferenceClock
        ensures { result ≡ ReferenceClock.Private PrivateSource.Standard }
    {
        ReferenceClock::from(PrivateSource::Standard)
    }

    // A private clock that is traceable.
    pub fn new_private_source_traceable() -> ReferenceClock
        ensures { result ≡ ReferenceClock.Private PrivateSource.Traceable }
    {
        ReferenceClock::from(PrivateSource::Traceable)
    }

    // An extension of this name, without a value.
    pub fn from_clock_source_ext_name(name: Place) -> ReferenceClock
        ensures { result ≡ ReferenceClock.Ext (clock_source_ext name None) }
    {
        ReferenceClock::Ext(ClockSourceExt::new(name))
    }

    // An extension of this name with a value, which may be empty.
    pub fn from_clock_source_ext_name_with_value(name: Place, value: Place) -> ReferenceClock
        ensures { result ≡ ReferenceClock.Ext (clock_source_ext name (Some value)) }
    {
        ReferenceClock::Ext(ClockSourceExt::with_value(name, value))
    }
}

impl From<Ntp> for ReferenceClock {
    ghost from_gives = { λ n c. c ≡ clock.Ntp n };

    fn from(ntp: Ntp) -> ReferenceClock {
        ReferenceClock::Ntp(ntp)
    }
}

impl From<NtpServerAddr> for ReferenceClock {
    ghost from_gives = { λ s c. c ≡ clock.Ntp (ntp s) };

    fn from(server: NtpServerAddr) -> ReferenceClock {
        ReferenceClock::Ntp(Ntp::from(server))
    }
}

impl From<Ptp> for ReferenceClock {
    ghost from_gives = { λ p c. c ≡ clock.Ptp p };

    fn from(ptp: Ptp) -> ReferenceClock {
        ReferenceClock::Ptp(ptp)
    }
}

impl From<(PtpVersion, PtpServer)> for ReferenceClock {
    ghost from_gives = { λ p c. c ≡ clock.Ptp (ptp p.0 p.1) };

    fn from((version, server): (PtpVersion, PtpServer)) -> ReferenceClock {
        ReferenceClock::Ptp(Ptp::new(version, server))
    }
}

impl From<PrivateSource> for ReferenceClock {
    ghost from_gives = { λ p c. c ≡ clock.Private p };

    fn from(source: PrivateSource) -> ReferenceClock {
        ReferenceClock::Private(source)
    }
}

impl From<ClockSourceExt> for ReferenceClock {
    ghost from_gives = { λ e c. c ≡ clock.Ext e };

    fn from(ext: ClockSourceExt) -> ReferenceClock {
        ReferenceClock::Ext(ext)
    }
}

impl Ntp {
    // A host without a port.
    pub fn from_hostname(hostname: Place) -> Ntp
        ensures { result ≡ ntp (NtpServerAddr.HostPort hostname None) }
    {
        Ntp::from(NtpServerAddr::HostPort {
            hostname,
            port: None,
        })
    }

    // A host with a port.
    pub fn from_hostname_with_port(hostname: Place, port: u16) -> Ntp
        ensures { result ≡ ntp (NtpServerAddr.HostPort hostname (Some port)) }
    {
        Ntp::from(NtpServerAddr::HostPort {
            hostname,
            port: Some(port),
        })
    }

    // Traceable: no host and no port.
    pub fn new_traceable() -> Ntp
        ensures { result ≡ ntp NtpServerAddr.Traceable }
    {
        Ntp::from(NtpServerAddr::Traceable)
    }
}

impl From<NtpServerAddr> for Ntp {
    ghost from_gives = { λ s n. n ≡ ntp s };

    fn from(server: NtpServerAddr) -> Ntp {
        Ntp { server }
    }
}

impl NtpServerAddr {
    // A host without a port.
    pub fn from_hostname(hostname: Place) -> NtpServerAddr
        ensures { result ≡ NtpServerAddr.HostPort hostname None }
    {
        NtpServerAddr::HostPort {
            hostname,
            port: None,
        }
    }

    // A host with a port.
    pub fn from_hostname_with_port(hostname: Place, port: u16) -> NtpServerAddr
        ensures { result ≡ NtpServerAddr.HostPort hostname (Some port) }
    {
        NtpServerAddr::HostPort {
            hostname,
            port: Some(port),
        }
    }

    // Traceable: no host and no port.
    pub fn new_traceable() -> NtpServerAddr
        ensures { result ≡ NtpServerAddr.Traceable }
    {
        NtpServerAddr::Traceable
    }
}

impl Ptp {
    // A version and a server, which need not fit each other.
    pub fn new(version: PtpVersion, server: PtpServer) -> Ptp
        ensures { result ≡ ptp version server }
    {
        Ptp { version, server }
    }

    // A GMID without a domain.
    pub fn from_gmid(version: PtpVersion, gmid: Eui64) -> Ptp
        ensures { result ≡ ptp version (PtpServer.GmidDomain gmid None) }
    {
        Ptp::new(version, PtpServer::GmidDomain { gmid, domain: None })
    }

    // The domain's kind settles the version: a name 1588-2002, a number 1588-2008.
    pub fn from_gmid_with_domain(gmid: Eui64, domain: PtpDomain) -> Ptp
        ensures { result ≡ ptp (version_for domain) (PtpServer.GmidDomain gmid (Some domain)) }
    {
        let server = PtpServer::GmidDomain {
            gmid,
            domain: Some(domain),
        };
        match domain {
            PtpDomain::DomainName { name: _ } => Ptp::new(PtpVersion::Ieee1588_2002, server),
            PtpDomain::DomainNumber(_) => Ptp::new(PtpVersion::Ieee1588_2008, server),
        }
    }

    // A domain by name, so of IEEE 1588-2002.
    pub fn from_gmid_with_domain_name(gmid: Eui64, name: Place) -> Ptp
        ensures { result ≡ ptp PtpVersion.Ieee1588_2002 (PtpServer.GmidDomain gmid (Some (PtpDomain.DomainName name))) }
    {
        Ptp::from_gmid_with_domain(gmid, PtpDomain::DomainName { name })
    }

    // A domain by number, so of IEEE 1588-2008; a number over 127 is refused.
    #[tactic(auto, unfolding(crate::specs::Domain::tried))]
    pub fn try_from_gmid_with_domain_number(gmid: Eui64, number: u8) -> Result<Ptp, Unmade>
        ensures { result ≡ tried_ptp gmid number }
    {
        let domain = PtpDomain::try_from_number(number)?;
        Ok(Ptp::from_gmid_with_domain(gmid, domain))
    }

    // Traceable: no GMID and no domain.
    pub fn new_traceable(version: PtpVersion) -> Ptp
        ensures { result ≡ ptp version PtpServer.Traceable }
    {
        Ptp::new(version, PtpServer::Traceable)
    }
}

impl From<(PtpVersion, PtpServer)> for Ptp {
    ghost from_gives = { λ p q. q ≡ ptp p.0 p.1 };

    fn from((version, server): (PtpVersion, PtpServer)) -> Ptp {
        Ptp::new(version, server)
    }
}

impl PtpServer {
    // A GMID without a domain.
    pub fn from_gmid(gmid: Eui64) -> PtpServer
        ensures { result ≡ PtpServer.GmidDomain gmid None }
    {
        PtpServer::GmidDomain { gmid, domain: None }
    }

    // A GMID and a domain of either kind.
    pub fn from_gmid_with_domain(gmid: Eui64, domain: PtpDomain) -> PtpServer
        ensures { result ≡ PtpServer.GmidDomain gmid (Some domain) }
    {
        PtpServer::GmidDomain {
            gmid,
            domain: Some(domain),
        }
    }

    // A domain by name; a server has no version.
    pub fn from_gmid_with_domain_name(gmid: Eui64, name: Place) -> PtpServer
        ensures { result ≡ PtpServer.GmidDomain gmid (Some (PtpDomain.DomainName name)) }
    {
        PtpServer::GmidDomain {
            gmid,
            domain: Some(PtpDomain::from_name(name)),
        }
    }

    // A domain by number; over 127 it is refused.
    #[tactic(auto, unfolding(crate::specs::Domain::tried))]
    pub fn try_from_ptp_gmid_with_domain_number(
        gmid: Eui64,
        number: u8,
    ) -> Result<PtpServer, Unmade>
        ensures { result ≡ tried_ptp_server gmid number }
    {
        let domain = PtpDomain::try_from_number(number)?;
        Ok(PtpServer::from_gmid_with_domain(gmid, domain))
    }

    // Traceable: no GMID and no domain.
    pub fn new_traceable() -> PtpServer
        ensures { result ≡ PtpServer.Traceable }
    {
        PtpServer::Traceable
    }
}

impl Eui64 {
    pub fn new(id: u64) -> Eui64
        ensures { result ≡ eui64 id }
    {
        Eui64 { id }
    }

    pub fn as_u64(self) -> u64
        ensures { result ≡ self.id }
    {
        self.id
    }
}

impl From<u64> for Eui64 {
    ghost from_gives = { λ n e. e ≡ eui64 n };

    fn from(id: u64) -> Eui64 {
        Eui64::new(id)
    }
}

impl PtpDomain {
    // A name of any length, though only one of 16 bytes reads back as a name.
    pub fn from_name(name: Place) -> PtpDomain
        ensures { result ≡ PtpDomain.DomainName name }
    {
        PtpDomain::DomainName { name }
    }

    // A number from 0 to 127; over that it is refused.
    #[tactic(auto, unfolding(crate::specs::Domain::tried))]
    pub fn try_from_number(number: u8) -> Result<PtpDomain, Unmade>
        ensures { result ≡ tried_ptp_domain number }
    {
        if 127 < number {
            return Err(Unmade::DomainOver127);
        }
        Ok(PtpDomain::DomainNumber(number))
    }
}

impl ClockSourceExt {
    // A name without a value.
    pub fn new(name: Place) -> ClockSourceExt
        ensures { result ≡ clock_source_ext name None }
    {
        ClockSourceExt { name, value: None }
    }

    // A name and a value, which may be empty.
    pub fn with_value(name: Place, value: Place) -> ClockSourceExt
        ensures { result ≡ clock_source_ext name (Some value) }
    {
        ClockSourceExt {
            name,
            value: Some(value),
        }
    }

    pub fn set_value(self, value: Place) -> ClockSourceExt
        ensures { result ≡ with_source_value self value }
    {
        let name = self.name;
        ClockSourceExt::with_value(name, value)
    }
}
