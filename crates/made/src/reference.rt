// The functions of the records of ts-refclk, by their rows. One of a smaller type is shown by the clock that is made of its answer.
use crate::arguments::Arguments;
use clock::{
    ClockSourceExt, Ntp, NtpServerAddr, Ptp, PtpDomain, PtpServer, ReferenceClock, Unmade,
};

pub(crate) fn made(row: u8, a: Arguments) -> ReferenceClock {
    match row {
        0..=23 => clock(row, a),
        24..=30 => ReferenceClock::from(ntp(row, a)),
        31..=37 => ReferenceClock::from(address(row, a)),
        38..=50 => ReferenceClock::from(ptp(row, a)),
        51..=64 => ReferenceClock::from((a.ptp_version(), server(row, a))),
        65..=70 => ReferenceClock::from_ptp_gmid_with_domain(a.eui(), PtpDomain::from_name(a.p)),
        _ => ReferenceClock::from(extension(row, a)),
    }
}

fn clock(row: u8, a: Arguments) -> ReferenceClock {
    match row {
        2 => ReferenceClock::from_ntp_hostname(a.p),
        3 => ReferenceClock::from_ntp_hostname_with_port(a.p, a.port),
        0..=4 => ReferenceClock::new_ntp_traceable(),
        5 => ReferenceClock::from_ptp_gmid(a.ptp_version(), a.eui()),
        6 => ReferenceClock::from_ptp_gmid_with_domain(a.eui(), a.ptp_domain()),
        7 => ReferenceClock::from_ptp_gmid_with_domain_name(a.eui(), a.p),
        8..=9 => ReferenceClock::new_ptp_traceable(a.ptp_version()),
        10 => ReferenceClock::new_private_source_standard(),
        11 => ReferenceClock::new_private_source_traceable(),
        12 => ReferenceClock::from_clock_source_ext_name(a.p),
        13..=16 => ReferenceClock::from_clock_source_ext_name_with_value(a.p, a.q),
        17 => ReferenceClock::from(a.ntp()),
        18 => ReferenceClock::from(a.ntp_server()),
        19 => ReferenceClock::from(a.ptp()),
        20 => ReferenceClock::from((a.ptp_version(), a.ptp_server())),
        21 => ReferenceClock::from(a.private_source()),
        _ => ReferenceClock::from(a.source_ext()),
    }
}

fn ntp(row: u8, a: Arguments) -> Ntp {
    match row {
        24 => Ntp::from_hostname(a.p),
        25 => Ntp::from_hostname_with_port(a.p, a.port),
        26 => Ntp::new_traceable(),
        _ => Ntp::from(a.ntp_server()),
    }
}

fn address(row: u8, a: Arguments) -> NtpServerAddr {
    match row {
        31 => NtpServerAddr::from_hostname(a.p),
        32 => NtpServerAddr::from_hostname_with_port(a.p, a.port),
        _ => NtpServerAddr::new_traceable(),
    }
}

fn ptp(row: u8, a: Arguments) -> Ptp {
    match row {
        38 => Ptp::new(a.ptp_version(), a.ptp_server()),
        39 => Ptp::from_gmid(a.ptp_version(), a.eui()),
        40 => Ptp::from_gmid_with_domain(a.eui(), a.ptp_domain()),
        41 => Ptp::from_gmid_with_domain_name(a.eui(), a.p),
        43 => Ptp::new_traceable(a.ptp_version()),
        _ => Ptp::from((a.ptp_version(), a.ptp_server())),
    }
}

fn server(row: u8, a: Arguments) -> PtpServer {
    match row {
        51 => PtpServer::from_gmid(a.eui()),
        52 => PtpServer::from_gmid_with_domain(a.eui(), a.ptp_domain()),
        53 => PtpServer::from_gmid_with_domain_name(a.eui(), a.p),
        _ => PtpServer::new_traceable(),
    }
}

fn extension(row: u8, a: Arguments) -> ClockSourceExt {
    match row {
        71 => ClockSourceExt::new(a.p),
        72 => ClockSourceExt::with_value(a.p, a.q),
        _ => ClockSourceExt::set_value(a.source_ext(), a.q),
    }
}

// The four that try a domain number.
pub(crate) fn tried(row: u8, a: Arguments) -> Result<ReferenceClock, Unmade> {
    let gmid = a.eui();
    match row {
        8 => ReferenceClock::try_from_ptp_gmid_with_domain_number(gmid, a.domain),
        42 => Ptp::try_from_gmid_with_domain_number(gmid, a.domain).map(ReferenceClock::from),
        54 => PtpServer::try_from_ptp_gmid_with_domain_number(gmid, a.domain).map(
            |server| ReferenceClock::from((a.ptp_version(), server)),
        ),
        _ => PtpDomain::try_from_number(a.domain).map(
            |domain| ReferenceClock::from_ptp_gmid_with_domain(gmid, domain),
        ),
    }
}
