// What a census asks of a clock: its PTP domain number. The rule by which values name clocks stands in specs/.
#![tactic(auto)]

ghost use Rattle.std.specs.Prelude.{◌≡◌};
ghost use Rattle.naming.specs.Domain.{or_none, server_domain, domain_in};

use clock::{PtpDomain, PtpServer, ReferenceClock};

fn server_domain(server: PtpServer) -> usize
    ensures { result ≡ or_none (server_domain server) }
{
    match server {
        PtpServer::Traceable => 128,
        PtpServer::GmidDomain { gmid: _, domain } => match domain {
            None => 128,
            Some(d) => match d {
                PtpDomain::DomainName { name: _ } => 128,
                PtpDomain::DomainNumber(n) => n as usize,
            },
        },
    }
}

// The domain number of a clock, or 128, which is none.
pub fn domain_number(clock: ReferenceClock) -> usize
    ensures { result ≡ or_none (domain_in clock) }
{
    match clock {
        ReferenceClock::Ptp(p) => {
            let server = p.server;
            server_domain(server)
        }
        _ => 128,
    }
}
