// Whether two hosts name one server.
#![tactic(auto)]

ghost use Rattle.std.specs.Prelude.{◌≡◌};
ghost use Rattle.hosts.specs.Server.{lower as small, one_server};

// A letter from `A` to `Z` as its small one, and any other byte as it is.
#[tactic(auto, using(crate::proofs::Laws::letters))]
pub fn lower(b: u8) -> u8
    ensures { result ≡ small b }
{
    match b {
        b'A'..=b'Z' => b + 32,
        _ => b,
    }
}

// Whether two hosts name one server. Hosts of equal bytes are not read.
pub fn one_server(s: &[u8], t: &[u8]) -> bool
    ensures { result ≡ one_server s.now t.now }
{
    if s == t {
        return true;
    }
    if let Some(a) = ipnumber::ip_number(s)
        && let Some(b) = ipnumber::ip_number(t)
    {
        return a == b;
    }
    s.eq_ignore_ascii_case(t)
}
