// The end of a line.
#![tactic(auto)]

ghost use Rattle.std.specs.Prelude.{◌≡◌, length};
ghost use Rattle.report.specs.Lines.{without_cr};

// How long a line is that an LF ended, without one CR before that.
#[tactic(auto, using(text::proofs::Cuts::ends_some), unfolding(report::specs::Lines::without_cr))]
pub fn length_without_cr(raw: &[u8]) -> usize
    ensures { result ≡ length (without_cr raw.now) }
{
    if text::ends_in(raw, b'\r') {
        raw.len() - 1
    } else {
        raw.len()
    }
}
