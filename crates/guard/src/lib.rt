// What is asked of every value before it is read: that it is not too long, and then that it is well-formed UTF-8.
#![tactic(auto)]

ghost use Rattle.std.specs.Prelude.{◌≡◌};
ghost use Rattle.meaning.specs.Answer.{guarded};

use clock::Refusal;

// How many bytes a value may have.
pub const MOST_VALUE_BYTES: usize = 1024;

// A value over 1,024 bytes is refused, then one that is not well-formed UTF-8.
#[tactic(auto, using(crate::proofs::Laws::laws))]
pub fn check_value(value: &[u8]) -> Result<(), Refusal>
    ensures { result ≡ guarded value.now (Ok tt) }
{
    let n = value.len();
    if MOST_VALUE_BYTES < n {
        return Err(Refusal::new(1, MOST_VALUE_BYTES, n - MOST_VALUE_BYTES));
    }
    utf8::check_utf8(value).map_err(|at| Refusal::new(2, at, 1))
}
