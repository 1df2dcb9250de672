// The setters in the Rust's own form: each alters the record that is lent to it, by the method of `clock` that gives the record anew.
#![tactic(auto)]

ghost use Rattle.std.specs.Prelude.{◌≡◌};
ghost use Rattle.clock.specs.Setters.{with_source_value};
ghost use Rattle.mediarecord.specs.Setters.{with_id, with_media_value, with_offset, with_rate, with_src};

use clock::ClockSourceExt;
use mediarecord::{Direct, MediaClockExt, MediaClockId, MediaClockSource, Rate};
use text::Place;

// Whatever the record, the value and the method: what the method gives of the lent record is left behind the reference.
fn setter<R: Copy, V, F: FnOnce(R, V) -> R>(lent: &mut R, method: F, value: V)
    requires { F.pre method lent.old value }
    ensures { F.post method lent.old value lent.new }
{
    *lent = method(*lent, value);
}

// `ClockSourceExt::set_value` of the Rust.
pub fn set_source_value(ext: &mut ClockSourceExt, value: Place)
    ensures { ext.new ≡ with_source_value ext.old value }
{
    setter(ext, ClockSourceExt::set_value, value);
}

pub fn set_id(source: &mut MediaClockSource, id: MediaClockId)
    ensures { source.new ≡ with_id source.old id }
{
    setter(source, MediaClockSource::set_id, id);
}

pub fn set_src_prefix(id: &mut MediaClockId, src: bool)
    ensures { id.new ≡ with_src id.old src }
{
    setter(id, MediaClockId::set_src_prefix, src);
}

pub fn set_offset(direct: &mut Direct, offset: u32)
    ensures { direct.new ≡ with_offset direct.old offset }
{
    setter(direct, Direct::set_offset, offset);
}

pub fn set_rate(direct: &mut Direct, rate: Rate)
    ensures { direct.new ≡ with_rate direct.old rate }
{
    setter(direct, Direct::set_rate, rate);
}

// `MediaClockExt::set_value` of the Rust.
pub fn set_media_value(ext: &mut MediaClockExt, value: Place)
    ensures { ext.new ≡ with_media_value ext.old value }
{
    setter(ext, MediaClockExt::set_value, value);
}
