// Whether the places of a mediaclk record lie inside the value.
ghost use Rattle.std.specs.Prelude.{◌≡◌};
ghost use Rattle.meaning.specs.Inside.{id_inside, media_inside, media_clock_source_inside};

use crate::parts;
use mediarecord::{MediaClock, MediaClockId, MediaClockSource};

fn is_id_inside(value: &[u8], id: Option<MediaClockId>) -> bool
    ensures { result ≡ id_inside value.now id }
{
    id.is_none_or(|d| parts::is_inside(value, d.tag))
}

fn is_clock_inside(value: &[u8], clock: MediaClock) -> bool
    ensures { result ≡ media_inside value.now clock }
{
    match clock {
        MediaClock::Sender | MediaClock::Direct(_) | MediaClock::Ieee1722StreamId(_) => true,
        MediaClock::Ext(e) => parts::is_extension_inside(value, e.name, e.value),
    }
}

#[tactic(auto, unfolding(meaning::specs::Inside::media_clock_source_inside))]
pub fn is_source_inside(value: &[u8], source: MediaClockSource) -> bool
    ensures { result ≡ media_clock_source_inside value.now source }
{
    is_id_inside(value, source.id) && is_clock_inside(value, source.clock)
}
