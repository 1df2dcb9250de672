// The records of mediaclk, under the names of the Rust module clock_signalling, and their constructors and setters in its order. A place stands for
// each text.
#![tactic(auto)]

ghost use Rattle.std.specs.Prelude.{◌≡◌, true, false, ◌&&◌, eqb, None};
ghost use Rattle.mediarecord.specs.Records.{media_clock_source, media_clock_id, rate, direct, media_clock_ext};
ghost use Rattle.mediarecord.specs.Setters.{with_id, with_src, with_offset, with_rate, with_media_value};
ghost use Rattle.mediarecord.specs.declared.MediaClock.{MediaClock};
ghost use Rattle.mediarecord.specs.declared.MediaClock.TheVariants as clock;

use clock::{Eui64, Refusal};
use text::Place;

// What a mediaclk value says.
#[derive(Clone, Copy, Default)]
pub struct MediaClockSource {
    pub id: Option<MediaClockId>,
    pub clock: MediaClock,
}

#[derive(Clone, Copy)]
pub enum MediaClock {
    Sender,
    Direct(Direct),
    Ieee1722StreamId(Eui64),
    Ext(MediaClockExt),
}

// A tag, and whether `src:` stands before it.
#[derive(Clone, Copy)]
pub struct MediaClockId {
    pub src: bool,
    pub tag: Place,
}

#[derive(Clone, Copy, Default)]
pub struct Rate {
    pub numerator: u32,
    pub denominator: u32,
}

#[derive(Clone, Copy, Default)]
pub struct Direct {
    pub offset: Option<u32>,
    pub rate: Option<Rate>,
}

#[derive(Clone, Copy)]
pub struct MediaClockExt {
    pub name: Place,
    pub value: Option<Place>,
}

impl MediaClockSource {
    // A clock without an id.
    pub fn new(clock: MediaClock) -> MediaClockSource
        ensures { result ≡ media_clock_source None clock }
    {
        MediaClockSource { id: None, clock }
    }

    // A clock with an id.
    pub fn with_clock_id(clock: MediaClock, id: MediaClockId) -> MediaClockSource
        ensures { result ≡ media_clock_source (Some id) clock }
    {
        MediaClockSource {
            id: Some(id),
            clock,
        }
    }

    // Direct, without an id, an offset or a rate.
    pub fn new_direct() -> MediaClockSource
        ensures { result ≡ media_clock_source None (MediaClock.Direct (direct None None)) }
    {
        MediaClockSource::direct(None, None, None)
    }

    // Direct with this offset, without a rate or an id.
    pub fn from_direct_offset(offset: u32) -> MediaClockSource
        ensures { result ≡ media_clock_source None (MediaClock.Direct (direct (Some offset) None)) }
    {
        MediaClockSource::direct(None, Some(offset), None)
    }

    // Direct with this offset and id, without a rate.
    pub fn from_direct_offset_with_id(offset: u32, id: MediaClockId) -> MediaClockSource
        ensures { result ≡ media_clock_source (Some id) (MediaClock.Direct (direct (Some offset) None)) }
    {
        MediaClockSource::direct(Some(id), Some(offset), None)
    }

    // Direct with this rate, without an offset or an id: no offset is not 0.
    pub fn from_direct_rate(rate: Rate) -> MediaClockSource
        ensures { result ≡ media_clock_source None (MediaClock.Direct (direct None (Some rate))) }
    {
        MediaClockSource::direct(None, None, Some(rate))
    }

    // Direct with this rate and id, without an offset.
    pub fn from_direct_rate_with_id(rate: Rate, id: MediaClockId) -> MediaClockSource
        ensures { result ≡ media_clock_source (Some id) (MediaClock.Direct (direct None (Some rate))) }
    {
        MediaClockSource::direct(Some(id), None, Some(rate))
    }

    // Direct with both, without an id.
    pub fn from_direct_offset_and_rate(offset: u32, rate: Rate) -> MediaClockSource
        ensures { result ≡ media_clock_source None (MediaClock.Direct (direct (Some offset) (Some rate))) }
    {
        MediaClockSource::direct(None, Some(offset), Some(rate))
    }

    // Direct with offset, rate and id.
    pub fn from_direct_offset_and_rate_with_id(
        offset: u32,
        rate: Rate,
        id: MediaClockId,
    ) -> MediaClockSource
        ensures { result ≡ media_clock_source (Some id) (MediaClock.Direct (direct (Some offset) (Some rate))) }
    {
        MediaClockSource::direct(Some(id), Some(offset), Some(rate))
    }

    // A stream, without an id.
    pub fn from_ieee1722_stream_id(stream: Eui64) -> MediaClockSource
        ensures { result ≡ media_clock_source None (MediaClock.Ieee1722StreamId stream) }
    {
        MediaClockSource::new(MediaClock::Ieee1722StreamId(stream))
    }

    // A stream with an id.
    pub fn from_ieee1722_stream_id_with_id(stream: Eui64, id: MediaClockId) -> MediaClockSource
        ensures { result ≡ media_clock_source (Some id) (MediaClock.Ieee1722StreamId stream) }
    {
        MediaClockSource::with_clock_id(MediaClock::Ieee1722StreamId(stream), id)
    }

    // An extension of this name, without a value or an id.
    pub fn from_extended_name(name: Place) -> MediaClockSource
        ensures { result ≡ media_clock_source None (MediaClock.Ext (media_clock_ext name None)) }
    {
        MediaClockSource::extended(None, name, None)
    }

    // An extension of this name with an id, without a value.
    pub fn from_extended_name_with_id(name: Place, id: MediaClockId) -> MediaClockSource
        ensures { result ≡ media_clock_source (Some id) (MediaClock.Ext (media_clock_ext name None)) }
    {
        MediaClockSource::extended(Some(id), name, None)
    }

    // An extension of this name and value, without an id.
    pub fn from_extended_name_with_value(name: Place, value: Place) -> MediaClockSource
        ensures { result ≡ media_clock_source None (MediaClock.Ext (media_clock_ext name (Some value))) }
    {
        MediaClockSource::extended(None, name, Some(value))
    }

    // An extension of this name and value with an id.
    pub fn from_extended_name_with_value_with_id(
        name: Place,
        value: Place,
        id: MediaClockId,
    ) -> MediaClockSource
        ensures { result ≡ media_clock_source (Some id) (MediaClock.Ext (media_clock_ext name (Some value))) }
    {
        MediaClockSource::extended(Some(id), name, Some(value))
    }

    pub fn set_id(self, id: MediaClockId) -> MediaClockSource
        ensures { result ≡ with_id self id }
    {
        let clock = self.clock;
        MediaClockSource::with_clock_id(clock, id)
    }

    // What the constructors of a direct clock share, and below it those of an extension.
    fn direct(id: Option<MediaClockId>, offset: Option<u32>, rate: Option<Rate>) -> MediaClockSource
        ensures { result ≡ media_clock_source id (MediaClock.Direct (direct offset rate)) }
    {
        MediaClockSource {
            id,
            clock: MediaClock::Direct(Direct { offset, rate }),
        }
    }

    fn extended(id: Option<MediaClockId>, name: Place, value: Option<Place>) -> MediaClockSource
        ensures { result ≡ media_clock_source id (MediaClock.Ext (media_clock_ext name value)) }
    {
        MediaClockSource {
            id,
            clock: MediaClock::Ext(MediaClockExt { name, value }),
        }
    }
}

impl<T: Into<MediaClock>> From<T> for MediaClockSource {
    ghost from_gives = { λ x s. (c : MediaClock) × T.converts x c × (s ≡ media_clock_source None c) };

    fn from(clock: T) -> MediaClockSource {
        MediaClockSource::new(clock.into())
    }
}

impl MediaClock {
    // Direct, without an offset or a rate.
    pub fn new_direct() -> MediaClock
        ensures { result ≡ MediaClock.Direct (direct None None) }
    {
        MediaClock::Direct(Direct::new())
    }

    // Direct with this offset, without a rate.
    pub fn from_direct_offset(offset: u32) -> MediaClock
        ensures { result ≡ MediaClock.Direct (direct (Some offset) None) }
    {
        MediaClock::Direct(Direct::with_offset(offset))
    }

    // Direct with this rate, without an offset: no offset is not 0.
    pub fn from_direct_rate(rate: Rate) -> MediaClock
        ensures { result ≡ MediaClock.Direct (direct None (Some rate)) }
    {
        MediaClock::Direct(Direct::with_rate(rate))
    }

    // Direct with both.
    pub fn from_direct_offset_and_rate(offset: u32, rate: Rate) -> MediaClock
        ensures { result ≡ MediaClock.Direct (direct (Some offset) (Some rate)) }
    {
        MediaClock::Direct(Direct::with_offset_and_rate(offset, rate))
    }

    // A stream by its EUI-64.
    pub fn from_ieee1722_stream_id(stream: Eui64) -> MediaClock
        ensures { result ≡ MediaClock.Ieee1722StreamId stream }
    {
        MediaClock::Ieee1722StreamId(stream)
    }

    // An extension of this name, without a value.
    pub fn from_extended_name(name: Place) -> MediaClock
        ensures { result ≡ MediaClock.Ext (media_clock_ext name None) }
    {
        MediaClock::Ext(MediaClockExt::new(name))
    }

    // An extension of this name with a value, which may be empty.
    pub fn from_extended_name_with_value(name: Place, value: Place) -> MediaClock
        ensures { result ≡ MediaClock.Ext (media_clock_ext name (Some value)) }
    {
        MediaClock::Ext(MediaClockExt::with_value(name, value))
    }
}

// The sender. By hand, as the promise that a derive makes would follow its attribute.
impl Default for MediaClock {
    ghost is_default = { λ c. c ≡ clock.Sender };

    fn default() -> MediaClock {
        MediaClock::Sender
    }
}

impl From<Direct> for MediaClock {
    ghost from_gives = { λ d c. c ≡ clock.Direct d };

    fn from(direct: Direct) -> MediaClock {
        MediaClock::Direct(direct)
    }
}

impl From<Eui64> for MediaClock {
    ghost from_gives = { λ e c. c ≡ clock.Ieee1722StreamId e };

    fn from(stream: Eui64) -> MediaClock {
        MediaClock::Ieee1722StreamId(stream)
    }
}

impl From<MediaClockExt> for MediaClock {
    ghost from_gives = { λ e c. c ≡ clock.Ext e };

    fn from(ext: MediaClockExt) -> MediaClock {
        MediaClock::Ext(ext)
    }
}

impl MediaClockId {
    // A tag without `src:`.
    pub fn new(tag: Place) -> MediaClockId
        ensures { result ≡ media_clock_id false tag }
    {
        MediaClockId { src: false, tag }
    }

    // A tag with `src:` before it.
    pub fn new_with_src_prefix(tag: Place) -> MediaClockId
        ensures { result ≡ media_clock_id true tag }
    {
        MediaClockId { src: true, tag }
    }

    pub fn set_src_prefix(self, src: bool) -> MediaClockId
        ensures { result ≡ with_src self src }
    {
        let tag = self.tag;
        MediaClockId { src, tag }
    }
}

impl Rate {
    // Not reduced, and a denominator 0 is not refused here.
    pub fn new(numerator: u32, denominator: u32) -> Rate
        ensures { result ≡ rate numerator denominator }
    {
        Rate {
            numerator,
            denominator,
        }
    }

    pub fn is_one(self) -> bool
        ensures { result ≡ (eqb self.numerator 1 && eqb self.denominator 1) }
    {
        self.numerator == 1 && self.denominator == 1
    }
}

impl From<(u32, u32)> for Rate {
    ghost from_gives = { λ p r. r ≡ rate p.0 p.1 };

    fn from((numerator, denominator): (u32, u32)) -> Rate {
        Rate::new(numerator, denominator)
    }
}

impl Direct {
    // No offset and no rate.
    pub fn new() -> Direct
        ensures { result ≡ direct None None }
    {
        Direct {
            offset: None,
            rate: None,
        }
    }

    // This offset, and no rate.
    pub fn with_offset(offset: u32) -> Direct
        ensures { result ≡ direct (Some offset) None }
    {
        Direct {
            offset: Some(offset),
            rate: None,
        }
    }

    pub fn set_offset(self, offset: u32) -> Direct
        ensures { result ≡ with_offset self offset }
    {
        let rate = self.rate;
        Direct {
            offset: Some(offset),
            rate,
        }
    }

    // This rate, and no offset: no offset is not 0.
    pub fn with_rate(rate: Rate) -> Direct
        ensures { result ≡ direct None (Some rate) }
    {
        Direct {
            offset: None,
            rate: Some(rate),
        }
    }

    pub fn set_rate(self, rate: Rate) -> Direct
        ensures { result ≡ with_rate self rate }
    {
        let offset = self.offset;
        Direct {
            offset,
            rate: Some(rate),
        }
    }

    // Both.
    pub fn with_offset_and_rate(offset: u32, rate: Rate) -> Direct
        ensures { result ≡ direct (Some offset) (Some rate) }
    {
        Direct {
            offset: Some(offset),
            rate: Some(rate),
        }
    }
}

impl MediaClockExt {
    // A name without a value.
    pub fn new(name: Place) -> MediaClockExt
        ensures { result ≡ media_clock_ext name None }
    {
        MediaClockExt { name, value: None }
    }

    // A name and a value, which may be empty.
    pub fn with_value(name: Place, value: Place) -> MediaClockExt
        ensures { result ≡ media_clock_ext name (Some value) }
    {
        MediaClockExt {
            name,
            value: Some(value),
        }
    }

    pub fn set_value(self, value: Place) -> MediaClockExt
        ensures { result ≡ with_media_value self value }
    {
        let name = self.name;
        MediaClockExt::with_value(name, value)
    }
}
