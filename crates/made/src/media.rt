// The functions of the records of mediaclk and of `Eui64`, by their rows. One of a smaller type is shown by the source that is made of its
// answer.
use crate::arguments::Arguments;
use clock::Eui64;
use mediarecord::{Direct, MediaClock, MediaClockExt, MediaClockId, MediaClockSource, Rate};

pub(crate) fn made(row: u8, a: Arguments) -> MediaClockSource {
    match row {
        0..=77 => MediaClockSource::from_ieee1722_stream_id(stream(row, a)),
        78..=100 => source(row, a),
        101..=114 => MediaClockSource::new(clock(row, a)),
        115..=120 => MediaClockSource::with_clock_id(MediaClock::Sender, id(row, a)),
        121..=125 => from_rate(row, a),
        126..=135 => MediaClockSource::new(MediaClock::Direct(direct(row, a))),
        _ => MediaClockSource::new(MediaClock::Ext(extension(row, a))),
    }
}

fn stream(row: u8, a: Arguments) -> Eui64 {
    match row {
        59 => Eui64::new(a.id()),
        60 => Eui64::new(Eui64::as_u64(a.eui())),
        _ => Eui64::from(a.id()),
    }
}

fn source(row: u8, a: Arguments) -> MediaClockSource {
    let id = a.media_clock_id();
    match row {
        78 => MediaClockSource::default(),
        79 => MediaClockSource::new(a.media_clock()),
        80 => MediaClockSource::with_clock_id(a.media_clock(), id),
        81 => MediaClockSource::new_direct(),
        82 => MediaClockSource::from_direct_offset(a.x),
        83 => MediaClockSource::from_direct_offset_with_id(a.x, id),
        84 => MediaClockSource::from_direct_rate(a.rate()),
        85 => MediaClockSource::from_direct_rate_with_id(a.rate(), id),
        86 => MediaClockSource::from_direct_offset_and_rate(a.x, a.rate()),
        87 => MediaClockSource::from_direct_offset_and_rate_with_id(a.x, a.rate(), id),
        88 => MediaClockSource::from_ieee1722_stream_id(a.eui()),
        89 => MediaClockSource::from_ieee1722_stream_id_with_id(a.eui(), id),
        90 => MediaClockSource::from_extended_name(a.p),
        91 => MediaClockSource::from_extended_name_with_id(a.p, id),
        92 => MediaClockSource::from_extended_name_with_value(a.p, a.q),
        93 => MediaClockSource::from_extended_name_with_value_with_id(a.p, a.q, id),
        94 => MediaClockSource::set_id(a.media_clock_source(), id),
        _ => MediaClockSource::from(a.media_clock()),
    }
}

fn clock(row: u8, a: Arguments) -> MediaClock {
    match row {
        101 => MediaClock::default(),
        102 => MediaClock::new_direct(),
        103 => MediaClock::from_direct_offset(a.x),
        104 => MediaClock::from_direct_rate(a.rate()),
        105 => MediaClock::from_direct_offset_and_rate(a.x, a.rate()),
        106 => MediaClock::from_ieee1722_stream_id(a.eui()),
        107 => MediaClock::from_extended_name(a.p),
        108 => MediaClock::from_extended_name_with_value(a.p, a.q),
        109 => MediaClock::from(a.direct()),
        110 => MediaClock::from(a.eui()),
        _ => MediaClock::from(a.media_ext()),
    }
}

fn id(row: u8, a: Arguments) -> MediaClockId {
    match row {
        115 => MediaClockId::new(a.r),
        116 => MediaClockId::new_with_src_prefix(a.r),
        _ => MediaClockId::set_src_prefix(a.flagged_id(), a.src),
    }
}

fn from_rate(row: u8, a: Arguments) -> MediaClockSource {
    let rate = a.rate();
    match row {
        121 => MediaClockSource::from_direct_rate(Rate::default()),
        122 => MediaClockSource::from_direct_rate(Rate::new(a.numerator, a.denominator)),
        123 => MediaClockSource::from_direct_offset(u32::from(Rate::is_one(rate))),
        _ => MediaClockSource::from_direct_rate(Rate::from((a.numerator, a.denominator))),
    }
}

fn direct(row: u8, a: Arguments) -> Direct {
    match row {
        126 => Direct::default(),
        127 => Direct::new(),
        128 => Direct::with_offset(a.x),
        129 => Direct::set_offset(a.direct(), a.x),
        130 => Direct::with_rate(a.rate()),
        131 => Direct::set_rate(a.direct(), a.rate()),
        _ => Direct::with_offset_and_rate(a.x, a.rate()),
    }
}

fn extension(row: u8, a: Arguments) -> MediaClockExt {
    match row {
        136 => MediaClockExt::new(a.p),
        137 => MediaClockExt::with_value(a.p, a.q),
        _ => MediaClockExt::set_value(a.media_ext(), a.q),
    }
}
