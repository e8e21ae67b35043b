// The records of a product's entries, their fields and points.
use crate::entries::{COUNTS, ENTRIES};
use crate::printing::{print_part, print_words};
use std::io;

fn show_record_place(rt: &impl Print, p: &[u8], entry: usize, asked: usize) -> io::Result<()> {
    let question = [entry as u64, asked as u64];
    let mut place = [0u64; 5];
    ambrothel::ambrothel_record_place(p, entry, asked, &mut place);
    print_words(rt, b"record_place ", &question, &place)
}

fn show_record_part(rt: &impl Print, p: &[u8], entry: usize, asked: usize) -> io::Result<()> {
    let question = [entry as u64, asked as u64];
    let mut count = [0u64; 1];
    let mut bytes = [0u8; 65536];
    ambrothel::ambrothel_record_part(p, entry, asked, &mut count, &mut bytes);
    print_part(rt, b"record_part ", &question, count[0], &bytes)
}

// A field at the offset of its kind's number.
fn show_field(
    rt: &impl Print,
    p: &[u8],
    entry: usize,
    asked: usize,
    kind: usize,
) -> io::Result<()> {
    let question = [entry as u64, asked as u64, kind as u64, kind as u64];
    let mut words = [0u64; 7];
    ambrothel::ambrothel_field_at(p, entry, asked, kind, kind, &mut words);
    print_words(rt, b"field_at ", &question, &words)
}

// Of each kind, and of two that are none.
fn show_fields(rt: &impl Print, p: &[u8], entry: usize, asked: usize) -> io::Result<()> {
    for kind in 0..11 {
        show_field(rt, p, entry, asked, kind)?;
    }
    Ok(())
}

// The bits of a double; a point or a model is no NaN, which would have none.
pub fn bits_of(x: f64) -> u64 {
    if x == x { f64::to_bits(x) } else { 0 }
}

fn show_point(
    rt: &impl Print,
    p: &[u8],
    entry: usize,
    asked: usize,
    latitude: usize,
    longitude: usize,
    altitude: usize,
) -> io::Result<()> {
    let mut words = [0u64; 3];
    let mut point = [0.0f64; 3];
    ambrothel::ambrothel_point_at(
        p, entry, asked, latitude, longitude, altitude, &mut words, &mut point,
    );
    let question = [
        entry as u64,
        asked as u64,
        latitude as u64,
        longitude as u64,
        altitude as u64,
    ];
    let answer = [
        words[0],
        words[1],
        words[2],
        bits_of(point[0]),
        bits_of(point[1]),
        bits_of(point[2]),
    ];
    print_words(rt, b"point_at ", &question, &answer)
}

// A record; of the first three of the first four entries, fields and points too.
fn show_record(rt: &impl Print, p: &[u8], entry: usize, asked: usize) -> io::Result<()> {
    show_record_place(rt, p, entry, asked)?;
    show_record_part(rt, p, entry, asked)?;
    if 3 < entry {
        return Ok(());
    }
    if 2 < asked {
        return Ok(());
    }
    show_fields(rt, p, entry, asked)?;
    show_point(rt, p, entry, asked, 0, 4, 8)?;
    show_point(rt, p, entry, asked, 4, 8, 0)
}

// The records of an entry and the one behind the last.
fn show_records(rt: &impl Print, p: &[u8], entry: usize, count: u64) -> io::Result<()> {
    for asked in 0..41 {
        if count < (asked as u64) {
            return Ok(());
        }
        show_record(rt, p, entry, asked)?;
    }
    Ok(())
}

// The records of every entry, and of the entry behind the last.
pub fn show_all_records(rt: &impl Print, p: &[u8], directory: &[u64; 772]) -> io::Result<()> {
    let entries = directory[ENTRIES];
    for entry in 0..128 {
        if entries <= (entry as u64) {
            return show_records(rt, p, entry, 0);
        }
        show_records(rt, p, entry, directory[COUNTS + entry])?;
    }
    show_records(rt, p, 128, 0)
}
