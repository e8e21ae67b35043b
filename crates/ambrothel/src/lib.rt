// The reader for C and Rust: every public call, its answer written into rooms that the host lends. `ambrothel_c` exports each to C.
// A room too short for the answer returns 1, and nothing is written.
#![tactic(auto)]

ghost use Rattle.std.specs.Prelude.{length};
ghost use Rattle.layout.specs.Rules.{verdict};
ghost use Rattle.layout.specs.Records.{sph_place, record_place, part_of};
ghost use Rattle.layout.specs.Fields.{field_reply, point_reply};
ghost use Rattle.words.specs.Words.{verdict_words, place_words, field_words};
ghost use Rattle.words.specs.Lent.{OneRoom};
ghost use Rattle.words.specs.Rooms.{PartRooms, PointRooms};
ghost use Rattle.extinction.specs.Extinction.{pixel_reply};
ghost use Rattle.extinction_words.specs.PixelWords.{PixelRooms};
ghost use Rattle.times.specs.Times.{time_of_text};
ghost use Rattle.time_words.specs.TimeWords.{time_words, TextRooms};
ghost use Rattle.column.specs.Column.{column_reply};
ghost use Rattle.ambrothel.specs.Calls.{DirectoryCall, HeaderCall, ColumnCall};

use column::put_column;
use directory::Sets;
use extinction_words::{put_model, put_pixel};
use layout::Directory;
use placement::Extents;
use time_words::{put_time, put_whole_text};
use values::MainHeader;
use words::{
    ROOM_TOO_SHORT, WRITTEN, put_directory_numbers, put_doubles, put_field, put_part, put_place,
    put_point, put_verdict, put_whole_directory, put_whole_header,
};

pub fn ambrothel_judge(p: &[u8], words: &mut [u64]) -> u32
    ensures { OneRoom (verdict_words (verdict p.now)) words.old words.new result }
{
    if words.len() < 3 {
        return ROOM_TOO_SHORT;
    }
    put_verdict(words, product::judge(p));
    WRITTEN
}

// Numbers from the opening and texts from the product go straight into the rooms: a Directory on the way would be 16 kB copied once more.
pub fn ambrothel_open_directory(p: &[u8], words: &mut [u64], texts: &mut [u8]) -> u32
    ensures { DirectoryCall p.now words.old words.new texts.old texts.new result }
{
    if words.len() < 772 {
        return ROOM_TOO_SHORT;
    }
    if texts.len() < 11520 {
        return ROOM_TOO_SHORT;
    }
    let mut sets = Sets::none();
    let dsds = match opening::open_sets(p, &mut sets) {
        Ok(dsds) => dsds,
        Err(refusal) => {
            return put_whole_directory(Err(refusal), &Directory::none(), words, texts);
        }
    };
    let entries = sets.entries;
    let mut ranks = [0u64; 128];
    let extents = Extents {
        offsets: &sets.offsets,
        sizes: &sets.sizes,
        entries,
    };
    ranks::rank_sets(extents, &mut ranks);
    put_directory_numbers(
        words,
        Ok(()),
        entries,
        &sets.types,
        &sets.offsets,
        &sets.sizes,
        &sets.counts,
        &sets.record_sizes,
        &ranks,
    );
    let named = directory::put_names(texts, 0, p, dsds, entries);
    directory::put_filenames(texts, named, p, dsds, entries);
    WRITTEN
}

pub fn ambrothel_header_values(p: &[u8], words: &mut [u64], texts: &mut [u8]) -> u32
    ensures { HeaderCall p.now words.old words.new texts.old texts.new result }
{
    match product::header_values(p) {
        Ok(header) => put_whole_header(Ok(()), header, words, texts),
        Err(refusal) => put_whole_header(Err(refusal), MainHeader::none(), words, texts),
    }
}

pub fn ambrothel_sph_place(p: &[u8], words: &mut [u64]) -> u32
    ensures { OneRoom (place_words (sph_place p.now)) words.old words.new result }
{
    if words.len() < 5 {
        return ROOM_TOO_SHORT;
    }
    put_place(words, product::sph_place(p));
    WRITTEN
}

pub fn ambrothel_sph_part(p: &[u8], words: &mut [u64], bytes: &mut [u8]) -> u32
    ensures { PartRooms (part_of p.now (sph_place p.now)) words.old words.new bytes.old bytes.new result }
{
    put_part(product::sph_part(p), words, bytes)
}

pub fn ambrothel_record_place(p: &[u8], entry: usize, asked: usize, words: &mut [u64]) -> u32
    ensures { OneRoom (place_words (record_place p.now entry asked)) words.old words.new result }
{
    if words.len() < 5 {
        return ROOM_TOO_SHORT;
    }
    put_place(words, product::record_place(p, entry, asked));
    WRITTEN
}

pub fn ambrothel_record_part(
    p: &[u8],
    entry: usize,
    asked: usize,
    words: &mut [u64],
    bytes: &mut [u8],
) -> u32
    ensures { PartRooms (part_of p.now (record_place p.now entry asked)) words.old words.new bytes.old bytes.new result }
{
    put_part(product::record_part(p, entry, asked), words, bytes)
}

pub fn ambrothel_field_at(
    p: &[u8],
    entry: usize,
    asked: usize,
    offset: usize,
    kind: usize,
    words: &mut [u64],
) -> u32
    ensures { OneRoom (field_words (field_reply p.now entry asked offset kind)) words.old words.new result }
{
    if words.len() < 7 {
        return ROOM_TOO_SHORT;
    }
    put_field(words, product::field_at(p, entry, asked, offset, kind));
    WRITTEN
}

pub fn ambrothel_point_at(
    p: &[u8],
    entry: usize,
    asked: usize,
    latitude: usize,
    longitude: usize,
    altitude: usize,
    words: &mut [u64],
    point: &mut [f64],
) -> u32
    ensures { PointRooms (point_reply p.now entry asked latitude longitude altitude) words.old words.new point.old point.new result }
{
    if words.len() < 3 {
        return ROOM_TOO_SHORT;
    }
    if point.len() < 3 {
        return ROOM_TOO_SHORT;
    }
    let answer = product::point_at(p, entry, asked, latitude, longitude, altitude);
    put_point(words, answer);
    put_doubles(point, answer);
    WRITTEN
}

// The room for the values is not asked for here: one that is too short is refusal 33.
pub fn ambrothel_column(
    p: &[u8],
    entry: usize,
    from: usize,
    to: usize,
    offset: usize,
    kind: usize,
    words: &mut [u64],
    values: &mut [u32],
) -> u32
    ensures { ColumnCall (column_reply p.now entry from to offset kind (length values.old)) words.old words.new values.old values.new result }
{
    if words.len() < 3 {
        return ROOM_TOO_SHORT;
    }
    put_verdict(words, put_column(values, p, entry, from, to, offset, kind));
    WRITTEN
}

pub fn ambrothel_extinction_at(
    p: &[u8],
    asked: usize,
    pixel: usize,
    words: &mut [u64],
    model: &mut [f64],
) -> u32
    ensures { PixelRooms (pixel_reply p.now asked pixel) words.old words.new model.old model.new result }
{
    if words.len() < 11 {
        return ROOM_TOO_SHORT;
    }
    if model.len() < 1 {
        return ROOM_TOO_SHORT;
    }
    let answer = extinction::pixel_at(p, asked, pixel);
    put_pixel(words, answer);
    put_model(model, answer);
    WRITTEN
}

pub fn ambrothel_time_of_text(text: &[u8], words: &mut [u64]) -> u32
    ensures { OneRoom (time_words (time_of_text text.now)) words.old words.new result }
{
    if words.len() < 7 {
        return ROOM_TOO_SHORT;
    }
    put_time(words, times::time_of_text(text));
    WRITTEN
}

pub fn ambrothel_text_of_time(
    days: i32,
    seconds: u32,
    microseconds: u32,
    words: &mut [u64],
    text: &mut [u8],
) -> u32
    ensures { TextRooms (record { days = days; seconds = seconds; microseconds = microseconds }) words.old words.new text.old text.new result }
{
    match times::text_of_time(days, seconds, microseconds) {
        Ok(bytes) => put_whole_text(Ok(()), &bytes, words, text),
        Err(refusal) => put_whole_text(Err(refusal), &[0; 27], words, text),
    }
}
