// What C links, as `include/ambrothel.h` declares it, and `ambrothel_column`, which it does not declare yet: each function calls the one of its name in
// `ambrothel`, and promises the same.
#![tactic(auto)]

ghost use Rattle.std.specs.Prelude.{length};
ghost use Rattle.layout.specs.Rules.{verdict};
ghost use Rattle.layout.specs.Records.{sph_place, record_place, part_of};
ghost use Rattle.layout.specs.Fields.{field_reply, point_reply};
ghost use Rattle.words.specs.Words.{verdict_words, place_words, field_words};
ghost use Rattle.words.specs.Lent.{OneRoom};
ghost use Rattle.words.specs.Rooms.{PartRooms, PointRooms};
ghost use Rattle.extinction.specs.Extinction.{pixel_reply};
ghost use Rattle.extinction_words.specs.PixelWords.{PixelRooms};
ghost use Rattle.times.specs.Times.{time_of_text};
ghost use Rattle.time_words.specs.TimeWords.{time_words, TextRooms};
ghost use Rattle.column.specs.Column.{column_reply};
ghost use Rattle.ambrothel.specs.Calls.{DirectoryCall, HeaderCall, ColumnCall};

#[unsafe(no_mangle)]
pub extern "C" fn ambrothel_judge(p: &[u8], words: &mut [u64]) -> u32
    ensures { OneRoom (verdict_words (verdict p.now)) words.old words.new result }
{
    ambrothel::ambrothel_judge(p, words)
}

#[unsafe(no_mangle)]
pub extern "C" fn ambrothel_open_directory(p: &[u8], words: &mut [u64], texts: &mut [u8]) -> u32
    ensures { DirectoryCall p.now words.old words.new texts.old texts.new result }
{
    ambrothel::ambrothel_open_directory(p, words, texts)
}

#[unsafe(no_mangle)]
pub extern "C" fn ambrothel_header_values(p: &[u8], words: &mut [u64], texts: &mut [u8]) -> u32
    ensures { HeaderCall p.now words.old words.new texts.old texts.new result }
{
    ambrothel::ambrothel_header_values(p, words, texts)
}

#[unsafe(no_mangle)]
pub extern "C" fn ambrothel_sph_place(p: &[u8], words: &mut [u64]) -> u32
    ensures { OneRoom (place_words (sph_place p.now)) words.old words.new result }
{
    ambrothel::ambrothel_sph_place(p, words)
}

#[unsafe(no_mangle)]
pub extern "C" fn ambrothel_sph_part(p: &[u8], words: &mut [u64], bytes: &mut [u8]) -> u32
    ensures { PartRooms (part_of p.now (sph_place p.now)) words.old words.new bytes.old bytes.new result }
{
    ambrothel::ambrothel_sph_part(p, words, bytes)
}

#[unsafe(no_mangle)]
pub extern "C" fn ambrothel_record_place(
    p: &[u8],
    entry: usize,
    asked: usize,
    words: &mut [u64],
) -> u32
    ensures { OneRoom (place_words (record_place p.now entry asked)) words.old words.new result }
{
    ambrothel::ambrothel_record_place(p, entry, asked, words)
}

#[unsafe(no_mangle)]
pub extern "C" fn ambrothel_record_part(
    p: &[u8],
    entry: usize,
    asked: usize,
    words: &mut [u64],
    bytes: &mut [u8],
) -> u32
    ensures { PartRooms (part_of p.now (record_place p.now entry asked)) words.old words.new bytes.old bytes.new result }
{
    ambrothel::ambrothel_record_part(p, entry, asked, words, bytes)
}

#[unsafe(no_mangle)]
pub extern "C" fn ambrothel_field_at(
    p: &[u8],
    entry: usize,
    asked: usize,
    offset: usize,
    kind: usize,
    words: &mut [u64],
) -> u32
    ensures { OneRoom (field_words (field_reply p.now entry asked offset kind)) words.old words.new result }
{
    ambrothel::ambrothel_field_at(p, entry, asked, offset, kind, words)
}

#[unsafe(no_mangle)]
pub extern "C" fn ambrothel_point_at(
    p: &[u8],
    entry: usize,
    asked: usize,
    latitude: usize,
    longitude: usize,
    altitude: usize,
    words: &mut [u64],
    point: &mut [f64],
) -> u32
    ensures { PointRooms (point_reply p.now entry asked latitude longitude altitude) words.old words.new point.old point.new result }
{
    ambrothel::ambrothel_point_at(p, entry, asked, latitude, longitude, altitude, words, point)
}

#[unsafe(no_mangle)]
pub extern "C" fn ambrothel_column(
    p: &[u8],
    entry: usize,
    from: usize,
    to: usize,
    offset: usize,
    kind: usize,
    words: &mut [u64],
    values: &mut [u32],
) -> u32
    ensures { ColumnCall (column_reply p.now entry from to offset kind (length values.old)) words.old words.new values.old values.new result }
{
    ambrothel::ambrothel_column(p, entry, from, to, offset, kind, words, values)
}

#[unsafe(no_mangle)]
pub extern "C" fn ambrothel_extinction_at(
    p: &[u8],
    asked: usize,
    pixel: usize,
    words: &mut [u64],
    model: &mut [f64],
) -> u32
    ensures { PixelRooms (pixel_reply p.now asked pixel) words.old words.new model.old model.new result }
{
    ambrothel::ambrothel_extinction_at(p, asked, pixel, words, model)
}

#[unsafe(no_mangle)]
pub extern "C" fn ambrothel_time_of_text(text: &[u8], words: &mut [u64]) -> u32
    ensures { OneRoom (time_words (time_of_text text.now)) words.old words.new result }
{
    ambrothel::ambrothel_time_of_text(text, words)
}

#[unsafe(no_mangle)]
pub extern "C" fn ambrothel_text_of_time(
    days: i32,
    seconds: u32,
    microseconds: u32,
    words: &mut [u64],
    text: &mut [u8],
) -> u32
    ensures { TextRooms (record { days = days; seconds = seconds; microseconds = microseconds }) words.old words.new text.old text.new result }
{
    ambrothel::ambrothel_text_of_time(days, seconds, microseconds, words, text)
}
