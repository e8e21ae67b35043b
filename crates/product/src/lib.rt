// The public calls. Each judges the product first, has no `requires`, and its promise is layout's definition on every input.
#![tactic(auto)]

ghost use Rattle.std.specs.Prelude.{◌+◌, ◌≤◌, ◌≡◌, length};
ghost use Rattle.layout.specs.Bytes.{part};
ghost use Rattle.layout.specs.Answers.{reply, verdict_is, place_is, field_answer_is, point_answer_is, directory_of};
ghost use Rattle.layout.specs.Answer.{◌else◌};
ghost use Rattle.layout.specs.Entries.{directory};
ghost use Rattle.values.specs.Header.{header_of};
ghost use Rattle.layout.specs.Rules.{verdict};
ghost use Rattle.layout.specs.Records.{sph_place, record_place, part_of};
ghost use Rattle.layout.specs.Fields.{field_reply, point_reply};

use directory::Sets;
use layout::{Directory, Field, Point, Refusal, Span};
use values::MainHeader;

// Accepted, or refused with number, place and entry.
pub fn judge(p: &[u8]) -> Result<(), Refusal>
    ensures { verdict_is result ≡ verdict p.now }
{
    opening::judge_product(p)
}

// The directory.
pub fn open_directory(p: &[u8]) -> Result<Directory, Refusal>
    ensures { reply result ≡ (verdict p.now else directory_of (directory p.now)) }
{
    let mut sets = Sets::none();
    let dsds = opening::open_sets(p, &mut sets)?;
    let mut directory = Directory::none();
    directory::fill_directory(&mut directory, p, dsds, &sets);
    Ok(directory)
}

// The 34 values of the main header.
pub fn header_values(p: &[u8]) -> Result<MainHeader, Refusal>
    ensures { reply result ≡ (verdict p.now else header_of p.now) }
{
    opening::judge_product(p)?;
    Ok(MainHeader::at(p))
}

// Where the SPH lines stand: all bytes of the SPH before the DSDs.
pub fn sph_place(p: &[u8]) -> Result<Span, Refusal>
    ensures { place_is result ≡ sph_place p.now }
{
    let mut sets = Sets::none();
    let dsds = opening::open_sets(p, &mut sets)?;
    let lines = dsds - MainHeader::SIZE;
    Ok(Span {
        place: MainHeader::SIZE as u64,
        length: lines as u64,
    })
}

// The part of a product at a place.
fn part_at(p: &[u8], span: Span) -> &[u8]
    requires { span.place + span.length ≤ length p.now }
    ensures { result.now ≡ part p.now span.place span.length }
{
    let start = span.place as usize;
    let end = start + span.length as usize;
    &p[start..end]
}

// The SPH lines, or the empty part.
pub fn sph_part(p: &[u8]) -> &[u8]
    ensures { result.now ≡ part_of p.now (sph_place p.now) }
{
    match sph_place(p) {
        Ok(span) => { part_at(p, span) }
        Err(_) => &p[..0],
    }
}

// Where a record of an entry stands.
pub fn record_place(p: &[u8], entry: usize, asked: usize) -> Result<Span, Refusal>
    ensures { place_is result ≡ record_place p.now entry asked }
{
    let mut sets = Sets::none();
    opening::open_sets(p, &mut sets)?;
    records::place_of_record(p, &sets, entry, asked)
}

// The record, or the empty part.
pub fn record_part(p: &[u8], entry: usize, asked: usize) -> &[u8]
    ensures { result.now ≡ part_of p.now (record_place p.now entry asked) }
{
    match record_place(p, entry, asked) {
        Ok(span) => { part_at(p, span) }
        Err(_) => &p[..0],
    }
}

// A field of a record, by its offset in the record and the number of its kind: any number, as C passes it.
pub fn field_at(
    p: &[u8],
    entry: usize,
    asked: usize,
    offset: usize,
    kind: usize,
) -> Result<Field, Refusal>
    ensures { field_answer_is result ≡ field_reply p.now entry asked offset kind }
{
    let span = record_place(p, entry, asked)?;
    fields::field_in(part_at(p, span), entry, offset, kind)
}

// The point at three offsets in a record.
pub fn point_at(
    p: &[u8],
    entry: usize,
    asked: usize,
    latitude: usize,
    longitude: usize,
    altitude: usize,
) -> Result<Point, Refusal>
    ensures { point_answer_is result ≡ point_reply p.now entry asked latitude longitude altitude }
{
    let span = record_place(p, entry, asked)?;
    fields::point_in(part_at(p, span), entry, latitude, longitude, altitude)
}
