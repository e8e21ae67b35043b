// The check of header lines against the layout of document 01, "Header text": the first byte that is not as laid out.
// A header whose bytes all lie between the lowest and the highest that may stand at their places, none of them barred there, is as laid out. Any other goes row
// by row through a constant table of line start, kind and width, and span by span: the literal bytes from the last value on, and the value. A spare's value is
// its blanks.
#![tactic(auto)]

mod tables;

ghost use Rattle.std.specs.Prelude.{◌≡◌, ◌+◌, ◌*◌, ◌-◌, ◌≤◌, ◌<◌, not, T, length};
ghost use Rattle.layout.specs.Bytes.{bytes, part};
ghost use Rattle.layout.specs.Answers.{verdict_is};
ghost use Rattle.layout.specs.Lines.{size_of_mph, size_of_dsd, mph, spare_dsd};
ghost use Rattle.layout.specs.Search.{first, some, laid_out};
ghost use Rattle.layout.specs.Text.{layout, sign, among, fits, s, s_ab, literal, value_classes};
ghost use Rattle.lines.specs.Ranges.{may_stand, misplaced};
ghost use Rattle.lines.specs.Table.{bad_place, checked, refused_at, value_laid, width_fits, end_of, row_laid, row_fits, table_fits, bad_by_table, bad_in_dsd, rule8_from};

use dsd::Entry;
use layout::{Refusal, refuse};
use tables::{Kind, Ranges, Row};
use values::MainHeader;

#[tactic(auto, unfolding(layout::specs::Text::fits))]
fn is_sign(x: u8) -> bool
    ensures { result ≡ fits sign x }
{
    matches!(x, b'+' | b'-')
}

#[tactic(auto, unfolding(layout::specs::Text::fits))]
fn is_flag(x: u8) -> bool
    ensures { result ≡ fits (among (bytes "01")) x }
{
    matches!(x, b'0' | b'1')
}

#[tactic(auto, unfolding(layout::specs::Text::fits))]
fn is_type(x: u8) -> bool
    ensures { result ≡ fits (among (bytes "MAGR")) x }
{
    matches!(x, b'M' | b'A' | b'G' | b'R')
}

// A search found this place, which is a bad byte's unless it is the end.
fn end_or_bad(place: usize, end: usize) -> Result<(), usize>
    ensures { result ≡ checked end place }
{
    if place != end {
        return Err(place);
    }
    Ok(())
}

// A check answers the place of the first byte that is not as laid out, where there is one. This one is of literal bytes.
fn literal_span(p: &[u8], template: &[u8], from: usize, to: usize) -> Result<(), usize>
    requires { (from ≤ to) × (to ≤ length template.now) × (to ≤ length p.now) }
    ensures { result ≡ checked to (bad_place (literal (part template.now from (to - from))) p.now from) }
{
    for i in from..to {
        if p[i] != template[i] {
            return Err(i);
        }
    }
    Ok(())
}

// A spare DSD: blanks and byte 10.
fn spare_check(p: &[u8]) -> Result<(), usize>
    requires { size_of_dsd ≤ length p.now }
    ensures { result ≡ checked size_of_dsd (bad_place (layout spare_dsd) p.now 0) }
{
    let end = Entry::SIZE - 1;
    end_or_bad(text::first_not_blank(p, 0, end), end)?;
    if p[end] != 10 {
        return Err(end);
    }
    Ok(())
}

// A sign and digits.
fn whole_check(p: &[u8], from: usize, to: usize) -> Result<(), usize>
    requires { (from < to) × (to ≤ length p.now) }
    ensures { result ≡ checked to (bad_place (value_classes (s (to - (from + 1)))) p.now from) }
{
    if !is_sign(p[from]) {
        return Err(from);
    }
    end_or_bad(text::first_not_digit(p, from + 1, to), to)
}

// A sign, digits, a point and digits.
fn decimal_check(p: &[u8], from: usize, point: usize, to: usize) -> Result<(), usize>
    requires { (from < point) × (point < to) × (to ≤ length p.now) }
    ensures { result ≡ checked to (bad_place (value_classes (s_ab (point - (from + 1)) (to - (point + 1)))) p.now from) }
{
    whole_check(p, from, point)?;
    if p[point] != b'.' {
        return Err(point);
    }
    end_or_bad(text::first_not_digit(p, point + 1, to), to)
}

// A value of this kind.
#[tactic(auto, unfolding(crate::specs::Table::width_fits, crate::specs::Table::value_laid))]
fn value_check(p: &[u8], from: usize, kind: Kind, to: usize) -> Result<(), usize>
    requires { (from ≤ to) × (to ≤ length p.now) × T (width_fits kind (to - from)) }
    ensures { result ≡ checked to (bad_place (value_laid kind (to - from)) p.now from) }
{
    match kind {
        Kind::Text => end_or_bad(text::first_not_plain(p, from, to), to),
        Kind::Spare => end_or_bad(text::first_not_blank(p, from, to), to),
        Kind::Flag => if is_flag(p[from]) { Ok(()) } else { Err(from) },
        Kind::SetType => if is_type(p[from]) { Ok(()) } else { Err(from) },
        Kind::Whole => whole_check(p, from, to),
        Kind::Thousandths => decimal_check(p, from, to - 4, to),
        Kind::Millionths => decimal_check(p, from, to - 7, to),
    }
}

// One row: the literal bytes from the last value on, and the value.
fn row_check(p: &[u8], template: &[u8], from: usize, row: &Row) -> Result<(), usize>
    requires { T (row_fits (length template.now) from row.now) × (length template.now ≤ length p.now) }
    ensures { result ≡ checked (end_of row.now) (bad_place (row_laid template.now from row.now) p.now from) }
{
    let value = row.start + row.key;
    literal_span(p, template, from, value)?;
    value_check(p, value, row.kind, value + row.width)
}

// The lines of a table, in the header `p`: row by row, and the literal bytes behind the last value.
#[inline(never)] // only bad headers get here, and within `dsds_check` it takes registers from the loop: 128 spares take 1.25 times as long
fn lines_check(p: &[u8], template: &[u8], rows: &[Row]) -> Result<(), usize>
    requires { T (table_fits template.now rows.now) × (length template.now ≤ length p.now) }
    ensures { result ≡ checked (length template.now) (bad_by_table template.now rows.now p.now) }
{
    let mut from = 0;
    for row in rows {
        row_check(p, template, from, row)?;
        from = row.start + row.key + row.width;
    }
    literal_span(p, template, from, template.len())
}

#[tactic(auto, unfolding(crate::specs::Ranges::may_stand))]
fn may_stand(x: u8, low: u8, high: u8, barred: u8) -> bool
    ensures { result ≡ may_stand low high barred x }
{
    ((low <= x) & (x <= high)) & (x != barred)
}

// The places `from..to` of a header have bytes that may stand there. They are tested as a whole, without an exit, so that they are tested side by side; by an
// index, since it goes over four arrays at once.
fn laid_in<const N: usize>(p: &[u8], ranges: &Ranges<N>, from: usize, to: usize) -> bool
    requires { (from ≤ to) × (to ≤ N) × (N ≤ length p.now) }
    ensures { result ≡ not (some (misplaced ranges.now.lows ranges.now.highs ranges.now.barred p.now) from (to - from)) }
{
    let mut all = true;
    for i in from..to {
        all &= may_stand(p[i], ranges.lows[i], ranges.highs[i], ranges.barred[i]);
    }
    all
}

// The place of the first byte of the main header that is not as laid out (rule 3). It is tested in parts, each short enough that the compiler unrolls it and
// has the tables' bytes in the program: as one loop, `judge` of a main header alone takes 1.16 times as long.
pub fn main_header_check(p: &[u8]) -> Result<(), usize>
    requires { size_of_mph ≤ length p.now }
    ensures { laid_out 3 128 0 (layout mph) p.now ≡ refused_at 3 128 result }
{
    if laid_in(p, &tables::MPH, 0, 256)
        && laid_in(p, &tables::MPH, 256, 512)
        && laid_in(p, &tables::MPH, 512, 768)
        && laid_in(p, &tables::MPH, 768, 1024)
        && laid_in(p, &tables::MPH, 1024, MainHeader::SIZE)
    {
        return Ok(());
    }
    lines_check(p, &tables::MPH.highs, &tables::MPH_ROWS)
}

// A DSD. One whose first byte is a blank is a spare. The type is tested by itself: M, A, G, R are no range.
fn dsd_check(p: &[u8]) -> Result<(), usize>
    requires { size_of_dsd ≤ length p.now }
    ensures { result ≡ checked size_of_dsd (bad_in_dsd p.now 0) }
{
    if p[0] == b' ' {
        return spare_check(p);
    }
    if is_type(p[tables::DSD_TYPE_AT]) && laid_in(p, &tables::DSD, 0, Entry::SIZE) {
        return Ok(());
    }
    lines_check(p, &tables::DSD.highs, &tables::DSD_ROWS)
}

// Rule 8 of the `n` DSDs that begin at `from`.
#[inline(never)] // within a caller its loop has too few registers: 128 spares take 1.05 times as long
pub fn dsds_check(p: &[u8], from: usize, n: usize) -> Result<(), Refusal>
    requires { from + size_of_dsd * n ≤ length p.now }
    ensures { verdict_is result ≡ first (rule8_from p.now from) 0 n }
{
    for i in 0..n {
        let at = from + Entry::SIZE * i;
        if let Err(bad) = dsd_check(&p[at..at + Entry::SIZE]) {
            return refuse(8, (at + bad) as u64, i);
        }
    }
    Ok(())
}
