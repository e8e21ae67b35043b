// The lines of the SPH before the DSDs (document 01, "Header text", last paragraph, and rule 7).
#![tactic(auto)]

ghost use Rattle.std.specs.Prelude.{◌≡◌, ◌+◌, ◌-◌, ◌<◌, ◌≤◌, ◌&&◌, ltb, length};
ghost use Rattle.layout.specs.Search.{find};
ghost use Rattle.layout.specs.Sph.{ended, blanks, unquoted, quoted, value, keyword, line};
ghost use Rattle.text.specs.Runs.{fails};
ghost use Rattle.sph.specs.LineEnds.{ends_line, in_keyword, Ended, first_bad_line};

use text::{ByteClass, blocks, first_not, first_not_blank, first_not_plain, is_plain};

// The bytes of a keyword behind its first. Their runs are short: there are blocks of eight, and none before them.
struct Keyword;

#[tactic(auto, unfolding(crate::specs::LineEnds::in_keyword))]
impl ByteClass for Keyword {
    ghost test = { in_keyword };

    const OVERLAPS: bool = true;

    fn holds(byte: u8) -> bool {
        ((65 <= byte) & (byte <= 90)) | (((48 <= byte) & (byte <= 57)) | (byte == 95))
    }
}

// The first place in `from..to` whose byte is not of a keyword, or `to`.
fn first_not_in_keyword(p: &[u8], from: usize, to: usize) -> usize
    requires { (from ≤ to) × (to ≤ length p.now) }
    ensures { result ≡ find (fails in_keyword p.now) from (to - from) }
{
    first_not::<Keyword>(p, blocks::<Keyword, 8>(p, from, to), to)
}

// Byte 10 stands at `at`, before `to`.
fn ends_at(p: &[u8], at: usize, to: usize) -> bool
    requires { to ≤ length p.now }
    ensures { result ≡ (ltb at to && ends_line p.now at) }
{
    if to <= at {
        return false;
    }
    p[at] == 10
}

// The tests of what stands in `at..to`, the rest of a line: each answers the place behind the line's byte 10, if the rest is good.

// Only byte 10 follows.
fn last_end(p: &[u8], at: usize, to: usize) -> Option<usize>
    requires { (at ≤ to) × (to ≤ length p.now) }
    ensures { Ended ended p.now at to result }
{
    if ends_at(p, at, to) {
        return Some(at + 1);
    }
    None
}

// Blanks, and byte 10. Where a short line ends at once, here and in `unquoted_end`, no run is looked for: the next line would wait for what is found.
fn blanks_end(p: &[u8], at: usize, to: usize) -> Option<usize>
    requires { (at ≤ to) × (to ≤ length p.now) }
    ensures { Ended blanks p.now at to result }
{
    if ends_at(p, at, to) {
        return Some(at + 1);
    }
    let end = first_not_blank(p, at, to);
    last_end(p, end, to)
}

// Bytes 32 to 126 without 34, and byte 10.
fn unquoted_end(p: &[u8], at: usize, to: usize) -> Option<usize>
    requires { (at ≤ to) × (to ≤ length p.now) }
    ensures { Ended unquoted p.now at to result }
{
    if ends_at(p, at, to) {
        return Some(at + 1);
    }
    let end = first_not_plain(p, at, to);
    last_end(p, end, to)
}

// The rest of a q of any length, and byte 10.
fn quoted_end(p: &[u8], at: usize, to: usize) -> Option<usize>
    requires { (at ≤ to) × (to ≤ length p.now) }
    ensures { Ended quoted p.now at to result }
{
    let quote = first_not_plain(p, at, to);
    if to <= quote {
        return None;
    }
    if p[quote] != 34 {
        return None;
    }
    last_end(p, quote + 1, to)
}

// A value, and byte 10.
fn value_end(p: &[u8], at: usize, to: usize) -> Option<usize>
    requires { (at ≤ to) × (to ≤ length p.now) }
    ensures { Ended value p.now at to result }
{
    if to <= at {
        return None;
    }
    let x = p[at];
    if x == 34 {
        return quoted_end(p, at + 1, to);
    }
    if !is_plain(x) {
        return None;
    }
    unquoted_end(p, at + 1, to)
}

// The rest of a keyword, `=`, a value, and byte 10.
fn keyword_end(p: &[u8], at: usize, to: usize) -> Option<usize>
    requires { (at ≤ to) × (to ≤ length p.now) }
    ensures { Ended keyword p.now at to result }
{
    let equals = first_not_in_keyword(p, at, to);
    if to <= equals {
        return None;
    }
    if p[equals] != 61 {
        return None;
    }
    value_end(p, equals + 1, to)
}

// The place behind the byte 10 of the line that begins at `from`, if it is good and ends before `to`.
fn line_end(p: &[u8], from: usize, to: usize) -> Option<usize>
    requires { (from < to) × (to ≤ length p.now) }
    ensures { Ended line p.now from to result }
{
    let x = p[from];
    if x == 32 {
        return blanks_end(p, from + 1, to);
    }
    if x < 65 {
        return None;
    }
    if 90 < x {
        return None;
    }
    keyword_end(p, from + 1, to)
}

// The first byte of the first bad or unended line of those in `from..to`, or `to` (rule 7, from the end of the main header to the DSDs), as its clause says.
pub fn first_bad_line(p: &[u8], from: usize, to: usize) -> usize
    requires { (from ≤ to) × (to ≤ length p.now) }
    ensures { result ≡ first_bad_line p.now from to }
{
    let mut start = from;
    // A `while`: the next line begins where this one ends.
    while start < to {
        let Some(end) = line_end(p, start, to) else {
            return start;
        };
        start = end;
    }
    to
}
