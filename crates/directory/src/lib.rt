// The directory of a product (document 01, rules 7 to 14): the numbers of its entries, what is asked of them, and what is answered of all.
#![tactic(auto)]

ghost use Rattle.std.specs.Prelude.{cond, ◌≡◌, ℕ, ◌+◌, ◌*◌, ◌≤◌, ◌<◌, leb, ltb, length};
ghost use Rattle.layout.specs.Answers.{verdict_is, directory_of, no_directory};
ghost use Rattle.layout.specs.Bytes.{part};
ghost use Rattle.layout.specs.Entries.{largest_signed, entries_from, directory};
ghost use Rattle.layout.specs.Lines.{size_of_dsd};
ghost use Rattle.writing.specs.Put.{Put};
ghost use Rattle.directory.specs.Numbers.{no_sets, held_sets, directory_with};
ghost use Rattle.directory.specs.Texts.{texts_from, Room};
ghost use Rattle.directory.specs.Checks.{Dsds, SparesByFirst, Counted, ReadFrom, text_rules, number_rules, Placed};

use dsd::{Entry, Role};
use layout::{Directory, Refusal, refuse};
use placement::Extents;
use values::MainHeader;
use writing::{put_text, put_zeros};

// The numbers and roles of up to 128 entries held together, unused places zero and of no role. Types are the DSDs' own bytes, as hosts are handed them. The
// arrays are the directory's own, copied as they are; that `entries` is at most 128 is no invariant, since `sets_of` takes any list of entries.
#[derive(Clone, Copy)]
pub struct Sets {
    pub entries: usize,
    pub types: [u8; 128],
    pub offsets: [u64; 128],
    pub sizes: [u64; 128],
    pub counts: [u64; 128],
    pub record_sizes: [i64; 128],
    pub roles: [Role; 128],
}

impl Sets {
    // Of no entry.
    pub fn none() -> Sets
        ensures { result ≡ no_sets }
    {
        Sets {
            entries: 0,
            types: [0; 128],
            offsets: [0; 128],
            sizes: [0; 128],
            counts: [0; 128],
            record_sizes: [0; 128],
            roles: [Role::Other; 128],
        }
    }
}

// Rules 7 and 8: the SPH lines before the DSDs, and the DSDs.
pub fn check_text(p: &[u8], dsds: usize, entries: usize) -> Result<(), Refusal>
    requires { Dsds p.now dsds entries }
    ensures { (n : ℕ) → verdict_is result ≡ text_rules p.now n }
{
    let bad = sph::first_bad_line(p, MainHeader::SIZE, dsds);
    if bad != dsds {
        return refuse(7, bad as u64, Refusal::NO_ENTRY);
    }
    lines::dsds_check(p, dsds, entries)
}

// What one reading of the entries counts: how many in a row from the first on have an offset and a size within 2^63 - 1 (rule 9), how many in a row
// have numbers that fit (rule 10), and how many NUM_DATA_SETS counts (rule 11).
#[derive(Clone, Copy)]
pub struct Reading {
    pub within: usize,
    pub fitting: usize,
    pub counted: usize,
}

// How many entries in a row from the first on pass, if `row` of those before entry `i` do.
fn row_with(row: usize, i: usize, passes: bool) -> usize
    requires { i < 128 }
    ensures { result ≡ cond (ltb row i) row (cond passes (i + 1) i) }
{
    if row < i {
        return row;
    }
    if passes {
        return i + 1;
    }
    i
}

// One reading of n DSDs from a place on, whatever their bytes are, but that one whose first byte is a blank is a spare. The numbers are lent: what a call
// answers is copied at each return.
pub fn read_sets(p: &[u8], from: usize, n: usize, sets: &mut Sets) -> Reading
    requires { (from + size_of_dsd * n ≤ length p.now) × (n ≤ 128) × SparesByFirst p.now from n × (sets.old ≡ no_sets) }
    ensures counted { Counted (entries_from p.now from n) result }
    ensures held { sets.new ≡ held_sets (entries_from p.now from n) }
{
    let mut within = 0;
    let mut fitting = 0;
    let mut counted = 0;
    for i in 0..n {
        let entry = Entry::at(p, from + Entry::SIZE * i);
        sets.types[i] = entry.ds_type;
        sets.offsets[i] = entry.offset.magnitude;
        sets.sizes[i] = entry.size.magnitude;
        sets.counts[i] = entry.count.magnitude;
        sets.record_sizes[i] = entry.record_size.whole();
        sets.roles[i] = entry.role();
        within = row_with(within, i, !entry.is_over());
        fitting = row_with(fitting, i, entry.numbers_fit());
        counted = entry.counted_with(counted);
    }
    sets.entries = n;
    Reading {
        within,
        fitting,
        counted,
    }
}

// Where in a DSD the number stands that passes 2^63 - 1, by the offset held: DS_OFFSET's or DS_SIZE's sign.
fn over_place(offset: u64) -> usize
    ensures { result ≡ cond (leb offset largest_signed) 170 133 }
{
    if offset <= 9223372036854775807 {
        return 170;
    }
    133
}

// Rules 9 to 11, by what a reading counts and the offsets that it holds.
pub fn check_numbers<'a>(
    p: &'a [u8],
    dsds: usize,
    entries: usize,
    reading: Reading,
    offsets: &'a [u64; 128],
) -> Result<(), Refusal>
    requires { Dsds p.now dsds entries × ReadFrom (directory p.now) reading offsets.now }
    ensures { (n : ℕ) → verdict_is result ≡ number_rules p.now n }
{
    let within = reading.within;
    if within != entries {
        let start = dsds + Entry::SIZE * within;
        return refuse(9, (start + over_place(offsets[within])) as u64, within);
    }
    let fitting = reading.fitting;
    if fitting != entries {
        return refuse(10, (dsds + Entry::SIZE * fitting) as u64, fitting);
    }
    let data_sets = text::number_at(p, 1194, 11);
    if dsd::is_negative(data_sets) {
        return refuse(11, 1194, Refusal::NO_ENTRY);
    }
    if data_sets.magnitude != reading.counted as u64 {
        return refuse(11, 1194, Refusal::NO_ENTRY);
    }
    Ok(())
}

// Rules 12 to 14, by the numbers of the entries. Where the sets stand one behind the other, in the order of the entries or in another, all three hold,
// and nothing is searched for.
pub fn check_places<'a>(
    offsets: &'a [u64; 128],
    sizes: &'a [u64; 128],
    entries: usize,
    headers_end: u64,
    length: u64,
) -> Result<(), Refusal>
    requires { entries ≤ 128 }
    ensures { Placed offsets.now sizes.now entries headers_end length result }
{
    let extents = Extents {
        offsets,
        sizes,
        entries,
    };
    if extents.are_joined(headers_end, length) {
        return Ok(());
    }
    if file_order::are_joined_in_file_order(extents, headers_end, length) {
        return Ok(());
    }
    if let Some(outside) = extents.first_outside(headers_end, length) {
        return refuse(12, offsets[outside], outside);
    }
    if let Some(overlapping) = extents.first_overlapping() {
        return refuse(13, offsets[overlapping], overlapping);
    }
    if let Some(uncovered) = extents.first_uncovered(headers_end, length) {
        return refuse(14, uncovered, Refusal::NO_ENTRY);
    }
    Ok(())
}

// A text of at most 62 bytes out of lent ones, by way of an array made here: straight into a lent room, the copy would first ask whether they overlap.
fn put_lent(room: &mut [u8], at: usize, p: &[u8], start: usize, width: usize) -> usize
    requires { (width ≤ 62) × (start + width ≤ length p.now) × (at + width ≤ length room.old) }
    ensures { Put width (part p.now start width) room.old room.new at result }
{
    let mut text = [0u8; 62];
    let end = start + width;
    put_text(&mut text, 0, &p[start..end]);
    put_text(room, at, &text[..width])
}

// A text of each of n DSDs, from `place` on in the DSD and `width` bytes wide, one behind the other, and zeros up to those of 128 DSDs.
fn put_texts(
    room: &mut [u8],
    at: usize,
    p: &[u8],
    from: usize,
    n: usize,
    place: usize,
    width: usize,
) -> usize
    requires { Room p.now from n place width room.old at }
    ensures { Put (128 * width) (texts_from p.now from n place width) room.old room.new at result }
{
    let mut next = at;
    for i in 0..n {
        let start = from + Entry::SIZE * i + place;
        next = put_lent(room, next, p, start, width);
    }
    let end = at + 128 * width;
    put_zeros(room, next, end - next)
}

// The names of the DSDs that begin at a place, unused places zero.
pub fn put_names(room: &mut [u8], at: usize, p: &[u8], from: usize, n: usize) -> usize
    requires { (from + size_of_dsd * n ≤ length p.now) × (n ≤ 128) × (at + 3584 ≤ length room.old) }
    ensures { Put 3584 (directory_of (entries_from p.now from n)).names room.old room.new at result }
{
    put_texts(room, at, p, from, n, 9, 28)
}

// Their FILENAMEs.
pub fn put_filenames(room: &mut [u8], at: usize, p: &[u8], from: usize, n: usize) -> usize
    requires { (from + size_of_dsd * n ≤ length p.now) × (n ≤ 128) × (at + 7936 ≤ length room.old) }
    ensures { Put 7936 (directory_of (entries_from p.now from n)).filenames room.old room.new at result }
{
    put_texts(room, at, p, from, n, 59, 62)
}

// The directory of the DSDs that begin at a place, whose numbers are at hand: a product's, or those that a host holds; put into one that the caller lends, since
// it is 16.8 kB, which an answer copies at each return.
pub fn fill_directory(directory: &mut Directory, p: &[u8], from: usize, sets: &Sets)
    requires { (from + size_of_dsd * sets.now.entries ≤ length p.now) × (sets.now.entries ≤ 128) × (directory.old ≡ no_directory) }
    ensures { directory.new ≡ directory_with sets.now (entries_from p.now from sets.now.entries) }
{
    let entries = sets.entries;
    directory.entries = entries;
    directory.types = sets.types;
    directory.offsets = sets.offsets;
    directory.sizes = sets.sizes;
    directory.counts = sets.counts;
    directory.record_sizes = sets.record_sizes;
    put_names(&mut directory.names, 0, p, from, entries);
    put_filenames(&mut directory.filenames, 0, p, from, entries);
    let extents = Extents {
        offsets: &sets.offsets,
        sizes: &sets.sizes,
        entries,
    };
    ranks::rank_sets(extents, &mut directory.ranks);
}

// The same directory as an answer.
pub fn directory_from(p: &[u8], from: usize, sets: &Sets) -> Directory
    requires { (from + size_of_dsd * sets.now.entries ≤ length p.now) × (sets.now.entries ≤ 128) }
    ensures { result ≡ directory_with sets.now (entries_from p.now from sets.now.entries) }
{
    let mut directory = Directory::none();
    fill_directory(&mut directory, p, from, sets);
    directory
}
