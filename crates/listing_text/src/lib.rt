// The listing (document 01, "The listing"): every byte that the listing program writes.
#![tactic(auto)]

ghost use Rattle.std.specs.Prelude.{◌≡◌, ◌∷◌, ◌++◌, [], ◌+◌, ◌*◌, ◌≤◌, ◌<◌, length, IfOk};
ghost use Rattle.layout.specs.Listing.{listing, trimmed, line_of};
ghost use Rattle.layout.specs.Answers.{name_at};
ghost use Rattle.writing.specs.Put.{Put, Written};
ghost use Rattle.listing_text.specs.EntryLine.{entry_numbers, entry_words, entry_text};
ghost use Rattle.listing_text.specs.Listing.{listed_of, entry_texts, refusal_text, accepted_text, answer_text, longer_text};

use layout::{Directory, Refusal};
use writing::{name_length, put_byte, put_number, put_signed, put_text};

// What a line says of one entry, but for its name. The type is the directory's byte.
#[derive(Clone, Copy)]
struct Listed {
    number: usize,
    ds_type: u8,
    offset: u64,
    size: u64,
    count: u64,
    record_size: i64,
    rank: u64,
}

impl Listed {
    // What is listed of an entry.
    fn of(directory: &Directory, number: usize) -> Listed
        requires { number < 128 }
        ensures { result ≡ listed_of directory.now number }
    {
        Listed {
            number,
            ds_type: directory.types[number],
            offset: directory.offsets[number],
            size: directory.sizes[number],
            count: directory.counts[number],
            record_size: directory.record_sizes[number],
            rank: directory.ranks[number],
        }
    }
}

// The name of an entry without its trailing blanks, and a blank.
fn put_name(out: &mut [u8], at: usize, names: &[u8], entry: usize) -> usize
    requires { (at + 29 ≤ length out.old) × (28 * entry + 28 ≤ length names.now) }
    ensures { Put 29 (trimmed (name_at names.now entry) ++ 32 ∷ []) out.old out.new at result }
{
    let start = 28 * entry;
    let kept = name_length(names, start);
    let end = start + kept;
    let next = put_text(out, at, &names[start..end]);
    put_byte(out, next, b' ')
}

// The numbers of an entry's line: offset, size, records, record size, rank.
fn put_numbers(out: &mut [u8], at: usize, entry: Listed) -> usize
    requires { at + 106 ≤ length out.old }
    ensures { Put 106 (line_of (entry_numbers entry)) out.old out.new at result }
{
    let placed = put_number(out, at, entry.offset, b' ');
    let sized = put_number(out, placed, entry.size, b' ');
    let counted = put_number(out, sized, entry.count, b' ');
    let measured = put_signed(out, counted, entry.record_size, b' ');
    put_number(out, measured, entry.rank, b'\n')
}

// The rest of an entry's line: type, name, numbers.
fn put_values(out: &mut [u8], at: usize, names: &[u8], entry: Listed) -> usize
    requires { (at + 137 ≤ length out.old) × ((entry.number < 128) × (length names.now ≡ 3584)) }
    ensures { Put 137 (line_of (entry_words names.now entry)) out.old out.new at result }
{
    let typed = put_byte(out, at, entry.ds_type);
    let parted = put_byte(out, typed, b' ');
    let named = put_name(out, parted, names, entry.number);
    put_numbers(out, named, entry)
}

// An entry's line. That of a spare has its number alone.
fn put_entry(out: &mut [u8], at: usize, names: &[u8], entry: Listed) -> usize
    requires { (at + 164 ≤ length out.old) × ((entry.number < 128) × (length names.now ≡ 3584)) }
    ensures { Put 164 (entry_text names.now entry) out.old out.new at result }
{
    let begun = put_text(out, at, b"entry ");
    let numbered = put_number(out, begun, entry.number as u64, b' ');
    if entry.ds_type == b' ' {
        return put_text(out, numbered, b"spare\n");
    }
    put_values(out, numbered, names, entry)
}

// The lines of all entries.
fn put_entries(out: &mut [u8], at: usize, directory: Directory) -> usize
    requires { (at + 20992 ≤ length out.old) × (directory.entries ≤ 128) }
    ensures { Put 20992 (entry_texts directory directory.entries) out.old out.new at result }
{
    let mut next = at;
    for i in 0..directory.entries {
        next = put_entry(out, next, &directory.names, Listed::of(&directory, i));
    }
    next
}

fn put_refusal(out: &mut [u8], at: usize, refusal: Refusal) -> usize
    requires { at + 71 ≤ length out.old }
    ensures { Put 71 (refusal_text refusal.number refusal.place refusal.entry) out.old out.new at result }
{
    let begun = put_text(out, at, b"refused ");
    let numbered = put_number(out, begun, refusal.number as u64, b' ');
    let placed = put_number(out, numbered, refusal.place, b' ');
    put_number(out, placed, refusal.entry as u64, b'\n')
}

fn put_accepted(out: &mut [u8], at: usize, size: usize, directory: Directory) -> usize
    requires { (at + 21027 ≤ length out.old) × (directory.entries ≤ 128) }
    ensures { Put 21027 (accepted_text size directory) out.old out.new at result }
{
    let begun = put_text(out, at, b"size ");
    let sized = put_number(out, begun, size as u64, b'\n');
    let listed = put_entries(out, sized, directory);
    put_text(out, listed, b"accepted\n")
}

// The listing of a product of so many bytes; of a refused one, its line alone. Answers how many bytes it is.
fn write_listing(answer: Result<Directory, Refusal>, size: usize, out: &mut [u8]) -> usize
    requires { (32768 ≤ length out.old) × IfOk answer (λ d. d.entries ≤ 128) }
    ensures { Written 32768 (answer_text answer size) out.old out.new result }
{
    match answer {
        Ok(directory) => put_accepted(out, 0, size, directory),
        Err(refusal) => put_refusal(out, 0, refusal),
    }
}

// The listing of an input of more bytes than are read.
fn write_longer(out: &mut [u8]) -> usize
    requires { 32768 ≤ length out.old }
    ensures { Written 32768 longer_text out.old out.new result }
{
    put_text(out, 0, b"longer than 65536\n")
}

// What the program writes for an input, into a room that any listing fits: 128 lines of at most 164 bytes, and two more.
pub fn list_product(p: &[u8], out: &mut [u8]) -> usize
    requires { 32768 ≤ length out.old }
    ensures { Written 32768 (listing p.now) out.old out.new result }
{
    if 65536 < p.len() {
        return write_longer(out);
    }
    write_listing(product::open_directory(p), p.len(), out)
}
