// Lines of standard output. Each function that prints answers whether its line was written.
ghost use Rattle.std.specs.Prelude.{◌≡◌, ◌+◌, ◌*◌, ◌≤◌, length};

use std::io;
use writing::{put_number, put_text};

// Numbers, a blank behind each.
fn put_words(out: &mut [u8], at: usize, words: &[u64]) -> usize
    requires { at + 21 * length words.now ≤ length out.old }
    ensures { (at ≤ result) × (result ≤ at + 21 * length words.now) }
{
    let mut next = at;
    for word in words {
        next = put_number(out, next, *word, b' ');
    }
    next
}

// A line of a call's name, what is asked and what is answered. The blank behind the last number makes way for the line's end.
pub fn print_words(rt: &impl Print, name: &[u8], asked: &[u64], words: &[u64]) -> io::Result<()>
    requires { ((1 ≤ length name.now) × (length name.now ≤ 64)) × ((length asked.now ≤ 6) × (length words.now ≤ 25)) }
{
    let mut out = [0u8; 1024];
    let named = put_text(&mut out, 0, name);
    let begun = put_words(&mut out, named, asked);
    let ended = put_words(&mut out, begun, words);
    out[ended - 1] = b'\n';
    rt.write_all(&out[..ended])
}

// A line of a name and a text as it is.
pub fn print_text(rt: &impl Print, name: &[u8], text: &[u8]) -> io::Result<()>
    requires { (length name.now ≤ 64) × (length text.now ≤ 512) }
{
    let mut out = [0u8; 1024];
    let named = put_text(&mut out, 0, name);
    let shown = put_text(&mut out, named, text);
    let ended = put_text(&mut out, shown, b"\n");
    rt.write_all(&out[..ended])
}

// The same with a number before the text.
pub fn print_numbered(rt: &impl Print, name: &[u8], number: u64, text: &[u8]) -> io::Result<()>
    requires { (length name.now ≤ 64) × (length text.now ≤ 512) }
{
    let mut out = [0u8; 1024];
    let named = put_text(&mut out, 0, name);
    let numbered = put_number(&mut out, named, number, b' ');
    let shown = put_text(&mut out, numbered, text);
    let ended = put_text(&mut out, shown, b"\n");
    rt.write_all(&out[..ended])
}

// A part's size and at most 16 of its bytes.
pub fn print_part(
    rt: &impl Print,
    name: &[u8],
    asked: &[u64],
    size: u64,
    bytes: &[u8],
) -> io::Result<()>
    requires { ((1 ≤ length name.now) × (length name.now ≤ 64)) × ((length asked.now ≤ 6) × (16 ≤ length bytes.now)) }
{
    let mut line = [0u64; 17];
    line[0] = size;
    let shown = size.min(16) as usize;
    let end = words::put_bytes(&mut line, 1, &bytes[..shown]);
    print_words(rt, name, asked, &line[..end])
}
