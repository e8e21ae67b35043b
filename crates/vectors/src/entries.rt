// The entries of a product's directory.
ghost use Rattle.std.specs.Prelude.{◌≡◌, ◌≤◌, length};

use crate::printing::{print_numbered, print_words};
use std::io;

// Where the directory's words and texts have what, as `include/ambrothel.h` names it.
pub const ENTRIES: usize = 3;

const TYPES: usize = 4;

const OFFSETS: usize = 132;

const SIZES: usize = 260;

pub const COUNTS: usize = 388;

const RECORD_SIZES: usize = 516;

const RANKS: usize = 644;

const NAME_LENGTH: usize = 28;

const FILENAMES: usize = 3584;

const FILENAME_LENGTH: usize = 62;

fn show_numbers(rt: &impl Print, words: &[u64; 772], i: usize) -> io::Result<()>
    requires { i ≤ 127 }
{
    let numbers = [
        words[TYPES + i],
        words[OFFSETS + i],
        words[SIZES + i],
        words[COUNTS + i],
        words[RECORD_SIZES + i],
        words[RANKS + i],
    ];
    let number = [i as u64];
    print_words(rt, b"entry ", &number, &numbers)
}

fn show_name(rt: &impl Print, texts: &[u8], i: usize) -> io::Result<()>
    requires { (i ≤ 127) × (length texts.now ≡ 11520) }
{
    let start = NAME_LENGTH * i;
    let end = start + NAME_LENGTH;
    print_numbered(rt, b"name ", i as u64, &texts[start..end])
}

fn show_filename(rt: &impl Print, texts: &[u8], i: usize) -> io::Result<()>
    requires { (i ≤ 127) × (length texts.now ≡ 11520) }
{
    let start = FILENAMES + FILENAME_LENGTH * i;
    let end = start + FILENAME_LENGTH;
    print_numbered(rt, b"filename ", i as u64, &texts[start..end])
}

fn show_entry(rt: &impl Print, words: &[u64; 772], texts: &[u8], i: usize) -> io::Result<()>
    requires { (i ≤ 127) × (length texts.now ≡ 11520) }
{
    show_numbers(rt, words, i)?;
    show_name(rt, texts, i)?;
    show_filename(rt, texts, i)
}

pub fn show_entries(rt: &impl Print, words: &[u64; 772], texts: &[u8]) -> io::Result<()>
    requires { length texts.now ≡ 11520 }
{
    for i in 0..128 {
        if words[ENTRIES] <= (i as u64) {
            return Ok(());
        }
        show_entry(rt, words, texts, i)?;
    }
    Ok(())
}
