// Every public call on a product.
ghost use Rattle.std.specs.Prelude.{◌≡◌, length};

use crate::entries::{ENTRIES, show_entries};
use crate::entry_records::show_all_records;
use crate::pixels::show_first_records;
use crate::printing::{print_part, print_text, print_words};
use std::io;

fn show_judge(rt: &impl Print, p: &[u8]) -> io::Result<()> {
    let mut words = [0u64; 3];
    ambrothel::ambrothel_judge(p, &mut words);
    print_words(rt, b"judge ", &[], &words)
}

fn show_directory(rt: &impl Print, words: &[u64; 772], texts: &[u8]) -> io::Result<()>
    requires { length texts.now ≡ 11520 }
{
    let head = [words[0], words[1], words[2], words[ENTRIES]];
    print_words(rt, b"directory ", &[], &head)?;
    show_entries(rt, words, texts)
}

fn show_header(rt: &impl Print, p: &[u8]) -> io::Result<()> {
    let mut words = [0u64; 25];
    let mut texts = [0u8; 289];
    ambrothel::ambrothel_header_values(p, &mut words, &mut texts);
    print_words(rt, b"header ", &[], &words)?;
    if words[0] == 0 {
        return print_text(rt, b"texts ", &texts);
    }
    print_text(rt, b"texts ", b"")
}

fn show_sph_place(rt: &impl Print, p: &[u8]) -> io::Result<()> {
    let mut place = [0u64; 5];
    ambrothel::ambrothel_sph_place(p, &mut place);
    print_words(rt, b"sph_place ", &[], &place)
}

fn show_sph_part(rt: &impl Print, p: &[u8]) -> io::Result<()> {
    let mut count = [0u64; 1];
    let mut bytes = [0u8; 65536];
    ambrothel::ambrothel_sph_part(p, &mut count, &mut bytes);
    print_part(rt, b"sph_part ", &[], count[0], &bytes)
}

// Every call on a product, up to a line that is not written.
pub fn show_product(rt: &impl Print, p: &[u8]) -> io::Result<()> {
    let mut words = [0u64; 772];
    let mut texts = [0u8; 11520];
    ambrothel::ambrothel_open_directory(p, &mut words, &mut texts);
    show_judge(rt, p)?;
    show_directory(rt, &words, &texts)?;
    show_header(rt, p)?;
    show_sph_place(rt, p)?;
    show_sph_part(rt, p)?;
    show_first_records(rt, p)?;
    show_all_records(rt, p, &words)
}
