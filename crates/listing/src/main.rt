// Document 01's program: it reads standard input to 65,536 bytes and writes the listing, or one line of refusal.
// Where the input cannot be read it lists nothing, and where the output cannot be written it says so too.
#![tactic(auto)]

ghost use Rattle.std.specs.Prelude.{OnOk};
ghost use Rattle.std.specs.Io.KnownBytes.{Appends};
ghost use Rattle.layout.specs.Listing.{listing};

use std::io;
use std::io::Write;
use std::rt::Files;

// Writes the listing of a product, and answers whether it got where it goes.
fn write_listing<W: Write>(files: &impl Files, output: &mut W, product: &[u8]) -> io::Result<()>
    ensures { OnOk result (Appends (W.contents output.old) (W.contents output.new) (listing product.now)) }
{
    let mut out = [0u8; 32768];
    let written = listing_text::list_product(product, &mut out);
    output.write_all(&out[..written])?;
    streams::end_output(files)
}

fn main(rt: HostRuntime) -> io::Result<()> {
    let mut input = [0u8; 65537];
    let length = match streams::read_whole(&mut rt.stdin(), &mut input) {
        Ok(length) => length,
        Err(error) => return streams::say_failed(&rt, "listing: standard input", error),
    };
    match write_listing(&rt, &mut rt.stdout(), &input[..length]) {
        Ok(()) => Ok(()),
        Err(error) => streams::say_failed(&rt, "listing: standard output", error),
    }
}
