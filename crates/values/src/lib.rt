// The 34 values of the main header (document 01, "Fixed layouts").
#![tactic(auto)]

ghost use Rattle.std.specs.Prelude.{◌≡◌, ◌+◌, ◌≤◌, ◌<◌, length};
ghost use Rattle.layout.specs.Bytes.{part};
ghost use Rattle.layout.specs.Text.{number_of, whole};
ghost use Rattle.layout.specs.Lines.{size_of_mph};
ghost use Rattle.layout.specs.Entries.{largest_signed, tot_size};
ghost use Rattle.values.specs.Header.{header_of, no_header};

// The values of the main header, in the order of its lines.
#[derive(Clone, Copy, Default)]
pub struct Identity {
    pub product: [u8; 62],
    pub proc_stage: u8,
    pub ref_doc: [u8; 23],
    pub acquisition_station: [u8; 20],
    pub proc_center: [u8; 6],
    pub proc_time: [u8; 27],
    pub software_ver: [u8; 14],
}

#[derive(Clone, Copy, Default)]
pub struct Sensing {
    pub sensing_start: [u8; 27],
    pub sensing_stop: [u8; 27],
    pub phase: u8,
    pub cycle: i64,
    pub rel_orbit: i64,
    pub abs_orbit: i64,
}

#[derive(Clone, Copy, Default)]
pub struct Orbit {
    pub state_vector_time: [u8; 27],
    pub delta_ut1: i64,
    pub x_position: i64,
    pub y_position: i64,
    pub z_position: i64,
    pub x_velocity: i64,
    pub y_velocity: i64,
    pub z_velocity: i64,
    pub vector_source: [u8; 2],
}

#[derive(Clone, Copy, Default)]
pub struct Clock {
    pub utc_sbt_time: [u8; 27],
    pub sat_binary_time: i64,
    pub clock_step: i64,
    pub leap_utc: [u8; 27],
    pub leap_sign: i64,
    pub leap_err: u8,
}

#[derive(Clone, Copy, Default)]
pub struct Sizes {
    pub product_err: u8,
    pub tot_size: i64,
    pub sph_size: i64,
    pub num_dsd: i64,
    pub dsd_size: i64,
    pub num_data_sets: i64,
}

#[derive(Clone, Copy, Default)]
pub struct MainHeader {
    pub identity: Identity,
    pub sensing: Sensing,
    pub orbit: Orbit,
    pub clock: Clock,
    pub sizes: Sizes,
}

// The text of `N` bytes from `at` on.
fn bytes_at<const N: usize>(p: &[u8], at: usize) -> [u8; N]
    requires { at + N ≤ length p.now }
    ensures { result ≡ part p.now at N }
{
    let mut text = [0; N];
    text.copy_from_slice(&p[at..at + N]);
    text
}

// The whole number that `width` bytes from `at` on are. A sign and eleven bytes always fit an i64, whatever the bytes.
pub fn whole_at(p: &[u8], at: usize, width: usize) -> i64
    requires { (1 ≤ width) × (at + width ≤ length p.now) × (12 < width → (number_of (part p.now at width)).magnitude ≤ largest_signed) }
    ensures { result ≡ whole (number_of (part p.now at width)) }
{
    let number = text::number_at(p, at, width);
    number.whole()
}

// A product that is long enough for its main header.
#[derive(Clone, Copy)]
struct Headed<'a> {
    bytes: &'a [u8],
    ghost long_enough: { size_of_mph ≤ length bytes.now },
}

// The five parts of the answer. Each value is read where its keyword's line has it: a number from its sign on, a text behind its quote.
impl Headed<'_> {
    fn identity(self) -> Identity
        ensures { result ≡ (header_of self.entry.bytes.now).identity }
    {
        let p = self.bytes;
        Identity {
            product: bytes_at(p, 9),
            proc_stage: p[84],
            ref_doc: bytes_at(p, 95),
            acquisition_station: bytes_at(p, 182),
            proc_center: bytes_at(p, 217),
            proc_time: bytes_at(p, 236),
            software_ver: bytes_at(p, 279),
        }
    }

    fn sensing(self) -> Sensing
        ensures { result ≡ (header_of self.entry.bytes.now).sensing }
    {
        let p = self.bytes;
        Sensing {
            sensing_start: bytes_at(p, 351),
            sensing_stop: bytes_at(p, 394),
            phase: p[470],
            cycle: whole_at(p, 478, 4),
            rel_orbit: whole_at(p, 493, 6),
            abs_orbit: whole_at(p, 510, 6),
        }
    }

    fn orbit(self) -> Orbit
        ensures { result ≡ (header_of self.entry.bytes.now).orbit }
    {
        let p = self.bytes;
        Orbit {
            state_vector_time: bytes_at(p, 536),
            delta_ut1: whole_at(p, 575, 8),
            x_position: whole_at(p, 598, 12),
            y_position: whole_at(p, 625, 12),
            z_position: whole_at(p, 652, 12),
            x_velocity: whole_at(p, 679, 12),
            y_velocity: whole_at(p, 708, 12),
            z_velocity: whole_at(p, 737, 12),
            vector_source: bytes_at(p, 770),
        }
    }

    fn clock(self) -> Clock
        ensures { result ≡ (header_of self.entry.bytes.now).clock }
    {
        let p = self.bytes;
        Clock {
            utc_sbt_time: bytes_at(p, 829),
            sat_binary_time: whole_at(p, 874, 11),
            clock_step: whole_at(p, 897, 11),
            leap_utc: bytes_at(p, 956),
            leap_sign: whole_at(p, 995, 4),
            leap_err: p[1009],
        }
    }

    fn sizes(self) -> Sizes
        requires { (tot_size self.bytes.now).magnitude ≤ largest_signed }
        ensures { result ≡ (header_of self.entry.bytes.now).sizes }
    {
        let p = self.bytes;
        Sizes {
            product_err: p[1064],
            tot_size: whole_at(p, 1075, 21),
            sph_size: whole_at(p, 1113, 11),
            num_dsd: whole_at(p, 1140, 11),
            dsd_size: whole_at(p, 1161, 11),
            num_data_sets: whole_at(p, 1194, 11),
        }
    }
}

impl MainHeader {
    pub const SIZE: usize = 1247;

    // The values of a product's main header. Rule 4 has TOT_SIZE fit; the other numbers always do.
    pub fn at(p: &[u8]) -> MainHeader
        requires { (size_of_mph ≤ length p.now) × ((tot_size p.now).magnitude ≤ largest_signed) }
        ensures { result ≡ header_of p.now }
    {
        let product = Headed { bytes: p };
        MainHeader {
            identity: product.identity(),
            sensing: product.sensing(),
            orbit: product.orbit(),
            clock: product.clock(),
            sizes: product.sizes(),
        }
    }

    // What a host is shown beside a refusal.
    pub fn none() -> MainHeader
        ensures { result ≡ no_header }
    {
        MainHeader::default()
    }
}
