// Whole numbers of a record as degrees and as metres: one division, one rounding (document 01, "Fields and points").
#![tactic(auto)]

ghost use Rattle.std.specs.Prelude.{◌≡◌};
ghost use Rattle.layout.specs.Fields.{degrees, metres};

// Millionths of a degree as degrees.
pub fn degrees(v: i32) -> f64
    ensures { result ≡ degrees v }
{
    v as f64 / 1000000.0
}

// Hundredths of a metre as metres.
pub fn metres(v: u32) -> f64
    ensures { result ≡ metres v }
{
    v as f64 / 100.0
}
