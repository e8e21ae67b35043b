// The constant tables of header lines (document 01, "Header text"). That they are document 01's is `TableOf` of specs/Table, and that no range lets a wrong
// byte stand is `strict` of specs/Ranges.
use dsd::Entry;
use values::MainHeader;

// What a value is, after the notation of document 01: text, of q or c; a spare's blanks; a flag, 0 or 1; a set's type, one of M A G R; a sign and digits, s;
// the same with a point and three decimals, or six, u.
#[derive(Clone, Copy)]
pub enum Kind {
    Text,
    Spare,
    Flag,
    SetType,
    Whole,
    Thousandths,
    Millionths,
}

// One line: where it begins, the bytes before its value, the value's kind and width.
#[derive(Clone, Copy)]
pub struct Row {
    pub start: usize,
    pub key: usize,
    pub kind: Kind,
    pub width: usize,
}

// So that a table has one line for each row.
macro_rules! row {
    ($start:literal, $key:literal, $kind:ident, $width:literal) => {
        Row {
            start: $start,
            key: $key,
            kind: Kind::$kind,
            width: $width,
        }
    };
}

// What may stand at each of N places: a byte from a lowest to a highest, but not the one that is barred. A text's go from a blank to ~, with a quote barred; a
// digit's from 0 to 9; a sign's from + to -, with the comma between them barred; a spare's from a blank to !, which is barred; and ~ is barred where nothing
// need be. A literal byte is both the lowest and the highest, so that either could be the template of the literal bytes as well. The highest are: they have no
// blank, so that a row too short for its spare does not leave one to the template, which would hide the fault, but a !, which no right header has there.
pub struct Ranges<const N: usize> {
    pub lows: [u8; N],
    pub highs: [u8; N],
    pub barred: [u8; N],
}

// The forty-one lines of the main header.
pub static MPH_ROWS: [Row; 41] = [
    row!(0, 9, Text, 62),
    row!(73, 11, Text, 1),
    row!(86, 9, Text, 23),
    row!(120, 0, Spare, 40),
    row!(161, 21, Text, 20),
    row!(204, 13, Text, 6),
    row!(225, 11, Text, 27),
    row!(265, 14, Text, 14),
    row!(295, 0, Spare, 40),
    row!(336, 15, Text, 27),
    row!(380, 14, Text, 27),
    row!(423, 0, Spare, 40),
    row!(464, 6, Text, 1),
    row!(472, 6, Whole, 4),
    row!(483, 10, Whole, 6),
    row!(500, 10, Whole, 6),
    row!(517, 19, Text, 27),
    row!(565, 10, Millionths, 8),
    row!(587, 11, Thousandths, 12),
    row!(614, 11, Thousandths, 12),
    row!(641, 11, Thousandths, 12),
    row!(668, 11, Millionths, 12),
    row!(697, 11, Millionths, 12),
    row!(726, 11, Millionths, 12),
    row!(755, 15, Text, 2),
    row!(774, 0, Spare, 40),
    row!(815, 14, Text, 27),
    row!(858, 16, Whole, 11),
    row!(886, 11, Whole, 11),
    row!(913, 0, Spare, 32),
    row!(946, 10, Text, 27),
    row!(985, 10, Whole, 4),
    row!(1000, 9, Flag, 1),
    row!(1011, 0, Spare, 40),
    row!(1052, 12, Flag, 1),
    row!(1066, 9, Whole, 21),
    row!(1104, 9, Whole, 11),
    row!(1132, 8, Whole, 11),
    row!(1152, 9, Whole, 11),
    row!(1180, 14, Whole, 11),
    row!(1206, 0, Spare, 40),
];

pub static MPH: Ranges<{ MainHeader::SIZE }> = Ranges {
    lows: *b"\
    PRODUCT=\"                                                              \"\n\
    PROC_STAGE= \n\
    REF_DOC=\"                       \"\n\
    \x20                                       \n\
    ACQUISITION_STATION=\"                    \"\n\
    PROC_CENTER=\"      \"\n\
    PROC_TIME=\"                           \"\n\
    SOFTWARE_VER=\"              \"\n\
    \x20                                       \n\
    SENSING_START=\"                           \"\n\
    SENSING_STOP=\"                           \"\n\
    \x20                                       \n\
    PHASE= \n\
    CYCLE=+000\n\
    REL_ORBIT=+00000\n\
    ABS_ORBIT=+00000\n\
    STATE_VECTOR_TIME=\"                           \"\n\
    DELTA_UT1=+.000000<s>\n\
    X_POSITION=+0000000.000<m>\n\
    Y_POSITION=+0000000.000<m>\n\
    Z_POSITION=+0000000.000<m>\n\
    X_VELOCITY=+0000.000000<m/s>\n\
    Y_VELOCITY=+0000.000000<m/s>\n\
    Z_VELOCITY=+0000.000000<m/s>\n\
    VECTOR_SOURCE=\"  \"\n\
    \x20                                       \n\
    UTC_SBT_TIME=\"                           \"\n\
    SAT_BINARY_TIME=+0000000000\n\
    CLOCK_STEP=+0000000000<ps>\n\
    \x20                               \n\
    LEAP_UTC=\"                           \"\n\
    LEAP_SIGN=+000\n\
    LEAP_ERR=0\n\
    \x20                                       \n\
    PRODUCT_ERR=0\n\
    TOT_SIZE=+00000000000000000000<bytes>\n\
    SPH_SIZE=+0000000000<bytes>\n\
    NUM_DSD=+0000000000\n\
    DSD_SIZE=+0000000000<bytes>\n\
    NUM_DATA_SETS=+0000000000\n\
    \x20                                       \n\
",
    highs: *b"\
    PRODUCT=\"~~~~~~~~~~~~~~~~~~~~~~~~~~~~~~~~~~~~~~~~~~~~~~~~~~~~~~~~~~~~~~\"\n\
    PROC_STAGE=~\n\
    REF_DOC=\"~~~~~~~~~~~~~~~~~~~~~~~\"\n\
    !!!!!!!!!!!!!!!!!!!!!!!!!!!!!!!!!!!!!!!!\n\
    ACQUISITION_STATION=\"~~~~~~~~~~~~~~~~~~~~\"\n\
    PROC_CENTER=\"~~~~~~\"\n\
    PROC_TIME=\"~~~~~~~~~~~~~~~~~~~~~~~~~~~\"\n\
    SOFTWARE_VER=\"~~~~~~~~~~~~~~\"\n\
    !!!!!!!!!!!!!!!!!!!!!!!!!!!!!!!!!!!!!!!!\n\
    SENSING_START=\"~~~~~~~~~~~~~~~~~~~~~~~~~~~\"\n\
    SENSING_STOP=\"~~~~~~~~~~~~~~~~~~~~~~~~~~~\"\n\
    !!!!!!!!!!!!!!!!!!!!!!!!!!!!!!!!!!!!!!!!\n\
    PHASE=~\n\
    CYCLE=-999\n\
    REL_ORBIT=-99999\n\
    ABS_ORBIT=-99999\n\
    STATE_VECTOR_TIME=\"~~~~~~~~~~~~~~~~~~~~~~~~~~~\"\n\
    DELTA_UT1=-.999999<s>\n\
    X_POSITION=-9999999.999<m>\n\
    Y_POSITION=-9999999.999<m>\n\
    Z_POSITION=-9999999.999<m>\n\
    X_VELOCITY=-9999.999999<m/s>\n\
    Y_VELOCITY=-9999.999999<m/s>\n\
    Z_VELOCITY=-9999.999999<m/s>\n\
    VECTOR_SOURCE=\"~~\"\n\
    !!!!!!!!!!!!!!!!!!!!!!!!!!!!!!!!!!!!!!!!\n\
    UTC_SBT_TIME=\"~~~~~~~~~~~~~~~~~~~~~~~~~~~\"\n\
    SAT_BINARY_TIME=-9999999999\n\
    CLOCK_STEP=-9999999999<ps>\n\
    !!!!!!!!!!!!!!!!!!!!!!!!!!!!!!!!\n\
    LEAP_UTC=\"~~~~~~~~~~~~~~~~~~~~~~~~~~~\"\n\
    LEAP_SIGN=-999\n\
    LEAP_ERR=1\n\
    !!!!!!!!!!!!!!!!!!!!!!!!!!!!!!!!!!!!!!!!\n\
    PRODUCT_ERR=1\n\
    TOT_SIZE=-99999999999999999999<bytes>\n\
    SPH_SIZE=-9999999999<bytes>\n\
    NUM_DSD=-9999999999\n\
    DSD_SIZE=-9999999999<bytes>\n\
    NUM_DATA_SETS=-9999999999\n\
    !!!!!!!!!!!!!!!!!!!!!!!!!!!!!!!!!!!!!!!!\n\
",
    barred: *b"\
    ~~~~~~~~~\"\"\"\"\"\"\"\"\"\"\"\"\"\"\"\"\"\"\"\"\"\"\"\"\"\"\"\"\"\"\"\"\"\"\"\"\"\"\"\"\"\"\"\"\"\"\"\"\"\"\"\"\"\"\"\"\"\"\"\"\"\"~~\
    ~~~~~~~~~~~\"~\
    ~~~~~~~~~\"\"\"\"\"\"\"\"\"\"\"\"\"\"\"\"\"\"\"\"\"\"\"~~\
    !!!!!!!!!!!!!!!!!!!!!!!!!!!!!!!!!!!!!!!!~\
    ~~~~~~~~~~~~~~~~~~~~~\"\"\"\"\"\"\"\"\"\"\"\"\"\"\"\"\"\"\"\"~~\
    ~~~~~~~~~~~~~\"\"\"\"\"\"~~\
    ~~~~~~~~~~~\"\"\"\"\"\"\"\"\"\"\"\"\"\"\"\"\"\"\"\"\"\"\"\"\"\"\"~~\
    ~~~~~~~~~~~~~~\"\"\"\"\"\"\"\"\"\"\"\"\"\"~~\
    !!!!!!!!!!!!!!!!!!!!!!!!!!!!!!!!!!!!!!!!~\
    ~~~~~~~~~~~~~~~\"\"\"\"\"\"\"\"\"\"\"\"\"\"\"\"\"\"\"\"\"\"\"\"\"\"\"~~\
    ~~~~~~~~~~~~~~\"\"\"\"\"\"\"\"\"\"\"\"\"\"\"\"\"\"\"\"\"\"\"\"\"\"\"~~\
    !!!!!!!!!!!!!!!!!!!!!!!!!!!!!!!!!!!!!!!!~\
    ~~~~~~\"~\
    ~~~~~~,~~~~\
    ~~~~~~~~~~,~~~~~~\
    ~~~~~~~~~~,~~~~~~\
    ~~~~~~~~~~~~~~~~~~~\"\"\"\"\"\"\"\"\"\"\"\"\"\"\"\"\"\"\"\"\"\"\"\"\"\"\"~~\
    ~~~~~~~~~~,~~~~~~~~~~~\
    ~~~~~~~~~~~,~~~~~~~~~~~~~~~\
    ~~~~~~~~~~~,~~~~~~~~~~~~~~~\
    ~~~~~~~~~~~,~~~~~~~~~~~~~~~\
    ~~~~~~~~~~~,~~~~~~~~~~~~~~~~~\
    ~~~~~~~~~~~,~~~~~~~~~~~~~~~~~\
    ~~~~~~~~~~~,~~~~~~~~~~~~~~~~~\
    ~~~~~~~~~~~~~~~\"\"~~\
    !!!!!!!!!!!!!!!!!!!!!!!!!!!!!!!!!!!!!!!!~\
    ~~~~~~~~~~~~~~\"\"\"\"\"\"\"\"\"\"\"\"\"\"\"\"\"\"\"\"\"\"\"\"\"\"\"~~\
    ~~~~~~~~~~~~~~~~,~~~~~~~~~~~\
    ~~~~~~~~~~~,~~~~~~~~~~~~~~~\
    !!!!!!!!!!!!!!!!!!!!!!!!!!!!!!!!~\
    ~~~~~~~~~~\"\"\"\"\"\"\"\"\"\"\"\"\"\"\"\"\"\"\"\"\"\"\"\"\"\"\"~~\
    ~~~~~~~~~~,~~~~\
    ~~~~~~~~~~~\
    !!!!!!!!!!!!!!!!!!!!!!!!!!!!!!!!!!!!!!!!~\
    ~~~~~~~~~~~~~~\
    ~~~~~~~~~,~~~~~~~~~~~~~~~~~~~~~~~~~~~~\
    ~~~~~~~~~,~~~~~~~~~~~~~~~~~~\
    ~~~~~~~~,~~~~~~~~~~~\
    ~~~~~~~~~,~~~~~~~~~~~~~~~~~~\
    ~~~~~~~~~~~~~~,~~~~~~~~~~~\
    !!!!!!!!!!!!!!!!!!!!!!!!!!!!!!!!!!!!!!!!~\
",
};

// One DSD.
pub static DSD_ROWS: [Row; 8] = [
    row!(0, 9, Text, 28),
    row!(39, 8, SetType, 1),
    row!(49, 10, Text, 62),
    row!(123, 10, Whole, 21),
    row!(162, 8, Whole, 21),
    row!(199, 8, Whole, 11),
    row!(219, 9, Whole, 11),
    row!(247, 0, Spare, 32),
];

// Where its type stands.
pub const DSD_TYPE_AT: usize = 47;

pub static DSD: Ranges<{ Entry::SIZE }> = Ranges {
    lows: *b"\
    DS_NAME=\"                            \"\n\
    DS_TYPE=A\n\
    FILENAME=\"                                                              \"\n\
    DS_OFFSET=+00000000000000000000<bytes>\n\
    DS_SIZE=+00000000000000000000<bytes>\n\
    NUM_DSR=+0000000000\n\
    DSR_SIZE=+0000000000<bytes>\n\
    \x20                               \n\
",
    highs: *b"\
    DS_NAME=\"~~~~~~~~~~~~~~~~~~~~~~~~~~~~\"\n\
    DS_TYPE=R\n\
    FILENAME=\"~~~~~~~~~~~~~~~~~~~~~~~~~~~~~~~~~~~~~~~~~~~~~~~~~~~~~~~~~~~~~~\"\n\
    DS_OFFSET=-99999999999999999999<bytes>\n\
    DS_SIZE=-99999999999999999999<bytes>\n\
    NUM_DSR=-9999999999\n\
    DSR_SIZE=-9999999999<bytes>\n\
    !!!!!!!!!!!!!!!!!!!!!!!!!!!!!!!!\n\
",
    barred: *b"\
    ~~~~~~~~~\"\"\"\"\"\"\"\"\"\"\"\"\"\"\"\"\"\"\"\"\"\"\"\"\"\"\"\"~~\
    ~~~~~~~~~~\
    ~~~~~~~~~~\"\"\"\"\"\"\"\"\"\"\"\"\"\"\"\"\"\"\"\"\"\"\"\"\"\"\"\"\"\"\"\"\"\"\"\"\"\"\"\"\"\"\"\"\"\"\"\"\"\"\"\"\"\"\"\"\"\"\"\"\"\"~~\
    ~~~~~~~~~~,~~~~~~~~~~~~~~~~~~~~~~~~~~~~\
    ~~~~~~~~,~~~~~~~~~~~~~~~~~~~~~~~~~~~~\
    ~~~~~~~~,~~~~~~~~~~~\
    ~~~~~~~~~,~~~~~~~~~~~~~~~~~~\
    !!!!!!!!!!!!!!!!!!!!!!!!!!!!!!!!~\
",
};
