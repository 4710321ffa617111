// A person's mask, from the sheet of sixty-four person masks. No other file makes one.
ghost use Rattle.std.specs.Prelude.{◌≡◌, ◌<◌};
ghost use Rattle.sets.specs.paper.Sets.{has, one, below};

// The sheet, in its order: person 0 first, one mask a line.
const PERSON_MASKS: [u64; 64] = [
    0x0000000000000001,
    0x0000000000000002,
    0x0000000000000004,
    0x0000000000000008,
    0x0000000000000010,
    0x0000000000000020,
    0x0000000000000040,
    0x0000000000000080,
    0x0000000000000100,
    0x0000000000000200,
    0x0000000000000400,
    0x0000000000000800,
    0x0000000000001000,
    0x0000000000002000,
    0x0000000000004000,
    0x0000000000008000,
    0x0000000000010000,
    0x0000000000020000,
    0x0000000000040000,
    0x0000000000080000,
    0x0000000000100000,
    0x0000000000200000,
    0x0000000000400000,
    0x0000000000800000,
    0x0000000001000000,
    0x0000000002000000,
    0x0000000004000000,
    0x0000000008000000,
    0x0000000010000000,
    0x0000000020000000,
    0x0000000040000000,
    0x0000000080000000,
    0x0000000100000000,
    0x0000000200000000,
    0x0000000400000000,
    0x0000000800000000,
    0x0000001000000000,
    0x0000002000000000,
    0x0000004000000000,
    0x0000008000000000,
    0x0000010000000000,
    0x0000020000000000,
    0x0000040000000000,
    0x0000080000000000,
    0x0000100000000000,
    0x0000200000000000,
    0x0000400000000000,
    0x0000800000000000,
    0x0001000000000000,
    0x0002000000000000,
    0x0004000000000000,
    0x0008000000000000,
    0x0010000000000000,
    0x0020000000000000,
    0x0040000000000000,
    0x0080000000000000,
    0x0100000000000000,
    0x0200000000000000,
    0x0400000000000000,
    0x0800000000000000,
    0x1000000000000000,
    0x2000000000000000,
    0x4000000000000000,
    0x8000000000000000,
];

// The sheet as a whole is the powers of two, rising.
pub fn person_masks() -> [u64; 64]
    ensures { result ≡ below 64 one }
{
    PERSON_MASKS
}

// The mask of one person. Each line reads one place of the sheet, so that the compiler keeps the masks in read-only memory; by `PERSON_MASKS[p]` it
// would put the whole sheet on the stack each time.
pub fn person_mask(p: u8) -> u64
    requires { p < 64 }
    ensures { result ≡ one p }
{
    match p {
        0 => PERSON_MASKS[0],
        1 => PERSON_MASKS[1],
        2 => PERSON_MASKS[2],
        3 => PERSON_MASKS[3],
        4 => PERSON_MASKS[4],
        5 => PERSON_MASKS[5],
        6 => PERSON_MASKS[6],
        7 => PERSON_MASKS[7],
        8 => PERSON_MASKS[8],
        9 => PERSON_MASKS[9],
        10 => PERSON_MASKS[10],
        11 => PERSON_MASKS[11],
        12 => PERSON_MASKS[12],
        13 => PERSON_MASKS[13],
        14 => PERSON_MASKS[14],
        15 => PERSON_MASKS[15],
        16 => PERSON_MASKS[16],
        17 => PERSON_MASKS[17],
        18 => PERSON_MASKS[18],
        19 => PERSON_MASKS[19],
        20 => PERSON_MASKS[20],
        21 => PERSON_MASKS[21],
        22 => PERSON_MASKS[22],
        23 => PERSON_MASKS[23],
        24 => PERSON_MASKS[24],
        25 => PERSON_MASKS[25],
        26 => PERSON_MASKS[26],
        27 => PERSON_MASKS[27],
        28 => PERSON_MASKS[28],
        29 => PERSON_MASKS[29],
        30 => PERSON_MASKS[30],
        31 => PERSON_MASKS[31],
        32 => PERSON_MASKS[32],
        33 => PERSON_MASKS[33],
        34 => PERSON_MASKS[34],
        35 => PERSON_MASKS[35],
        36 => PERSON_MASKS[36],
        37 => PERSON_MASKS[37],
        38 => PERSON_MASKS[38],
        39 => PERSON_MASKS[39],
        40 => PERSON_MASKS[40],
        41 => PERSON_MASKS[41],
        42 => PERSON_MASKS[42],
        43 => PERSON_MASKS[43],
        44 => PERSON_MASKS[44],
        45 => PERSON_MASKS[45],
        46 => PERSON_MASKS[46],
        47 => PERSON_MASKS[47],
        48 => PERSON_MASKS[48],
        49 => PERSON_MASKS[49],
        50 => PERSON_MASKS[50],
        51 => PERSON_MASKS[51],
        52 => PERSON_MASKS[52],
        53 => PERSON_MASKS[53],
        54 => PERSON_MASKS[54],
        55 => PERSON_MASKS[55],
        56 => PERSON_MASKS[56],
        57 => PERSON_MASKS[57],
        58 => PERSON_MASKS[58],
        59 => PERSON_MASKS[59],
        60 => PERSON_MASKS[60],
        61 => PERSON_MASKS[61],
        62 => PERSON_MASKS[62],
        _ => PERSON_MASKS[63],
    }
}

// Whether a person is in a set; nobody from 64 on is. The set is shifted, and no mask is made.
pub fn has_person(set: u64, p: u8) -> bool
    ensures { result ≡ has set p }
{
    if p < 64 { (set >> p) & 1 == 1 } else { false }
}
