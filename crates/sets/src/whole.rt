// How long an array is, and its rows, as a contract: a function for each shape, called on the array by value for the sake of the contract alone. The
// compiler drops such a call with its copy. Nothing here calls one, since the check knows the length of an array behind a reference, too; they stand
// for callers elsewhere.
ghost use Rattle.std.specs.Prelude.{◌≡◌, [], ℕ, ◌<◌, length, get_or};

pub fn whole_16_bytes(list: [u8; 16])
    ensures { length list ≡ 16 }
{}

pub fn whole_64_bytes(table: [u8; 64])
    ensures { length table ≡ 64 }
{}

pub fn whole_256_bytes(table: [u8; 256])
    ensures { length table ≡ 256 }
{}

pub fn whole_256_flags(table: [bool; 256])
    ensures { length table ≡ 256 }
{}

pub fn whole_64_words(table: [u64; 64])
    ensures { length table ≡ 64 }
{}

pub fn whole_80_words(table: [u64; 80])
    ensures { length table ≡ 80 }
{}

pub fn whole_176_words(table: [u64; 176])
    ensures { length table ≡ 176 }
{}

pub fn whole_256_words(table: [u64; 256])
    ensures { length table ≡ 256 }
{}

pub fn whole_64_lists(lists: [[u8; 16]; 64])
    ensures { length lists ≡ 64 }
{}

pub fn whole_256_lists(lists: [[u8; 16]; 256])
    ensures { length lists ≡ 256 }
{}

// Rows of 64 each.
pub fn whole_6_rows_of_bytes(rows: [[u8; 64]; 6])
    ensures { (length rows ≡ 6) × ((k : ℕ) → k < 6 → length (get_or rows k []) ≡ 64) }
{}

pub fn whole_3_rows(rows: [[u64; 64]; 3])
    ensures { (length rows ≡ 3) × ((k : ℕ) → k < 3 → length (get_or rows k []) ≡ 64) }
{}

pub fn whole_5_rows(rows: [[u64; 64]; 5])
    ensures { (length rows ≡ 5) × ((k : ℕ) → k < 5 → length (get_or rows k []) ≡ 64) }
{}

pub fn whole_21_rows(rows: [[u64; 64]; 21])
    ensures { (length rows ≡ 21) × ((k : ℕ) → k < 21 → length (get_or rows k []) ≡ 64) }
{}
