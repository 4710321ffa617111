// One vector, byte by byte: fifteen fields parted by one space, of an operation that pools three more. The operation is a word, the two fields
// after it and the four from the fourteenth on are bytes, as lower-case hex or "-", the rest are numbers in base ten. All bytes are kept in one store,
// one field's after another's.
use crate::vector::Vector;

#[derive(Clone, Copy)]
pub struct Scan {
    pub field: u8,
    // something that no vector has was met
    pub broken: bool,
    // characters of this field so far, up to 255
    pub length: u8,
    // a hex digit that waits for its second half; 16: none; 17: none may come, as "-" stands alone
    pub half: u8,
    // the number of this field so far, or its word, the letters as base-256 digits
    pub number: u64,
    // bytes in the store so far
    pub stored: usize,
    // the fields that have ended
    pub vector: Vector,
}

impl Scan {
    pub fn new() -> Scan {
        Scan {
            field: 0,
            broken: false,
            length: 0,
            half: 16,
            number: 0,
            stored: 0,
            vector: Vector::new(),
        }
    }

    fn fail(mut self) -> Scan {
        self.broken = true;
        self
    }

    // The vector with the field that ends.
    fn kept(self) -> Vector {
        let mut vector = self.vector;
        let field = self.field;
        if field == 0 {
            vector.op = self.number;
            return vector;
        }
        if of_bytes(field) {
            return vector.set_end(field, self.stored);
        }
        vector.set_number(field, self.number)
    }

    // The end of a field: it has a character, and no half byte waits.
    pub fn end_field(mut self) -> Scan {
        if self.length == 0 || self.half < 16 {
            return self.fail();
        }
        if self.field >= 18 {
            return self.fail();
        }
        let vector = self.kept();
        self.vector = vector;
        self.field = self.field + 1;
        self.length = 0;
        self.half = 16;
        self.number = 0;
        self
    }

    fn grown(mut self) -> Scan {
        if self.length < 255 {
            self.length = self.length + 1;
        }
        self
    }

    fn letter(mut self, b: u8) -> Scan {
        let word = self.number;
        if word >= 281474976710656 {
            return self.fail();
        }
        self.number = word * 256 + u64::from(b);
        self.grown()
    }

    fn digit(mut self, b: u8) -> Scan {
        if b < b'0' || b > b'9' {
            return self.fail();
        }
        let d = u64::from(b - b'0');
        let n = self.number;
        if n > (18446744073709551615 - d) / 10 {
            return self.fail();
        }
        self.number = n * 10 + d;
        self.grown()
    }

    // A half byte: the first waits, the second makes a byte.
    fn nibble(mut self, v: u8, store: &mut [u8]) -> Scan {
        let half = self.half;
        if half >= 16 {
            self.half = v;
            return self.grown();
        }
        self.half = 16;
        let at = self.stored;
        if at >= store.len() {
            return self.fail();
        }
        store[at] = half * 16 + v % 16;
        self.stored = at + 1;
        self.grown()
    }

    fn hex(mut self, b: u8, store: &mut [u8]) -> Scan {
        if self.half == 17 {
            return self.fail();
        }
        if b == b'-' {
            if self.length > 0 {
                return self.fail();
            }
            self.half = 17;
            return self.grown();
        }
        if b >= b'0' && b <= b'9' {
            return self.nibble(b - b'0', store);
        }
        if b >= b'a' && b <= b'f' {
            return self.nibble(b - b'a' + 10, store);
        }
        self.fail()
    }

    // One character of a field, or the space that ends it.
    pub fn take(self, b: u8, store: &mut [u8]) -> Scan {
        if self.broken {
            return self;
        }
        if b == b' ' {
            return self.end_field();
        }
        let field = self.field;
        if field == 0 {
            return self.letter(b);
        }
        if of_bytes(field) {
            return self.hex(b, store);
        }
        self.digit(b)
    }
}

// Whether a field of a line is bytes: plan, case, lines, events, amounts, pools.
fn of_bytes(field: u8) -> bool {
    field == 1 || field == 2 || (field >= 13 && field <= 16)
}
