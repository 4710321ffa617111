// How many vectors agree or differ, and the first lines that differ.
use std::io;

#[derive(Drop)]
pub struct Tally {
    pub line: u64,
    pub agree: u64,
    pub differ: u64,
    pub first: [u64; 16],
}

impl Tally {
    pub fn new() -> Tally {
        Tally {
            line: 0,
            agree: 0,
            differ: 0,
            first: [0; 16],
        }
    }

    // Counts stop at the top, which no file reaches.
    pub fn add(mut self, agrees: bool) -> Tally {
        if self.line == u64::MAX {
            return self;
        }
        self.line = self.line + 1;
        if agrees {
            if self.agree < u64::MAX {
                self.agree = self.agree + 1;
            }
            return self;
        }
        if self.differ < 16 {
            let i = self.differ as usize;
            let mut first = self.first;
            first[i] = self.line;
            self.first = first;
        }
        if self.differ < u64::MAX {
            self.differ = self.differ + 1;
        }
        self
    }

    // The lines that differ, one a row, then the counts; each row begins with the list's name.
    pub fn print(self, rt: &HostRuntime, list: &str) -> io::Result<()> {
        let first = self.first;
        print_rows(rt, list, first)?;
        println!(rt; "{list}{} agree, {} differ", self.agree, self.differ)
    }
}

fn print_row(rt: &HostRuntime, list: &str, line: u64) -> io::Result<()> {
    if line > 0 {
        println!(rt; "{list}line {line} differs")?;
    }
    Ok(())
}

fn print_rows(rt: &HostRuntime, list: &str, lines: [u64; 16]) -> io::Result<()> {
    for i in 0..16 {
        print_row(rt, list, lines[i])?;
    }
    Ok(())
}
