// A file's first bytes, as many as the buffer holds.
ghost use Rattle.std.specs.Prelude.{IfOk};
ghost use Rattle.io.specs.Counts.{IsPrefixLen};

use std::fs::File;
use std::io;
use std::io::Read;

// How many bytes stand at the start of the buffer; none where the file could not be opened or read.
#[derive(Drop)]
pub struct Loaded {
    pub loaded: bool,
    pub count: usize,
}

fn nothing(buf: &[u8]) -> Loaded
    ensures { IsPrefixLen result.count buf.now }
{
    Loaded {
        loaded: false,
        count: 0,
    }
}

fn fill(file: &mut File, buf: &mut [u8]) -> io::Result<usize>
    ensures { IfOk result (λ n. IsPrefixLen n buf.new) }
{
    let mut done: usize = 0;
    while done < buf.len() {
        let more = file.read(&mut buf[done..])?;
        if more == 0 {
            break;
        }
        done += more;
    }
    Ok(done)
}

fn open_and_fill(rt: &HostRuntime, name: &str, buf: &mut [u8]) -> io::Result<usize>
    ensures { IfOk result (λ n. IsPrefixLen n buf.new) }
{
    let mut file = File::open(rt, name)?;
    fill(&mut file, buf)
}

// What went wrong is said on the standard error, with the file's name; where that cannot be written, nobody can be told.
pub fn load(rt: &HostRuntime, name: &str, buf: &mut [u8]) -> Loaded
    ensures { IsPrefixLen result.count buf.new }
{
    match open_and_fill(rt, name, buf) {
        Ok(count) => Loaded {
            loaded: true,
            count,
        },
        Err(error) => {
            let _ = eprintln!(rt; "{name}: {error}");
            nothing(buf)
        }
    }
}
