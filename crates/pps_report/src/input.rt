// What is told of, from a file or standard input.
ghost use Rattle.std.specs.Prelude.{◌≤◌, length};

use std::io::Read;

// A unit of 65,536 bytes is refused as too long, so that no program reads more.
pub const LARGEST: usize = 65536;

// Reads until buf is full, the input ends or a read fails, and returns how many bytes it put at the start of buf.
pub fn read_full<R: Read>(from: &mut R, buf: &mut [u8]) -> usize
    ensures { result ≤ length buf.new }
{
    let mut done = 0;
    while done < buf.len() {
        match from.read(&mut buf[done..]) {
            Ok(0) => return done,
            Ok(n) => done += n,
            Err(_) => return done,
        }
    }
    done
}
