// The reading of an input, for our own programs.
ghost use Rattle.std.specs.Prelude.{◌≤◌, length, IfOk};
ghost use Rattle.input.specs.Input.{ReadsFull};

use std::io;
use std::io::Read;

// Reads until the buffer is full or the input ends, and gives how many bytes were read. A loop, since the methods of `Read` that go
// on by themselves refuse a short input, or take a heap.
pub fn read_full<R: Read>(input: &mut R, buf: &mut [u8]) -> io::Result<usize>
    ensures bound { IfOk result (λ n. n ≤ length buf.new) }
    ensures bytes { ReadsFull (R.remaining input.old) (R.remaining input.new) result buf.new }
{
    let mut done = 0;
    while done < buf.len() {
        let more = input.read(&mut buf[done..])?;
        if more == 0 {
            break;
        }
        done += more;
    }
    Ok(done)
}
