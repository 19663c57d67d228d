// The bytes of a line file from a reader.
ghost use Rattle.std.specs.Prelude.{◌≡◌, ◌≢◌, ◌+◌, ◌≤◌, length, take, IfOk, IfErr, IfSome};
ghost use Rattle.std.specs.IoError.{error_kind};
ghost use Rattle.lineformat.specs.Limits.{longest_file};

use lineformat::LONGEST_FILE;
use std::alloc::Global;
use std::io;
use std::io::{ErrorKind, Read};

// What a reader has left, up to one byte more than the longest file: that byte tells that a file is too long.
// Whether reading succeeds is the reader's and the heap's, and is not promised.
pub fn file_bytes<R: Read + Drop>(heap: Global, input: R) -> io::Result<Vec<u8>>
    ensures bytes { IfOk result (λ v. IfSome (R.remaining input) (λ bs. v.items ≡ take (longest_file + 1) bs)) }
    ensures few { IfOk result (λ v. length v.items ≤ longest_file + 1) }
    ensures retried { IfErr result (λ e. error_kind e ≢ ErrorKind.Interrupted) }
{
    let mut file = Vec::new(heap);
    input.take(LONGEST_FILE as u64 + 1).read_to_end(&mut file)?;
    // no byte is past this; a reader that does not say what it has left leaves that open
    file.truncate(LONGEST_FILE + 1);
    Ok(file)
}
