// The lister (01, "Afterwards"; 02, N1): prints the front of the file on standard input. It needs no key.
#![tactic(auto)]

use listing::{MAX_LISTED, TEXT_ROOM};
use std::io;

fn main(rt: HostRuntime) -> io::Result<()> {
    // One byte more than is listed, to see that a file is too long.
    let mut file = [0u8; MAX_LISTED + 1];
    let n = input::read_full(&mut rt.reader(), &mut file)?;
    // Every text has room, so that there is no refusal to tell.
    let mut text = [0u8; TEXT_ROOM];
    let count = listing::list_front(&file[..n], &mut text).unwrap_or(0);
    rt.write_all(&text[..count])
}
