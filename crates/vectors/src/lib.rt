// What the programs share that read records of words and print how many were right.
#![tactic(auto)]

ghost use Rattle.std.specs.Prelude.{◌≡◌, ◌+◌, ◌*◌, ◌<◌, ◌≤◌, length, IfOk};
ghost use Rattle.std.specs.Option.{IfSome};

use std::io::Read;
use std::{fmt, io};

// The room that is lent holds this before the call.
pub const SPARE: u32 = 0xa5a5_a5a5;

// The words in the bytes, each with its lowest byte first.
fn decode(bytes: &[u8], words: &mut [u32]) {
    for (word, four) in words.iter_mut().zip(bytes.chunks_exact(4)) {
        *word = u32::from_le_bytes([four[0], four[1], four[2], four[3]]);
    }
}

// Reads until the bytes are full or the file ends, and answers how many it read: as many a turn as a read gives.
pub fn read_full<R: Read>(file: &mut R, bytes: &mut [u8]) -> io::Result<usize>
    ensures { IfOk result (λ n. n ≤ length bytes.new) }
{
    let mut done = 0;
    // A step is as many bytes as the read gave, which no range counts.
    while done < bytes.len() {
        let n = file.read(&mut bytes[done..])?;
        if n == 0 {
            break;
        }
        done += n;
    }
    Ok(done)
}

fn read_words<R: Read>(file: &mut R, bytes: &mut [u8], words: &mut [u32]) -> io::Result<bool> {
    let got = read_full(file, bytes)?;
    decode(bytes, words);
    Ok(got == bytes.len())
}

// Reads the next record of a file, and answers how many words it has: None at the end, and at a
// record with no words.
pub fn read_record<R: Read>(
    file: &mut R,
    bytes: &mut [u8],
    words: &mut [u32],
) -> io::Result<Option<usize>>
    requires { length bytes.old ≡ 4 * length words.old }
    ensures { IfOk result (λ found. IfSome found (λ n. (0 < n) × (n ≤ length words.old))) }
{
    let mut head = [0u8; 4];
    if read_full(file, &mut head)? != head.len() {
        return Ok(None);
    }
    let count = u32::from_le_bytes(head) as usize;
    if count == 0 || words.len() < count {
        return Ok(None);
    }
    let whole = read_words(file, &mut bytes[..4 * count], &mut words[..count])?;
    Ok(whole.then_some(count))
}

// Whether the room holds the words, and is as it was past them.
pub fn holds(room: &[u32], words: &[u32]) -> bool {
    let n = words.len();
    n <= room.len() && room[..n] == words[..] && room[n..].iter().all(|word| *word == SPARE)
}

// The lowest bytes of the words, as many as there is room for.
pub fn narrow(words: &[u32], bytes: &mut [u8]) {
    for (byte, word) in bytes.iter_mut().zip(words) {
        *byte = (*word % 256) as u8;
    }
}

#[derive(Clone, Copy, Debug, Default)]
pub struct Count {
    pub right: u64,
    pub wrong: u64,
}

impl Count {
    pub fn and(self, ok: bool) -> Self {
        if ok {
            let right = self.right.wrapping_add(1);
            Self { right, ..self }
        } else {
            let wrong = self.wrong.wrapping_add(1);
            Self { wrong, ..self }
        }
    }
}

impl fmt::Display for Count {
    fn fmt<W: fmt::Write>(&self, f: &mut fmt::Formatter<W>) -> fmt::Result {
        let right = self.right;
        let wrong = self.wrong;
        let all = right.wrapping_add(wrong);
        write!(f, "{all} right {right} wrong {wrong}")
    }
}

// Prints under a name how many were right and how many wrong.
pub fn say(rt: &impl Print, name: &str, count: Count) -> io::Result<()> {
    println!(rt; "{name} {count}")
}
