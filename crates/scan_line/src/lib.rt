// The end of a line, searched eight bytes at a time: "A text is cut at each byte 10" (SPEC 3.1).
#![tactic(auto)]

ghost use Rattle.std.specs.Prelude.{◌≡◌, ◌≤◌, length};
ghost use Rattle.model.specs.Bytes.{newline, before};
ghost use Rattle.scan_line.specs.Plain.{Plain};

use scan_digits::whole_word;

// How many of a word's lowest bytes are surely not byte 10. The first flag is at a byte 10, or at a byte that is no ASCII.
fn plain_count(w: u64) -> usize
    ensures { Plain result w × (result ≤ 8) }
{
    let x = w ^ 0x0a0a0a0a0a0a0a0a;
    // subtracts 1 from each byte up to the first that is 0
    let lowered = x.wrapping_add(0xfefefefefefefeff);
    let flags = lowered & 0x8080808080808080;
    flags.trailing_zeros() as usize / 8
}

// The length of the first line, without its byte 10.
pub fn first_line_len(s: &[u8]) -> usize
    ensures { (result ≡ length (before newline s.now)) × (result ≤ length s.now) }
{
    // no `for`: moves by eight, and stops in the middle of a word
    let mut i = 0;
    while i + 8 <= s.len() {
        let n = plain_count(whole_word(s, i));
        if n < 8 {
            if s[i + n] == b'\n' {
                return i + n;
            }
            return i + scan::find(&s[i..], b'\n');
        }
        i += 8;
    }
    i + scan::find(&s[i..], b'\n')
}
