// How much two byte strings have in common before they differ, which is where the comparisons of SPEC 4.1 spend their time: eight
// bytes at a time, and then one by one.
ghost use Rattle.std.specs.Prelude.{◌+◌, ◌≤◌, length};
ghost use Rattle.compare.specs.Prefixes.{IsNumber, CommonPrefix};

fn byte(s: &[u8], i: usize) -> u64
    requires { i + 1 ≤ length s.now }
    ensures { IsNumber s.now i 1 result }
{
    s[i] as u64
}

fn pair(s: &[u8], i: usize) -> u64
    requires { i + 2 ≤ length s.now }
    ensures { IsNumber s.now i 2 result }
{
    byte(s, i) + byte(s, i + 1) * 0x100
}

// Four bytes from place i on as one number, the lowest first.
pub fn quad(s: &[u8], i: usize) -> u64
    requires { i + 4 ≤ length s.now }
    ensures { IsNumber s.now i 4 result }
{
    pair(s, i) + pair(s, i + 2) * 0x1_0000
}

// Eight bytes from place i on as one number, which the compiler makes a single load.
pub fn word(s: &[u8], i: usize) -> u64
    requires { i + 8 ≤ length s.now }
    ensures { IsNumber s.now i 8 result }
{
    quad(s, i) + quad(s, i + 4) * 0x1_0000_0000
}

// The length of the common prefix, to within a word.
fn common_words(a: &[u8], b: &[u8]) -> usize
    ensures { CommonPrefix 8 a.now b.now result }
{
    let n = a.len().min(b.len());
    let mut i = 0;
    // by eights
    while i + 8 <= n {
        if word(a, i) != word(b, i) {
            return i;
        }
        i += 8;
    }
    i
}

// The length of the common prefix.
pub fn common_prefix(a: &[u8], b: &[u8]) -> usize
    ensures { CommonPrefix 1 a.now b.now result }
{
    let n = a.len().min(b.len());
    for i in common_words(a, b)..n {
        if a[i] != b[i] {
            return i;
        }
    }
    n
}
