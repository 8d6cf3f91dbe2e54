//! The lines of a text: how many there are, and what stands behind the header.
ghost use Rattle.std.specs.Prelude.{◌≡◌, ◌≤◌, drop, length};
ghost use Rattle.witness_laws.specs.Lines.{lines_of};

/// How many lines a text has. What stands behind the last line feed is a line, too.
pub(crate) fn line_count(bytes: &[u8]) -> u64
    ensures count { result ≡ length (lines_of bytes.now) }
    ensures within { result ≤ length bytes.now }
{
    let mut count: u64 = 0;
    let mut inside = false;
    for byte in bytes {
        if *byte == b'\n' {
            count += 1;
            inside = false;
        } else {
            inside = true;
        }
    }
    if inside { count + 1 } else { count }
}

// What stands behind the first line.
fn after_line(bytes: &[u8]) -> &[u8]
    ensures { lines_of result.now ≡ drop 1 (lines_of bytes.now) }
{
    for place in 0..bytes.len() {
        if bytes[place] == b'\n' {
            return &bytes[place + 1..];
        }
    }
    &[]
}

/// What stands behind the first three lines.
pub fn body(bytes: &[u8]) -> &[u8]
    ensures { lines_of result.now ≡ drop 3 (lines_of bytes.now) }
{
    after_line(after_line(after_line(bytes)))
}
