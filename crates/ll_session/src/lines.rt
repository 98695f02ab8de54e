//! The lines of a text, and which of them are queries.
ghost use Rattle.std.specs.Prelude.{◌≡◌, ◌<◌, ◌≤◌, ◌∷◌, ◌==◌, not, length};
ghost use Rattle.std.specs.List.{prefix_len};
ghost use Rattle.ll_session.specs.Lines.{is_blank_byte, lines, is_query_line};

/// The first line of a text that has some byte, and what follows behind its LF.
pub fn split_line(text: &[u8]) -> (&[u8], &[u8])
    requires { 0 < length text.now }
    ensures lines { lines text.now ≡ result.0.now ∷ lines result.1.now }
    ensures within { length result.0.now ≤ length text.now }
    ensures shorter { length result.1.now < length text.now }
{
    let end = line_len(text);
    if end < text.len() {
        (&text[..end], &text[end + 1..])
    } else {
        (text, &[])
    }
}

// How many bytes stand before the first LF.
fn line_len(text: &[u8]) -> usize
    ensures { result ≡ prefix_len (λ b. not (b == 10)) text.now }
{
    text.iter().take_while(|byte| **byte != b'\n').count()
}

/// Whether a line holds more than blanks and a comment.
pub fn is_query_line(line: &[u8]) -> bool
    ensures { result ≡ is_query_line line.now }
{
    for byte in line {
        if !is_blank(*byte) {
            return *byte != b'%';
        }
    }
    false
}

// Space, tab, CR and LF.
fn is_blank(byte: u8) -> bool
    ensures { result ≡ is_blank_byte byte }
{
    byte == b' ' || byte == b'\t' || byte == b'\r' || byte == b'\n'
}
