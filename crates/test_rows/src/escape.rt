// Texts with escapes.
ghost use Rattle.std.specs.Prelude.{◌<◌, IfOk};

use crate::line_fault::LineFault;

/// Puts the bytes that a text with escapes stands for behind others.
///
/// `\n`, `\r` and `\t` are the control characters that they are in Rust, `\\` is a backslash, `\x20` is the byte of this
/// number, and `\1000{(}` is the piece in the braces a thousand times.
pub fn put_unescaped(bytes: &mut Vec<u8>, text: &str) -> Result<(), LineFault> {
    // Whether the next piece stands for itself: it does at the front, and behind two backslashes.
    let mut is_plain = true;
    for piece in text.split('\\') {
        if is_plain {
            bytes.extend_from_slice(piece.as_bytes())?;
            is_plain = false;
        } else if piece.is_empty() {
            bytes.push(b'\\')?;
            is_plain = true;
        } else {
            put_escape(bytes, piece)?;
        }
    }
    if is_plain {
        return Err(LineFault::NoSuchEscape);
    }
    Ok(())
}

// Puts what stands behind a backslash.
fn put_escape(bytes: &mut Vec<u8>, piece: &str) -> Result<(), LineFault> {
    let (byte, rest) = match piece.as_bytes() {
        [b'n', rest @ ..] => (b'\n', rest),
        [b'r', rest @ ..] => (b'\r', rest),
        [b't', rest @ ..] => (b'\t', rest),
        [b'x', high, low, rest @ ..] => (hex_digit(*high)? << 4 | hex_digit(*low)?, rest),
        _ => return put_repeated(bytes, piece),
    };
    bytes.push(byte)?;
    bytes.extend_from_slice(rest)?;
    Ok(())
}

// Puts a piece in braces as often as the number in front of it says, and then what stands behind the braces.
fn put_repeated(bytes: &mut Vec<u8>, piece: &str) -> Result<(), LineFault> {
    let (count, behind) = piece.split_once('{').ok_or(LineFault::NoSuchEscape)?;
    let (repeated, rest) = behind.split_once('}').ok_or(LineFault::NoSuchEscape)?;
    let Ok(count) = count.parse::<u32>() else {
        return Err(LineFault::NoSuchEscape);
    };
    for _ in 0..count {
        bytes.extend_from_slice(repeated.as_bytes())?;
    }
    bytes.extend_from_slice(rest.as_bytes())?;
    Ok(())
}

// The value of a hexadecimal digit.
fn hex_digit(byte: u8) -> Result<u8, LineFault>
    ensures { IfOk result (λ digit. digit < 16) }
{
    match byte {
        b'0'..=b'9' => Ok(byte - b'0'),
        b'a'..=b'f' => Ok(byte - b'a' + 10),
        _ => Err(LineFault::NoSuchEscape),
    }
}
