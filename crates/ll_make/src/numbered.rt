//! What is numbered from 1 up: names, list terms and goals.
ghost use Rattle.std.specs.Prelude.{◌≡◌, ◌≤◌, ◌++◌, OnOk, codes};
ghost use Rattle.ll_make.specs.Numbered.{numbered, names_to, list_argument, goals};

use crate::OutOfMemory;
use itoa::Buffer;

/// Appends a name with a number behind it. After a refusal some first bytes of it may have been appended.
pub(crate) fn write_numbered(name: &[u8], k: u32, text: &mut Vec<u8>) -> Result<(), OutOfMemory>
    ensures { OnOk result (text.new.items ≡ text.old.items ++ numbered name.now k) }
{
    let mut digits = Buffer::new();
    text.extend_from_slice(name)?;
    text.extend_from_slice(digits.format(k).as_bytes())
}

/// Appends the list of the names that are numbered from 1 to `n`, as an argument: in brackets, unless it is `nil`. After a refusal some
/// first bytes of it may have been appended.
pub(crate) fn write_list(name: &[u8], n: u32, text: &mut Vec<u8>) -> Result<(), OutOfMemory>
    ensures { OnOk result (text.new.items ≡ text.old.items ++ list_argument (names_to name.now n)) }
{
    if n == 0 {
        return text.extend_from_slice(b"nil");
    }
    text.push(b'(')?;
    for k in 0..n {
        write_numbered(name, k + 1, text)?;
        text.extend_from_slice(b"::")?;
    }
    text.extend_from_slice(b"nil)")
}

/// Appends the goals `bit X1`, `bit X2` and so on to `n`, with ` , ` between them. After a refusal some first bytes of them may have
/// been appended.
pub(crate) fn write_goals(n: u32, text: &mut Vec<u8>) -> Result<(), OutOfMemory>
    requires { 1 ≤ n }
    ensures { OnOk result (text.new.items ≡ text.old.items ++ goals (codes "bit ") (names_to (codes "X") n)) }
{
    write_numbered(b"bit X", 1, text)?;
    for k in 1..n {
        write_numbered(b" , bit X", k + 1, text)?;
    }
    Ok(())
}
