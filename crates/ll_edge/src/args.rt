// The words of a call.
ghost use Rattle.std.specs.Prelude.{◌≡◌, map, IfOk};
ghost use Rattle.std.specs.String.{string_bytes};

use std::alloc::{AllocError, Global};
use std::rt::Env;
use std::{env, io};

/// The words of a call behind the program's name, as the system tells them: no clause says which, since the library says nothing of the words
/// that `args` gives, so this body is trusted to pass on each of them in its order. It refuses with `OutOfMemory` where memory runs out, and with
/// `InvalidData` where a word is no text.
pub fn words(rt: &(impl Env + AllocGlobal)) -> io::Result<Vec<String>> {
    let mut words = Vec::new(rt.alloc());
    for word in env::args(rt)?.skip(1) {
        words.push(word)?;
    }
    Ok(words)
}

/// The same texts, lent. It refuses where memory runs out.
pub fn lent(alloc: Global, texts: &[String]) -> Result<Vec<&str>, AllocError>
    ensures { IfOk result (λ it. map (λ text. text.now) it.items ≡ map string_bytes texts.now) }
{
    let mut lent = Vec::new(alloc);
    for text in texts {
        lent.push(text.as_str())?;
    }
    Ok(lent)
}
