//! Pieces of bytes.
ghost use Rattle.std.specs.Prelude.{◌≡◌, ◌≤◌, ◌∷◌, ◌++◌, true, length, MatchOption};
ghost use Rattle.std.specs.List.{list_all, prefix_len};
ghost use Rattle.ll_prooftext.specs.Words.{is_not, Stops, BeginsNot};

/// What stands behind this byte, if the bytes begin with it.
pub(crate) fn behind(bytes: &[u8], byte: u8) -> Option<&[u8]>
    ensures { MatchOption result (BeginsNot byte bytes.now) (λ rest. bytes.now ≡ byte ∷ rest.now) }
{
    let Some((first, rest)) = bytes.split_first() else {
        return None;
    };
    if *first == byte { Some(rest) } else { None }
}

/// The bytes in front of the first one that is this byte, and those from it on.
pub(crate) fn split_before(bytes: &[u8], byte: u8) -> (&[u8], &[u8])
    ensures is { bytes.now ≡ result.0.now ++ result.1.now }
    ensures free { list_all (is_not byte) result.0.now ≡ true }
    ensures stops { Stops (is_not byte) result.1.now }
{
    bytes.split_at(len_before(bytes, byte))
}

/// How many bytes stand in front of the first one that is this byte.
fn len_before(bytes: &[u8], byte: u8) -> usize
    ensures run { result ≡ prefix_len (is_not byte) bytes.now }
    ensures within { result ≤ length bytes.now }
{
    bytes.iter().take_while(|b| **b != byte).count()
}
