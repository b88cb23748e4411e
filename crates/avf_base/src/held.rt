// The entries of a shelf in memory, and the copy that its reads make.
ghost use Rattle.std.specs.Prelude.{◌≡◌, ◌-◌, ◌≤◌, length, min, MatchOption, Some, None};
ghost use Rattle.avf_base.specs.Moves.{IsPiece};
ghost use Rattle.avf_base.specs.States.{holding};
ghost use Rattle.avf_base.specs.Entries.{entries_of};

/// A name with its bytes.
#[derive(Drop)]
pub struct Held {
    pub name: String,
    pub bytes: Vec<u8>,
}

/// What the first entry of this name holds.
pub fn find<'a>(files: &'a [Held], name: &str) -> Option<&'a [u8]>
    ensures { MatchOption result (holding (entries_of files.now) name.now ≡ None) (λ bytes. holding (entries_of files.now) name.now ≡ Some bytes.now) }
{
    for file in files {
        if file.name.as_str() == name {
            return Some(&file.bytes);
        }
    }
    None
}

/// Copies the bytes from the offset `at` on, as many as there are or as `buf` has room for.
#[tactic(auto, using(crate::proofs::Growing::copied))]
pub fn copy_at(bytes: &[u8], at: u64, buf: &mut [u8]) -> usize
    ensures bound { result ≤ length buf.new }
    ensures piece { IsPiece bytes.now at result buf.new }
    ensures all { result ≡ min (length buf.old) (length bytes.now - at) }
{
    let len = bytes.len();
    if at >= len as u64 {
        return 0;
    }
    let (_, rest) = bytes.split_at(at as usize);
    let n = rest.len().min(buf.len());
    let (piece, _) = rest.split_at(n);
    buf[..n].copy_from_slice(piece);
    n
}
