// Pieces that are written whole.
ghost use Rattle.std.specs.Prelude.{◌≤◌, length, IfOk};

use std::io;
use std::io::ErrorKind;

// Writes a piece in as many parts as a call takes it, which writes the front of what it gets and answers how long that is.
pub(crate) fn write_whole<W: FnMut(&[u8]) -> io::Result<usize>>(
    piece: &[u8],
    mut write: W,
) -> io::Result<()>
    requires callable { W.IsAlwaysCallable write }
    requires bound { (state : W) (part : _) (answer : _) → W.post state part answer →
        IfOk answer (λ count. count ≤ length part.now) }
{
    let mut rest = piece;
    for _ in 0..u64::MAX {
        if rest.is_empty() {
            return Ok(());
        }
        match write(rest) {
            Ok(0) => return Err(io::Error::from(ErrorKind::WriteZero)),
            Ok(count) => rest = &rest[count..],
            Err(e) if e.kind() == ErrorKind::Interrupted => {}
            Err(e) => return Err(e),
        }
    }
    Err(io::Error::from(ErrorKind::Interrupted))
}
