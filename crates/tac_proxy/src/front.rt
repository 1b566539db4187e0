//! How bytes begin.

ghost use Rattle.std.specs.Prelude.{◌≡◌};
ghost use Rattle.tac_proxy.specs.Front as fronts;

// Whether the bytes begin so, as far as there are any.
pub(crate) fn agrees(front: &[u8], bytes: &[u8]) -> bool
    ensures { result ≡ fronts.agrees front.now bytes.now }
{
    let mut wanted = front;
    let mut rest = bytes;
    'bytes: while let [first, more @ ..] = wanted {
        let [byte, after @ ..] = rest else {
            return true;
        };
        if byte != first {
            return false;
        }
        wanted = more;
        rest = after;
    }
    true
}
