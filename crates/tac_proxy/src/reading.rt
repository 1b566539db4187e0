//! Reading the header.

ghost use Rattle.std.specs.Prelude.{◌≡◌, ◌<◌, ◌≤◌, ◌+◌, ◌∷◌, ◌++◌, ℕ, List, length, Some};
ghost use Rattle.std.specs.declared.net.socket_addr.SocketAddr.{SocketAddr as SocketValue};
ghost use Rattle.tac_proxy.specs.Line.{TellsCaller, line_header};
ghost use Rattle.tac_proxy.specs.Vectors.{VectorsLaw};
ghost use Rattle.tac_proxy.specs.Written.{Call, CanBeWritten, certificate_told, call_header};
ghost use Rattle.tac_proxy.specs.Written.{written};
ghost use Rattle.tac_proxy.specs.Proxy.{Reads, IfFound, IsNeed, IsWhole};
ghost use Rattle.tac_proxy.specs.declared.told.Certificate.{Certificate as CertificateValue};
ghost use Rattle.tac_proxy.specs.declared.told.Proxy.{Proxy as ProxyValue};
ghost use Rattle.tac_proxy.specs.declared.told.Proxy.TheVariants.{Found};

use crate::binary::{SIGNATURE, read_binary};
use crate::front::agrees;
use crate::line::read_line;
use crate::told::Proxy;

// What the bytes begin with.
fn read_front(bytes: &[u8]) -> Proxy
    ensures { Reads bytes.now result }
{
    if agrees(&SIGNATURE, bytes) {
        return read_binary(bytes);
    }
    read_line(bytes)
}

/// Reads the header in front of a connection's bytes, of those that have come so far. It is
/// judged as soon as it is there, and a byte that can't stand in the fixed part of any header as
/// soon as that comes. A line ends at its CR LF, within 107 bytes; of version 2 at most 520 bytes
/// follow the first sixteen. Takes no memory.
pub fn read_proxy(bytes: &[u8]) -> Proxy
    ensures exact { Reads bytes.now result }
    // Nothing else is read of these bytes.
    ensures only { (other : ProxyValue) → Reads bytes.now other → other ≡ result }
    // A header and a fault stay what they are, whatever bytes follow.
    ensures stays { ¬ (IsNeed result) → (more : List ℕ) → Reads (bytes.now ++ more) result }
    // The header takes exactly so many bytes: it is read of them alone, and no part of it is.
    ensures whole { IfFound result (IsWhole bytes.now) }
    // More bytes are waited for only while there are few.
    ensures few { IsNeed result → length bytes.now < 536 }
    // A line that tells a caller is read as soon as it is there, whatever follows it.
    ensures line { (line rest : List ℕ) (caller : SocketValue) → TellsCaller line caller →
        length line + 2 ≤ 107 → bytes.now ≡ line ++ 13 ∷ 10 ∷ rest →
        result ≡ Found (line_header line caller) }
    // So is version 2 with a caller by TCP.
    ensures call { (call : Call) (rest : List ℕ) (certificate : CertificateValue) →
        CanBeWritten call → certificate_told call ≡ Some certificate →
        bytes.now ≡ written call ++ rest → result ≡ Found (call_header call certificate) }
    // Its vectors are those that are written one after another.
    ensures vectors { VectorsLaw }
{
    read_front(bytes)
}
