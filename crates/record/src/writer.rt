// Writing: the fifteen bytes of a record. What is written is read back as the same record (proofs/RoundTrip), so no two records have
// the same bytes.
ghost use Rattle.std.specs.Prelude.{◌≡◌};
ghost use Rattle.record.specs.Bytes.{run_bytes, bytes_of};

use crate::Record;
use terms::run::Run;

// Document 01's layout, over the library's conversions. A line has two bytes here: of a line above 65,535 the low two are written.
fn run_bytes(run: Run) -> [u8; 6]
    ensures { result ≡ run_bytes run }
{
    let [_, _, high, low] = run.line.to_be_bytes();
    let [a, b, c, d] = run.trip.to_be_bytes();
    [high, low, a, b, c, d]
}

impl From<Record> for [u8; Record::BYTES] {
    ghost from_gives = { λ written bytes. bytes ≡ bytes_of written };

    fn from(rec: Record) -> [u8; Record::BYTES] {
        let [r, n] = Record::MARK;
        let kind = u8::from(rec.kind);
        let [a, b, c, d, e, f] = run_bytes(rec.first);
        let [g, h, i, j, k, l] = run_bytes(rec.second);
        [r, n, kind, a, b, c, d, e, f, g, h, i, j, k, l]
    }
}
