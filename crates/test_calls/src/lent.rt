// For tests: a flat running total of one's own, lent to the scan that is exported, as C lends one.
ghost use Rattle.scan_flat.specs.Flats.{scanned_as, FlatScanIs};

use scan_flat::YubiRunning;
use tablet_answers::YubiAnswer;

#[derive(Clone, Copy)]
pub struct Lent {
    pub total: YubiRunning,
    pub answer: YubiAnswer,
}

pub fn scan_own(t: YubiRunning, curve: &[u8], record: &[u8]) -> Lent
    ensures { FlatScanIs t curve.now «record».now (scanned_as result.answer.number result.answer.place result.answer.length result.total) }
{
    let mut total = t;
    let answer = tablet::yubi_scan_lent(&mut total, curve, record);
    Lent { total, answer }
}
