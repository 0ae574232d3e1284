// A scan into the running total as C holds it: the scan by value, once the total has the form of a flattened one.
ghost use Rattle.scan_flat.specs.Flats.{FlatScanIs};
ghost use Rattle.scan_record.specs.flat.Flat.{TotalAfter};

use refusals::{Refusal, Refused};
use scan_flat::{YubiRunning, YubiScanned};
use scan_total::Running;

// The total after, flattened.
fn scan_flattened(t: YubiRunning, curve: &[u8], record: &[u8]) -> Result<YubiRunning, Refused>
    ensures { TotalAfter t curve.now «record».now result }
{
    let c = record_curve::read_curve(curve)?;
    if !scan_flat::is_flat(t) {
        return Err(Refusal::RunningTotal.at(0));
    }
    let r = Running {
        divisor: scan_flat::divisor_of(t),
        count: t.count,
        pole: t.pole,
    };
    let x = crate::scan_on(c, r, record)?;
    Ok(scan_flat::flatten_running(x))
}

pub fn scan(t: YubiRunning, curve: &[u8], record: &[u8]) -> YubiScanned
    ensures { FlatScanIs t curve.now «record».now result }
{
    match scan_flattened(t, curve, record) {
        Ok(x) => YubiScanned {
            number: 0,
            place: 0,
            length: 0,
            total: x,
        },
        Err(r) => YubiScanned {
            number: u64::from(r.by),
            place: r.place,
            length: 0,
            total: t,
        },
    }
}
