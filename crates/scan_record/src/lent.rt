// The running total, lent to the scan and changed in place. The work is by value, in `scan_by_value`; the function over a `&mut` only stores what it gave.
ghost use Rattle.scan_record.specs.lent.Lent.{ScanIs};

use refusals::Refused;
use scan_total::Running;

// The total after a scan, and what it answers: a scan writes no output.
#[derive(Clone, Copy)]
pub struct Step {
    pub total: Running,
    pub report: Result<(), Refused>,
}

pub fn scan_by_value(t: Running, curve: &[u8], record: &[u8]) -> Step
    ensures { ScanIs t curve.now «record».now result.report result.total }
{
    match crate::scan(t, curve, record) {
        Ok(x) => Step {
            total: x,
            report: Ok(()),
        },
        Err(r) => Step {
            total: t,
            report: Err(r),
        },
    }
}

// In place, whatever total it was lent.
pub fn scan(total: &mut Running, curve: &[u8], record: &[u8]) -> Result<(), Refused>
    ensures { ScanIs total.old curve.now «record».now result total.new }
{
    let s = scan_by_value(*total, curve, record);
    *total = s.total;
    s.report
}

// Lends a total of its own, for callers that hold theirs as a value.
pub fn scan_own(t: Running, curve: &[u8], record: &[u8]) -> Step
    ensures { ScanIs t curve.now «record».now result.report result.total }
{
    let mut total = t;
    let report = scan(&mut total, curve, record);
    Step { total, report }
}
