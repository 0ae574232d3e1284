// The public calls. Each only flattens its call inside Rattle, under the same rule. None has a `requires`: any bytes may be handed to it. Crate
// `tablet_c` exports each to C under its name.
#![tactic(auto, using(tablet_answers::proofs::Flattened::answer_is, tablet_answers::proofs::Flattened::answer_out, tablet_answers::proofs::Flattened::multiple_is, tablet_answers::proofs::Flattened::multiple_out, tablet_answers::proofs::Flattened::total_is, tablet_answers::proofs::Flattened::total_out, tablet_answers::proofs::Flattened::pole_is, tablet_answers::proofs::Flattened::pole_out))]

ghost use Rattle.std.specs.Prelude.{◌≡◌};
ghost use Rattle.rules.specs.Calls.{check_curve, check_divisor, rewrite_curve, rewrite_divisor, add_call, double_call, opposite_call, multiply_call, total_call, repeat_call};
ghost use Rattle.rules.specs.Calls.{check_order, split_call, next_call};
ghost use Rattle.rules.specs.Calls.{fresh};
ghost use Rattle.rules.specs.Pole.PoleFile.{read_file, write_file};
ghost use Rattle.scan_flat.specs.Flats.{flat_running, scanned_as, FlatScanIs};
ghost use Rattle.tablet_answers.specs.Flat.{flat, flat_multiple, flat_total, flat_repeat, flat_pole};

use scan_flat::{YubiRunning, YubiScanned};
use scan_total::Running;
use tablet_answers::{YubiAnswer, YubiMultiple, YubiPole, YubiRepeat, YubiTotal};

pub fn yubi_check_curve(curve: &[u8]) -> YubiAnswer
    ensures { result ≡ flat (check_curve curve.now) }
{
    call_answer::check_curve(curve).into()
}

pub fn yubi_check_divisor(curve: &[u8], divisor: &[u8]) -> YubiAnswer
    ensures { result ≡ flat (check_divisor curve.now divisor.now) }
{
    call_answer::check_divisor(curve, divisor).into()
}

pub fn yubi_rewrite_curve(curve: &[u8], out: &mut [u8]) -> YubiAnswer
    ensures answer { result ≡ flat (rewrite_curve curve.now out.old).answer }
    ensures output { out.new ≡ (rewrite_curve curve.now out.old).out }
{
    call_answer::rewrite_curve(curve, out).into()
}

pub fn yubi_rewrite_divisor(curve: &[u8], divisor: &[u8], out: &mut [u8]) -> YubiAnswer
    ensures answer { result ≡ flat (rewrite_divisor curve.now divisor.now out.old).answer }
    ensures output { out.new ≡ (rewrite_divisor curve.now divisor.now out.old).out }
{
    call_answer::rewrite_divisor(curve, divisor, out).into()
}

pub fn yubi_add(curve: &[u8], a: &[u8], b: &[u8], out: &mut [u8]) -> YubiAnswer
    ensures answer { result ≡ flat (add_call curve.now a.now b.now out.old).answer }
    ensures output { out.new ≡ (add_call curve.now a.now b.now out.old).out }
{
    call_sum::add(curve, a, b, out).into()
}

pub fn yubi_double(curve: &[u8], a: &[u8], out: &mut [u8]) -> YubiAnswer
    ensures answer { result ≡ flat (double_call curve.now a.now out.old).answer }
    ensures output { out.new ≡ (double_call curve.now a.now out.old).out }
{
    call_sum::double(curve, a, out).into()
}

pub fn yubi_opposite(curve: &[u8], a: &[u8], out: &mut [u8]) -> YubiAnswer
    ensures answer { result ≡ flat (opposite_call curve.now a.now out.old).answer }
    ensures output { out.new ≡ (opposite_call curve.now a.now out.old).out }
{
    call_sum::opposite(curve, a, out).into()
}

pub fn yubi_split(curve: &[u8], divisor: &[u8], out: &mut [u8]) -> YubiAnswer
    ensures answer { result ≡ flat (split_call curve.now divisor.now out.old).answer }
    ensures output { out.new ≡ (split_call curve.now divisor.now out.old).out }
{
    call_split::split(curve, divisor, out).into()
}

pub fn yubi_multiply(curve: &[u8], a: &[u8], scalar: &[u8], out: &mut [u8]) -> YubiMultiple
    ensures answer { result ≡ flat_multiple (multiply_call curve.now a.now scalar.now out.old) }
    ensures output { out.new ≡ (multiply_call curve.now a.now scalar.now out.old).out }
{
    call_multiply::multiply(curve, a, scalar, out).into()
}

// The same words, kept by the second engine.
pub fn yubi_multiply_inversion_free(
    curve: &[u8],
    a: &[u8],
    scalar: &[u8],
    out: &mut [u8],
) -> YubiMultiple
    ensures answer { result ≡ flat_multiple (multiply_call curve.now a.now scalar.now out.old) }
    ensures output { out.new ≡ (multiply_call curve.now a.now scalar.now out.old).out }
{
    call_multiply::multiply_inversion_free(curve, a, scalar, out).into()
}

// W-214: nothing is written.
pub fn yubi_check_order(curve: &[u8], divisor: &[u8], order: &[u8], primes: &[u8]) -> YubiAnswer
    ensures { result ≡ flat (check_order curve.now divisor.now order.now primes.now) }
{
    call_multiply::order::check_order(curve, divisor, order, primes).into()
}

pub fn yubi_next_divisor(curve: &[u8], divisor: &[u8], out: &mut [u8]) -> YubiAnswer
    ensures answer { result ≡ flat (next_call curve.now divisor.now out.old).answer }
    ensures output { out.new ≡ (next_call curve.now divisor.now out.old).out }
{
    call_census::next_divisor(curve, divisor, out).into()
}

pub fn yubi_total_batch(curve: &[u8], batch: &[u8], out: &mut [u8]) -> YubiTotal
    ensures answer { result ≡ flat_total (total_call curve.now batch.now out.old) }
    ensures output { out.new ≡ (total_call curve.now batch.now out.old).out }
{
    call_total::total_batch(curve, batch, out).into()
}

pub fn yubi_first_repeat(curve: &[u8], batch: &[u8]) -> YubiRepeat
    ensures { result ≡ flat_repeat (repeat_call curve.now batch.now) }
{
    call_batch::repeat::first_repeat(curve, batch).into()
}

pub fn yubi_fresh_total(pole: u32) -> YubiRunning
    ensures { result ≡ flat_running (fresh pole) }
{
    scan_flat::flatten_running(Running::fresh(pole))
}

pub fn yubi_scan(total: YubiRunning, curve: &[u8], record: &[u8]) -> YubiScanned
    ensures { FlatScanIs total curve.now «record».now result }
{
    scan_record::flat::scan(total, curve, record)
}

// What a scan left of the total, beside its answer.
#[derive(Clone, Copy)]
struct LentStep {
    total: YubiRunning,
    answer: YubiAnswer,
}

// The work of the lent scan, by value.
fn lent_by_value(total: YubiRunning, curve: &[u8], record: &[u8]) -> LentStep
    ensures { FlatScanIs total curve.now «record».now (scanned_as result.answer.number result.answer.place result.answer.length result.total) }
{
    let s = scan_record::flat::scan(total, curve, record);
    let after = s.total;
    LentStep {
        total: after,
        answer: YubiAnswer {
            number: s.number,
            place: s.place,
            length: s.length,
        },
    }
}

// The total is lent, and changed in place.
pub fn yubi_scan_lent(total: &mut YubiRunning, curve: &[u8], record: &[u8]) -> YubiAnswer
    ensures { FlatScanIs total.old curve.now «record».now (scanned_as result.number result.place result.length total.new) }
{
    let s = lent_by_value(*total, curve, record);
    *total = s.total;
    s.answer
}

// The pole file: a floor above the other calls, by their promises alone (call_pole).
pub fn yubi_write_pole_file(pole: u32, curve: &[u8], batch: &[u8], out: &mut [u8]) -> YubiAnswer
    ensures answer { result ≡ flat (write_file pole curve.now batch.now out.old).answer }
    ensures output { out.new ≡ (write_file pole curve.now batch.now out.old).out }
{
    call_pole::write_pole_file(pole, curve, batch, out).into()
}

pub fn yubi_read_pole_file(file: &[u8], out: &mut [u8]) -> YubiPole
    ensures answer { result ≡ flat_pole (read_file file.now out.old) }
    ensures output { out.new ≡ (read_file file.now out.old).out }
{
    call_pole::read_pole_file(file, out).into()
}
