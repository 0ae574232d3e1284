// The public calls for C: each of crate `tablet`, exported under its own name. An export only hands its arguments on, and promises the same. None has
// a `requires`: any bytes may be handed to it.
#![tactic(auto)]

ghost use Rattle.std.specs.Prelude.{◌≡◌};
ghost use Rattle.rules.specs.Calls.{check_curve, check_divisor, rewrite_curve, rewrite_divisor, add_call, double_call, opposite_call, multiply_call, total_call, repeat_call};
ghost use Rattle.rules.specs.Calls.{check_order, split_call, next_call};
ghost use Rattle.rules.specs.Calls.{fresh};
ghost use Rattle.rules.specs.Pole.PoleFile.{read_file, write_file};
ghost use Rattle.scan_flat.specs.Flats.{flat_running, scanned_as, FlatScanIs};
ghost use Rattle.tablet_answers.specs.Flat.{flat, flat_multiple, flat_total, flat_repeat, flat_pole};

use scan_flat::{YubiRunning, YubiScanned};
use tablet_answers::{YubiAnswer, YubiMultiple, YubiPole, YubiRepeat, YubiTotal};

#[unsafe(no_mangle)]
pub extern "C" fn yubi_check_curve(curve: &[u8]) -> YubiAnswer
    ensures { result ≡ flat (check_curve curve.now) }
{
    tablet::yubi_check_curve(curve)
}

#[unsafe(no_mangle)]
pub extern "C" fn yubi_check_divisor(curve: &[u8], divisor: &[u8]) -> YubiAnswer
    ensures { result ≡ flat (check_divisor curve.now divisor.now) }
{
    tablet::yubi_check_divisor(curve, divisor)
}

#[unsafe(no_mangle)]
pub extern "C" fn yubi_rewrite_curve(curve: &[u8], out: &mut [u8]) -> YubiAnswer
    ensures answer { result ≡ flat (rewrite_curve curve.now out.old).answer }
    ensures output { out.new ≡ (rewrite_curve curve.now out.old).out }
{
    tablet::yubi_rewrite_curve(curve, out)
}

#[unsafe(no_mangle)]
pub extern "C" fn yubi_rewrite_divisor(curve: &[u8], divisor: &[u8], out: &mut [u8]) -> YubiAnswer
    ensures answer { result ≡ flat (rewrite_divisor curve.now divisor.now out.old).answer }
    ensures output { out.new ≡ (rewrite_divisor curve.now divisor.now out.old).out }
{
    tablet::yubi_rewrite_divisor(curve, divisor, out)
}

#[unsafe(no_mangle)]
pub extern "C" fn yubi_add(curve: &[u8], a: &[u8], b: &[u8], out: &mut [u8]) -> YubiAnswer
    ensures answer { result ≡ flat (add_call curve.now a.now b.now out.old).answer }
    ensures output { out.new ≡ (add_call curve.now a.now b.now out.old).out }
{
    tablet::yubi_add(curve, a, b, out)
}

#[unsafe(no_mangle)]
pub extern "C" fn yubi_double(curve: &[u8], a: &[u8], out: &mut [u8]) -> YubiAnswer
    ensures answer { result ≡ flat (double_call curve.now a.now out.old).answer }
    ensures output { out.new ≡ (double_call curve.now a.now out.old).out }
{
    tablet::yubi_double(curve, a, out)
}

#[unsafe(no_mangle)]
pub extern "C" fn yubi_opposite(curve: &[u8], a: &[u8], out: &mut [u8]) -> YubiAnswer
    ensures answer { result ≡ flat (opposite_call curve.now a.now out.old).answer }
    ensures output { out.new ≡ (opposite_call curve.now a.now out.old).out }
{
    tablet::yubi_opposite(curve, a, out)
}

#[unsafe(no_mangle)]
pub extern "C" fn yubi_split(curve: &[u8], divisor: &[u8], out: &mut [u8]) -> YubiAnswer
    ensures answer { result ≡ flat (split_call curve.now divisor.now out.old).answer }
    ensures output { out.new ≡ (split_call curve.now divisor.now out.old).out }
{
    tablet::yubi_split(curve, divisor, out)
}

#[unsafe(no_mangle)]
pub extern "C" fn yubi_multiply(
    curve: &[u8],
    a: &[u8],
    scalar: &[u8],
    out: &mut [u8],
) -> YubiMultiple
    ensures answer { result ≡ flat_multiple (multiply_call curve.now a.now scalar.now out.old) }
    ensures output { out.new ≡ (multiply_call curve.now a.now scalar.now out.old).out }
{
    tablet::yubi_multiply(curve, a, scalar, out)
}

// The same words, kept by the second engine.
#[unsafe(no_mangle)]
pub extern "C" fn yubi_multiply_inversion_free(
    curve: &[u8],
    a: &[u8],
    scalar: &[u8],
    out: &mut [u8],
) -> YubiMultiple
    ensures answer { result ≡ flat_multiple (multiply_call curve.now a.now scalar.now out.old) }
    ensures output { out.new ≡ (multiply_call curve.now a.now scalar.now out.old).out }
{
    tablet::yubi_multiply_inversion_free(curve, a, scalar, out)
}

// W-214: nothing is written.
#[unsafe(no_mangle)]
pub extern "C" fn yubi_check_order(
    curve: &[u8],
    divisor: &[u8],
    order: &[u8],
    primes: &[u8],
) -> YubiAnswer
    ensures { result ≡ flat (check_order curve.now divisor.now order.now primes.now) }
{
    tablet::yubi_check_order(curve, divisor, order, primes)
}

#[unsafe(no_mangle)]
pub extern "C" fn yubi_next_divisor(curve: &[u8], divisor: &[u8], out: &mut [u8]) -> YubiAnswer
    ensures answer { result ≡ flat (next_call curve.now divisor.now out.old).answer }
    ensures output { out.new ≡ (next_call curve.now divisor.now out.old).out }
{
    tablet::yubi_next_divisor(curve, divisor, out)
}

#[unsafe(no_mangle)]
pub extern "C" fn yubi_total_batch(curve: &[u8], batch: &[u8], out: &mut [u8]) -> YubiTotal
    ensures answer { result ≡ flat_total (total_call curve.now batch.now out.old) }
    ensures output { out.new ≡ (total_call curve.now batch.now out.old).out }
{
    tablet::yubi_total_batch(curve, batch, out)
}

#[unsafe(no_mangle)]
pub extern "C" fn yubi_first_repeat(curve: &[u8], batch: &[u8]) -> YubiRepeat
    ensures { result ≡ flat_repeat (repeat_call curve.now batch.now) }
{
    tablet::yubi_first_repeat(curve, batch)
}

#[unsafe(no_mangle)]
pub extern "C" fn yubi_fresh_total(pole: u32) -> YubiRunning
    ensures { result ≡ flat_running (fresh pole) }
{
    tablet::yubi_fresh_total(pole)
}

#[unsafe(no_mangle)]
pub extern "C" fn yubi_scan(total: YubiRunning, curve: &[u8], record: &[u8]) -> YubiScanned
    ensures { FlatScanIs total curve.now «record».now result }
{
    tablet::yubi_scan(total, curve, record)
}

// The total is lent, and changed in place.
#[unsafe(no_mangle)]
pub extern "C" fn yubi_scan_lent(total: &mut YubiRunning, curve: &[u8], record: &[u8]) -> YubiAnswer
    ensures { FlatScanIs total.old curve.now «record».now (scanned_as result.number result.place result.length total.new) }
{
    tablet::yubi_scan_lent(total, curve, record)
}

// The pole file: a floor above the other calls, by their promises alone (call_pole).
#[unsafe(no_mangle)]
pub extern "C" fn yubi_write_pole_file(
    pole: u32,
    curve: &[u8],
    batch: &[u8],
    out: &mut [u8],
) -> YubiAnswer
    ensures answer { result ≡ flat (write_file pole curve.now batch.now out.old).answer }
    ensures output { out.new ≡ (write_file pole curve.now batch.now out.old).out }
{
    tablet::yubi_write_pole_file(pole, curve, batch, out)
}

#[unsafe(no_mangle)]
pub extern "C" fn yubi_read_pole_file(file: &[u8], out: &mut [u8]) -> YubiPole
    ensures answer { result ≡ flat_pole (read_file file.now out.old) }
    ensures output { out.new ≡ (read_file file.now out.old).out }
{
    tablet::yubi_read_pole_file(file, out)
}
