// Records written: values in, bytes out. What is written is what the rules say; the rest of the output stays as it was.
ghost use Rattle.std.specs.Prelude.{◌≡◌, ◌+◌, ◌*◌, ◌≤◌, length};
ghost use Rattle.std.proofs.lemmas.List.Edits.{sets};
ghost use Rattle.rules.specs.Records.{divisor_bytes};
ghost use Rattle.divisor.specs.Divisors.{pair, Held, weight_of};
ghost use Rattle.record_numbers.specs.write.Write.{NumbersOf};

use divisor::Divisor;
use field::Modulus;

// The numbers of a divisor's coefficients, those of u first.
#[tactic(auto, using(divisor::proofs::Laws::weight_le))]
pub fn numbers_of(d: Divisor, m: Modulus) -> [u64; 8]
    requires { Held m d }
    ensures { NumbersOf m d result }
{
    let n = 2 * d.weight();
    let r = d.row();
    let mut x = [0u64; 8];
    for k in 0..n {
        x[k] = r[k].number(m);
    }
    x
}

// The length of a divisor's record.
#[tactic(auto, using(divisor::proofs::Laws::weight_le))]
pub fn record_length(d: Divisor) -> usize
    ensures { result ≡ 1 + 16 * weight_of d }
{
    1 + 16 * d.weight()
}

#[tactic(auto, using(divisor::proofs::Laws::weight_le))]
pub fn write_divisor(d: Divisor, m: Modulus, out: &mut [u8])
    requires { Held m d × (1 + 16 * weight_of d ≤ length out.old) }
    ensures { out.new ≡ sets out.old 0 (divisor_bytes m.p (pair m d)) }
{
    let w = d.weight();
    let x = numbers_of(d, m);
    out[0] = w as u8;
    record_bytes::write_words(out, 1, &x[..2 * w]);
}
