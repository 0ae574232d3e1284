// Residues modulo an odd number p up to 2^61 - 1, in Montgomery's form with R = 2^64: a residue holds a number below 2p and stands for an element
// of Z/p, `el m r`. Above this crate the number inside is seen only through `number`, and of running totals through `from_raw` and `to_raw`.
// A modulus is a `Ring`: odd, 3 ≤ p ≤ 2^61 - 1, its constants right, which is enough for all but the inverse; or `Good`: a `Ring` whose p is prime.
// A residue is `Kept`: below 2p, so that sums and products need no last step; or `Settled`: below p, to be compared, tested for zero or written.
#![tactic(auto)]

ghost use Rattle.algebra.proofs.Zmod.Prime.{Prime};
ghost use Rattle.field.specs.Numbers.{Odd, Constants};

// A number of its own kind, so that it can't be mixed with a plain count.
#[derive(Clone, Copy, Debug, PartialEq, Eq)]
pub struct Residue(u64);

// An odd p, perhaps no prime, with its constants: 2p; 1/p modulo 2^64; 2^64, its square and its cube modulo p.
#[derive(Clone, Copy)]
pub struct Modulus {
    p: u64,
    twice: u64,
    turn: u64,
    one: u64,
    square: u64,
    cube: u64,
    pub ghost odd: { Odd p },
    pub ghost constants: { Constants p twice turn one square cube },
}

// A modulus that is prime: what is divided modulo.
#[derive(Clone, Copy)]
pub struct PrimeModulus {
    pub m: Modulus,
    pub ghost prime: { Prime m.p },
}

impl Modulus {
    ghost use Rattle.std.specs.Prelude.{◌≡◌};
    ghost use Rattle.field.specs.Constants.{OfNumber};
    ghost use Rattle.field.specs.Read.{ModulusIs};

    // p as a modulus, where it is an odd prime in range.
    pub fn read(p: u64) -> Option<PrimeModulus>
        ensures { ModulusIs p result }
    {
        if field_primes::is_odd_prime(p) {
            Some(PrimeModulus { m: Modulus::of(p) })
        } else {
            None
        }
    }

    // Any odd number from 3 to 2^61 - 1, to calculate modulo it.
    pub fn of(p: u64) -> Modulus
        requires { Odd p }
        ensures { OfNumber p result }
    {
        let q = field_words::word_inverse(p);
        let one = field_montgomery::word(p);
        let x = field_montgomery::squared(one, p, q);
        let square = field_montgomery::lower(x, p);
        let cube = field_montgomery::lower(field_words::product(square, square, p, q), p);
        Modulus {
            p: p,
            twice: p + p,
            turn: q,
            one: one,
            square: square,
            cube: cube,
        }
    }

    pub fn number(self) -> u64
        ensures { result ≡ self.p }
    {
        self.p
    }
}

impl Residue {
    ghost use Rattle.std.specs.Prelude.{◌≡◌};
    ghost use Rattle.algebra.proofs.Ring.Power.{power};
    ghost use Rattle.algebra.proofs.Zmod.Zmod.{zmod, num};
    ghost use Rattle.field.specs.Residues.{el, Kept, Settled, HasInverse, Stands, Settles, Halves, Inverts, Everywhere, raw};
    ghost use Rattle.field.specs.Primes.{Decides};
    ghost use Rattle.field.specs.Read.{ResidueIs};

    pub fn zero() -> Residue
        ensures { Everywhere result 0 }
    {
        Residue(0)
    }

    pub fn one(m: Modulus) -> Residue
        ensures { Settles m result (zmod m.p).one }
    {
        Residue(m.one)
    }

    // The residue written as n, where n is below p.
    pub fn read(n: u64, m: Modulus) -> Option<Residue>
        ensures { ResidueIs m n result }
    {
        if n < m.p {
            let x = field_words::product(n, m.square, m.p, m.turn);
            Some(Residue(field_montgomery::lower(x, m.p)))
        } else {
            None
        }
    }

    pub fn number(self, m: Modulus) -> u64
        requires { Settled m self }
        ensures { result ≡ num m.p (el m self) }
    {
        field_montgomery::lower(field_words::product(self.0, 1, m.p, m.turn), m.p)
    }

    // A number kept from an earlier call, under whatever modulus, and back.
    pub fn from_raw(n: u64) -> Residue
        ensures { raw result ≡ n }
    {
        Residue(n)
    }

    pub fn to_raw(self) -> u64
        ensures { result ≡ raw self }
    {
        self.0
    }

    // Whether a plain number, kept from an earlier call, is one of m's.
    pub fn in_range(self, m: Modulus) -> bool
        ensures { Decides result (Settled m self) }
    {
        self.0 < m.p
    }

    // The same element, below p.
    pub fn settle(self, m: Modulus) -> Residue
        requires { Kept m self }
        ensures { Settles m result (el m self) }
    {
        Residue(field_montgomery::lower(self.0, m.p))
    }

    pub fn is_zero(self, m: Modulus) -> bool
        requires { Settled m self }
        ensures { Decides result (el m self ≡ (zmod m.p).zer) }
    {
        self.0 == 0
    }

    pub fn equal(self, other: Residue, m: Modulus) -> bool
        requires { Settled m self × Settled m other }
        ensures { Decides result (el m self ≡ el m other) }
    {
        self.0 == other.0
    }

    pub fn is_one(self, m: Modulus) -> bool
        requires { Kept m self }
        ensures { Decides result (el m self ≡ (zmod m.p).one) }
    {
        self.settle(m).equal(Residue::one(m), m)
    }

    pub fn add(self, other: Residue, m: Modulus) -> Residue
        requires { Kept m self × Kept m other }
        ensures { Stands m result ((zmod m.p).add (el m self) (el m other)) }
    {
        let sum = self.0 + other.0;
        if sum < m.twice {
            return Residue(sum);
        }
        Residue(sum - m.twice)
    }

    pub fn sub(self, other: Residue, m: Modulus) -> Residue
        requires { Kept m self × Kept m other }
        ensures { Stands m result ((zmod m.p).add (el m self) ((zmod m.p).neg (el m other))) }
    {
        if self.0 < other.0 {
            return Residue(self.0 + m.twice - other.0);
        }
        Residue(self.0 - other.0)
    }

    pub fn neg(self, m: Modulus) -> Residue
        requires { Kept m self }
        ensures { Stands m result ((zmod m.p).neg (el m self)) }
    {
        if self.0 == 0 {
            return self;
        }
        Residue(m.twice - self.0)
    }

    pub fn dbl(self, m: Modulus) -> Residue
        requires { Kept m self }
        ensures { Stands m result ((zmod m.p).add (el m self) (el m self)) }
    {
        self.add(self, m)
    }

    pub fn half(self, m: Modulus) -> Residue
        requires { Kept m self }
        ensures { Halves m self result }
    {
        if self.0 % 2 == 0 {
            return Residue(self.0 / 2);
        }
        Residue((self.0 + m.p) / 2)
    }

    pub fn mul(self, other: Residue, m: Modulus) -> Residue
        requires { Kept m self × Kept m other }
        ensures { Stands m result ((zmod m.p).mul (el m self) (el m other)) }
    {
        Residue(field_words::product(self.0, other.0, m.p, m.turn))
    }

    pub fn sqr(self, m: Modulus) -> Residue
        requires { Kept m self }
        ensures { Stands m result ((zmod m.p).mul (el m self) (el m self)) }
    {
        self.mul(self, m)
    }

    // self * (b + c) and self * (b - c): the sum isn't reduced.
    pub fn mul_sum(self, b: Residue, c: Residue, m: Modulus) -> Residue
        requires { Kept m self × Kept m b × Kept m c }
        ensures { Stands m result ((zmod m.p).mul (el m self) ((zmod m.p).add (el m b) (el m c))) }
    {
        Residue(field_words::product(b.0 + c.0, self.0, m.p, m.turn))
    }

    pub fn mul_diff(self, b: Residue, c: Residue, m: Modulus) -> Residue
        requires { Kept m self × Kept m b × Kept m c }
        ensures { Stands m result ((zmod m.p).mul (el m self) ((zmod m.p).add (el m b) ((zmod m.p).neg (el m c)))) }
    {
        Residue(field_words::product(b.0 + m.twice - c.0, self.0, m.p, m.turn))
    }

    // self * b + c * d and self * b - c * d, by one reduction.
    pub fn dot(self, b: Residue, c: Residue, d: Residue, m: Modulus) -> Residue
        requires { Kept m self × Kept m b × Kept m c × Kept m d }
        ensures { Stands m result ((zmod m.p).add ((zmod m.p).mul (el m self) (el m b)) ((zmod m.p).mul (el m c) (el m d))) }
    {
        Residue(field_words::products(self.0, b.0, c.0, d.0, m.p, m.turn))
    }

    pub fn cross(self, b: Residue, c: Residue, d: Residue, m: Modulus) -> Residue
        requires { Kept m self × Kept m b × Kept m c × Kept m d }
        ensures { Stands m result ((zmod m.p).add ((zmod m.p).mul (el m self) (el m b)) ((zmod m.p).neg ((zmod m.p).mul (el m c) (el m d)))) }
    {
        Residue(field_words::products(self.0, b.0, m.twice - c.0, d.0, m.p, m.turn))
    }

    // self to the n, modulo any odd number.
    pub fn power(self, n: u64, m: Modulus) -> Residue
        requires { Kept m self }
        ensures { Stands m result (power (zmod m.p) (el m self) n) }
    {
        Residue(field_montgomery::power(self.0, n, m.one, m.p, m.turn))
    }

    pub fn inverse(self, prime: PrimeModulus) -> Residue
        requires { HasInverse prime.m self }
        ensures { Inverts prime.m self result }
    {
        let m = prime.m;
        let x = field_montgomery::halving::almost(self.0, m.p);
        Residue(field_montgomery::finish(x.s, x.k, m.p, m.turn, m.square, m.cube))
    }
}
