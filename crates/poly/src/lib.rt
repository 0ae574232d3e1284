// Polynomials over the residues. A Poly in good order stands for an element of K[x], `pol m x`; coefficients are touched through the
// methods of `field` alone. One contract serves nearly every operation: `Is m r v n`, that r is in good order, stands for v and has at
// most n coefficients. Loops index the array themselves: `get` tests its index, which loops needn't.
#![tactic(auto)]

ghost use Rattle.std.specs.Prelude.{◌≡◌, ◌+◌, ◌-◌, max};
ghost use Rattle.algebra.proofs.Poly.Poly.{coef};
ghost use Rattle.algebra.proofs.Poly.Term.{term, C};
ghost use Rattle.algebra.proofs.Poly.Derivative.{der_p};
ghost use Rattle.field.specs.Residues.{el, Kept, Stands};
ghost use Rattle.poly.specs.Polys.{K, P, pol, Ok, Is};
ghost use Rattle.poly.specs.Operations.{Gets, FilledTo, Size, Put, Product, Led, ToDivide, Divided, ToQuotient, Quotient, MadeMonic};

use field::{Modulus, PrimeModulus, Residue};

// Room for every intermediate of the sum in genus 3. Its largest are s2 * (v1 - v2) + s3 * w2 in the composition (degree 10 at most) and
// f - v * v before it is divided by u (degree 10 at most); Euclid's cofactors are no longer than what it starts from. No room
// more: a polynomial is copied by each call.
pub const ROOM: usize = 11;

// n is one more than the degree, and 0 for the zero polynomial. An array with a length beside it, where a Vec would ask a tablet for memory.
#[derive(Clone, Copy)]
pub struct Poly {
    c: [Residue; ROOM],
    pub n: usize,
}

#[derive(Clone, Copy)]
pub struct DivRem {
    pub quotient: Poly,
    pub remainder: Poly,
}

impl Poly {
    pub fn zero(m: Modulus) -> Poly
        ensures { Is m result (P m).zer 0 }
    {
        let z = Residue::zero();
        Poly { c: [z; ROOM], n: 0 }
    }

    // The coefficient at k, zero past the end.
    pub fn get(self, k: usize) -> Residue
        ensures { Gets self k result }
    {
        if k < ROOM { self.c[k] } else { Residue::zero() }
    }

    // One more than the degree, which is below top.
    fn size(self, top: usize, m: Modulus) -> usize
        requires { FilledTo m self.c top }
        ensures { Size m self.c top result }
    {
        for n in (0..top).rev() {
            if !self.c[n].settle(m).is_zero(m) {
                return n + 1;
            }
        }
        0
    }

    // self + x * y^k, y being the variable.
    pub fn put(self, k: usize, x: Residue, m: Modulus) -> Poly
        requires { Put m self k x }
        ensures { Is m result ((P m).add (pol m self) (term (K m) (el m x) k)) (max self.n (k + 1)) }
    {
        let mut r = self;
        let y = r.get(k).add(x, m);
        r.c[k] = y;
        r.n = r.size(self.n.max(k + 1), m);
        r
    }

    pub fn constant(x: Residue, m: Modulus) -> Poly
        requires { Kept m x }
        ensures { Is m result (C (K m) (el m x)) 1 }
    {
        Poly::zero(m).put(0, x, m)
    }

    pub fn one(m: Modulus) -> Poly
        ensures { Is m result (P m).one 1 }
    {
        Poly::constant(Residue::one(m), m)
    }

    pub fn add(self, other: Poly, m: Modulus) -> Poly
        requires { Ok m self × Ok m other }
        ensures { Is m result ((P m).add (pol m self) (pol m other)) (max self.n other.n) }
    {
        let mut r = self;
        for k in 0..other.n {
            r.c[k] = r.c[k].add(other.c[k], m);
        }
        r.n = r.size(self.n.max(other.n), m);
        r
    }

    pub fn sub(self, other: Poly, m: Modulus) -> Poly
        requires { Ok m self × Ok m other }
        ensures { Is m result ((P m).add (pol m self) ((P m).neg (pol m other))) (max self.n other.n) }
    {
        let mut r = self;
        for k in 0..other.n {
            r.c[k] = r.c[k].sub(other.c[k], m);
        }
        r.n = r.size(self.n.max(other.n), m);
        r
    }

    pub fn neg(self, m: Modulus) -> Poly
        requires { Ok m self }
        ensures { Is m result ((P m).neg (pol m self)) self.n }
    {
        Poly::zero(m).sub(self, m)
    }

    pub fn scale(self, x: Residue, m: Modulus) -> Poly
        requires { Ok m self × Kept m x }
        ensures { Is m result ((P m).mul (C (K m) (el m x)) (pol m self)) self.n }
    {
        let mut r = Poly::zero(m);
        let n = self.n;
        for k in 0..n {
            r.c[k] = x.mul(self.c[k], m);
        }
        r.n = r.size(n, m);
        r
    }

    // Row by row, in place: two loops in one function, since a call for each row would copy the polynomial twice.
    pub fn mul(self, other: Poly, prime: PrimeModulus) -> Poly
        requires { Product prime.m self other }
        ensures { Is prime.m result ((P prime.m).mul (pol prime.m self) (pol prime.m other)) (self.n + other.n - 1) }
    {
        let m = prime.m;
        let mut r = Poly::zero(m);
        let n = self.n;
        let l = other.n;
        if n == 0 {
            return r;
        }
        if l == 0 {
            return r;
        }
        for i in 0..n {
            let x = self.c[i];
            for k in 0..l {
                r.c[i + k] = r.c[i + k].add(x.mul(other.c[k], m), m);
            }
        }
        r.n = n + l - 1;
        r
    }

    // Quotient and remainder by u, which has leading coefficient 1: the quotient's coefficients from the top, each with a row of u taken
    // away in place, as in mul.
    pub fn div_rem(self, u: Poly, m: Modulus) -> DivRem
        requires { ToDivide m self u }
        ensures { Divided m self u result.quotient result.remainder }
    {
        let zero = Residue::zero();
        let mut q = Poly::zero(m);
        let mut r = self;
        let n = self.n;
        let low = u.n - 1;
        if n <= low {
            return DivRem {
                quotient: q,
                remainder: r,
            };
        }
        q.n = n - low;
        'rows: for k in (0..n - low).rev() {
            let x = r.c[k + low];
            q.c[k] = x;
            for i in 0..low {
                r.c[k + i] = r.c[k + i].sub(x.mul(u.c[i], m), m);
            }
            r.c[k + low] = zero;
        }
        r.n = r.size(low, m);
        DivRem {
            quotient: q,
            remainder: r,
        }
    }

    // The quotient by u, which has leading coefficient 1 and divides self.
    pub fn quotient(self, u: Poly, m: Modulus) -> Poly
        requires { ToQuotient m self u }
        ensures { Quotient m self u result }
    {
        let d = self.div_rem(u, m);
        let q = d.quotient;
        q
    }

    fn lead(self, m: Modulus) -> Residue
        requires { Led m self }
        ensures { Stands m result (coef (K m) (pol m self) (self.n - 1)) }
    {
        let n = self.n;
        self.get(n - 1)
    }

    // The inverse of the leading coefficient.
    pub fn lead_inverse(self, prime: PrimeModulus) -> Residue
        requires { Led prime.m self }
        ensures { let m = prime.m in Kept m result × ((K m).mul (coef (K m) (pol m self) (self.n - 1)) (el m result) ≡ (K m).one) }
    {
        self.lead(prime.m).inverse(prime)
    }

    // Divided by its leading coefficient; zero stays zero.
    pub fn monic(self, prime: PrimeModulus) -> Poly
        requires { Ok prime.m self }
        ensures { MadeMonic prime.m self result }
    {
        if self.n == 0 {
            return self;
        }
        self.scale(self.lead_inverse(prime), prime.m)
    }

    // Its coefficient at k is k + 1 times the one at k + 1, and i runs through the residues of 1, 2, ..
    pub fn derivative(self, m: Modulus) -> Poly
        requires { Ok m self }
        ensures { Is m result (der_p (K m) (pol m self)) (self.n - 1) }
    {
        let one = Residue::one(m);
        let mut i = Residue::zero();
        let mut r = Poly::zero(m);
        let n = self.n;
        let top = n.saturating_sub(1);
        for k in 0..top {
            i = i.add(one, m);
            r.c[k] = i.mul(self.c[k + 1], m);
        }
        r.n = r.size(top, m);
        r
    }
}
