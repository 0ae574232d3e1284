// The almost inverse of a number modulo p, on plain numbers, by the binary Euclid, with the twos counted and paid back at the end: no division, and no halving
// modulo p.
ghost use Rattle.field_montgomery.specs.halving.Almost.{Invertible, AlmostIs};

// What is found of a: a * s is 2^k modulo p.
#[derive(Clone, Copy)]
pub struct Shifted {
    pub s: u64,
    pub k: u64,
}

// The almost inverse: u * s + v * r = p, a * s = v * 2^k and a * r = -u * 2^k modulo p throughout. The larger of u and v loses the smaller
// one and then all its twos at once; the other's cofactor takes them. At the end u = v = 1.
pub fn almost(a: u64, p: u64) -> Shifted
    requires { Invertible p a }
    ensures { AlmostIs p a result }
{
    let mut k = field_words::twos(a);
    let mut u = p;
    let mut v = a >> k;
    let mut r: u64 = 0;
    let mut s: u64 = 1;
    // No range: how many turns there are hangs on the numbers.
    while u != v {
        if u < v {
            v = v - u;
            s = s + r;
            let w = field_words::twos(v);
            v = v >> w;
            r = r << w;
            k = k + w;
            continue;
        }
        u = u - v;
        r = r + s;
        let w = field_words::twos(u);
        u = u >> w;
        s = s << w;
        k = k + w;
    }
    Shifted { s: s, k: k }
}
