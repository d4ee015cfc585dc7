// The edges by low end, then high end, from the words of neighbours: where an edge stands among them, and which edge stands at a place.
#![tactic(auto)]

ghost use Rattle.std.specs.Prelude.{◌≡◌, [], ◌∷◌, ℕ, ◌^◌, ◌≤◌, ◌<◌, length, get_or, T};
ghost use Rattle.lists.specs.Loop.{for, when};
ghost use Rattle.bits.specs.Bits.{set?};
ghost use Rattle.instance.specs.Instance.{joined, upward, higher, edges_before};

#[derive(Clone, Copy)]
pub struct Edge {
    pub low: usize,
    pub high: usize,
}

// How many edges have the low end u: the ones of its word above bit u.
fn count_from(near: &[u64; 64], n: usize, u: usize) -> usize
    requires { (u < n) × (n ≤ 64) × ((v : ℕ) → v < 64 → get_or near.now v 0 < 2 ^ n) }
    ensures { (result ≡ length (higher (joined near.now) u n)) × (result ≤ 64) }
{
    u64::count_ones(bits::above(near[u], u)) as usize
}

// How many bits below bit v are set.
fn bits_below(word: u64, v: usize) -> usize
    requires { v ≤ 64 }
    ensures { (result ≡ length (for v λ w. when (set? word w) (w ∷ []))) × (result ≤ v) }
{
    (0..v).filter(|w| bits::has_bit(word, *w)).count()
}

// The bit at a place among those below bit n that are set.
fn bit_at(word: u64, n: usize, place: usize) -> usize
    requires { (n ≤ 64) × (place < length (for n λ w. when (set? word w) (w ∷ []))) }
    ensures { (result < n) × T (set? word result) × (length (for result λ w. when (set? word w) (w ∷ [])) ≡ place) }
{
    let Some(w) = (0..n).filter(|w| bits::has_bit(word, *w)).nth(place) else {
        unreachable!()
    };
    w
}

// How many edges come before the one with the ends u and v.
pub fn place_of(near: &[u64; 64], n: usize, u: usize, v: usize) -> usize
    requires { (u < n) × (v < n) × (n ≤ 64) × ((w : ℕ) → w < 64 → get_or near.now w 0 < 2 ^ n) }
    ensures { (result ≡ edges_before (joined near.now) n u v) × (result ≤ 4096) }
{
    let mut before: usize = 0;
    for x in 0..u {
        before += count_from(near, n, x);
    }
    before + bits_below(bits::above(near[u], u), v)
}

// The edge at a place. By index: a vertex is the low end that is told, and says which bits of its word are above it.
pub fn edge_at(near: &[u64; 64], n: usize, j: usize) -> Edge
    requires { (n ≤ 64) × ((w : ℕ) → w < 64 → get_or near.now w 0 < 2 ^ n) × (j < edges_before (joined near.now) n n 0) }
    ensures { (result.low < n) × (result.high < n) × T (upward (joined near.now) result.low result.high) × (j ≡ edges_before (joined near.now) n result.low result.high) }
{
    let mut rest = j;
    for low in 0..n {
        let count = count_from(near, n, low);
        if rest < count {
            return Edge {
                low,
                high: bit_at(bits::above(near[low], low), n, rest),
            };
        }
        rest -= count;
    }
    unreachable!()
}
