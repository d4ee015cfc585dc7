// A valuation, asked variable by variable.
ghost use Rattle.std.specs.Prelude.{◌≡◌, true, ◌&&◌, ◌||◌, fold, zip, not, [], ◌∷◌, ℕ, ◌+◌, ◌≤◌, ◌<◌, T, IsTrue, IsFalse, int_lt, pos, slice_index_or, MatchOption, length};
ghost use Rattle.lists.specs.Loop.{every};
ghost use Rattle.valuation.specs.Valuation.{right_entry, true?, satisfied?};
ghost use Rattle.ceiling.specs.Tree.{on, off};

// The entries of a valuation of as many variables.
#[derive(Clone, Copy)]
pub struct Assignment<'a> {
    pub entries: &'a [i32],
    pub ghost right: { (i : ℕ) → i < length entries.now → IsTrue (right_entry entries.now i) },
    pub ghost few: { length entries.now ≤ 40000 },
}

// Is each of the numbers positive?
fn all_positive(xs: &[i32]) -> bool
    ensures { IsTrue result → (j : ℕ) → j < length xs.now → IsTrue (int_lt (pos 0) (slice_index_or xs.now j (pos 0))) }
{
    xs.iter().all(|x| 0 < *x)
}

// Is none positive? In a fold, which has one way out, the compiler takes several at once.
fn none_positive(xs: &[i32]) -> bool
    ensures { result ≡ fold (λ none x. none && not (int_lt (pos 0) x)) true xs.now }
{
    xs.iter().fold(true, |none, x| none & !(0 < *x))
}

// Is a number of the second list positive wherever that of the first is? A fold too.
fn positive_where(xs: &[i32], ys: &[i32]) -> bool
    ensures { result ≡ fold (λ all p. all && (not (int_lt (pos 0) p.0) || int_lt (pos 0) p.1)) true (zip xs.now ys.now) }
{
    xs.iter()
        .zip(ys)
        .fold(true, |all, (x, y)| all & (!(0 < *x) | (0 < *y)))
}

// How many are there up to the last positive one?
fn positive_up_to(xs: &[i32]) -> usize
    ensures within { result ≤ length xs.now }
    ensures beyond { (j : ℕ) → result ≤ j → j < length xs.now → IsFalse (int_lt (pos 0) (slice_index_or xs.now j (pos 0))) }
{
    xs.iter().rposition(|x| 0 < *x).map_or(0, |j| j + 1)
}

impl<'a> Assignment<'a> {
    // Is a variable true?
    pub fn is_true(self, z: usize) -> bool
        requires { (1 ≤ z) × (z ≤ length self.entries.now) }
        ensures { result ≡ true? self.entry.entries.now (on z) }
    {
        let e = self.entries[z - 1];
        0 < e
    }

    // Is variable w true where z is: has the clause of z's negation and w a true literal?
    pub fn implies(self, z: usize, w: usize) -> bool
        requires z_bound { (1 ≤ z) × (z ≤ length self.entries.now) }
        requires w_bound { (1 ≤ w) × (w ≤ length self.entries.now) }
        ensures { result ≡ satisfied? self.entry.entries.now (off z ∷ on w ∷ []) }
    {
        !self.is_true(z) | self.is_true(w)
    }

    // Is each of the n variables after w true where that of the n after z is?
    pub fn all_imply(self, z: usize, w: usize, n: usize) -> bool
        requires { (z + n ≤ length self.entries.now) × (w + n ≤ length self.entries.now) }
        ensures { result ≡ every n (λ j. satisfied? self.entry.entries.now (off (z + (j + 1)) ∷ on (w + (j + 1)) ∷ [])) }
    {
        positive_where(&self.entries[z..z + n], &self.entries[w..w + n])
    }

    // Is none of the n variables after z true?
    pub fn none_true(self, z: usize, n: usize) -> bool
        requires { z + n ≤ length self.entries.now }
        ensures { result ≡ every n (λ j. not (true? self.entry.entries.now (on (z + (j + 1))))) }
    {
        none_positive(&self.entries[z..z + n])
    }

    // Is each of the n variables after z true?
    pub fn all_true(self, z: usize, n: usize) -> bool
        requires { z + n ≤ length self.entries.now }
        ensures { IsTrue result → (j : ℕ) → j < n → T (true? self.entry.entries.now (on (z + (j + 1)))) }
    {
        all_positive(&self.entries[z..z + n])
    }

    // How many of the n variables after z there are up to the last true one.
    pub fn reached(self, z: usize, n: usize) -> usize
        requires { z + n ≤ length self.entries.now }
        ensures { (result ≤ n) × ((j : ℕ) → result < j → j ≤ n → T (true? self.entry.entries.now (on (z + j))) → ⊥) }
    {
        positive_up_to(&self.entries[z..z + n])
    }
}
