// The four countings, the number of X(t,a,v), and literals and entries one by one.
#![tactic(auto)]

ghost use Rattle.std.specs.Prelude.{◌≡◌, ◌||◌, suc, ◌+◌, ◌≤◌, ◌<◌, pos, neg_ℤ};
ghost use Rattle.formula.specs.Variables.{index, variable_count, highest};
ghost use Rattle.valuation.specs.Valuation.{same_number};

use instance::Shape;

#[derive(Clone, Copy)]
pub struct Vertex(pub usize);

#[derive(Clone, Copy)]
pub struct Agent(pub usize);

#[derive(Clone, Copy)]
pub struct Step(pub usize);

#[derive(Clone, Copy)]
pub struct Variable(pub usize);

// The index of the entry of X(t,a,0); those of the agent's other vertices at that time follow it.
pub fn first_entry(s: Shape, t: Step, a: Agent) -> usize
    requires { (t.0 ≤ s.sizes.m) × (a.0 < s.sizes.k) }
    ensures { (result ≡ index s.sizes t.0 a.0 0) × (result + s.sizes.n ≤ variable_count s.sizes) }
{
    let rows = s.sizes.m + 1;
    (a.0 * rows + t.0) * s.sizes.n
}

// The variable of X(t,a,v).
pub fn variable_of(s: Shape, t: Step, a: Agent, v: Vertex) -> Variable
    requires { (t.0 ≤ s.sizes.m) × (a.0 < s.sizes.k) × (v.0 < s.sizes.n) }
    ensures { (result.0 ≡ suc (index s.sizes t.0 a.0 v.0)) × (result.0 ≤ highest) }
{
    Variable(first_entry(s, t, a) + v.0 + 1)
}

// The literal that says a variable.
pub fn literal_of(x: Variable) -> i32
    requires { x.0 ≤ highest }
    ensures { result ≡ pos x.0 }
{
    x.0 as i32
}

// The literal that says its negation.
pub fn negation_of(x: Variable) -> i32
    requires { x.0 ≤ highest }
    ensures { result ≡ neg_ℤ (pos x.0) }
{
    -(x.0 as i32)
}

// The literal that says the negation of the variable `by` after x. A loop over `by` stays in 32 bits, so that the compiler may take
// several at once.
pub fn negation_after(x: Variable, by: usize) -> i32
    requires { x.0 + by ≤ highest }
    ensures { result ≡ neg_ℤ (pos (x.0 + by)) }
{
    negation_of(x) - by as i32
}

// Does an entry say the negation of the variable `by` after x? Any entry is compared, the lowest number too.
pub fn is_negation(entry: i32, x: Variable, by: usize) -> bool
    requires { x.0 + by ≤ highest }
    ensures { result ≡ same_number entry (neg_ℤ (pos (x.0 + by))) }
{
    let negation = negation_after(x, by);
    entry == negation
}

// Is an entry the variable or its negative? The entry itself is never negated.
pub fn is_entry(entry: i32, x: Variable) -> bool
    requires { x.0 ≤ highest }
    ensures { result ≡ (same_number entry (pos x.0) || same_number entry (neg_ℤ (pos x.0))) }
{
    if entry == literal_of(x) {
        return true;
    }
    entry == negation_of(x)
}
