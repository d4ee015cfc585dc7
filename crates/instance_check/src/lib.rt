// The instance check: questions 1 to 10 and 31, of any bytes and any numbers given as horizon and rule.
#![tactic(auto)]

mod edge_bytes;

ghost use Rattle.std.specs.Prelude.{◌≡◌, false, ◌&&◌, ◌||◌, List, [], ◌∷◌, ℕ, suc, ◌+◌, ◌-◌, ◌*◌, ◌<◌, ◌≤◌, length, get_or, take, drop, replicate, IfOk};
ghost use Rattle.lists.specs.Loop.{every};
ghost use Rattle.lists.specs.Slice.{filled};
ghost use Rattle.answers.specs.Answers.{Question, decide};
ghost use Rattle.answers.specs.Returned.{asked, refused};
ghost use Rattle.answers.specs.Fault.{FirstFailing};
ghost use Rattle.instance.specs.Instance.{free, instance, vertices, agents, edges, neighbour_words, joined, Edges};
ghost use Rattle.instance.specs.Questions.{question2, question3, question4, question5, question6, question7, question8, question9, question10, question31, proper_edge, later_edge, new_vertex, instance_answer, instance_checked};
ghost use Rattle.instance.specs.Problem.{checked_of};
ghost use Rattle.instance_check.specs.Read.{Read};
ghost use Rattle.instance_check.specs.Returned.{checked_at};
ghost use Rattle.instance_check.specs.Marked.{Ends, Marked, fan};

use answers::{Reason, Refusal};
use edge_bytes::EdgeBytes;
use instance::{Problem, Shape, Sizes};

// The sizes, where there are bytes for them: n, k, and e in two bytes, low byte first. No goal is looked at yet.
fn sizes_of(b: &[u8], m: usize, rule: usize) -> Sizes
    requires { 4 ≤ length b.now }
    ensures { Read b.now result × (result.m ≡ m) × (result.rule ≡ rule) }
{
    let n = usize::from(b[0]);
    let k = usize::from(b[1]);
    let e = usize::from(u16::from_le_bytes([b[2], b[3]]));
    Sizes {
        n,
        k,
        e,
        m,
        rule,
        g: 0,
    }
}

// Questions 2 to 5: the sizes and the length.
fn ask_sizes(b: &[u8], s: Sizes) -> Result<(), Refusal>
    requires { Read b.now s }
    ensures { asked result ≡ decide (question2 b.now ∷ question3 b.now ∷ question4 b.now ∷ question5 b.now ∷ []) 0 }
{
    let Sizes { n, k, e, .. } = s;
    if !((1 <= n) & (n <= 64)) {
        return Err(Reason::VertexCount.at(0));
    }
    if !((1 <= k) & (k <= 16) & (k <= n)) {
        return Err(Reason::AgentCount.at(1));
    }
    if n * (n - 1) / 2 < e {
        return Err(Reason::EdgeCount.at(2));
    }
    let len = b.len();
    if len != 4 + 2 * e + 2 * k {
        return Err(Reason::InstanceLength.at(len));
    }
    Ok(())
}

// The first of k bytes, from an offset on, that is no vertex or like an earlier one. Where `optional`, as for goals, 255 is passed
// over: a flag, since starts and goals differ in this test alone.
fn vertex_fault(b: &[u8], offset: usize, k: usize, optional: bool) -> Option<usize>
    requires { (offset + k ≤ length b.now) × (0 < length b.now) × (k ≡ agents b.now) × (vertices b.now ≤ 64) }
    ensures { FirstFailing (agents b.now) (λ a. (optional && free (get_or b.now (offset + a) 0)) || new_vertex b.now (λ c. get_or b.now (offset + c) 0) a) result }
{
    let n = usize::from(b[0]);
    let mut seen = [false; 64];
    for (a, &x) in b[offset..offset + k].iter().enumerate() {
        if !(optional & goals::is_free(x)) {
            let v = usize::from(x);
            if n <= v {
                return Some(a);
            }
            if seen[v] {
                return Some(a);
            }
            seen[v] = true;
        }
    }
    None
}

// Questions 6 to 10 and 31, where the length is right.
fn ask_items(b: &[u8], s: Sizes) -> Result<(), Refusal>
    requires { Read b.now s × (length b.now ≡ 4 + 2 * s.e + 2 * s.k) × (s.n ≤ 64) }
    ensures { asked result ≡ decide (question6 b.now ∷ question7 b.now ∷ question8 b.now ∷ question9 b.now ∷ question10 s.m ∷ question31 s.rule ∷ []) 0 }
{
    let Sizes { k, e, .. } = s;
    let edges = EdgeBytes { b, e };
    if !(edges.all_proper() & edges.all_later()) {
        return Err(edges.refusal());
    }
    let starts = 4 + 2 * e;
    if let Some(a) = vertex_fault(b, starts, k, false) {
        return Err(Reason::BadStart.at(starts + a));
    }
    let goals = starts + k;
    if let Some(c) = vertex_fault(b, goals, k, true) {
        return Err(Reason::BadGoal.at(goals + c));
    }
    if 32 < s.m {
        return Err(Reason::Horizon.at(0));
    }
    if !((s.rule == 1) | (s.rule == 2)) {
        return Err(Reason::Rule.at(0));
    }
    Ok(())
}

// k bytes from an offset on, 0 beyond them.
fn for_agents(b: &[u8], offset: usize, k: usize) -> [u8; 16]
    requires { (k ≤ 16) × (offset + k ≤ length b.now) }
    ensures { result ≡ filled (take k (drop offset b.now)) (replicate 16 0) }
{
    let mut row = [0; 16];
    row[..k].copy_from_slice(&b[offset..offset + k]);
    row
}

// Marks the edges from a vertex to each one from `high` on, up to and without n.
fn mark_fan(near: &mut [u64], low: usize, high: usize, n: usize)
    requires { (low < high) × (high ≤ n) × (n ≤ 64) × (length near.old ≡ 64) }
    ensures { (length near.new ≡ 64) × ((v w : ℕ) → v < 64 → joined near.new v w ≡ joined near.old v w || fan low high n v w) }
{
    for word in &mut near[high..n] {
        *word = bits::with_bit(*word, low);
    }
    near[low] = near[low] | bits::bits_from(high, n);
}

// Marks the edges from one on that have its low end, and answers where they end. The word of the low end is kept beside the others
// until they are marked.
fn mark_run(near: &mut [u64], edges: &EdgeBytes, from: usize) -> usize
    requires from_lt_e { from < edges.now.e }
    requires ends { Ends edges.now.b.now × Marked edges.now.b.now from near.old }
    ensures { (from < result) × (result ≤ edges.now.e) × Marked edges.now.b.now result near.new }
{
    let b = edges.b;
    let e = edges.e;
    let low = usize::from(b[4 + from]);
    let mut row = near[low];
    let mut j = from;
    // By index: an edge has its ends in two parts of the bytes, and the caller goes on where the run ends.
    while j < e {
        if usize::from(b[4 + j]) != low {
            break;
        }
        let high = usize::from(b[4 + e + j]);
        row = bits::with_bit(row, high);
        near[high] = bits::with_bit(near[high], low);
        j += 1;
    }
    near[low] = row;
    j
}

// Marks edges from one on, and answers where they end. Edges rise: where the edge as many places on as there are vertices from its
// high end on has its low end too, they go to each of those vertices. Else those with its low end are marked one by one.
fn mark_edges(near: &mut [u64], edges: &EdgeBytes, n: usize, from: usize) -> usize
    requires from_lt_e { (from < edges.now.e) × (n ≡ vertices edges.now.b.now) × (n ≤ 64) }
    requires edges { Edges (instance edges.now.b.now 0 1) × Marked edges.now.b.now from near.old }
    ensures { (from < result) × (result ≤ edges.now.e) × Marked edges.now.b.now result near.new }
{
    let b = edges.b;
    let e = edges.e;
    let low = usize::from(b[4 + from]);
    let high = usize::from(b[4 + e + from]);
    let to = from + (n - high);
    if to <= e {
        if usize::from(b[3 + to]) == low {
            mark_fan(near, low, high, n);
            return to;
        }
    }
    mark_run(near, edges, from)
}

// The neighbours of every vertex, as words, in one pass over the edges.
fn neighbour_words(edges: &EdgeBytes, n: usize) -> [u64; 64]
    requires n_value { (n ≡ vertices edges.now.b.now) × (n ≤ 64) }
    requires edges { Edges (instance edges.now.b.now 0 1) }
    ensures { (m rule : ℕ) → result ≡ neighbour_words (instance edges.now.b.now m rule) }
{
    let mut near = [0u64; 64];
    let mut j: usize = 0;
    // The next j is where the run of edges ends.
    while j < edges.e {
        j = mark_edges(&mut near, edges, n, j);
    }
    near
}

// The check, for every byte string and every two numbers.
pub fn check_instance(b: &[u8], m: usize, rule: usize) -> Result<Problem, Refusal>
    ensures answer { asked result ≡ instance_answer b.now m rule }
    ensures problem { IfOk result (λ p. (checked_of p ≡ instance_checked b.now m rule)) }
    ensures checked { checked_at result ≡ instance_checked b.now m rule }
{
    let len = b.len();
    if len < 4 {
        return Err(Reason::CutShort.at(len));
    }
    let sizes = sizes_of(b, m, rule);
    ask_sizes(b, sizes)?;
    ask_items(b, sizes)?;
    let Sizes { n, k, e, .. } = sizes;
    let at = 4 + 2 * e;
    let starts = for_agents(b, at, k);
    let goals = for_agents(b, at + k, k);
    let near = neighbour_words(&EdgeBytes { b, e }, n);
    let g = goals::count(&goals, k);
    let shape = Shape {
        sizes: Sizes {
            n,
            k,
            e,
            m,
            rule,
            g,
        },
    };
    Ok(Problem {
        shape,
        starts,
        goals,
        near,
    })
}
