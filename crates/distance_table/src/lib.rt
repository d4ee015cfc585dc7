// The table of distances, filled breadth first from the words of neighbours: from each vertex a round for each distance, whose frontier,
// the vertices at that distance, is a word.
#![tactic(auto)]

ghost use Rattle.std.specs.Prelude.{◌≡◌, [], ◌&&◌, cond, ℕ, ◌^◌, ◌≤◌, ◌<◌, length, get_or, replicate};
ghost use Rattle.lists.specs.Loop.{some};
ghost use Rattle.bits.specs.Bits.{set?};
ghost use Rattle.instance.specs.Instance.{GoalBelow, joined};
ghost use Rattle.distances.specs.Table.{RowOf, TableOf, goal_row};

// Gives each vertex of the frontier the distance d. The answer is the word of all their neighbours.
fn spread(row: &mut [u8], near: &[u64; 64], frontier: u64, d: u8) -> u64
    requires { length row.old ≡ 64 }
    ensures row_len { (length row.new ≡ 64) × ((w : ℕ) → w < 64 → get_or row.new w 0 ≡ cond (set? frontier w) d (get_or row.old w 0)) }
    ensures by_index { (w : ℕ) → set? result w ≡ some 64 (λ u. set? frontier u && joined near.now u w) }
{
    let mut rest = frontier;
    let mut reached: u64 = 0;
    while rest != 0 {
        let w = u64::trailing_zeros(rest) as usize;
        row[w] = d;
        reached = reached | near[w];
        rest = rest & (rest - 1);
    }
    reached
}

// The distances from v, in a row that holds the mark throughout.
fn fill_row(row: &mut [u8], near: &[u64; 64], n: usize, v: usize)
    requires n_bound { (n ≤ 64) × (v < n) × ((u : ℕ) → u < 64 → get_or near.now u 0 < 2 ^ n) }
    requires row_value { row.old ≡ replicate 64 255 }
    ensures { (length row.new ≡ 64) × RowOf n near.now v row.new }
{
    let mut frontier = bits::with_bit(0, v);
    let mut seen = frontier;
    for d in 0..n {
        if frontier == 0 {
            return;
        }
        let reached = spread(row, near, frontier, d as u8);
        frontier = bits::without(reached, seen);
        seen = seen | reached;
    }
}

fn row_of(near: &[u64; 64], n: usize, v: usize) -> [u8; 64]
    requires { (n ≤ 64) × (v < n) × ((u : ℕ) → u < 64 → get_or near.now u 0 < 2 ^ n) }
    ensures { (length result ≡ 64) × RowOf n near.now v result }
{
    let mut row = [255u8; 64];
    fill_row(&mut row, near, n, v);
    row
}

// Row v has the distances from v to the vertices below n, 255 for unreachable.
pub fn table_of(near: &[u64; 64], n: usize) -> [[u8; 64]; 64]
    requires { (n ≤ 64) × ((u : ℕ) → u < 64 → get_or near.now u 0 < 2 ^ n) }
    ensures { (length result ≡ 64) × TableOf n near.now result }
{
    let blank = [255u8; 64];
    let mut table = [blank; 64];
    for (v, row) in table[..n].iter_mut().enumerate() {
        *row = row_of(near, n, v);
    }
    table
}

// The row of agent a: of the vertex that it has in an array of starts or goals.
pub fn row_for(table: &[[u8; 64]], vertices: &[u8; 16], a: usize) -> [u8; 64]
    requires { (a < 16) × (get_or vertices.now a 0 < length table.now) }
    ensures { result ≡ get_or table.now (get_or vertices.now a 0) [] }
{
    let v = usize::from(vertices[a]);
    table[v]
}

// That of its goal; zeros where it is free.
pub fn goal_row(table: &[[u8; 64]], goals: &[u8; 16], a: usize) -> [u8; 64]
    requires { (a < 16) × GoalBelow (length table.now) (get_or goals.now a 0) }
    ensures { result ≡ goal_row table.now goals.now a }
{
    if goals::is_free(goals[a]) {
        return [0u8; 64];
    }
    row_for(table, goals, a)
}
