// The counting tree's sizes, by recursion as the tree is, and where its outputs stand.
#![tactic(auto)]

ghost use Rattle.std.specs.Prelude.{◌≡◌, ◌+◌, ◌-◌, ◌/◌, ◌≤◌, min};

// Variables, clauses and words, as counts.
#[derive(Clone, Copy, Default)]
pub struct Counts {
    pub variables: usize,
    pub clauses: usize,
    pub words: usize,
}

// A ceiling on the cost.
#[derive(Clone, Copy)]
pub struct Ceiling {
    pub c: usize,
    pub ghost c_most: { c ≤ 128 },
}

// A tree with a ceiling: its inputs are the l variables after x.
#[derive(Clone, Copy)]
pub struct Subtree {
    pub ceiling: Ceiling,
    pub l: usize,
    pub x: usize,
    pub ghost l_least: { 1 ≤ l },
    pub ghost inputs_most: { x + l ≤ 40000 },
}

// A node with a ceiling, over a left tree of a outputs and a right one of b: output i of the left is the variable p + i, of the
// right q + i, and of the node o + i.
#[derive(Clone, Copy)]
pub struct Node {
    pub ceiling: Ceiling,
    pub a: usize,
    pub b: usize,
    pub p: usize,
    pub q: usize,
    pub o: usize,
}

impl Ceiling {
    ghost use Rattle.counting.specs.Over.{variables_over, clause_count_over, word_count_over, NodeAdds};

    // How many outputs a node over n inputs has: beyond c + 1 none is counted.
    pub fn outputs(self, n: usize) -> usize
        ensures { result ≡ min n (self.c + 1) }
    {
        n.min(self.c + 1)
    }

    // What the topmost node of a tree over l inputs adds to its two subtrees.
    fn node_size(self, l: usize) -> Counts
        requires { (2 ≤ l) × (l ≤ 512) }
        ensures { NodeAdds self.c l result }
    {
        let half = l / 2;
        let a = self.outputs(half);
        let b = self.outputs(l - half);
        Counts {
            variables: self.outputs(l),
            clauses: (a + 1) * (b + 1) - 1,
            words: 3 * (a + b) + 4 * (a * b),
        }
    }

    // The tree over l inputs. Equal halves are asked once.
    pub fn tree_size(self, l: usize) -> Counts
        requires { (1 ≤ l) × (l ≤ 512) }
        ensures { (result.variables ≡ variables_over self.c l) × (result.clauses ≡ clause_count_over self.c l) × (result.words ≡ word_count_over self.c l) }
    {
        if l < 2 {
            return Counts::default();
        }
        let half = l / 2;
        let left = self.tree_size(half);
        let right = if l % 2 == 0 {
            left
        } else {
            self.tree_size(l - half)
        };
        let own = self.node_size(l);
        Counts {
            variables: left.variables + right.variables + own.variables,
            clauses: left.clauses + right.clauses + own.clauses,
            words: left.words + right.words + own.words,
        }
    }
}

impl Subtree {
    ghost use Rattle.counting.specs.Over.{before_outputs, node_over};

    // Of two or more inputs, the left half, rounded down.
    pub fn left(self) -> Subtree
        requires { 2 ≤ self.l }
        ensures { (result.ceiling ≡ self.ceiling) × (result.l ≡ self.l / 2) × (result.x ≡ self.x) }
    {
        Subtree {
            ceiling: self.ceiling,
            l: self.l / 2,
            x: self.x,
        }
    }

    // And the rest.
    pub fn right(self) -> Subtree
        requires { 2 ≤ self.l }
        ensures { (result.ceiling ≡ self.ceiling) × (result.l ≡ self.l - self.l / 2) × (result.x ≡ self.x + self.l / 2) }
    {
        let half = self.l / 2;
        Subtree {
            ceiling: self.ceiling,
            l: self.l - half,
            x: self.x + half,
        }
    }

    #[tactic(auto, unfolding(crate::specs::Over::before_outputs))]
    // The variable before its outputs, where its own variables end at `next`.
    pub fn before_outputs(self, next: usize) -> usize
        requires { 2 ≤ self.l → min self.l (self.ceiling.c + 1) ≤ next }
        ensures { result ≡ before_outputs self.ceiling.c self.l self.x next }
    {
        if self.l < 2 {
            return self.x;
        }
        next - self.ceiling.outputs(self.l)
    }

    #[tactic(auto, unfolding(crate::specs::Over::node_over))]
    // Its topmost node, where the left subtree's variables end at u, and the right's at v.
    pub fn node(self, u: usize, v: usize) -> Node
        requires two { 2 ≤ self.l }
        requires ends { (2 ≤ self.l / 2 → min (self.l / 2) (self.ceiling.c + 1) ≤ u) × (2 ≤ self.l - self.l / 2 → min (self.l - self.l / 2) (self.ceiling.c + 1) ≤ v) }
        ensures { result ≡ node_over self.ceiling self.l self.x u v }
    {
        let left = self.left();
        let right = self.right();
        Node {
            ceiling: self.ceiling,
            a: self.ceiling.outputs(left.l),
            b: self.ceiling.outputs(right.l),
            p: left.before_outputs(u),
            q: right.before_outputs(v),
            o: v,
        }
    }
}
