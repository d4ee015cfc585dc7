// Which agents have a goal: how many do, and which of them stands at a place among those that do.
#![tactic(auto)]

ghost use Rattle.std.specs.Prelude.{◌≡◌, ◌≤◌, ◌<◌, get_or};
ghost use Rattle.instance.specs.Instance.{free, HasGoal, goal_count};

// Is an agent with this goal byte free?
pub fn is_free(goal: u8) -> bool
    ensures { result ≡ free goal }
{
    goal == 255
}

// How many of the first k agents have a goal.
pub fn count(goals: &[u8; 16], k: usize) -> usize
    requires { k ≤ 16 }
    ensures { (result ≡ goal_count k (λ a. get_or goals.now a 0)) × (result ≤ k) }
{
    (0..k).filter(|a| !is_free(goals[*a])).count()
}

// The agent at a place among those of the first k that have a goal.
pub fn agent_at(goals: &[u8; 16], k: usize, place: usize) -> usize
    requires { (k ≤ 16) × (place < goal_count k (λ a. get_or goals.now a 0)) }
    ensures { (result < k) × HasGoal (get_or goals.now result 0) × (goal_count result (λ a. get_or goals.now a 0) ≡ place) }
{
    let Some(a) = (0..k).filter(|a| !is_free(goals[*a])).nth(place) else {
        unreachable!()
    };
    a
}
