//! What holds of each script, whatever its lines.
ghost use Rattle.std.specs.Prelude.{◌≡◌, ℕ, ◌+◌, List, ◌∷◌, ◌++◌, length, nat_le, filter, IfSome};
ghost use Rattle.dq_replay.specs.Script.{State, first_state, outcome_from, after_answer};
ghost use Rattle.dq_replay.specs.Order.{IsOrdered, IsInOrder, after_lines};

/// In each state that a script reaches, the live names are distinct, and in order by deadline and then by name. So
/// the names that a tick expires come in that order.
pub fn live_names_are_in_order()
    ensures reached { (capacity : ℕ) (lines : List (List ℕ))
        → IfSome (after_lines 1 (first_state capacity) lines) (λ after. IsOrdered after.0) }
    // Those are the states from which the script's meaning goes on behind so many lines.
    ensures meant { (capacity : ℕ) (lines more : List (List ℕ)) (next : List ℕ)
        → IfSome (after_lines 1 (first_state capacity) lines)
        (λ after. outcome_from 1 (first_state capacity) (lines ++ next ∷ more)
        ≡ after_answer after.1 (outcome_from (1 + length lines) after.0 (next ∷ more))) }
    ensures expired { (s : State) (now : ℕ) → IsOrdered s
        → IsInOrder (filter (λ e. nat_le e.deadline now) s.live) }
{}
