// What a call on a value hands back: the value that follows it, and its answer.
#![tactic(auto)]

// Where a call on a state is refused, the state is the one that it was given.
#[derive(Clone, Copy)]
pub struct After<S, A> {
    pub state: S,
    pub answer: A,
}
