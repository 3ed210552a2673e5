// The calls on a book of one kind of instrument, and the answers to them.
use instruments::refusal::Refusal;

#[derive(Clone, Copy)]
pub enum Call<K> {
    Enter(K),
    Withdraw(u8),
    Post(u8, i32),
    Strike(u8),
    Settle,
    Forward(u8),
    Factor(u8),
    Rate(u8),
    Reserve,
}

// The answer to a call: the figures of a question, none for a change, or why it is refused.
pub type Reply = Result<Option<(i64, i64)>, Refusal>;
