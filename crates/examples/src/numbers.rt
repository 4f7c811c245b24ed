// What the tests compare of an answer: the fixed number of a refusal, since that is what the formats have.

use times::refusal::Refusal;

// The number of a refusal, or 0.
pub fn number<T: Drop>(answer: Result<T, Refusal>) -> u8 {
    answer.err().map_or(0, |refusal| refusal.number())
}

// A count or a length, or 1000 and the number of a refusal.
pub fn count(answer: Result<usize, Refusal>) -> usize {
    answer.unwrap_or_else(|refusal| 1000 + refusal.number() as usize)
}
