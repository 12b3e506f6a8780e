// What a book is opened for: a kind of quote and a sharing rule. It is a type and has no value.
use terms::quote::Quote;
use terms::sharing::SharingRule;

pub trait Sale: Drop {
    type Quote: Quote;

    type Rule: SharingRule;
}

// A kind and a rule together.
impl<Q: Quote, R: SharingRule + Drop> Sale for (Q, R) {
    type Quote = Q;

    type Rule = R;
}
