use model::possible_fact::PossibleFact;

/// What a reading holds with one fact put in, or taken out.
#[derive(Drop)]
pub(crate) struct Placed<'a, R> {
    pub(crate) reading: &'a R,
    pub(crate) fact: PossibleFact,
    pub(crate) held: bool,
}
