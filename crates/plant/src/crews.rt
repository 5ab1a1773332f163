use drafts::step::{Join, Split, Step};

/// The early crew, unit 1, and the late crew, unit 2, become unit 3.
pub const CREWS_JOIN: Step<'static> = Step::Join(Join {
    kind: 2,
    first: 1,
    second: 2,
    into: 3,
});

/// Unit 3 becomes the two crews again: actors 0 and 1 go back to the early crew, actor 2 to the late one.
pub const CREWS_PART: Step<'static> = Step::Split(Split {
    kind: 2,
    whole: 3,
    part1: 1,
    part2: 2,
    actors1: 0b011,
    actors2: 0b100,
    below1: 0,
    below2: 0,
});
