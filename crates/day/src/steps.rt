use drafts::step::{Entity, Step};
use plant::facts::PLANT;

/// The steps that build the small plant: what stands is added, and pairs are linked.
pub(crate) fn plant_steps() -> [Step<'static>; 22] {
    PLANT.map(|fact| {
        if fact.sort < 3 {
            Step::Add(Entity {
                kind: fact.sort,
                number: fact.x,
            })
        } else {
            Step::Link(fact)
        }
    })
}
