use model::fact::Fact;

/// The facts of the small plant.
pub const PLANT: [Fact; 22] = [
    Fact {
        sort: 0,
        x: 0,
        y: 0,
    },
    Fact {
        sort: 0,
        x: 1,
        y: 0,
    },
    Fact {
        sort: 0,
        x: 2,
        y: 0,
    },
    Fact {
        sort: 0,
        x: 3,
        y: 0,
    },
    Fact {
        sort: 1,
        x: 0,
        y: 0,
    },
    Fact {
        sort: 1,
        x: 1,
        y: 0,
    },
    Fact {
        sort: 1,
        x: 2,
        y: 0,
    },
    Fact {
        sort: 2,
        x: 0,
        y: 0,
    },
    Fact {
        sort: 2,
        x: 1,
        y: 0,
    },
    Fact {
        sort: 2,
        x: 2,
        y: 0,
    },
    Fact {
        sort: 3,
        x: 0,
        y: 1,
    },
    Fact {
        sort: 3,
        x: 1,
        y: 2,
    },
    Fact {
        sort: 3,
        x: 2,
        y: 1,
    },
    Fact {
        sort: 3,
        x: 3,
        y: 0,
    },
    Fact {
        sort: 4,
        x: 0,
        y: 1,
    },
    Fact {
        sort: 4,
        x: 1,
        y: 1,
    },
    Fact {
        sort: 4,
        x: 2,
        y: 2,
    },
    Fact {
        sort: 4,
        x: 3,
        y: 0,
    },
    Fact {
        sort: 5,
        x: 1,
        y: 0,
    },
    Fact {
        sort: 5,
        x: 2,
        y: 0,
    },
    Fact {
        sort: 6,
        x: 1,
        y: 0,
    },
    Fact {
        sort: 6,
        x: 2,
        y: 0,
    },
];
