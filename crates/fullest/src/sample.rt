// The hoppers that the program watches.
use crate::reading::Reading;

pub const SAMPLE: [Reading; 7] = [
    // Slots 2 and 7 trade places at minute 50, when both hold 1,000 coins.
    Reading {
        slot: 2,
        fill: 500,
        rate: 10,
        capacity: 3_000,
    },
    Reading {
        slot: 7,
        fill: 800,
        rate: 4,
        capacity: 5_000,
    },
    // Level with slot 2 at minute 250.
    Reading {
        slot: 4,
        fill: 0,
        rate: 12,
        capacity: 2_000,
    },
    // As full as slot 7 throughout.
    Reading {
        slot: 9,
        fill: 800,
        rate: 4,
        capacity: 900,
    },
    // Drains.
    Reading {
        slot: 200,
        fill: 750,
        rate: -3,
        capacity: 1_000,
    },
    // Over its capacity.
    Reading {
        slot: 30,
        fill: 3_001,
        rate: 10,
        capacity: 3_000,
    },
    // In a slot that is filled.
    Reading {
        slot: 2,
        fill: 20,
        rate: 1,
        capacity: 100,
    },
];
