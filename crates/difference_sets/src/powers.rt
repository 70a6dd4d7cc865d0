// The powers that are difference families: cyclotomic classes, with 0 or without it, of the fields within the limits.

// The q, e, z and l of a family over the field of q elements: its base block holds the powers of g ^ e, where g is the least
// generator, and 0 too where z is 1; each element but 0 is the difference of l pairs.
#[derive(Clone, Copy)]
pub struct PowerRow {
    pub q: u16,
    pub e: u16,
    pub z: u16,
    pub l: u16,
}

// All of them within the limits where e is 2, 4 or 8. This is the one table of them.
pub const POWER_ROWS: [PowerRow; 14] = [
    PowerRow {
        q: 3,
        e: 2,
        z: 1,
        l: 1,
    },
    PowerRow {
        q: 7,
        e: 2,
        z: 0,
        l: 1,
    },
    PowerRow {
        q: 7,
        e: 2,
        z: 1,
        l: 2,
    },
    PowerRow {
        q: 11,
        e: 2,
        z: 0,
        l: 2,
    },
    PowerRow {
        q: 11,
        e: 2,
        z: 1,
        l: 3,
    },
    PowerRow {
        q: 13,
        e: 4,
        z: 1,
        l: 1,
    },
    PowerRow {
        q: 19,
        e: 2,
        z: 0,
        l: 4,
    },
    PowerRow {
        q: 19,
        e: 2,
        z: 1,
        l: 5,
    },
    PowerRow {
        q: 23,
        e: 2,
        z: 0,
        l: 5,
    },
    PowerRow {
        q: 23,
        e: 2,
        z: 1,
        l: 6,
    },
    PowerRow {
        q: 27,
        e: 2,
        z: 0,
        l: 6,
    },
    PowerRow {
        q: 37,
        e: 4,
        z: 0,
        l: 2,
    },
    PowerRow {
        q: 73,
        e: 8,
        z: 0,
        l: 1,
    },
    PowerRow {
        q: 101,
        e: 4,
        z: 0,
        l: 6,
    },
];
