// The litmus tests of the field.
ghost use Rattle.std.specs.Prelude.{◌≡◌, map, All};
ghost use Rattle.litmus.specs.Table.{Holds, row_of, table};

use crate::event::{Event, LitmusTest};

const TESTS: [LitmusTest; 12] = [
    LitmusTest {
        name: "store buffering",
        events: &[
            Event::Store(0, 0, 1),
            Event::Load(0, 1, 0),
            Event::Store(1, 1, 2),
            Event::Load(1, 0, 0),
        ],
        sc: false,
        tso: true,
        pso: true,
        rmo: true,
    },
    LitmusTest {
        name: "message passing",
        events: &[
            Event::Store(0, 0, 1),
            Event::Store(0, 1, 2),
            Event::Load(1, 1, 2),
            Event::Load(1, 0, 0),
        ],
        sc: false,
        tso: false,
        pso: true,
        rmo: true,
    },
    LitmusTest {
        name: "message passing with a sync between the stores",
        events: &[
            Event::Store(0, 0, 1),
            Event::Sync(0),
            Event::Store(0, 1, 2),
            Event::Load(1, 1, 2),
            Event::Load(1, 0, 0),
        ],
        sc: false,
        tso: false,
        pso: false,
        rmo: true,
    },
    LitmusTest {
        name: "message passing with syncs",
        events: &[
            Event::Store(0, 0, 1),
            Event::Sync(0),
            Event::Store(0, 1, 2),
            Event::Load(1, 1, 2),
            Event::Sync(1),
            Event::Load(1, 0, 0),
        ],
        sc: false,
        tso: false,
        pso: false,
        rmo: false,
    },
    LitmusTest {
        name: "load buffering",
        events: &[
            Event::Load(0, 0, 1),
            Event::Store(0, 1, 2),
            Event::Load(1, 1, 2),
            Event::Store(1, 0, 1),
        ],
        sc: false,
        tso: false,
        pso: false,
        rmo: true,
    },
    LitmusTest {
        name: "coherence, read then write",
        events: &[Event::Load(0, 0, 1), Event::Store(0, 0, 1)],
        sc: false,
        tso: false,
        pso: false,
        rmo: false,
    },
    LitmusTest {
        name: "coherence, write then read",
        events: &[Event::Store(0, 0, 1), Event::Load(0, 0, 0)],
        sc: false,
        tso: false,
        pso: false,
        rmo: false,
    },
    LitmusTest {
        name: "coherence of reads",
        events: &[
            Event::Store(0, 0, 1),
            Event::Load(1, 0, 1),
            Event::Load(1, 0, 0),
        ],
        sc: false,
        tso: false,
        pso: false,
        rmo: true,
    },
    LitmusTest {
        name: "two swaps",
        events: &[Event::Swap(0, 0, 0, 1), Event::Swap(1, 0, 0, 2)],
        sc: false,
        tso: false,
        pso: false,
        rmo: false,
    },
    LitmusTest {
        name: "a store of the initial value",
        events: &[Event::Store(0, 0, 0), Event::Load(1, 0, 0)],
        sc: true,
        tso: true,
        pso: true,
        rmo: true,
    },
    LitmusTest {
        name: "message passing by a swap",
        events: &[
            Event::Store(0, 0, 1),
            Event::Swap(0, 1, 0, 1),
            Event::Load(1, 1, 1),
            Event::Load(1, 0, 0),
        ],
        sc: false,
        tso: false,
        pso: true,
        rmo: true,
    },
    LitmusTest {
        name: "coherence, two writes then read",
        events: &[
            Event::Store(0, 0, 1),
            Event::Store(0, 0, 2),
            Event::Load(0, 0, 1),
        ],
        sc: false,
        tso: false,
        pso: false,
        rmo: false,
    },
];

// The litmus tests, each with the right verdict of each model.
pub fn litmus_tests() -> &'static [LitmusTest]
    ensures table { map row_of result.now ≡ table }
    ensures right { All Holds (map row_of result.now) }
{
    &TESTS
}
