// The mirror of the sample, in which the dearer fee card comes first.
use super::sample;
use crate::tests::tables::{LAST, Table, UNTOUCHED, tells};
use family::Refusal;
use layers::Mirror;
use std::test::Fail;

// "Slot 0 is at or before slot 1" is here what "slot 1 is at or before slot 0" is below.
const MIRRORED: Table<'static> = Table {
    bound: 2,
    exchanges: &[
        // below they are 34 both, then 251 and 250
        (0, LAST, Some(34), Some(34)),
        (34, LAST, Some(250), Some(251)),
        (34, 250, Some(250), None),
        (250, LAST, None, Some(251)),
        (251, u32::MAX, None, None),
    ],
    orders: &[
        (0, 1, 33, true),
        (1, 0, 33, false),
        (0, 1, 34, false),
        (1, 0, 34, true),
        // level, and turned back
        (0, 1, 250, true),
        (1, 0, 250, true),
        (1, 0, 251, false),
        (0, 1, u32::MAX, true),
        // empty slots stay last
        (0, 9, 0, true),
        (9, 0, 0, false),
        (8, 9, 0, true),
    ],
    amounts: &[
        (0, 34, Some(-168)),
        (1, 0, Some(0)),
        (1, LAST, Some(-600)),
        (9, 0, None),
    ],
    runs: &[
        (0, 0, 3, Ok(()), [-100, -102, -104]),
        (1, 119, 3, Ok(()), [-595, -600, -600]),
        // a run that is refused turns no sign
        (0, 999_999, 3, Err(Refusal::PastEnd), UNTOUCHED),
        (9, 0, 3, Err(Refusal::SlotEmpty), UNTOUCHED),
    ],
};

#[test]
fn a_sample(rt: HostRuntime) -> Result<(), Fail> {
    tells(&rt, &Mirror(sample()?), MIRRORED);
    Ok(())
}
