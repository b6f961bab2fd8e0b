// Put, lift and card of fee cards through the adapter.
use super::{C, D};
use crate::tests::made::{Made, adapted};
use crate::tests::tables::kept;
use std::test::Fail;

#[test]
fn put_and_lifted(rt: HostRuntime) -> Result<(), Fail> {
    kept(&rt, &mut adapted(C, D)?, C.card()?, D.card()?, D.card()?);
    Ok(())
}
