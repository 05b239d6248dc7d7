//! What lists of a net and of a model lend and give back.
use evac_law::Rows;
use residual_net::{Path, PathStep, Place};
use std::alloc::AllocError;

#[test]
fn a_path_has_room_for_its_steps(rt: HostRuntime) -> Result<(), AllocError> {
    let mut path = Path::new(rt.alloc(), 1)?;
    assert!(rt; path.spare() == 1);
    path.add(PathStep {
        place: Place::Arc { arc: 3, moment: 2 },
        back: true,
    });
    assert!(rt; path.spare() == 0 && path.steps().len() == 1);
    path.clear();
    assert!(rt; path.spare() == 1 && path.steps().is_empty());
    Ok(())
}

#[test]
fn rows_give_their_list_back(rt: HostRuntime) -> Result<(), AllocError> {
    let rows = Rows::new(vec![in rt.alloc(); 5u32; 3]?);
    assert!(rt; rows.into_vec().as_slice() == [5u32, 5, 5].as_slice());
    Ok(())
}
