//! The way over a place forwards to an end.
ghost use Rattle.residual_net.specs.Network.{IsLeading, IsWithinLimits};
ghost use Rattle.residual_net.specs.Site.{IsOpenEnd, IsPlace};
ghost use Rattle.residual_net.specs.declared.place.Place.TheVariants.{Arc};

use crate::end::End;
use crate::grid::Grid;
use crate::place::{Place, Transit};

// What `leads` answers for an arc. Its head isn't made to be compared with the end, which is quicker.
fn arc_leads(grid: &Grid, arc: u32, moment: u16, end: End) -> Option<Transit>
    requires place { IsPlace grid.now.site (Arc arc moment) }
    requires within { IsWithinLimits grid.now }
    requires open { IsOpenEnd grid.now.site end }
    ensures { IsLeading grid.now (Arc arc moment) end result }
{
    let ends = grid.shape().ends()[arc as usize];
    let arrival = grid.arrives(arc, moment);
    let is_head = match end {
        End::Pair { node, moment } => ends.to == node && arrival == moment,
        End::Door(moment) => arrival == moment && grid.is_exit(ends.to),
        End::Source => false,
    };
    if !is_head {
        return None;
    }
    let cell = grid.get(Place::Arc { arc, moment });
    if cell.flow == cell.limit {
        return None;
    }
    let node = ends.from;
    Some(Transit {
        start: End::Pair { node, moment },
        stop: end,
        room: cell.limit - cell.flow,
    })
}

/// Where a step forwards over a place starts that stops at an end, and how many may go over it.
///
/// None where the place isn't one of the network's, leads elsewhere or has no room.
pub fn leads(grid: &Grid, place: Place, end: End) -> Option<Transit>
    requires within { IsWithinLimits grid.now }
    requires open { IsOpenEnd grid.now.site end }
    ensures { IsLeading grid.now place end result }
{
    if !grid.has(place) {
        return None;
    }
    match place {
        Place::Arc { arc, moment } => arc_leads(grid, arc, moment, end),
        Place::Hold { .. } | Place::Supply { .. } => {
            if grid.head(place) != end {
                return None;
            }
            let cell = grid.get(place);
            if cell.flow == cell.limit {
                return None;
            }
            Some(Transit {
                start: grid.tail(place),
                stop: end,
                room: cell.limit - cell.flow,
            })
        }
    }
}
